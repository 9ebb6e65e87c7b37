//! Tests of logins and fetches.
mod answers;
mod cluster;
mod fetches;
mod judging;
mod logins;
mod messages;
