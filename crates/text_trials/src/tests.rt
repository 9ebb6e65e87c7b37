//! Tests of words, lines and texts, a file for each crate.
mod beside;
mod dots;
mod edge;
mod parts;
mod plain;
mod pop;
mod pop_replies;
mod smtp;
mod smtp_replies;
mod tape;
mod words;
