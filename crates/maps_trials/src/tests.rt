//! Tests of membership and mail maps.
mod cluster;
mod rounds;
mod rows;
