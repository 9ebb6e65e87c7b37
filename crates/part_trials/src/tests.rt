//! Tests of the parts of a node, a file for each crate.
mod assignments;
mod disks;
mod journals;
mod locks;
mod log;
mod mailboxes;
mod marks;
mod messages;
mod objects;
mod pushes;
mod records;
mod rounds;
mod rows;
mod yards;
