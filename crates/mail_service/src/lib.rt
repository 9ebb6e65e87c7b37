//! mail_service: connections come in by doors, and threads serve them.
//!
//! SUMMARY
//!
//! A service has doors, threads that serve connections, one that carries letters, and a console. What serves a connection is a
//! `Backend`; this crate knows nothing of mail.
//!
//! DESCRIPTION
//!
//! - `backend`: what the threads serve by, each in the name of a pass of its own. A pass is split for each thread, and the passes
//!   are joined again as the threads end, so that whoever had the pass has it again, with its whole quota.
//! - `doors`: `attend_all` calls each door in a thread of its own. Each connection gets the next number, from one word that all
//!   doors share, and goes to the threads that serve by a channel. A door ends at a call that found nobody once the service is to
//!   end, and a door that has found nobody before that takes no more connections.
//! - `workers`: `serve_all` serves connections by so many threads until no door can hand one on. One more thread carries letters
//!   until all connections were served and there is nothing to carry.
//! - `console`: `listen` reads lines until `stop`, has each obeyed, and writes what is said of it. A line of more than 65,535
//!   octets without its LF is passed over, and answered `! line N BadLine`. One CR at the end of a line is dropped.
//! - `yards`: `open_doors` takes the doors from a yard, and `shut_all` gives them back.
//! - `service`: `run_service` does all of it, from beginning to end: opens a door at each port, calls them, serves, carries and
//!   listens side by side, and ends in order once the console has ended. Where no thread can be made, one does its work after
//!   another: the console first, then the doors, then those who serve, and the courier last.
//!
//! DIAGNOSTICS
//!
//! `DoorEnd::Quiet` is said only where each door has found nobody while it was out: its number of quiet calls rose, and where it
//! tells which connections are left, none is. `Failed` is said only where the count of some door rose. A door that was handed out
//! is given back however a service ends.
//!
//! `ConsoleEnd::Stopped` is said only at a whole line `stop`, `Early` only where the source has ended and no line was `stop`, with
//! the number of the line that was not whole, or of the next. `ReadFault` and `WriteFault` come only where the count of the source
//! or the sink rose.
//!
//! COSTS
//!
//! A thread for each door and for each that serves; a thread that waits takes no time. A connection waits in a channel that grows.
//!
//! STANDS ON
//!
//! `io_edge` for doors, sources and sinks, `mail_model` for lines, `yard_stores` for what a yard tells, and `crossbeam_channel`.
//!
//! WHAT IT DOES NOT DO
//!
//! That a connection is served, that a thread gets on, and that a service ends are not said. A door that fails is called again.
#![tactic(auto)]

mod backend;
mod console;
mod doors;
mod service;
mod workers;
mod yards;

pub use backend::{Backend, Line};
pub use console::{ConsoleEnd, listen};
pub use doors::{Conn, DoorEnd, Entrance, Watch, attend_all};
pub use service::{ServiceEnd, open_service, run_service, serve_open};
pub use workers::{serve_all, work_all};
pub use yards::{Port, open_doors, shut_all};
