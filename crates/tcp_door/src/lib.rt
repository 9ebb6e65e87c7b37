//! tcp_door: the doors of the system.
//!
//! SUMMARY
//!
//! A `TcpDoor` is a door at a port of 127.0.0.1, and so of this machine alone. `TcpSource` and `TcpSink` are the two ends of a
//! connection that came in by it.
//!
//! DESCRIPTION
//!
//! The door does not block: where nobody is there it rests for 5 milliseconds and says that it is quiet. A connection that was
//! broken off before it was accepted is passed over within the call. A read or a write that waits longer than 5 minutes for
//! SMTP, and 10 for POP3, is a fault of that connection (RFC 5321 section 4.5.3.2.7, RFC 1939 section 3). What is written goes
//! out at once, without waiting for more.
//!
//! `shut` closes the door, and ends what comes in by the connections that are still open: what was received before is still
//! read, and replies are still written. So a service can end though clients are idle.
//!
//! DIAGNOSTICS
//!
//! A call of `accept` fails, and the door's count rises, where the system answers anything else than a connection, that nobody
//! is there, or that a connection was broken off; and where there is no memory for a connection.
//!
//! STANDS ON
//!
//! `io_edge` for doors, and std for sockets.
//!
//! WHAT IT DOES NOT DO
//!
//! What a socket gives or takes is told by no clause: this crate is part of the trusted edge. There is no TLS.
#![tactic(auto)]

mod door;
mod stream;

pub use door::{TcpDoor, patience};
pub use stream::{TcpSink, TcpSource};
