//! Wrappers of which one chosen call fails, for tests of the crates above. After it they go on
//! working as what they wrap does.
mod countdown;
mod door;
mod streams;
mod yard;

pub use countdown::Countdown;
pub use door::FaultyDoor;
pub use streams::{FaultySink, FaultySource, ShortSink};
pub use yard::FaultyYard;
