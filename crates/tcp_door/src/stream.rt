// The two ends of a connection of the system.
use io_edge::{Failed, Sink, Source};
use std::io::{Read, Write};
use std::net::{Shutdown, TcpStream};
use std::sync::Arc;

/// What comes in by a connection of the system. What a client will send is not told.
#[derive(Drop)]
pub struct TcpSource {
    stream: Arc<TcpStream>,
    faults: u64,
}

impl TcpSource {
    pub(crate) fn new(stream: Arc<TcpStream>) -> TcpSource {
        TcpSource { stream, faults: 0 }
    }
}

impl Source for TcpSource {
    ghost use Rattle.std.specs.Prelude.{None};

    ghost left = { λ _. None };

    ghost faults = { λ s. s.faults };

    fn read(&mut self, into: &mut [u8]) -> Result<usize, Failed> {
        let mut stream: &TcpStream = &self.stream;
        match stream.read(into) {
            Ok(count) => Ok(count),
            Err(_) => {
                self.faults = self.faults.saturating_add(1);
                Err(Failed)
            }
        }
    }
}

/// What goes out by a connection of the system. What reached the client is not told. Where it is dropped, the client is told that
/// nothing more will come.
pub struct TcpSink {
    stream: Arc<TcpStream>,
    faults: u64,
}

impl TcpSink {
    pub(crate) fn new(stream: Arc<TcpStream>) -> TcpSink {
        TcpSink { stream, faults: 0 }
    }
}

impl Drop for TcpSink {
    fn drop(self) {
        let TcpSink { stream, faults: _ } = self;
        // The stream may have ended already.
        let _ = stream.shutdown(Shutdown::Write);
    }
}

impl Sink for TcpSink {
    ghost use Rattle.std.specs.Prelude.{None};

    ghost contents = { λ _. None };

    ghost faults = { λ s. s.faults };

    fn write(&mut self, piece: &[u8]) -> Result<usize, Failed> {
        let mut stream: &TcpStream = &self.stream;
        match stream.write(piece) {
            Ok(0) => {
                self.faults = self.faults.saturating_add(1);
                Ok(0)
            }
            Ok(count) => Ok(count),
            Err(_) => {
                self.faults = self.faults.saturating_add(1);
                Err(Failed)
            }
        }
    }
}
