// A door of the system.
ghost use Rattle.std.specs.Prelude.{◌≡◌, ◌≤◌};
ghost use Rattle.io_edge.specs.Causes.{Rose};
ghost use Rattle.tcp_door.specs.Patience.{patience_of};

use crate::stream::{TcpSink, TcpSource};
use io_edge::{Accepted, Door, Failed, Protocol};
use std::alloc::Global;
use std::io::{self, ErrorKind};
use std::mem;
use std::net::{Net, Shutdown, TcpListener, TcpStream};
use std::sync::Arc;
use std::time::{Clock, Duration};

/// How long a door rests before it says that nobody is there, or that it failed, in milliseconds.
const REST: u64 = 5;

/// How many connections that were broken off before they were accepted a call passes over.
const PASSED: u32 = 64;

/// How long a read or a write of a connection may wait, in seconds: 300 for SMTP (RFC 5321 section 4.5.3.2.7) and 600 for POP3
/// (RFC 1939 section 3).
pub fn patience(protocol: Protocol) -> u64
    ensures { result ≡ patience_of protocol }
{
    match protocol {
        Protocol::Smtp => 300,
        Protocol::Pop => 600,
    }
}

/// What the system answers a door.
enum Came {
    /// A connection.
    Stream(TcpStream),
    /// Nobody is there.
    Nobody,
    /// A connection was broken off before it was accepted.
    BrokenOff,
    /// Something else.
    Fault,
}

/// A door at a port of 127.0.0.1. It does not block.
#[derive(Drop)]
pub struct TcpDoor<'a, R> {
    system: &'a R,
    alloc: Global,
    listener: TcpListener,
    patience: Duration,
    // Connections that it gave, among them all that are still open.
    given: Vec<Arc<TcpStream>>,
    // How many it may remember before it looks which of them have ended.
    most: usize,
    quiets: u64,
    faults: u64,
}

// Sets what a connection needs: its calls block, but not longer than this, and what is written goes out at once.
fn set(stream: &TcpStream, patience: Duration) -> io::Result<()> {
    stream.set_nonblocking(false)?;
    stream.set_nodelay(true)?;
    stream.set_read_timeout(Some(patience))?;
    stream.set_write_timeout(Some(patience))
}

// The connections that are still open.
fn still_open(alloc: Global, given: Vec<Arc<TcpStream>>) -> Vec<Arc<TcpStream>> {
    let mut kept = Vec::new(alloc);
    for stream in given {
        if Arc::strong_count(&stream) > 1 {
            let _ = kept.push(stream);
        }
    }
    kept
}

impl<'a, R: Net<Listener = TcpListener, Stream = TcpStream> + Clock> TcpDoor<'a, R> {
    /// Opens a door at this port, for this protocol. The system may refuse it, as where another program has the port.
    pub fn open(
        system: &'a R,
        alloc: Global,
        protocol: Protocol,
        port: u16,
    ) -> io::Result<TcpDoor<'a, R>> {
        let listener = TcpListener::bind(system, ("127.0.0.1", port))?;
        listener.set_nonblocking(true)?;
        Ok(TcpDoor {
            system,
            alloc,
            listener,
            patience: Duration::from_secs(patience(protocol)),
            given: Vec::new(alloc),
            most: 64,
            quiets: 0,
            faults: 0,
        })
    }

    /// Closes the door, and ends what comes in by the connections that it gave and that are still open.
    pub fn shut(self) {
        for stream in self.given {
            // It may have ended already.
            let _ = stream.shutdown(Shutdown::Read);
        }
    }

    // Asks the system once.
    fn ask(&self) -> Came {
        match self.listener.accept() {
            Ok((stream, _)) => match set(&stream, self.patience) {
                Ok(()) => Came::Stream(stream),
                Err(_) => Came::BrokenOff,
            },
            Err(fault) => match fault.kind() {
                ErrorKind::WouldBlock => Came::Nobody,
                ErrorKind::ConnectionAborted | ErrorKind::Interrupted => Came::BrokenOff,
                _ => Came::Fault,
            },
        }
    }

    // Asks the system, and passes over connections that were broken off.
    fn look(&self) -> Came {
        for _ in 0..PASSED {
            match self.ask() {
                Came::BrokenOff => {}
                came => return came,
            }
        }
        Came::BrokenOff
    }

    // Gives the two ends of a connection, and remembers it.
    fn admit(&mut self, stream: TcpStream) -> Option<(TcpSource, TcpSink)>
        ensures quiets { self.new.quiets ≡ self.old.quiets }
        ensures faults { self.new.faults ≡ self.old.faults }
    {
        let stream = Arc::new(self.alloc, stream).ok()?;
        let source = TcpSource::new(Arc::try_clone(&stream).ok()?);
        let sink = TcpSink::new(Arc::try_clone(&stream).ok()?);
        if self.given.len() >= self.most {
            let given = mem::replace(&mut self.given, Vec::new(self.alloc));
            self.given = still_open(self.alloc, given);
            self.most = self.given.len().saturating_mul(2).max(64);
        }
        self.given.push(stream).ok()?;
        Some((source, sink))
    }

    // Rests, and counts a fault: where the system has no descriptor left, say, whoever asks again at once would ask in vain.
    fn fault(&mut self) -> Failed
        ensures later { self.old.faults ≤ self.new.faults }
        ensures rose { Rose self.old.faults self.new.faults }
        ensures quiets { self.new.quiets ≡ self.old.quiets }
    {
        self.system.sleep(Duration::from_millis(REST));
        self.faults = self.faults.saturating_add(1);
        Failed
    }

    // Rests, and counts a call that found nobody.
    fn rest(&mut self)
        ensures later { self.old.quiets ≤ self.new.quiets }
        ensures rose { Rose self.old.quiets self.new.quiets }
        ensures faults { self.new.faults ≡ self.old.faults }
    {
        self.system.sleep(Duration::from_millis(REST));
        self.quiets = self.quiets.saturating_add(1);
    }
}

impl<'a, R: Net<Listener = TcpListener, Stream = TcpStream> + Clock + Sync> Door
    for TcpDoor<'a, R> {
    ghost use Rattle.std.specs.Prelude.{None};

    type In = TcpSource;

    type Out = TcpSink;

    ghost left = { λ _. None };

    ghost quiets = { λ d. d.quiets };

    ghost faults = { λ d. d.faults };

    fn accept(&mut self) -> Result<Accepted<TcpSource, TcpSink>, Failed> {
        match self.look() {
            Came::Stream(stream) => match self.admit(stream) {
                Some((source, sink)) => Ok(Accepted::Conn(source, sink)),
                None => Err(self.fault()),
            },
            Came::Nobody | Came::BrokenOff => {
                self.rest();
                Ok(Accepted::Quiet)
            }
            Came::Fault => Err(self.fault()),
        }
    }
}
