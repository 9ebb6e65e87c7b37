// The yard of the running program.
ghost use Rattle.std.specs.Prelude.{◌≡◌, [], All};
ghost use Rattle.real_yard.specs.Fresh.{IsFresh};

use crate::backing::Backing;
use io_edge::{CarryAll, OpenGate, Protocol, SystemClock, Yard, YardRefusal};
use std::alloc::Global;
use std::io::ErrorKind;
use std::net::{Net, TcpListener, TcpStream};
use std::rt::Files;
use std::snapshot::Snapshot;
use std::time::Clock;
use std::{fs, io};
use tcp_door::TcpDoor;

/// A yard that hands out the stores of a backing and doors of the system, drops the stores that it gets back and shuts the doors, and
/// reads the files of the system. Its fates carry each letter, its clocks show the time of the system, and its gates hold nobody. It
/// keeps a memory of each store and each door for clauses alone. What a file of the system holds is not told.
///
/// It says on standard error which doors it opened, why one was not, and why a file could not be read. That this could not be said
/// changes nothing.
#[derive(Drop)]
pub struct RealYard<'a, R, P: Backing> {
    system: &'a R,
    alloc: Global,
    /// Where the stores are.
    pub backing: P,
    /// For which shard and node a store was handed out, and the store as it was then.
    pub handed: Vec<(u16, u8, Snapshot<P::Store>)>,
    /// For which shard and node a store was given back, and the store as it was then.
    pub returned: Vec<(u16, u8, Snapshot<P::Store>)>,
    /// Whether there was no memory to note a store that was given back.
    pub lost: bool,
    /// How often a file could not be read.
    pub unread: u64,
    /// For which node and protocol a door was handed out, and the door as it was then.
    pub opened: Vec<(u8, Protocol, Snapshot<TcpDoor<'a, R>>)>,
    /// For which node and protocol a door was given back, and the door as it was then.
    pub closed: Vec<(u8, Protocol, Snapshot<TcpDoor<'a, R>>)>,
    /// Whether there was no memory to note a door that was given back.
    pub lost_door: bool,
    /// How often a door could not be opened.
    pub unopened: u64,
    /// Each store was empty as it was handed out, where it tells what it holds.
    ghost fresh: { All (IsFresh P.Store.seen) handed.items },
}

// What is spoken at a door, as standard error has it.
fn name_of(protocol: Protocol) -> &'static str {
    match protocol {
        Protocol::Smtp => "SMTP",
        Protocol::Pop => "POP3",
    }
}

// Says that the door was opened.
fn tell_door<R: Eprint>(system: &R, node: u8, protocol: Protocol, port: u16) {
    let name = name_of(protocol);
    let _ = eprintln!(system; "porcupine: node {node} has its door for {name} at 127.0.0.1:{port}");
}

// Says why it was not.
fn tell_no_door<R: Eprint>(system: &R, node: u8, protocol: Protocol, port: u16, fault: &io::Error) {
    let name = name_of(protocol);
    let _ = eprintln!(system;
        "porcupine: node {node} has no door for {name}: 127.0.0.1:{port}: {fault}"
    );
}

// Says why a file could not be read.
fn tell_unread<R: Eprint>(system: &R, name: &str, fault: &io::Error) {
    let _ = eprintln!(system; "porcupine: {name} could not be read: {fault}");
}

impl<
    'a,
    R: Files
        + AllocGlobal
        + Eprint
        + Net<Listener = TcpListener, Stream = TcpStream>
        + Clock
        + Sync,
    P: Backing,
> RealYard<'a, R, P> {
    ghost use Rattle.std.specs.Prelude.{false};

    /// A yard whose stores are of this backing, and which opens the ports and reads the files of this system.
    pub fn new(system: &'a R, backing: P) -> RealYard<'a, R, P>
        ensures handed { result.handed.items ≡ [] }
        ensures returned { result.returned.items ≡ [] }
        ensures lost { result.lost ≡ false }
        ensures opened { result.opened.items ≡ [] }
        ensures closed { result.closed.items ≡ [] }
        ensures lost_door { result.lost_door ≡ false }
    {
        let alloc = system.alloc();
        RealYard {
            system,
            alloc,
            backing,
            handed: Vec::new(alloc),
            returned: Vec::new(alloc),
            lost: false,
            unread: 0,
            opened: Vec::new(alloc),
            closed: Vec::new(alloc),
            lost_door: false,
            unopened: 0,
        }
    }
}

impl<
    'a,
    R: Files
        + AllocGlobal
        + Eprint
        + Net<Listener = TcpListener, Stream = TcpStream>
        + Clock
        + Sync,
    P: Backing,
> Yard for RealYard<'a, R, P> {
    ghost use Rattle.std.specs.Prelude.{Some, None, map};
    ghost use Rattle.io_edge.specs.Yards.{remembered, unless};

    type Store = P::Store;

    type Door = TcpDoor<'a, R>;

    type Fate = CarryAll;

    type Clock = SystemClock<'a, R>;

    type Gate = OpenGate;

    ghost handed = { λ y. Some (map remembered y.handed.items) };

    ghost returned = { λ y. unless y.lost (map remembered y.returned.items) };

    ghost opened = { λ y. Some (map remembered y.opened.items) };

    ghost closed = { λ y. unless y.lost_door (map remembered y.closed.items) };

    ghost files = { λ _ _. None };

    ghost faults = { λ y. P.faults y.backing };

    ghost unread = { λ y. y.unread };

    ghost unopened = { λ y. y.unopened };

    fn store(&mut self, shard: u16, node: u8, folder: &str) -> Result<P::Store, YardRefusal> {
        let Ok(()) = self.handed.reserve(1) else {
            return Err(YardRefusal::NoMemory);
        };
        match self.backing.take(shard, node, folder) {
            Ok(store) => {
                let memory = Snapshot::of(&store);
                self.handed.push((shard, node, memory)).unwrap();
                Ok(store)
            }
            Err(refusal) => Err(refusal),
        }
    }

    fn give_back(&mut self, shard: u16, node: u8, store: P::Store) {
        let memory = Snapshot::of(&store);
        match self.returned.push((shard, node, memory)) {
            Ok(()) => {}
            Err(_) => self.lost = true,
        }
    }

    fn file(&mut self, name: &str) -> Result<Vec<u8>, YardRefusal> {
        match fs::read(self.system, name) {
            Ok(octets) => Ok(octets),
            Err(fault) => {
                tell_unread(self.system, name, &fault);
                match fault.kind() {
                    ErrorKind::OutOfMemory => Err(YardRefusal::NoMemory),
                    _ => {
                        self.unread = self.unread.saturating_add(1);
                        Err(YardRefusal::Failed)
                    }
                }
            }
        }
    }

    fn door(
        &mut self,
        node: u8,
        protocol: Protocol,
        port: u16,
    ) -> Result<TcpDoor<'a, R>, YardRefusal> {
        let Ok(()) = self.opened.reserve(1) else {
            return Err(YardRefusal::NoMemory);
        };
        match TcpDoor::open(self.system, self.alloc, protocol, port) {
            Ok(door) => {
                let memory = Snapshot::of(&door);
                self.opened.push((node, protocol, memory)).unwrap();
                tell_door(self.system, node, protocol, port);
                Ok(door)
            }
            Err(fault) => {
                tell_no_door(self.system, node, protocol, port, &fault);
                self.unopened = self.unopened.saturating_add(1);
                Err(YardRefusal::Failed)
            }
        }
    }

    fn shut(&mut self, node: u8, protocol: Protocol, door: TcpDoor<'a, R>) {
        let memory = Snapshot::of(&door);
        match self.closed.push((node, protocol, memory)) {
            Ok(()) => {}
            Err(_) => self.lost_door = true,
        }
        door.shut();
    }

    fn fate(&mut self) -> CarryAll {
        CarryAll
    }

    fn clock(&mut self) -> SystemClock<'a, R> {
        SystemClock::new(self.system)
    }

    fn gate(&mut self) -> OpenGate {
        OpenGate
    }
}
