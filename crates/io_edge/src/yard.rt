// A yard hands out the stores and doors of the nodes, takes them back, and reads files.
ghost use Rattle.std.specs.Prelude.{◌≡◌, ◌≤◌, List, ℕ, Option, IfSome, IfOk, IsErrOf};
ghost use Rattle.io_edge.specs.Causes.{Rose};
ghost use Rattle.io_edge.specs.Yards.{TellsOneMore, HandsOut};
ghost use Rattle.io_edge.specs.declared.yard.Protocol.{Protocol as AProtocol};

use crate::{Clock, Disk, Door, Fate, Gate};

/// Which protocol is spoken at a door.
#[derive(Clone, Copy, Debug, PartialEq, Eq)]
pub enum Protocol {
    /// RFC 5321.
    Smtp,
    /// RFC 1939.
    Pop,
}

/// Why a yard handed out no store or no door, or gave no octets of a file.
#[derive(Clone, Copy, Debug, PartialEq, Eq)]
pub enum YardRefusal {
    /// The outside failed, and the yard's count of such faults rose.
    Failed,
    /// Memory was lacking.
    NoMemory,
}

/// Makes the stores and the doors of the nodes, takes them back, and reads files; and makes a fate, a clock and a gate. Its three
/// counts of faults, those at stores, at files and at doors, never fall. What it makes may go to another thread.
pub trait Yard {
    /// A disk of one node.
    type Store: Disk + Drop + Send;

    /// A door of one node.
    type Door: Door + Drop + Send;

    /// What becomes of letters.
    type Fate: Fate + Drop + Send;

    /// What time it is.
    type Clock: Clock + Drop + Send;

    /// What holds sessions between their turns. Threads share it.
    type Gate: Gate + Drop + Send + Sync;

    /// Each shard, node and store as it was handed out, in order, where told.
    ghost handed: { Self → Option (List (ℕ × ℕ × Self.Store)) };

    /// Each shard, node and store as it was given back, in order, where told. It may cease to be
    /// told, as where a store that was given back found no memory.
    ghost returned: { Self → Option (List (ℕ × ℕ × Self.Store)) };

    /// Each node, protocol and door as it was handed out, in order, where told.
    ghost opened: { Self → Option (List (ℕ × AProtocol × Self.Door)) };

    /// Each node, protocol and door as it was given back, in order, where told. It may cease to be
    /// told, as where a door that was given back found no memory.
    ghost closed: { Self → Option (List (ℕ × AProtocol × Self.Door)) };

    /// The octets of the file of each name, where told.
    ghost files: { Self → List ℕ → Option (List ℕ) };

    /// How often it has failed at a store.
    ghost faults: { Self → ℕ };

    /// How often it has failed to read a file.
    ghost unread: { Self → ℕ };

    /// How often it has failed at a door.
    ghost unopened: { Self → ℕ };

    /// Hands out the store of one node in the folder. It may hold anything.
    fn store(&mut self, shard: u16, node: u8, folder: &str) -> Result<Self::Store, YardRefusal>
        ensures handed { HandsOut (handed self.old) (handed self.new) result shard node }
        ensures returned { returned self.new ≡ returned self.old }
        ensures opened { opened self.new ≡ opened self.old }
        ensures closed { closed self.new ≡ closed self.old }
        ensures files { files self.new ≡ files self.old }
        ensures unread { unread self.new ≡ unread self.old }
        ensures unopened { unopened self.new ≡ unopened self.old }
        ensures later { faults self.old ≤ faults self.new }
        ensures failed { IsErrOf result YardRefusal.Failed → Rose (faults self.old) (faults self.new) };

    /// Takes a store back, in whatever state it is. It has no refusal.
    fn give_back(&mut self, shard: u16, node: u8, store: Self::Store)
        ensures returned { TellsOneMore (returned self.old) (returned self.new) (shard, node, store) }
        ensures handed { handed self.new ≡ handed self.old }
        ensures opened { opened self.new ≡ opened self.old }
        ensures closed { closed self.new ≡ closed self.old }
        ensures files { files self.new ≡ files self.old }
        ensures faults { faults self.new ≡ faults self.old }
        ensures unread { unread self.new ≡ unread self.old }
        ensures unopened { unopened self.new ≡ unopened self.old };

    /// Reads the whole file of this name. Where its octets are told, it gives these.
    fn file(&mut self, name: &str) -> Result<Vec<u8>, YardRefusal>
        ensures octets { IfOk result (λ octets. IfSome (files self.old name.now) (λ told. octets.items ≡ told)) }
        ensures files { files self.new ≡ files self.old }
        ensures handed { handed self.new ≡ handed self.old }
        ensures returned { returned self.new ≡ returned self.old }
        ensures opened { opened self.new ≡ opened self.old }
        ensures closed { closed self.new ≡ closed self.old }
        ensures faults { faults self.new ≡ faults self.old }
        ensures unopened { unopened self.new ≡ unopened self.old }
        ensures later { unread self.old ≤ unread self.new }
        ensures failed { IsErrOf result YardRefusal.Failed → Rose (unread self.old) (unread self.new) };

    /// Hands out the door of one node at which this protocol is spoken, at the port of the machine that the door is for.
    fn door(&mut self, node: u8, protocol: Protocol, port: u16) -> Result<Self::Door, YardRefusal>
        ensures opened { HandsOut (opened self.old) (opened self.new) result node protocol }
        ensures closed { closed self.new ≡ closed self.old }
        ensures handed { handed self.new ≡ handed self.old }
        ensures returned { returned self.new ≡ returned self.old }
        ensures files { files self.new ≡ files self.old }
        ensures faults { faults self.new ≡ faults self.old }
        ensures unread { unread self.new ≡ unread self.old }
        ensures later { unopened self.old ≤ unopened self.new }
        ensures failed { IsErrOf result YardRefusal.Failed → Rose (unopened self.old) (unopened self.new) };

    /// Takes a door back, in whatever state it is. It has no refusal.
    fn shut(&mut self, node: u8, protocol: Protocol, door: Self::Door)
        ensures closed { TellsOneMore (closed self.old) (closed self.new) (node, protocol, door) }
        ensures opened { opened self.new ≡ opened self.old }
        ensures handed { handed self.new ≡ handed self.old }
        ensures returned { returned self.new ≡ returned self.old }
        ensures files { files self.new ≡ files self.old }
        ensures faults { faults self.new ≡ faults self.old }
        ensures unread { unread self.new ≡ unread self.old }
        ensures unopened { unopened self.new ≡ unopened self.old };

    /// Makes a fate.
    fn fate(&mut self) -> Self::Fate
        ensures { self.new ≡ self.old };

    /// Makes a clock.
    fn clock(&mut self) -> Self::Clock
        ensures { self.new ≡ self.old };

    /// Makes a gate.
    fn gate(&mut self) -> Self::Gate
        ensures { self.new ≡ self.old };
}
