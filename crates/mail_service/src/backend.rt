//! What a service stands before.
ghost use Rattle.std.specs.Prelude.{◌≡◌, ◌+◌, ◌<◌, ◌++◌, ℕ, Bool, List, Option, OnOk};
ghost use Rattle.mail_service.specs.declared.backend.Line.{Line as ALine};

use io_edge::{Protocol, Sink, Source};
use std::alloc::{AllocError, Global};

/// Which connection it is.
#[derive(Clone, Copy, Debug, PartialEq, Eq)]
pub struct Line {
    /// The node at whose door it came in, from 1 on.
    pub node: u8,
    /// What is spoken there.
    pub protocol: Protocol,
    /// Its number among all connections, from 1 on.
    pub number: u64,
}

/// What several threads serve connections by, each in the name of a pass of its own. A pass has a quota: as many passes can be
/// made of it, itself among them.
pub trait Backend {
    /// What a thread holds.
    type Pass: Drop + Send;

    /// Which passes are of it.
    ghost belongs: { Self → Self.Pass → Type 0 };

    /// How many passes can be made of a pass.
    ghost quota: { Self.Pass → ℕ };

    /// What serving a connection comes to: of the pass before, which connection it is, what its source had left before and after,
    /// what its sink held before and after, where told, and the pass after.
    ghost serves: { Self → Self.Pass → ALine → Option (List ℕ) → Option (List ℕ) → Option (List ℕ) → Option (List ℕ) → Self.Pass → Type 0 };

    /// What carrying comes to: of the pass before, whether there was anything to do, and the pass after.
    ghost carries: { Self → Self.Pass → Bool → Self.Pass → Type 0 };

    /// What a line of the console comes to: of the pass before, the line, its number, what is said of it, and the pass after.
    ghost obeys: { Self → Self.Pass → List ℕ → ℕ → List ℕ → Self.Pass → Type 0 };

    /// Splits a pass of this quota off. Takes no memory and waits for nobody.
    fn split(&self, pass: &mut Self::Pass, part: u32) -> Self::Pass
        requires belongs { belongs self.now pass.old }
        requires some { (0 < part) × (part < quota pass.old) }
        ensures belong { belongs self.now pass.new × belongs self.now result }
        ensures quotas { (quota result ≡ part) × (quota pass.new + part ≡ quota pass.old) };

    /// Takes another pass in. Takes no memory and waits for nobody.
    fn join(&self, pass: &mut Self::Pass, other: Self::Pass)
        requires belong { belongs self.now pass.old × belongs self.now other }
        ensures belongs { belongs self.now pass.new }
        ensures quotas { quota pass.new ≡ quota pass.old + quota other };

    /// Serves one connection to its end. May wait.
    fn serve<I: Source, O: Sink>(
        &self,
        alloc: Global,
        pass: &mut Self::Pass,
        line: Line,
        source: &mut I,
        sink: &mut O,
    )
        requires belongs { belongs self.now pass.old }
        ensures belongs { belongs self.now pass.new }
        ensures quota { quota pass.new ≡ quota pass.old }
        ensures serves { serves self.now pass.old line (I.left source.old) (I.left source.new) (O.contents sink.old) (O.contents sink.new) pass.new };

    /// Has a letter posted, or what is due sent. Answers whether there was anything to do. May wait.
    fn carry(&self, alloc: Global, pass: &mut Self::Pass) -> bool
        requires belongs { belongs self.now pass.old }
        ensures belongs { belongs self.now pass.new }
        ensures quota { quota pass.new ≡ quota pass.old }
        ensures carries { carries self.now pass.old result pass.new };

    /// Does what this line of the console orders, and appends what is said of it. The line is without its LF, and its number is
    /// `number`. May wait.
    fn obey(
        &self,
        alloc: Global,
        pass: &mut Self::Pass,
        line: &[u8],
        number: u64,
        out: &mut Vec<u8>,
    ) -> Result<(), AllocError>
        requires belongs { belongs self.now pass.old }
        ensures belongs { belongs self.now pass.new }
        ensures quota { quota pass.new ≡ quota pass.old }
        ensures obeys { OnOk result ((said : List ℕ) × (out.new.items ≡ out.old.items ++ said) × obeys self.now pass.old line.now number said pass.new) };
}
