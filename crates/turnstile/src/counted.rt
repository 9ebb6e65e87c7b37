//! What the turnstile asks of the value, and of the work.
ghost use Rattle.std.specs.Prelude.{◌≡◌, ◌++◌, List, length};

/// A value with a history that only grows.
pub trait Counted {
    /// One thing that the history has.
    type Entry;

    /// The history.
    ghost history: { Self → List Self.Entry };

    /// What stays: `keeps x y` where y has what stays of x.
    ghost keeps: { Self → Self → Type 0 };

    /// The length of the history.
    fn count(&self) -> u64
        ensures { result ≡ length (history self.now) };

    /// What stays of a value, the value itself has.
    ghost stays: { (x : Self) → keeps x x };

    /// What stayed over two turns, one after another, stays over both.
    ghost chains: { (x y z : Self) → keeps x y → keeps y z → keeps x z };
}

/// What one turn does to the value.
pub trait Work<V: Counted> {
    /// What the turn answers.
    type Out;

    /// What it asks of the value.
    ghost asks: { Self → V → Type 0 };

    /// What it did: of the work, the old value, the answer and the new value.
    ghost did: { Self → V → Self.Out → V → Type 0 };

    /// Does the work. It only appends to the history, and keeps what stays.
    fn run(self, value: &mut V) -> Self::Out
        requires { asks self value.old }
        ensures did { did self value.old result value.new }
        ensures grows { (added : List V.Entry) × (V.history value.new ≡ V.history value.old ++ added) }
        ensures keeps { V.keeps value.old value.new };
}
