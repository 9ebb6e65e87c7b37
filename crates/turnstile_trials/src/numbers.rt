//! A value to try the turnstile with: numbers in the order in which they came, and a limit that stays.
ghost use Rattle.std.specs.Prelude.{◌≡◌, ◌++◌, [], ◌∷◌, ◌≤◌, if◌then◌else◌};
ghost use Rattle.std.proofs.Common.{refl, ◌∙◌};

use std::alloc::Global;
use turnstile::{Counted, Work};

/// Numbers in the order in which they came.
#[derive(Drop)]
pub struct Numbers {
    pub items: Vec<u64>,
    pub limit: u64,
}

impl Numbers {
    /// No numbers yet, and this limit.
    pub fn new(alloc: Global, limit: u64) -> Numbers
        ensures { (result.items.items ≡ []) × (result.limit ≡ limit) }
    {
        Numbers {
            items: Vec::new(alloc),
            limit,
        }
    }
}

impl Counted for Numbers {
    type Entry = u64;

    ghost history = { λ n. n.items.items };

    ghost keeps = { λ x y. y.limit ≡ x.limit };

    fn count(&self) -> u64 {
        self.items.len() as u64
    }

    ghost stays = { λ x. refl };

    ghost chains = { λ x y z a b. b ∙ a };
}

/// Adds a number that is at most the limit. The turn answers whether memory lasted.
#[derive(Drop)]
pub struct Append(pub u64);

impl Work<Numbers> for Append {
    type Out = bool;

    ghost asks = { λ w v. w.0 ≤ v.limit };

    ghost did = { λ w old ok new. new.items.items ≡ (if ok then old.items.items ++ w.0 ∷ [] else old.items.items) };

    fn run(self, value: &mut Numbers) -> bool {
        value.items.push(self.0).is_ok()
    }
}
