//! Two threads that take turns.
ghost use Rattle.std.specs.Prelude.{◌≡◌, ◌+◌, ◌++◌, [], ◌∷◌, ℕ, true, IfSome};
ghost use Rattle.turnstile.specs.Lists.{weight, IsSubsequence};
ghost use Rattle.turnstile.specs.Shares.{AreShares};
ghost use Rattle.turnstile.specs.Passes.{first_value, own_entries, joined_entries, quota, IsPassOf};

use crate::numbers::{Append, Numbers};
use std::alloc::Global;
use std::sync::Wait;
use std::thread::{Threads, join};
use turnstile::{Pass, Turnstile};

/// Appends the numbers, a turn for each, while memory lasts. Answers whether it lasted.
pub fn append_all<R: Wait>(
    rt: &R,
    turnstile: &Turnstile<Numbers>,
    mut pass: Pass<Numbers>,
    numbers: &[u64],
) -> (Pass<Numbers>, bool)
    requires pass { IsPassOf turnstile.now pass }
    requires limit { (first_value turnstile.now).limit ≡ 18446744073709551615 }
    ensures pass { IsPassOf turnstile.now result.0 × (quota result.0 ≡ quota pass) × (joined_entries result.0 ≡ joined_entries pass) }
    ensures own { result.1 ≡ true → own_entries result.0 ≡ own_entries pass ++ numbers.now }
{
    let mut lasted = true;
    for n in numbers {
        let kept = turnstile.turn(rt, &mut pass, Append(*n));
        lasted = lasted && kept;
    }
    (pass, lasted)
}

/// Each thread appends its numbers. They stand in the result in their order, and nothing else does.
pub fn append_both<R: Threads + Wait + Sync>(
    rt: &R,
    alloc: Global,
    first: &[u64],
    second: &[u64],
) -> Option<Vec<u64>>
    ensures first { IfSome result (λ v. IsSubsequence first.now v.items) }
    ensures second { IfSome result (λ v. IsSubsequence second.now v.items) }
    ensures shares { IfSome result (λ v. AreShares [] (first.now ∷ second.now ∷ []) v.items) }
    ensures whole { IfSome result (λ v. (h : ℕ → ℕ) → weight h v.items ≡ weight h first.now + weight h second.now) }
{
    let Ok((turnstile, mut pass)) = Turnstile::new(alloc, Numbers::new(alloc, u64::MAX), 2) else {
        return None;
    };
    let other = turnstile.split(&mut pass, 1);
    let shared = &turnstile;
    let ((mut pass, a), (other, b)) = join(
        rt,
        || -> (Pass<Numbers>, bool)
            requires pass { IsPassOf shared.now pass }
            requires limit { (first_value shared.now).limit ≡ 18446744073709551615 }
            ensures pass { IsPassOf shared.entry.now result.0 × (quota result.0 ≡ quota pass) × (joined_entries result.0 ≡ joined_entries pass) }
            ensures own { result.1 ≡ true → own_entries result.0 ≡ own_entries pass ++ first.entry.now }
        { append_all(rt, shared, pass, first) },
        || -> (Pass<Numbers>, bool)
            requires pass { IsPassOf shared.now other }
            requires limit { (first_value shared.now).limit ≡ 18446744073709551615 }
            ensures pass { IsPassOf shared.entry.now result.0 × (quota result.0 ≡ quota other) × (joined_entries result.0 ≡ joined_entries other) }
            ensures own { result.1 ≡ true → own_entries result.0 ≡ own_entries other ++ second.entry.now }
        { append_all(rt, shared, other, second) },
    );
    turnstile.join(&mut pass, other);
    let Numbers { items, limit: _ } = turnstile.close(pass);
    if a && b { Some(items) } else { None }
}
