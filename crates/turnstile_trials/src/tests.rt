ghost use Rattle.std.specs.Prelude.{◌≡◌, ◌+◌};
ghost use Rattle.turnstile.specs.Passes.{first_value, quota, IsPassOf};

use crate::appends::{append_all, append_both};
use crate::numbers::Numbers;
use std::sync::Wait;
use std::test::Fail;
use std::thread::{Threads, join};
use turnstile::{Pass, Turnstile};

// Two threads, which append the numbers each, and then one pass.
fn append_twice<R: Threads + Wait + Sync>(
    rt: &R,
    turnstile: &Turnstile<Numbers>,
    first: Pass<Numbers>,
    second: Pass<Numbers>,
    numbers: &[u64],
) -> (Pass<Numbers>, bool)
    requires passes { IsPassOf turnstile.now first × IsPassOf turnstile.now second }
    requires limit { (first_value turnstile.now).limit ≡ 18446744073709551615 }
    ensures pass { IsPassOf turnstile.now result.0 × (quota result.0 ≡ quota first + quota second) }
{
    let ((mut pass, a), (other, b)) = join(
        rt,
        || -> (Pass<Numbers>, bool)
            requires pass { IsPassOf turnstile.now first }
            requires limit { (first_value turnstile.now).limit ≡ 18446744073709551615 }
            ensures { IsPassOf turnstile.entry.now result.0 × (quota result.0 ≡ quota first) }
        { append_all(rt, turnstile, first, numbers) },
        || -> (Pass<Numbers>, bool)
            requires pass { IsPassOf turnstile.now second }
            requires limit { (first_value turnstile.now).limit ≡ 18446744073709551615 }
            ensures { IsPassOf turnstile.entry.now result.0 × (quota result.0 ≡ quota second) }
        { append_all(rt, turnstile, second, numbers) },
    );
    turnstile.join(&mut pass, other);
    (pass, a && b)
}

#[test]
fn four_threads_lose_no_entry(rt: HostRuntime) -> Result<(), Fail> {
    let mut numbers = Vec::new(rt.alloc());
    for n in 0..10000u64 {
        numbers.push(n)?;
    }
    let numbers = numbers.as_slice();
    let Ok((turnstile, mut first)) = Turnstile::new(
        rt.alloc(),
        Numbers::new(rt.alloc(), u64::MAX),
        4,
    ) else {
        panic!(rt; "no memory")
    };
    let shared = &turnstile;
    let second = shared.split(&mut first, 1);
    let third = shared.split(&mut first, 1);
    let fourth = shared.split(&mut first, 1);
    let rt = &rt;
    let ((mut pass, a), (other, b)) = join(
        rt,
        || -> (Pass<Numbers>, bool)
            requires pass { IsPassOf shared.now first × IsPassOf shared.now second }
            requires limit { (first_value shared.now).limit ≡ 18446744073709551615 }
            ensures { IsPassOf shared.entry.now result.0 × (quota result.0 ≡ quota first + quota second) }
        { append_twice(rt, shared, first, second, numbers) },
        || -> (Pass<Numbers>, bool)
            requires pass { IsPassOf shared.now third × IsPassOf shared.now fourth }
            requires limit { (first_value shared.now).limit ≡ 18446744073709551615 }
            ensures { IsPassOf shared.entry.now result.0 × (quota result.0 ≡ quota third + quota fourth) }
        { append_twice(rt, shared, third, fourth, numbers) },
    );
    turnstile.join(&mut pass, other);
    let value = turnstile.close(pass);
    assert!(rt; a && b && value.items.len() == 40000 && value.limit == u64::MAX);
    let mut times = Vec::from_elem(rt.alloc(), 0u8, 10000)?;
    for n in &value.items {
        let place = *n as usize;
        if place < times.len() {
            times[place] = times[place].wrapping_add(1);
        }
    }
    for count in &times {
        assert!(rt; *count == 4);
    }
    Ok(())
}

#[test]
fn two_threads_keep_their_order(rt: HostRuntime) -> Result<(), Fail> {
    let first = [1, 3, 5, 7, 9];
    let second = [2, 4, 6, 8];
    let Some(both) = append_both(&rt, rt.alloc(), &first, &second) else {
        panic!(rt; "no memory")
    };
    let mut odd = Vec::new(rt.alloc());
    let mut even = Vec::new(rt.alloc());
    for n in &both {
        if *n % 2 == 0 {
            even.push(*n)?;
        } else {
            odd.push(*n)?;
        }
    }
    assert!(rt; odd.as_slice() == &first[..] && even.as_slice() == &second[..]);
    Ok(())
}
