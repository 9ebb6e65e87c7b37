//! How a turnstile is made and closed, and how passes are split and joined.
ghost use Rattle.std.specs.Prelude.{◌≡◌, ◌<◌, IfOk, IfErr};
ghost use Rattle.turnstile.specs.Passes.{first_value, passes, quota as quota_of, IsPassOf, IsNewTurnstile, IsSplit, TakesIn, IsClosed};

use crate::counted::Counted;
use crate::lock::{Pass, Turnstile};
use crate::plays::{HandOn, Portion, TakeIn};
use crate::views::Key;
use atomic_table::{Refused, Table};
use std::alloc::{AllocFailed, Global};
use std::marker::Brand;
use std::snapshot::Snapshot;

impl<V: Counted> Turnstile<V> {
    /// A turnstile round the value, and its one pass, which has the quota `passes`: so many passes there can be at once. Out of
    /// memory is the one refusal, and it hands the value back.
    pub fn new(alloc: Global, value: V, passes: u32) -> Result<(Turnstile<V>, Pass<V>), V>
        requires { 0 < passes }
        ensures ok { IfOk result (λ t. IsNewTurnstile V.history V.keeps value passes t.0 t.1) }
        ensures err { IfErr result (λ v. v ≡ value) }
    {
        let about = Key {
            first_value: Snapshot::of(&value),
            passes,
        };
        let count = value.count();
        let mut slots = Vec::new(alloc);
        if let Err(failed) = slots.push(value) {
            let AllocFailed { value } = failed;
            slots.destroy_empty();
            return Err(value);
        }
        let words = [0, 0, count, 0, 0, 0, 0, 0, 0, 0, 0, 0, 0, 0, 0, 0, 0, 0, 0];
        match Table::new(alloc, &words, slots, &about) {
            Ok((table, seat)) => Ok((Turnstile { table }, Pass { seat })),
            Err(refused) => {
                let Refused { mut slots } = refused;
                let Some(value) = slots.pop() else {
                    unreachable!()
                };
                slots.destroy_empty();
                Err(value)
            }
        }
    }

    /// A new pass with this quota, which has seen as much and has no own entries. The pass keeps the rest of its quota. Takes no
    /// memory and waits for nobody.
    pub fn split(&self, pass: &mut Pass<V>, quota: u32) -> Pass<V>
        requires pass { IsPassOf self.now pass.old }
        requires quota { (0 < quota) × (quota < quota_of pass.old) }
        ensures belong { IsPassOf self.now pass.new × IsPassOf self.now result }
        ensures split { IsSplit quota pass.old pass.new result }
    {
        self.cut::<Brand>(pass, quota)
    }

    // The quota is the portion that the call picks.
    fn cut<P: Portion>(&self, pass: &mut Pass<V>, quota: u32) -> Pass<V>
        requires picked { quota ≡ P.portion }
        requires pass { IsPassOf self.now pass.old }
        requires quota { (0 < quota) × (quota < quota_of pass.old) }
        ensures belong { IsPassOf self.now pass.new × IsPassOf self.now result }
        ensures split { IsSplit quota pass.old pass.new result }
    {
        let _ = quota;
        Pass {
            seat: self.table.shared.split_seat::<HandOn<P>>(&mut pass.seat),
        }
    }

    /// Takes in another pass of this turnstile, with its quota and its entries. Takes no memory and waits for nobody.
    pub fn join(&self, pass: &mut Pass<V>, other: Pass<V>)
        requires pass { IsPassOf self.now pass.old × IsPassOf self.now other }
        ensures pass { IsPassOf self.now pass.new }
        ensures join { TakesIn pass.old other pass.new }
    {
        let Pass { seat } = other;
        self.table.shared.join_seat::<TakeIn>(&mut pass.seat, seat);
    }

    /// The value. The pass has the whole quota, so that no other pass is left. Takes no memory and waits for nobody.
    pub fn close(self, pass: Pass<V>) -> V
        requires pass { IsPassOf self pass }
        requires whole { quota_of pass ≡ passes self }
        ensures { IsClosed V.history V.keeps self pass result }
    {
        let Turnstile { table } = self;
        let Pass { seat } = pass;
        let mut closed = table.close_with(seat);
        let value = closed.take(0);
        closed.free();
        value
    }
}
