// What pushes, acknowledgements and retirements do to a table and a log of node 1: a list of steps.
ghost use Rattle.std.specs.Prelude.{IfOk};
ghost use Rattle.mail_model.specs.Grammar.{IsOfKind};
ghost use Rattle.mail_model.specs.Identity.Value.{Here, Gone};
ghost use Rattle.mail_base.specs.Seen.{key_seen};

use mail_base::{Key, MsgId, Name, NodeNo, NodeSet, ObjState, Stamp, Value};
use object_table::ObjectTable;
use replica_push::{hear_ack, hear_push, hear_retired, widen};
use std::alloc::Global;
use std::test::Fail;
use update_log::{Acked, UpdateLog};

/// A step over the copy of message 1.1.1 in the mailbox `ann`, and what has to come of it. Nodes are a mask.
#[derive(Clone, Copy)]
enum Step {
    /// It is heard that the copy is here, by the first stamp, for these targets: whether there is something to record.
    Here(u16, bool),
    /// It is heard that the copy is gone, by the second stamp.
    Gone(u16, bool),
    /// Node 3 is to be a target: whether it becomes one.
    Widen(bool),
    /// Node 2 acknowledges that the copy is here for these targets.
    Ack(u16, Acked),
    /// An entry that the copy is here is retired: whether there was one.
    RetiredHere(u16, bool),
    /// An entry that the copy is gone is retired.
    RetiredGone(u16, bool),
    /// The copy stands here for these targets, and for these nodes it remains in the log.
    StandsHere(u16, u16),
    /// The copy stands as gone.
    StandsGone(u16, u16),
    /// The log has no entry.
    NoEntry,
}

/// The key of message 1.1.1 in the mailbox `ann`.
fn key_of_ann(alloc: Global) -> Result<Key, Fail>
    ensures here { IfOk result (λ key. IsOfKind (key_seen key) Here) }
    ensures gone { IfOk result (λ key. IsOfKind (key_seen key) Gone) }
{
    let (Some(name), Some(node)) = (Name::spelt(alloc, b"ann")?, NodeNo::new(1)) else {
        return Err(Fail::new("no name"));
    };
    match MsgId::new(node, 1, 1) {
        Some(id) => Ok(Key::Message(name, id)),
        None => Err(Fail::new("no id")),
    }
}

fn node(number: u8) -> Result<NodeNo, Fail> {
    match NodeNo::new(number) {
        Some(node) => Ok(node),
        None => Err(Fail::new("no node")),
    }
}

fn here(targets: u16) -> ObjState {
    ObjState::new(
        Value::Here,
        Stamp::new(1, 1, 1),
        NodeSet::from_mask(targets),
    )
}

fn gone(targets: u16) -> ObjState {
    ObjState::new(
        Value::Gone,
        Stamp::new(2, 1, 1),
        NodeSet::from_mask(targets),
    )
}

// Whether the table has this state, and the log has it with these nodes remaining.
fn stand(table: &ObjectTable, log: &UpdateLog, key: &Key, state: &ObjState, left: u16) -> bool {
    match (table.state(key), log.entry(key)) {
        (Some(held), Some(entry)) => {
            held.is_same(state)
                && entry.state.is_same(state)
                && entry.remaining == NodeSet::from_mask(left)
        }
        _ => false,
    }
}

fn hear_here(
    alloc: Global,
    table: &mut ObjectTable,
    log: &mut UpdateLog,
    targets: u16,
) -> Result<bool, Fail> {
    let (key, own) = (key_of_ann(alloc)?, node(1)?);
    let state = ObjState::new(
        Value::Here,
        Stamp::new(1, 1, 1),
        NodeSet::from_mask(targets),
    );
    Ok(hear_push(table, log, &key, &state, own)?.is_some())
}

fn hear_gone(
    alloc: Global,
    table: &mut ObjectTable,
    log: &mut UpdateLog,
    targets: u16,
) -> Result<bool, Fail> {
    let (key, own) = (key_of_ann(alloc)?, node(1)?);
    let state = ObjState::new(
        Value::Gone,
        Stamp::new(2, 1, 1),
        NodeSet::from_mask(targets),
    );
    Ok(hear_push(table, log, &key, &state, own)?.is_some())
}

fn widens(alloc: Global, table: &mut ObjectTable, log: &mut UpdateLog) -> Result<bool, Fail> {
    let (key, to, own) = (key_of_ann(alloc)?, node(3)?, node(1)?);
    Ok(widen(table, log, &key, to, own)?)
}

// Whether the step does as it says.
fn does(
    alloc: Global,
    table: &mut ObjectTable,
    log: &mut UpdateLog,
    step: &Step,
) -> Result<bool, Fail> {
    let key = key_of_ann(alloc)?;
    match step {
        Step::Here(targets, news) => Ok(hear_here(alloc, table, log, *targets)? == *news),
        Step::Gone(targets, news) => Ok(hear_gone(alloc, table, log, *targets)? == *news),
        Step::Widen(widened) => Ok(widens(alloc, table, log)? == *widened),
        Step::Ack(targets, answer) => {
            Ok(hear_ack(log, &key, &here(*targets), node(2)?) == *answer)
        }
        Step::RetiredHere(targets, was) => Ok(hear_retired(log, &key, &here(*targets)) == *was),
        Step::RetiredGone(targets, was) => Ok(hear_retired(log, &key, &gone(*targets)) == *was),
        Step::StandsHere(targets, left) => Ok(stand(table, log, &key, &here(*targets), *left)),
        Step::StandsGone(targets, left) => Ok(stand(table, log, &key, &gone(*targets), *left)),
        Step::NoEntry => Ok(log.entry(&key).is_none()),
    }
}

// How many steps are taken over an empty table and an empty log, until one does not do as it says.
fn goes(alloc: Global, steps: &[Step]) -> Result<usize, Fail> {
    let mut table = ObjectTable::new(alloc);
    let mut log = UpdateLog::new(alloc);
    for (at, step) in steps.iter().enumerate() {
        if !does(alloc, &mut table, &mut log, step)? {
            return Ok(at);
        }
    }
    Ok(steps.len())
}

#[test]
fn a_copy_comes_widens_and_goes(rt: HostRuntime) -> Result<(), Fail> {
    let steps = [
        Step::Widen(false),
        Step::Here(0b011, true),
        Step::StandsHere(0b011, 0b010),
        Step::Here(0b001, false),
        Step::StandsHere(0b011, 0b010),
        Step::Widen(true),
        Step::Widen(false),
        Step::StandsHere(0b111, 0b110),
        // The acknowledgement of the state before it clears nothing.
        Step::Ack(0b011, Acked::Other),
        Step::StandsHere(0b111, 0b110),
        Step::Ack(0b111, Acked::Cleared),
        Step::StandsHere(0b111, 0b100),
        Step::Gone(0b111, true),
        Step::Here(0b111, false),
        Step::Widen(false),
        Step::StandsGone(0b111, 0b110),
        Step::RetiredHere(0b111, false),
        Step::RetiredGone(0b111, true),
        Step::NoEntry,
    ];
    assert_eq!(rt; goes(rt.alloc(), &steps)?, steps.len());
    Ok(())
}

#[test]
fn the_last_acknowledgement_ends_an_entry(rt: HostRuntime) -> Result<(), Fail> {
    let steps = [
        Step::Here(0b011, true),
        Step::Ack(0b011, Acked::Emptied),
        Step::NoEntry,
    ];
    assert_eq!(rt; goes(rt.alloc(), &steps)?, steps.len());
    Ok(())
}
