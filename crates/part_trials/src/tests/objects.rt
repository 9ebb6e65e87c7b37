// Joins worked by hand, the same states in all orders, and each public call once.
ghost use Rattle.std.specs.Prelude.{IfOk};
ghost use Rattle.mail_model.specs.Identity.Value.{Here, Gone};
ghost use Rattle.mail_model.specs.Grammar.{IsOfKind};
ghost use Rattle.mail_base.specs.Seen.{key_seen};

use mail_base::{Key, MsgId, Name, NodeNo, NodeSet, ObjState, Secret, Stamp, Value};
use object_table::{ObjectTable, Taken, is_news, join};
use std::alloc::Global;
use std::test::Fail;

/// The value that the text says: `here`, `gone`, or else the secret.
fn value(alloc: Global, text: &[u8]) -> Result<Value, Fail> {
    if text == b"here".as_slice() {
        return Ok(Value::Here);
    }
    if text == b"gone".as_slice() {
        return Ok(Value::Gone);
    }
    match Secret::read(alloc, text)? {
        Some(secret) => Ok(Value::Secret(secret)),
        None => Err(Fail::new("no secret")),
    }
}

/// The state of this value, of a stamp by its count, boot and node, and of these targets.
fn state(
    alloc: Global,
    text: &[u8],
    stamp: (u64, u32, u8),
    targets: u16,
) -> Result<ObjState, Fail> {
    let stamp = Stamp::new(stamp.0, stamp.1, stamp.2);
    let targets = NodeSet::from_mask(targets);
    Ok(ObjState::new(value(alloc, text)?, stamp, targets))
}

#[test]
fn states_are_joined(rt: HostRuntime) -> Result<(), Fail> {
    let alloc = rt.alloc();
    for (a, b, wanted) in [
        // Gone is above Here, whatever the stamps; the targets are those of both.
        (
            ("here", (9, 9, 9), 1),
            ("gone", (1, 1, 1), 2),
            ("gone", (1, 1, 1), 3),
        ),
        (
            ("gone", (2, 1, 1), 1),
            ("gone", (3, 1, 1), 1),
            ("gone", (3, 1, 1), 1),
        ),
        // The count is compared before the boot, and the boot before the node.
        (
            ("here", (2, 9, 9), 1),
            ("here", (3, 1, 1), 4),
            ("here", (3, 1, 1), 5),
        ),
        (
            ("here", (3, 2, 1), 1),
            ("here", (3, 1, 9), 0),
            ("here", (3, 2, 1), 1),
        ),
        (
            ("here", (3, 2, 1), 1),
            ("here", (3, 2, 2), 2),
            ("here", (3, 2, 2), 3),
        ),
        // Where value and stamp are equal only the targets are joined.
        (
            ("gone", (3, 2, 1), 1),
            ("gone", (3, 2, 1), 6),
            ("gone", (3, 2, 1), 7),
        ),
        // With equal stamps the greater secret counts, octet by octet, and a prefix is the lesser.
        (
            ("apple", (1, 1, 1), 1),
            ("pear", (1, 1, 1), 2),
            ("pear", (1, 1, 1), 3),
        ),
        (
            ("pears", (1, 1, 1), 1),
            ("pear", (1, 1, 1), 1),
            ("pears", (1, 1, 1), 1),
        ),
        (
            ("pear", (1, 1, 1), 1),
            ("pear", (1, 1, 1), 4),
            ("pear", (1, 1, 1), 5),
        ),
        // A greater stamp counts before the secret.
        (
            ("apple", (2, 1, 1), 1),
            ("pear", (1, 9, 9), 1),
            ("apple", (2, 1, 1), 1),
        ),
    ] {
        let one = state(alloc, a.0.as_bytes(), a.1, a.2)?;
        let other = state(alloc, b.0.as_bytes(), b.1, b.2)?;
        let wanted = state(alloc, wanted.0.as_bytes(), wanted.1, wanted.2)?;
        assert!(rt; join(&one, &other)?.is_same(&wanted));
        assert!(rt; join(&other, &one)?.is_same(&wanted));
        assert!(rt; !is_news(&wanted, &one) && !is_news(&wanted, &other));
    }
    Ok(())
}

fn user(alloc: Global, name: &[u8]) -> Result<Name, Fail> {
    match Name::spelt(alloc, name)? {
        Some(name) => Ok(name),
        None => Err(Fail::new("no name")),
    }
}

/// The key of message 1.1.1 in the mailbox `ann`.
fn key_of_ann(alloc: Global) -> Result<Key, Fail>
    ensures here { IfOk result (λ key. IsOfKind (key_seen key) Here) }
    ensures gone { IfOk result (λ key. IsOfKind (key_seen key) Gone) }
{
    let name = user(alloc, b"ann")?;
    let Some(node) = NodeNo::new(1) else {
        return Err(Fail::new("no node"));
    };
    match MsgId::new(node, 1, 1) {
        Some(id) => Ok(Key::Message(name, id)),
        None => Err(Fail::new("no id")),
    }
}

/// Takes the profile of `bob` with this secret, of the first stamp.
fn take_profile(
    alloc: Global,
    table: &mut ObjectTable,
    secret: &[u8],
    targets: u16,
) -> Result<Taken, Fail> {
    let key = Key::Profile(user(alloc, b"bob")?);
    let Some(secret) = Secret::read(alloc, secret)? else {
        return Err(Fail::new("no secret"));
    };
    let stamp = Stamp::new(1, 1, 1);
    let state = ObjState::new(Value::Secret(secret), stamp, NodeSet::from_mask(targets));
    Ok(table.take(&key, &state)?)
}

/// Takes the state of this number: the copy is here, the copy is gone, the profile, and the profile with another secret.
fn take_state(alloc: Global, table: &mut ObjectTable, at: usize) -> Result<Taken, Fail> {
    let ann = key_of_ann(alloc)?;
    let here = ObjState::new(Value::Here, Stamp::new(3, 1, 1), NodeSet::from_mask(1));
    let gone = ObjState::new(Value::Gone, Stamp::new(1, 1, 1), NodeSet::from_mask(2));
    match at {
        0 => Ok(table.take(&ann, &here)?),
        1 => Ok(table.take(&ann, &gone)?),
        2 => take_profile(alloc, table, b"apple", 1),
        _ => take_profile(alloc, table, b"pear", 4),
    }
}

/// A table that has taken the states of these numbers.
fn table_of(alloc: Global, order: [usize; 4]) -> Result<ObjectTable, Fail> {
    let mut table = ObjectTable::new(alloc);
    for at in order {
        take_state(alloc, &mut table, at)?;
    }
    Ok(table)
}

/// Whether the state is there, and is this one.
fn is_held(held: Option<&ObjState>, state: &ObjState) -> bool {
    match held {
        Some(held) => held.is_same(state),
        None => false,
    }
}

#[test]
fn every_order_makes_one_table(rt: HostRuntime) -> Result<(), Fail> {
    let alloc = rt.alloc();
    let (ann, bob) = (key_of_ann(alloc)?, user(alloc, b"bob")?);
    let gone = state(alloc, b"gone", (1, 1, 1), 3)?;
    let pear = state(alloc, b"pear", (1, 1, 1), 5)?;
    for code in 0..256usize {
        let order = [code % 4, code / 4 % 4, code / 16 % 4, code / 64];
        let table = table_of(alloc, order)?;
        let all = [0, 1, 2, 3].iter().all(|at| order.contains(at));
        assert!(rt; !all || is_held(table.state(&ann), &gone), "{code}");
        assert!(rt; !all || is_held(table.profile(&bob), &pear), "{code}");
        assert!(rt; !all || table.users(alloc)?.len() == 2, "{code}");
    }
    Ok(())
}

#[test]
fn a_table_says_what_a_state_did(rt: HostRuntime) -> Result<(), Fail> {
    let alloc = rt.alloc();
    let mut table = table_of(alloc, [2, 2, 2, 2])?;
    for (at, wanted) in [
        (2, Taken::Same),
        (0, Taken::Newer),
        (1, Taken::Newer),
        (0, Taken::Older),
        (3, Taken::Newer),
        (2, Taken::Older),
    ] {
        assert_eq!(rt; take_state(alloc, &mut table, at)?, wanted, "{at}");
    }
    Ok(())
}
