// A mailbox as its messages come and go.
use mail_base::{Ids, MsgId, Name, NodeNo};
use mailbox_fragment::Fragments;
use std::test::Fail;

// The message 7.1.SEQ, or 7.2.SEQ where it is of the second boot.
fn message(boot: u32, seq: u64) -> Option<MsgId> {
    MsgId::new(NodeNo::new(7)?, boot, seq)
}

// Whether these three are listed in this order, and no others.
fn are_three(ids: &Ids, first: MsgId, second: MsgId, third: MsgId) -> bool {
    match ids.as_slice() {
        [a, b, c] => *a == first && *b == second && *c == third,
        _ => false,
    }
}

#[test]
fn lists_in_order_and_flips(rt: HostRuntime) -> Result<(), Fail> {
    let Ok(alice) = Name::read(rt.alloc(), b"alice") else {
        panic!(rt; "no name");
    };
    let Ok(bob) = Name::read(rt.alloc(), b"bob") else {
        panic!(rt; "no name");
    };
    let (Some(first), Some(second), Some(later)) = (message(1, 9), message(1, 10), message(2, 1))
    else {
        panic!(rt; "no ids");
    };
    let mut fragments = Fragments::new(rt.alloc());
    assert!(rt; fragments.is_empty(&alice));
    assert!(rt; fragments.set(&alice, later, false) == Ok(false));
    assert!(rt; fragments.set(&alice, later, true) == Ok(true));
    assert!(rt; fragments.set(&alice, later, true) == Ok(false));
    assert!(rt; fragments.set(&alice, second, true) == Ok(false));
    assert!(rt; fragments.set(&alice, first, true) == Ok(false));
    assert!(rt; fragments.is_empty(&bob));
    let Ok(ids) = fragments.list(&alice) else {
        panic!(rt; "out of memory");
    };
    assert!(rt; are_three(&ids, first, second, later));
    assert!(rt; fragments.set(&alice, first, false) == Ok(false));
    assert!(rt; fragments.set(&alice, later, false) == Ok(false));
    assert!(rt; fragments.set(&alice, second, false) == Ok(true));
    assert!(rt; fragments.set(&alice, second, false) == Ok(false));
    assert!(rt; fragments.is_empty(&alice));
    Ok(())
}
