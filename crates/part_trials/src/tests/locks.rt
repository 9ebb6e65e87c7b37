// Each public call once.
use drop_lock::{LockFault, Locks};
use mail_base::{Name, NodeNo, Ticket};
use std::test::Fail;

// Whether the answer is that this ticket holds the lock.
fn names(answer: &Result<(), LockFault>, holder: Ticket) -> bool {
    match answer {
        Err(LockFault::InUse(by)) => *by == holder,
        Err(LockFault::NoMemory) => false,
        Ok(()) => false,
    }
}

#[test]
fn lets_one_ticket_in(rt: HostRuntime) -> Result<(), Fail> {
    let Ok(alice) = Name::read(rt.alloc(), b"alice") else {
        panic!(rt; "no name");
    };
    let Some(node) = NodeNo::new(3) else {
        panic!(rt; "no node");
    };
    let first = Ticket::new(node, 1, 1);
    let second = Ticket::new(node, 1, 2);
    let mut locks = Locks::new(rt.alloc());
    assert!(rt; locks.holder(&alice).is_none());
    assert!(rt; locks.take(&alice, first).is_ok());
    assert!(rt; locks.take(&alice, first).is_ok());
    assert!(rt; names(&locks.take(&alice, second), first));
    locks.release(&alice, second);
    assert!(rt; locks.holder(&alice) == Some(first));
    locks.release(&alice, first);
    assert!(rt; locks.take(&alice, second).is_ok());
    locks.clear();
    assert!(rt; locks.holder(&alice).is_none());
    Ok(())
}
