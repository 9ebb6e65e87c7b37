// What node 1 tells to calls that read: its lists, parts of its messages and the tickets that it draws; and what is owed.
use super::stands;
use std::test::Fail;

/// A mailbox from empty on. Copies are listed by their stamps, and one that is gone or has no octets is not.
const MAILBOX: &[u8] = b"\
l - --- -- - - - - >
L - --- -- - - - - > listed
F 2 212 12 3 1 1 1 > f 2 212 -- - - 1 1
F 2 211 22 3 1 1 1 > f 2 211 -- - - 1 1
l - --- -- - - - - > 211 212
L - --- -- - - - - > listed 212 12 3 7 211 22 3 7
P 2 213 32 3 n 0 1 > A 2 213 32 3 h - 1
F 2 214 42 3 1 1 1 > f 2 214 -- - - 1 1
l - --- -- - - - - > 211 212 213 214
L - --- -- - - - - > listed 212 12 3 7 211 22 3 7 214 42 3 7
S 2 212 52 - 1 1 1 > s 2 212 -- - 1 1 1
l - --- -- - - - - > 211 213 214
L - --- -- - - - - > listed 211 22 3 7 214 42 3 7
r - --- -- - - - - > 2
l - --- -- - - - - > 211 213 214
L - --- -- - - - - > listed 211 22 3 7 214 42 3 7";

/// Parts of a message; and of one that is gone or has no octets the count and the node of its stamp.
const PARTS: &[u8] = b"\
e - 211 0- 9 - - - > gone 00
F 2 211 12 3 1 1 1 > f 2 211 -- - - 1 1
e - 211 0- 9 - - - > hello../7
e - 211 1- 3 - - - > ell/7
e - 211 9- 3 - - - > /7
e - 211 0- 0 - - - > /7
P 2 212 12 3 n 0 1 > A 2 212 12 3 h - 1
e - 212 0- 9 - - - > gone 12
S 2 211 22 - 1 1 1 > s 2 211 -- - 1 1 1
e - 211 0- 9 - - - > gone 22";

/// A ticket is drawn, of which the node itself has none, and one of a login that fails at once. A delivery has the next.
const DRAWN: &[u8] = b"\
t - --- -- - - - - > 1
i - --- -- - - 1 - > -00n-
z - --- -- - - - - > 2
i - --- -- - - 2 - > L00y-
a - --- -- - - 2 - > failed
a - --- -- - - 2 - > none
d - --- -- - 1 - - > F 2 111 11 3 1 3 1
t - --- -- - - - - > 4";

/// What is owed: nobody waits, one does, none does any more; and room that is too small for the first letter.
const OWED: &[u8] = b"\
q - --- -- - - - - > yes
c 2 --- -- 9 9 - - > no
c 2 --- -- 0 0 - - > no
F 2 211 12 3 1 1 1 > f 2 211 -- - - 1 1
q - --- -- - - - - > no
c 2 --- -- 9 9 - - > no
c 2 --- -- 0 9 - - > yes
c 2 --- -- 9 1 - - > yes
p 2 --- -- 9 1 - - >
c 2 --- -- 9 2 - - > no
p 2 --- -- 9 2 - - > P 2 211 12 3 h - 1
c 3 --- -- 0 0 - - > no
c 1 --- -- 0 0 - - > no
c 4 --- -- 0 0 - - > no
R 2 211 12 3 h 0 1 >
q - --- -- - - - - > yes
c 2 --- -- 0 0 - - > no";

#[test]
fn mailboxes_are_listed(rt: HostRuntime) -> Result<(), Fail> {
    stands(&rt, rt.alloc(), b'1', MAILBOX)
}

#[test]
fn parts_are_told(rt: HostRuntime) -> Result<(), Fail> {
    stands(&rt, rt.alloc(), b'1', PARTS)
}

#[test]
fn tickets_are_drawn(rt: HostRuntime) -> Result<(), Fail> {
    stands(&rt, rt.alloc(), b'1', DRAWN)
}

#[test]
fn what_is_owed_is_told(rt: HostRuntime) -> Result<(), Fail> {
    stands(&rt, rt.alloc(), b'1', OWED)
}
