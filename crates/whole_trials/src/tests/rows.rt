// Mail that is filed, and the rows that follow it.
use super::cluster::stands;
use std::test::Fail;

// Mail that is there as an epoch begins, at a node that has started again: it reports its row to the manager, once. That node 1 has
// the message node 3 does not know any more, so it owes that still.
#[test]
fn rows_are_told_as_an_epoch_begins(rt: HostRuntime) -> Result<(), Fail> {
    let table = b"\
o 2    > 1.2 G21 G23
p G21  > J12
p G23  > J32
p J12  >
p J32  >
c 2    > 1.2 I21 I23
p I21  >
p I23  >
m 3    > F31
p F31  > f13
p f13  >
q 3    > 1-
h 3    >
s 3    > 2 1.2
o 2    > 2.2 G21 G23
p G21  > J12
p G23  > J32
p J12  >
p J32  >
c 2    > 2.2 I21 I23
p I21  >
p I23  >
n 1    > 1
n 2    > none
r 1 1  >
r 3 2  >
r 3 1  > R31
p R31  > A13
p A13  >
r 3 1  >
q 3    > -
n 1    > 13";
    stands(&rt, rt.alloc(), table)
}

// Mail that comes within an epoch. A report that is on its way as the next epoch begins is stale, and the row is due still. Node 2
// has settled once its row is acknowledged: node 3, which has the message too, is no member then.
#[test]
fn rows_are_due_until_they_are_heard(rt: HostRuntime) -> Result<(), Fail> {
    let table = b"\
o 1    > 1.1 G12 G13
p G12  > J21
p G13  > J31
p J21  >
p J31  >
c 1    > 1.1 I12 I13
p I12  >
p I13  >
r 2 1  >
q 2    > settled
m 2    > F23
q 2    > 1-
p F23  > f32
r 2 1  > R21
q 2    > 1-
o 1    > 2.1 G12 G13
p G12  > J21
d G13  >
p J21  >
c 1    > 2.1 I12
p R21  > stale
n 1    > none
p I12  >
r 2 1  > R21
p R21  > A12
n 1    > 2
p A12  >
r 2 1  >
q 2    > settled
q 3    > 1-
r 3 1  > R31
p R31  > stale
n 1    > 2";
    stands(&rt, rt.alloc(), table)
}
