// Nodes that stop between two steps of a round, and disks that fail as a promise is written.
use super::cluster::stands;
use std::test::Fail;

// Node 3 stops between its promise and its Join. Its promise stands, and it joins in its next boot once it is asked again.
#[test]
fn a_promise_stands_without_its_join(rt: HostRuntime) -> Result<(), Fail> {
    let table = b"\
o 1    > 1.1 G12 G13
a G13  > J31
d J31  >
h 3    >
l 3    > down
p G12  > J21
p J21  >
s 3    > 2 1.1
l 3    > 1.1 none
p G13  > J31
p J31  >
c 1    > 1.1 I12 I13
p I13  >
p I12  >
l 3    > 1.1 1.1 11 21 32";
    stands(&rt, rt.alloc(), table)
}

// It stops once it has joined: it is named in a boot that is over, and refuses the epoch.
#[test]
fn an_earlier_boot_is_not_entered(rt: HostRuntime) -> Result<(), Fail> {
    let table = b"\
o 1    > 1.1 G12 G13
p G12  > J21
p G13  > J31
p J21  >
p J31  >
h 3    >
c 1    > 1.1 I12 I13
s 3    > 2 1.1
p I13  > not-member
p I12  >
l 3    > 1.1 none
l 1    > 1.1 1.1 11 21 31
l 2    > 1.1 1.1 11 21 31";
    stands(&rt, rt.alloc(), table)
}

// The first node stops before it concludes: its group is gone, its promise is not, and its next group is of a later epoch.
#[test]
fn a_stop_leaves_a_group(rt: HostRuntime) -> Result<(), Fail> {
    let table = b"\
o 1    > 1.1 G12 G13
p G12  > J21
p G13  > J31
p J31  >
h 1    >
p J21  > down
s 1    > 2 1.1
c 1    > none
o 1    > 2.1 G12 G13
p G12  > J21
p G13  > J31
p J21  >
p J31  >
c 1    > 2.1 I12 I13
p I12  >
p I13  >
l 2    > 2.1 2.1 12 21 31";
    stands(&rt, rt.alloc(), table)
}

// The disk of node 3 fails at each call of its promise. It is down, sent nothing, and starts with the promise or without it.
#[test]
fn a_disk_fails_as_it_promises(rt: HostRuntime) -> Result<(), Fail> {
    let table = b"\
o 1    > 1.1 G12 G13
x 3 1  >
a G13  > fell
l 3    > down
a G13  > down
s 3    > 2 0.0
x 3 2  >
a G13  > fell
s 3    > 3 0.0
x 3 3  >
a G13  > fell
s 3    > 4 0.0
x 3 4  >
a G13  > fell
s 3    > 5 0.0
x 3 1  >
a G13  > fell
w 3    >
s 3    > 6 0.0
x 3 4  >
a G13  > fell
w 3    >
s 3    > 7 1.1
p G13  > J31
p J31  >
c 1    > 1.1 I13
p I13  >
l 3    > 1.1 1.1 11 37";
    stands(&rt, rt.alloc(), table)
}

// So does that of a node as it opens a group: no letter speaks of the epoch, and its next group is of one that is as late or later.
#[test]
fn a_disk_fails_as_a_group_opens(rt: HostRuntime) -> Result<(), Fail> {
    let table = b"\
x 1 1  >
o 1    > fell
s 1    > 2 0.0
x 1 4  >
o 1    > fell
c 1    > down
w 1    >
s 1    > 3 1.1
c 1    > none
o 1    > 2.1 G12 G13
p G13  > J31
p J31  >
c 1    > 2.1 I13
p I13  >
l 3    > 2.1 2.1 13 31";
    stands(&rt, rt.alloc(), table)
}
