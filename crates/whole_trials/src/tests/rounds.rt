// The three rounds over three nodes, with letters in any order.
use super::cluster::stands;
use std::test::Fail;

#[test]
fn an_epoch_is_formed(rt: HostRuntime) -> Result<(), Fail> {
    let table = b"\
l 1    > 0.0 none
o 1    > 1.1 G12 G13
l 1    > 1.1 none
p G13  > J31
p G12  > J21
l 3    > 1.1 none
p J31  >
p J21  >
c 1    > 1.1 I12 I13
l 1    > 1.1 1.1 11 21 31
p I12  >
p I13  >
l 2    > 1.1 1.1 11 21 31
l 3    > 1.1 1.1 11 21 31
c 1    > none
c 2    > none";
    stands(&rt, rt.alloc(), table)
}

#[test]
fn the_later_of_two_groups_is_formed(rt: HostRuntime) -> Result<(), Fail> {
    let table = b"\
o 1    > 1.1 G12 G13
o 2    > 1.2 G21 G23
p G13  > J31
p G12  > old J21
p G23  > J32
p G21  > J12
p J31  > late
p J21  > late
c 1    > none
p J32  >
p J12  >
c 2    > 1.2 I21 I23
p I21  >
p I23  >
l 1    > 1.2 1.2 11 21 31
l 2    > 1.2 1.2 11 21 31
l 3    > 1.2 1.2 11 21 31";
    stands(&rt, rt.alloc(), table)
}

// Both coordinators are asked by the other, and each asks anew with what it was told.
#[test]
fn a_group_that_is_old_begins_anew(rt: HostRuntime) -> Result<(), Fail> {
    let table = b"\
o 2    > 1.2 G21 G23
p G23  > J32
o 1    > 1.1 G12 G13
p G12  > old J21
p J21  >
p G13  > old J31
p J31  >
o 1    > 2.1 G12 G13
p G12  > J21
p J32  > late
p G21  > old J12
p J12  > late
c 2    > none
p J21  >
c 1    > 2.1 I12
p G13  > J31
p J31  > late
p I12  >
l 2    > 2.1 2.1 11 21
l 3    > 2.1 none";
    stands(&rt, rt.alloc(), table)
}

// A Group and an Install that are heard again, and an Install that comes too late.
#[test]
fn letters_are_heard_again(rt: HostRuntime) -> Result<(), Fail> {
    let table = b"\
o 1    > 1.1 G12 G13
a G12  > J21
p G12  > J21
p J21  >
p J21  >
p G13  > J31
p J31  >
c 1    > 1.1 I12 I13
a I12  >
p I12  > old
l 2    > 1.1 1.1 11 21 31
o 2    > 2.2 G21 G23
p G23  > J32
p I13  > old
l 3    > 2.2 none
d G21  >
p J32  >
c 2    > 2.2 I23
p I23  >
l 3    > 2.2 2.2 21 31
l 2    > 2.2 2.2 21 31
l 1    > 1.1 1.1 11 21 31";
    stands(&rt, rt.alloc(), table)
}

// Node 3 is lost to the others: those that are left form an epoch of two, and it comes back in its next boot.
#[test]
fn members_go_and_come(rt: HostRuntime) -> Result<(), Fail> {
    let table = b"\
o 1    > 1.1 G12 G13
p G12  > J21
p G13  > J31
p J21  >
p J31  >
c 1    > 1.1 I12 I13
p I12  >
p I13  >
h 3    >
o 1    > 2.1 G12 G13
p G12  > J21
p G13  > down
p J21  >
c 1    > 2.1 I12
p I12  >
l 2    > 2.1 2.1 11 21
s 3    > 2 1.1
l 3    > 1.1 none
o 3    > 2.3 G31 G32
p G31  > J13
p G32  > J23
p J13  >
p J23  >
c 3    > 2.3 I31 I32
p I31  >
p I32  >
l 1    > 2.3 2.3 11 21 32
l 2    > 2.3 2.3 11 21 32
l 3    > 2.3 2.3 11 21 32";
    stands(&rt, rt.alloc(), table)
}
