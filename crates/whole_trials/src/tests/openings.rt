// Nodes that begin over empty disks, in the first epoch, which each makes for itself.
use super::cluster::stands_opened;
use std::test::Fail;

// All are in one epoch without a letter, and mail goes between them. A disk has the promise of it, and no more: a start has no
// epoch, and takes no call.
#[test]
fn a_cluster_begins_in_an_epoch(rt: HostRuntime) -> Result<(), Fail> {
    let table = b"\
l 1    > 1.1 1.1 11 21 31
l 2    > 1.1 1.1 11 21 31
l 3    > 1.1 1.1 11 21 31
m 3    > F31
p F31  > f13
p f13  >
n 1    > 1
c 1    > none
h 3    >
s 3    > 2 1.1
l 3    > 1.1 none
m 3    >
m 2    > F23
p F23  > stale";
    stands_opened(&rt, rt.alloc(), table)
}

// Messages go to the members of the epoch that their node has installed, and letters of another epoch are stale.
#[test]
fn a_first_epoch_is_followed(rt: HostRuntime) -> Result<(), Fail> {
    let table = b"\
m 2    > F23
o 2    > 2.2 G21 G23
p G21  > J12
p J12  >
c 2    > 2.2 I21
p I21  >
l 1    > 2.2 2.2 11 21
l 3    > 1.1 1.1 11 21 31
m 2    > F21
p F21  > f12
p f12  >
m 3    > F31
p F31  > stale
p F23  > f32
p f32  > stale
p G23  > J32
p J32  > late
l 3    > 2.2 1.1 11 21 31";
    stands_opened(&rt, rt.alloc(), table)
}
