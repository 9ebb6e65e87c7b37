// Epochs that node 1 installs: `I` installs the one of this count whose members are the nodes of the mask, or none. `N` starts the
// node again, and nothing is installed.
ghost use Rattle.std.specs.Prelude.{ℕ, List, Option};
ghost use Rattle.node_core.specs.Nodes.{CanWork};

use super::lines::{digit, node_at};
use super::stands;
use mail_base::{EpochId, Member, Sequence, UserMap};
use membership::Install;
use node_core::Node;
use std::alloc::{AllocError, Global};
use std::test::Fail;

fn members_at(alloc: Global, line: &[u8]) -> Result<Sequence<Member>, AllocError> {
    let mask = digit(line, 11);
    let mut members = Sequence::new(alloc);
    for number in 1..4u8 {
        if (mask >> (number - 1)) & 1 == 1 {
            let node = node_at(&[b'0' + number], 0);
            members.push(Member::new(node, 1, EpochId::none()))?;
        }
    }
    Ok(members)
}

/// The node installs the epoch of the line.
pub(super) fn installs(alloc: Global, node: &mut Node, line: &[u8]) -> Result<(), AllocError>
    ensures works { (seen : Option (List ℕ)) → CanWork seen node.old → CanWork seen node.new }
{
    let count = u64::from(digit(line, 17));
    if count == 0 {
        node.install(None);
        return Ok(());
    }
    let members = members_at(alloc, line)?;
    let map = UserMap::from_rows(Vec::new(alloc));
    node.install(Some(Install::new(EpochId::new(count, 1), members, map)));
    Ok(())
}

/// The node installs the epoch 1.1 of all three nodes.
pub(super) fn installs_all(alloc: Global, node: &mut Node) -> Result<(), AllocError>
    ensures works { (seen : Option (List ℕ)) → CanWork seen node.old → CanWork seen node.new }
{
    installs(alloc, node, b"I - --- -- 7 - - 1")
}

// A node that has started has no epoch: what is to be delivered or deleted is sent to nobody and leaves its disk as it is, and
// letters are stale.
#[test]
fn a_start_has_no_epoch(rt: HostRuntime) -> Result<(), Fail> {
    let alloc = rt.alloc();
    let table = b"\
d - --- -- - 1 - - > F 2 111 11 3 1 1 1
N - --- -- - - - - > 2
d - --- -- - 1 - - >
k - 111 -- 3 1 - - >
? - 111 -- - - - - > 111 11 3 h o2
F 2 234 12 3 1 - 1 > stale
p 2 --- -- 9 9 - - >
I - --- -- 7 - - 1 >
F 2 234 12 3 1 - 1 > f 2 234 -- - - - 1
d - --- -- - 1 - - > F 2 122 21 6 1 3 1 F 3 122 21 6 1 3 1";
    stands(&rt, alloc, 1, table)
}

#[test]
fn messages_go_to_members(rt: HostRuntime) -> Result<(), Fail> {
    let alloc = rt.alloc();
    let table = b"\
I - --- -- 3 - - 2 >
d - --- -- - 1 - - > F 2 111 11 3 1 1 2
f 2 111 -- - - 1 1 > stale
f 2 111 -- - - 1 2 >
a - --- -- - - 1 - > stored 3
d - --- -- - 1 - - > F 2 112 21 3 1 2 2
I - --- -- 6 - - 3 >
f 2 112 -- - - 2 2 > stale
d - --- -- - 1 - - > F 2 113 31 6 1 3 3 F 3 113 31 6 1 3 3
? - 113 -- - - - - > --- -- - - -
I - --- -- 1 - - 4 >
d - --- -- - 1 - - >
i - --- -- - - 4 - > d00y-
a - --- -- - - 4 - > failed
I - --- -- - - - - >
k - 111 -- 3 1 - - >
a - --- -- - - 5 - > failed
f 2 113 -- - - 3 3 > stale
r - --- -- - - - - > 2
d - --- -- - 1 - - > F 2 121 31 3 1 1 1";
    stands(&rt, alloc, 1, table)
}
