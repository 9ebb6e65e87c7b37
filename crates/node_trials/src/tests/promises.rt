// Epochs that node 1 promises, and what a start then tells of them: `v` promises one of this count and node, `V` starts again
// and tells the boot and the last promise, and `u` tells whom the node knows.
use super::stands;
use std::test::Fail;

#[test]
fn the_last_promise_is_found(rt: HostRuntime) -> Result<(), Fail> {
    let alloc = rt.alloc();
    let promised = b"\
u - --- -- - - - - >
v - --- 72 - - - - >
d - --- -- - 1 - - > F 2 111 11 3 1 1 1
v - --- 93 - - - - >
? - 111 -- - - - - > 111 11 3 h o2
u - --- -- - - - - > ann
V - --- -- - - - - > 2 93
? - 111 -- - - - - > 111 11 3 h o2
u - --- -- - - - - > ann
v - --- 81 - - - - >
d - --- -- - 1 - - > F 2 121 21 3 1 1 1
r - --- -- - - - - > 3
V - --- -- - - - - > 4 81";
    stands(&rt, alloc, 1, promised)?;
    let none = b"\
V - --- -- - - - - > 2 00
V - --- -- - - - - > 3 00";
    stands(&rt, alloc, 1, none)
}
