// Calls of clients at node 1, and what answers them.
use super::stands;
use std::test::Fail;

/// Deliveries: the targets move on with each number, and a message is stored once two of them have it.
const DELIVERIES: &[u8] = b"\
d - --- -- - 1 - - > F 2 111 11 3 1 1 1
? - 111 -- - - - - > 111 11 3 h o2
i - --- -- - - 1 - > d12nf
a - --- -- - - 1 - > 1/2
f 2 111 -- - - 1 2 > stale
f 2 111 -- - - 2 1 > late
f 2 111 -- - - 0 1 > late
f 2 112 -- - - 1 1 >
f 3 111 -- - - 1 1 >
a - --- -- - - 1 - > 1/2
f 2 111 -- - - 1 1 >
f 2 111 -- - - 1 1 >
i - --- -- - - 1 - > d10yf
a - --- -- - - 1 - > stored 3
a - --- -- - - 1 - > none
i - --- -- - - 1 - > -00n-
f 2 111 -- - - 1 1 > late
d - --- -- - 1 - - > F 2 112 21 6 1 2 1 F 3 112 21 6 1 2 1
? - 112 -- - - - - > --- -- - - -
a - --- -- - - 2 - > 0/2
f 3 112 -- - - 2 1 >
a - --- -- - - 2 - > 1/2
f 2 112 -- - - 2 1 >
a - --- -- - - 2 - > stored 6
d - --- -- - 2 - - > F 3 113 31 5 2 3 1
m 2 --- -- - - 3 - > yes
a - --- -- - - 3 - > 1/2
m 3 --- -- - - 3 - > yes
a - --- -- - - 3 - > failed
m 3 --- -- - - 3 - > no
d - --- -- - 1 - - > F 2 114 41 3 1 4 1
g - --- -- - - 4 - > yes
g - --- -- - - 4 - > no
f 2 114 -- - - 4 1 > late
y - --- -- - 1 - - >
i - --- -- - - 5 - > d00y-
a - --- -- - - 5 - > failed
d - --- -- - 1 - - > F 3 116 51 5 1 6 1
r - --- -- - - - - > 2
a - --- -- - - 6 - > none
? - 111 -- - - - - > 111 11 3 h o2
? - 116 -- - - - - > 116 51 5 h o3
d - --- -- - 1 - - > F 2 121 61 3 1 1 1";

/// Deletions: each asks the members among the listed targets, and others where these are too few.
const DELETIONS: &[u8] = b"\
d - --- -- - 1 - - > F 2 111 11 3 1 1 1
k - 111 -- 3 1 - - > S 2 111 21 - 1 2 1
? - 111 -- - - - - > 111 21 7 g o23
i - --- -- - - 2 - > k12n-
a - --- -- - - 2 - > 0/1
s 3 111 -- - - 2 1 >
s 2 112 -- - - 2 1 >
f 2 111 -- - - 2 1 >
a - --- -- - - 2 - > 0/1
s 2 111 -- - - 2 2 > stale
s 2 111 -- - - 2 1 >
a - --- -- - - 2 - > dropped 3
s 2 111 -- - - 2 1 > late
k - 211 -- 4 1 - - > S 3 211 31 - 1 3 1
? - 211 -- - - - - > 211 31 7 g -23
k - 212 -- 6 1 - - > S 2 212 41 - 1 4 1 S 3 212 41 - 1 4 1
? - 212 -- - - - - > --- -- - - -
k - 213 -- 7 2 - - > S 2 213 51 - 2 5 1 S 3 213 51 - 2 5 1
? - 219 -- - - - - > 219 61 7 g -23
a - --- -- - - 5 - > 0/2
s 3 219 -- - - 5 1 >
a - --- -- - - 5 - > 1/2
s 2 213 -- - - 5 1 >
a - --- -- - - 5 - > dropped 35";

/// What is owed to the others is pushed to them until they have it.
const PUSHES: &[u8] = b"\
d - --- -- - 1 - - > F 2 111 11 3 1 1 1
p 2 --- -- 9 9 - - > P 2 111 11 3 h - 1
p 2 --- -- 9 9 - - > P 2 111 11 3 h - 1
o 2 --- -- - - - - > yes
o 3 --- -- - - - - > no
o 1 --- -- - - - - > no
p 3 --- -- 9 9 - - >
p 1 --- -- 9 9 - - >
p 4 --- -- 9 9 - - >
p 2 --- -- 0 9 - - >
p 2 --- -- 9 1 - - >
w 2 111 -- - - - - > no
w 3 112 -- - - - - > no
w 3 111 -- - - - - > yes
w 3 111 -- - - - - > no
? - 111 -- - - - - > 111 11 7 h o23
p 3 --- -- 9 9 - - > P 3 111 11 7 h - 1
A 3 111 11 3 h 0 1 >
A 3 111 11 7 h 0 1 >
p 3 --- -- 9 9 - - >
k - 113 -- 3 2 - - > S 2 113 21 - 2 2 1
p 2 --- -- 9 9 - - > P 2 111 11 7 h - 1 P 2 113 21 7 g - 1 P 2 119 31 7 g - 1
p 2 --- -- 2 9 - - > P 2 111 11 7 h - 1 P 2 113 21 7 g - 1
p 3 --- -- 9 9 - - > P 3 113 21 7 g - 1 P 3 119 31 7 g - 1
p 3 --- -- 9 1 - - > P 3 113 21 7 g - 1
A 2 111 11 7 h 0 1 > R 2 111 11 7 h - 1 R 3 111 11 7 h - 1
p 2 --- -- 9 2 - - > P 2 113 21 7 g - 1 P 2 119 31 7 g - 1
w 2 113 -- - - - - > no
r - --- -- - - - - > 2
p 2 --- -- 9 9 - - > P 2 113 21 7 g - 1 P 2 119 31 7 g - 1";

#[test]
fn calls_are_answered(rt: HostRuntime) -> Result<(), Fail> {
    stands(&rt, rt.alloc(), b'1', DELIVERIES)?;
    stands(&rt, rt.alloc(), b'1', DELETIONS)?;
    stands(&rt, rt.alloc(), b'1', PUSHES)
}
