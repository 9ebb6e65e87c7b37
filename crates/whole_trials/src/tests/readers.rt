// Logins of ann, whom node 1 manages, and fetches of her message 3.1.1, which nodes 1 and 3 have.
use super::cluster::stands_read;
use std::test::Fail;

// The manager judges, takes the lock and names the holders; each is asked for its list. The lock is held until the session has left.
#[test]
fn a_login_is_listed(rt: HostRuntime) -> Result<(), Fail> {
    let table = b"\
n 1    > 13
k 1    > none
b 2 t  > 1 L21
i 2 1  > 0/1
p L21  > l12
k 1    > 211
p l12  > C21 C23
i 2 1  > 0/2
p C23  > c32
p C21  > c12
p c12  >
i 2 1  > 1/2
p c32  >
i 2 1  > listed 311:5
i 2 1  > none
k 1    > 211
u 2 11 > U21
p U21  >
k 1    > none";
    stands_read(&rt, rt.alloc(), table)
}

// A wrong secret takes no lock, and nobody is asked for a list. So it is with a user of whom the plan says nothing.
#[test]
fn a_wrong_secret_takes_no_lock(rt: HostRuntime) -> Result<(), Fail> {
    let table = b"\
b 2 x  > 1 L21
p L21  > l12
k 1    > none
p l12  >
i 2 1  > wrong
b 1 x  > 1
i 1 1  > wrong
k 1    > none
b 1 t  > 2 C13
k 1    > 112
b 1 x  > 3
i 1 3  > wrong
k 1    > 112
b 2 z  > 2
i 2 2  > wrong";
    stands_read(&rt, rt.alloc(), table)
}

// The ticket that has the lock may ask again; another is told who has it, and its Unlock lets nothing go.
#[test]
fn one_login_has_the_lock(rt: HostRuntime) -> Result<(), Fail> {
    let table = b"\
b 3 t  > 2 L31
a L31  > l13
p L31  > l13
k 1    > 312
p l13  > C31
p l13  >
i 3 2  > 1/2
b 2 t  > 1 L21
p L21  > l12
p l12  >
i 2 1  > in-use 312
b 1 t  > 1
i 1 1  > in-use 312
u 2 11 > U21
p U21  >
u 1 11 >
k 1    > 312
u 3 21 > U31
a U31  >
k 1    > none
b 2 t  > 2 L21
p L21  > l12
k 1    > 212
p U31  >
k 1    > 212";
    stands_read(&rt, rt.alloc(), table)
}

// All locks go as the manager installs the next epoch. A login that waits for a letter of the old one fails, and whoever holds the
// lock by then keeps it.
#[test]
fn an_epoch_lets_all_locks_go(rt: HostRuntime) -> Result<(), Fail> {
    let table = b"\
b 2 t  > 1 L21
p L21  > l12
p l12  > C21 C23
p C21  > c12
k 1    > 211
o 1    > 2.1 G12 G13
p G12  > J21
p G13  > J31
p J21  >
k 1    > 211
p J31  >
c 1    > 2.1 I12 I13
k 1    > none
b 3 t  > 2 L31
p L31  > stale U31
i 3 2  > failed s1
p I12  >
p I13  >
p c12  > stale U21
p C23  > stale
i 2 1  > failed s2
b 3 t  > 3 L31
p L31  > l13
k 1    > 313
p U21  >
p U31  > stale
k 1    > 313
h 1    >
s 1    > 2 2.1
k 1    > none";
    stands_read(&rt, rt.alloc(), table)
}

// Each letter twice: the first counts.
#[test]
fn letters_are_heard_twice(rt: HostRuntime) -> Result<(), Fail> {
    let table = b"\
b 2 t  > 1 L21
p L21  > l12
a l12  > C21 C23
p l12  >
a C21  > c12
p C21  > c12
p c12  >
p c12  >
i 2 1  > 1/2
a C23  > c32
a c32  >
i 2 1  > listed 311:5
p c32  > late
p C23  > c32
p c32  > late";
    stands_read(&rt, rt.alloc(), table)
}

// A login without one of its letters fails, and gives the lock back once.
#[test]
fn a_lost_letter_fails_a_login(rt: HostRuntime) -> Result<(), Fail> {
    let table = b"\
b 2 t  > 1 L21
d L21  > U21
i 2 1  > failed l1
p U21  >
b 2 t  > 2 L21
p L21  > l12
k 1    > 212
d l12  > U21
k 1    > 212
p U21  >
k 1    > none
i 2 2  > failed l1
b 2 t  > 3 L21
p L21  > l12
p l12  > C21 C23
d C21  > U21
d C23  >
d U21  >
i 2 3  > failed l2
k 1    > 213
u 2 31 > U21
p U21  >
b 2 t  > 4 L21
p L21  > l12
p l12  > C21 C23
p C21  > c12
p C23  > c32
p c12  >
d c32  > U21
i 2 4  > failed l1
p U21  >
k 1    > none";
    stands_read(&rt, rt.alloc(), table)
}

// The manager stops before it is asked, before it has told a list and before that list is heard; and behind that.
#[test]
fn a_manager_stops(rt: HostRuntime) -> Result<(), Fail> {
    let asked = b"\
b 2 t  > 1 L21
h 1    >
p L21  > down U21
p U21  > down
i 2 1  > failed d1";
    stands_read(&rt, rt.alloc(), asked)?;
    let told = b"\
b 2 t  > 1 L21
p L21  > l12
h 1    >
p l12  > C21 C23
p C23  > c32
p C21  > down U21
p c32  >
p U21  > down
i 2 1  > failed d1";
    stands_read(&rt, rt.alloc(), told)?;
    let listed = b"\
b 2 t  > 1 L21
p L21  > l12
p l12  > C21 C23
p C21  > c12
h 1    >
p c12  >
p C23  > c32
p c32  >
i 2 1  > listed 311:5
u 2 11 > U21
p U21  > down";
    stands_read(&rt, rt.alloc(), listed)
}

// A holder that stops before it has told its list fails the login. One whose node takes no part in it does not.
#[test]
fn a_holder_stops(rt: HostRuntime) -> Result<(), Fail> {
    let table = b"\
b 2 t  > 1 L21
p L21  > l12
p l12  > C21 C23
h 3    >
p C23  > down U21
p C21  > c12
p c12  >
i 2 1  > failed d1
p U21  >
k 1    > none
b 1 t  > 1 C13
k 1    > 111
p C13  > down
k 1    > none
i 1 1  > failed d1";
    stands_read(&rt, rt.alloc(), table)
}

// A login that is given up gives its lock back, unless it was denied or has failed. A word that comes later is late; the lock that
// was taken for it stands.
#[test]
fn logins_are_given_up(rt: HostRuntime) -> Result<(), Fail> {
    let table = b"\
b 2 t  > 1 L21
g 2 1  > U21
i 2 1  > none
g 2 1  >
p U21  >
p L21  > l12
p l12  > late
k 1    > 211
u 2 11 > U21
p U21  >
b 2 t  > 2 L21
p L21  > l12
p l12  > C21 C23
g 2 2  > U21
p U21  >
k 1    > none
p C21  > c12
p C23  > c32
p c12  > late
d c32  >
b 2 x  > 3 L21
p L21  > l12
p l12  >
g 2 3  >
b 2 t  > 4 L21
d L21  > U21
g 2 4  >
p U21  >
b 1 t  > 1 C13
k 1    > 111
g 1 1  >
k 1    > none
d C13  >";
    stands_read(&rt, rt.alloc(), table)
}

// The manager reads itself: no letter is sent to itself, and the lock needs none.
#[test]
fn a_manager_reads(rt: HostRuntime) -> Result<(), Fail> {
    let table = b"\
b 1 t  > 1 C13
i 1 1  > 1/2
p C13  > c31
p c31  >
i 1 1  > listed 311:5
k 1    > 111
u 1 11 >
k 1    > none
b 1 t  > 2 C13
k 1    > 112
d C13  >
k 1    > none
i 1 2  > failed l1";
    stands_read(&rt, rt.alloc(), table)
}

// One holder is asked after another, the own node first. A part counts that comes late, and so does it that the message is gone.
#[test]
fn holders_are_asked_in_turn(rt: HostRuntime) -> Result<(), Fail> {
    let table = b"\
e 2 35 > 1 E21
i 2 1  > 0/1
p E21  > e12
p e12  >
i 2 1  > 5/4
i 2 1  > none
e 3 35 > 2
i 3 2  > 5/4
e 1 36 > 1 E12
p E12  > e21
p e21  >
i 1 1  > gone
e 2 35 > 2 E21
a E21  > e12
d E21  > E23
p e12  >
i 2 2  > 5/4
p E23  > e32
p e32  > late
e 2 35 > 3 E21
g 2 3  >
p E21  > e12
p e12  > late
i 2 3  > none";
    stands_read(&rt, rt.alloc(), table)
}

// The first holder is down, and then the last; a holder's disk fails; and no holder is a member.
#[test]
fn holders_fail(rt: HostRuntime) -> Result<(), Fail> {
    let table = b"\
x 3 1  >
e 2 35 > 1 E21
h 1    >
p E21  > down E23
p E23  > fell
i 2 1  > failed d1 k1
e 2 35 > 2 E21
p E21  > down E23
p E23  > down
i 2 2  > failed d2
e 2 30 > 3
i 2 3  > failed f1
h 2    >
s 2    > 2 1.1
e 2 35 > 1
i 2 1  > failed f1
b 2 t  > 2
i 2 2  > failed f1";
    stands_read(&rt, rt.alloc(), table)?;
    let own = b"\
x 3 1  >
e 3 35 > fell
i 3 2  > none";
    stands_read(&rt, rt.alloc(), own)
}
