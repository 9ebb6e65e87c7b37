// Logins at a node that neither manages the user nor has its mail: each of their letters lost, repeated and out of order; a manager
// that stops; locks of maildrops.

use super::each_case;
use std::test::Fail;

// Nodes 1 and 3 have a message each, and node 1 manages alice. A session at node 2 has sent USER. The next letter is 3.
const USER_SENT: &[u8] = b"\
nodes 3
copies 1 1
buckets 1
user alice tanstaaf
postmaster alice
go
open smtp 1
  1 220 node1 Porcupine ready
say 1 HELO c.example
  1 250 node1
say 1 MAIL FROM:<>
  1 250 sender ok
say 1 RCPT TO:<alice>
  1 250 recipient ok
say 1 DATA
  1 354 end with a line that is a single period
say 1 one
say 1 .
  1 250 stored
say 1 QUIT
  1 221 node1 closing
  * 1 closed
open smtp 3
  2 220 node3 Porcupine ready
say 2 HELO c.example
  2 250 node3
say 2 MAIL FROM:<>
  2 250 sender ok
say 2 RCPT TO:<alice>
  2 250 recipient ok
say 2 DATA
  2 354 end with a line that is a single period
say 2 three!!
say 2 .
  2 250 stored
say 2 QUIT
  2 221 node3 closing
  * 2 closed
settle
  * settled
maps alice
  * maps alice at 1: 1 3
open pop 2
  3 +OK node2 ready <1.3.0@node2>
say 3 USER alice
  3 +OK send PASS
";

// The manager is asked, and then each node that it names. The lists come in any order.
const ANSWERED: &[u8] = b"\
say 3 PASS tanstaaf
post 3
  * 3 heard
post 4
  * 4 heard
post 6
  * 6 heard
post 5
  * 5 heard
post 7
  * 7 heard
post 8
  * 8 heard
  3 +OK maildrop open
say 3 UIDL
  3 +OK unique ids
  3 1 1.1.1
  3 2 3.1.1
  3 .
end
say 3 PASS guess
post 3
  * 3 heard
post 4
  * 4 heard
  3 -ERR name or secret is wrong
say 3 USER nobody
  3 +OK send PASS
say 3 PASS tanstaaf
  3 -ERR name or secret is wrong
end
";

// Each letter is dropped: the login fails, and its lock goes back by a letter of its own.
const DROPPED: &[u8] = b"\
say 3 PASS tanstaaf
drop 3
  3 -ERR [SYS/TEMP] try again later
say 3 USER alice
  3 +OK send PASS
say 3 PASS tanstaaf
flow
  * flowed
  3 +OK maildrop open
end
say 3 PASS tanstaaf
post 3
  * 3 heard
drop 4
  3 -ERR [SYS/TEMP] try again later
say 3 USER alice
  3 +OK send PASS
say 3 PASS tanstaaf
post 6
  * 6 heard
post 7
  * 7 heard
  3 -ERR [IN-USE] maildrop is open elsewhere
post 5
  * 5 heard
say 3 USER alice
  3 +OK send PASS
say 3 PASS tanstaaf
flow
  * flowed
  3 +OK maildrop open
end
say 3 PASS tanstaaf
post 3
  * 3 heard
post 4
  * 4 heard
drop 5
  3 -ERR [SYS/TEMP] try again later
post 6
  * 6 heard
post 8
  * 8 thrown late
post 7
  * 7 heard
say 3 USER alice
  3 +OK send PASS
say 3 PASS tanstaaf
flow
  * flowed
  3 +OK maildrop open
end
say 3 PASS tanstaaf
post 3
  * 3 heard
post 4
  * 4 heard
post 5
  * 5 heard
post 6
  * 6 heard
post 7
  * 7 heard
drop 8
  3 -ERR [SYS/TEMP] try again later
drop 9
say 3 USER alice
  3 +OK send PASS
say 3 PASS tanstaaf
flow
  * flowed
  3 -ERR [IN-USE] maildrop is open elsewhere
regroup 1
  * epoch 2.1 members 1 2 3
settle
  * settled
say 3 USER alice
  3 +OK send PASS
say 3 PASS tanstaaf
flow
  * flowed
  3 +OK maildrop open
end
";

// Each letter is heard twice: the first counts, and one that comes once the login is answered is late.
const REPEATED: &[u8] = b"\
say 3 PASS tanstaaf
again 3
  * 3 heard
post 3
  * 3 heard
again 4
  * 4 heard
post 5
  * 5 heard
again 6
  * 6 heard
post 6
  * 6 heard
again 7
  * 7 heard
post 7
  * 7 heard
again 8
  * 8 heard
post 9
  * 9 heard
again 10
  * 10 heard
  3 +OK maildrop open
post 4
  * 4 thrown late
post 8
  * 8 thrown late
post 10
  * 10 thrown late
post 11
  * 11 thrown late
say 3 STAT
  3 +OK 2 246
end
";

// A login is given up. What answers it then is late; where its Unlock comes before its question, the lock stands until an epoch is
// installed.
const GIVEN_UP: &[u8] = b"\
say 3 PASS tanstaaf
giveup 3
  3 -ERR [SYS/TEMP] try again later
post 4
  * 4 heard
post 3
  * 3 heard
post 5
  * 5 thrown late
say 3 USER alice
  3 +OK send PASS
say 3 PASS tanstaaf
flow
  * flowed
  3 -ERR [IN-USE] maildrop is open elsewhere
regroup 1
  * epoch 2.1 members 1 2 3
settle
  * settled
say 3 USER alice
  3 +OK send PASS
say 3 PASS tanstaaf
flow
  * flowed
  3 +OK maildrop open
say 3 STAT
  3 +OK 2 246
end
say 3 PASS tanstaaf
post 3
  * 3 heard
post 4
  * 4 heard
giveup 3
  3 -ERR [SYS/TEMP] try again later
post 5
  * 5 heard
post 8
  * 8 thrown late
post 7
  * 7 heard
say 3 USER alice
  3 +OK send PASS
say 3 PASS tanstaaf
flow
  * flowed
  3 +OK maildrop open
end
";

// The manager stops before it is asked, before it tells a list, and behind that. It starts again, and has no epoch.
const MANAGER_STOPS: &[u8] = b"\
say 3 PASS tanstaaf
crash 1
  * node 1 down
post 3
  * 3 thrown down
  3 -ERR [SYS/TEMP] try again later
post 4
  * 4 thrown down
regroup 2
  * epoch 2.2 members 2 3
settle
  * settled
say 3 USER alice
  3 +OK send PASS
say 3 PASS tanstaaf
flow
  * flowed
  3 +OK maildrop open
say 3 STAT
  3 +OK 1 125
end
say 3 PASS tanstaaf
post 3
  * 3 heard
crash 1
  * node 1 down
post 4
  * 4 heard
post 6
  * 6 heard
post 5
  * 5 thrown down
  3 -ERR [SYS/TEMP] try again later
post 7
  * 7 thrown late
post 8
  * 8 thrown down
end
say 3 PASS tanstaaf
post 3
  * 3 heard
post 4
  * 4 heard
post 5
  * 5 heard
crash 1
  * node 1 down
post 7
  * 7 heard
post 6
  * 6 heard
post 8
  * 8 heard
  3 +OK maildrop open
say 3 STAT
  3 +OK 2 246
say 3 RETR 1
post 9
  * 9 thrown down
  3 -ERR [SYS/TEMP] try again later
say 3 QUIT
  3 +OK bye
  * 3 closed
post 10
  * 10 thrown down
end
say 3 PASS tanstaaf
crash 1
  * node 1 down
start 1
  * node 1 up 2
post 3
  * 3 thrown stale
  3 -ERR [SYS/TEMP] try again later
end
";

// One session has a maildrop at a time, at whichever node, and the name is the same in capitals. It is free once the session has
// left, by a QUIT or since its client is gone; where its node stops, once an epoch is installed.
const LOCKED: &[u8] = b"\
say 3 PASS tanstaaf
flow
  * flowed
  3 +OK maildrop open
open pop 3
  4 +OK node3 ready <1.4.0@node3>
say 4 USER ALICE
  4 +OK send PASS
say 4 PASS tanstaaf
flow
  * flowed
  4 -ERR [IN-USE] maildrop is open elsewhere
open pop 1
  5 +OK node1 ready <1.5.0@node1>
say 5 USER Alice
  5 +OK send PASS
say 5 PASS tanstaaf
  5 -ERR [IN-USE] maildrop is open elsewhere
say 3 QUIT
  3 +OK bye
  * 3 closed
flow
  * flowed
say 4 USER ALICE
  4 +OK send PASS
say 4 PASS tanstaaf
flow
  * flowed
  4 +OK maildrop open
say 4 STAT
  4 +OK 2 246
close 4
flow
  * flowed
say 5 USER alice
  5 +OK send PASS
say 5 PASS tanstaaf
flow
  * flowed
  5 +OK maildrop open
end
say 3 PASS tanstaaf
flow
  * flowed
  3 +OK maildrop open
crash 2
  * node 2 down
  3 -ERR [SYS/TEMP] node2 down
  * 3 closed
open pop 3
  4 +OK node3 ready <1.4.0@node3>
say 4 USER alice
  4 +OK send PASS
say 4 PASS tanstaaf
flow
  * flowed
  4 -ERR [IN-USE] maildrop is open elsewhere
regroup 1
  * epoch 2.1 members 1 3
settle
  * settled
say 4 USER alice
  4 +OK send PASS
say 4 PASS tanstaaf
flow
  * flowed
  4 +OK maildrop open
end
";

#[test]
fn a_manager_and_those_it_names_are_asked(rt: HostRuntime) -> Result<(), Fail> {
    each_case(&rt, rt.alloc(), USER_SENT, ANSWERED)
}

#[test]
fn a_login_without_a_letter_fails(rt: HostRuntime) -> Result<(), Fail> {
    each_case(&rt, rt.alloc(), USER_SENT, DROPPED)
}

#[test]
fn the_first_answer_counts(rt: HostRuntime) -> Result<(), Fail> {
    each_case(&rt, rt.alloc(), USER_SENT, REPEATED)
}

#[test]
fn a_login_is_given_up(rt: HostRuntime) -> Result<(), Fail> {
    each_case(&rt, rt.alloc(), USER_SENT, GIVEN_UP)
}

#[test]
fn a_manager_stops_in_a_login(rt: HostRuntime) -> Result<(), Fail> {
    each_case(&rt, rt.alloc(), USER_SENT, MANAGER_STOPS)
}

#[test]
fn one_session_has_a_maildrop(rt: HostRuntime) -> Result<(), Fail> {
    each_case(&rt, rt.alloc(), USER_SENT, LOCKED)
}
