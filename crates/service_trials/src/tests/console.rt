// What the console is answered, and how it ends.

use super::plans::plan;
use super::signals::Signals;
use super::trials::{Outside, SOUND, STOPPED, agrees_wholly, goes, serves};
use super::worlds::{confirmers, counts, is_up, opened};
use mail_service::{ConsoleEnd, DoorEnd, ServiceEnd};
use std::test::Fail;

// Each order, and each refusal.
pub(super) const ORDERS: &[u8] = b"\
C
>sum
<*0 sum acked 0 struck 0 dropped 0 lost 0
>crash 2
<*0 node 2 down
>crash 2
<! line 3 NodeDown
>group 2
<! line 4 NodeDown
>start 2\r
<*0 node 2 up 2
>start 2
<! line 6 NodeUp
>group 2
<*0 epoch 2.2 members 1 2 3
>lose 2
<*0 node 2 lost
>lose 2
<! line 9 NodeLost
>start 2
<! line 10 NodeLost
>group 2
<! line 11 NodeLost
>group 3
<*0 epoch 3.3 members 1 3
>crash 4
<! line 13 NoSuchNode
>group 4
<! line 14 NoSuchNode
>lose 17
<! line 15 NoSuchNode
>stop it
<! line 16 BadLine
>group
<! line 17 BadLine
>
<! line 18 BadLine
>~~~~~~~~~~~~~~~~~~~~~~~~~~~~~~~~~~~~~~~~~~~~~~~~~~~~~~~~~~~~~~~~~~~~~~~~~~~~~~~~~~~~~~~~~~~~~~~~~~~~~~~~~~~~~~~~~~~~~~~~~~~~~~~~~~~~
<! line 19 BadLine
>sum
<*0 sum acked 0 struck 0 dropped 0 lost 1
>stop\r
>crash 1
";

// It ends without a line.
const NOTHING: &[u8] = b"\
C
";

// It ends without `stop`.
const NO_STOP: &[u8] = b"\
C
>crash 1
<*0 node 1 down
>sum
<*0 sum acked 0 struck 0 dropped 0 lost 0
";

// A node stops in the middle of a text. It starts, is let in by a regroup, and takes mail again.
const STOPS: &[u8] = b"\
S2
<220 node2 Porcupine ready
>HELO c.example
<250 node2
>MAIL FROM:<bob@b.example>
<250 sender ok
>RCPT TO:<ann>
<250 recipient ok
>DATA
<354 end with a line that is a single period
>a text
!7
@8
>.
<421 node2 down
C
@7
>crash 2
<*0 node 2 down
!8
@1
>start 2
<*0 node 2 up 2
>group 1
<*0 epoch 2.1 members 1 2 3
!9
@3
>stop
S2@9
<220 node2 Porcupine ready
>HELO c.example
<250 node2
>MAIL FROM:<bob@b.example>
<250 sender ok
>RCPT TO:<ann>
<250 recipient ok
>DATA
<354 end with a line that is a single period
>a text
>.
<250 stored
>QUIT
<221 node2 closing
";

// A node that was started has no epoch, and takes no mail.
const NO_EPOCH: &[u8] = b"\
C
>crash 2
<*0 node 2 down
>start 2
<*0 node 2 up 2
!9
@2
>stop
S2@9
<220 node2 Porcupine ready
>HELO c.example
<250 node2
>MAIL FROM:<bob@b.example>
<250 sender ok
>RCPT TO:<ann>
<250 recipient ok
>DATA
<354 end with a line that is a single period
>a text
>.
<451 not stored, try again
>QUIT
<221 node2 closing
";

// Two of four nodes are lost. The two that are left regroup, and have the two copies of each message.
const TWO_LEFT: &[u8] = b"\
C
>lose 3
<*0 node 3 lost
>lose 4
<*0 node 4 lost
>group 2
<*0 epoch 2.2 members 1 2
!9
@2
@3
>sum
<*0 sum acked 2 struck 0 dropped 0 lost 2
>stop
S1@9
<220 node1 Porcupine ready
>HELO c.example
<250 node1
>MAIL FROM:<bob@b.example>
<250 sender ok
>RCPT TO:<ann>
<250 recipient ok
>DATA
<354 end with a line that is a single period
>a text
>.
<250 stored
>QUIT
<221 node1 closing
S2@9
<220 node2 Porcupine ready
>HELO c.example
<250 node2
>MAIL FROM:<bob@b.example>
<250 sender ok
>RCPT TO:<ann>
<250 recipient ok
>DATA
<354 end with a line that is a single period
>a text
>.
<250 stored
>QUIT
<221 node2 closing
";

// The latest epoch settles, as long as its members are live, and each user's manager names who has mail of the user.
const SETTLES: &[u8] = b"\
C
@2
>settle
<*0 settled
>maps ann
<*0 maps ann at 1: 1 2
>maps ALICE@Example.ORG\r
<*0 maps alice@example.org at 1:
>maps bob
<! line 4 BadLine
>maps
<! line 5 BadLine
>settle 1
<! line 6 BadLine
>lose 1
<*0 node 1 lost
>maps ann
<*0 maps ann none
>settle
<*0 not-all-up 1
>group 3
<*0 epoch 2.3 members 2 3
>settle
<*0 settled
>maps ann
<*0 maps ann at 2: 2
>stop
S1
<220 node1 Porcupine ready
>HELO c.example
<250 node1
>MAIL FROM:<bob@b.example>
<250 sender ok
>RCPT TO:<ann>
<250 recipient ok
>DATA
<354 end with a line that is a single period
>a text
>.
<250 stored
>QUIT
<221 node1 closing
";

// How a service ended whose console ended at this line, without `stop`.
fn early(line: u64) -> ServiceEnd {
    ServiceEnd::Served {
        console: ConsoleEnd::Early { line },
        doors: DoorEnd::Quiet,
    }
}

#[test]
fn each_line_is_answered(rt: HostRuntime) -> Result<(), Fail> {
    let outside = Outside {
        text: ORDERS,
        ..SOUND
    };
    let world = goes(&rt, rt.alloc(), outside, 3, STOPPED)?;
    assert_eq!(rt; counts(&world.sum()), [0, 0, 0, 1]);
    assert!(rt; is_up(&world, 1) && !is_up(&world, 2) && is_up(&world, 3));
    Ok(())
}

#[test]
fn it_may_end_without_stop(rt: HostRuntime) -> Result<(), Fail> {
    let nothing = Outside {
        text: NOTHING,
        ..SOUND
    };
    let no_stop = Outside {
        text: NO_STOP,
        ..SOUND
    };
    goes(&rt, rt.alloc(), nothing, 1, early(1))?;
    goes(&rt, rt.alloc(), no_stop, 1, early(3))?;
    Ok(())
}

#[test]
fn a_node_stops_and_starts_again(rt: HostRuntime) -> Result<(), Fail> {
    let outside = Outside {
        text: STOPS,
        ..SOUND
    };
    let world = goes(&rt, rt.alloc(), outside, 3, STOPPED)?;
    assert_eq!(rt; counts(&world.sum()), [1, 0, 0, 0]);
    assert!(rt; is_up(&world, 2));
    Ok(())
}

#[test]
fn a_node_without_an_epoch_takes_no_mail(rt: HostRuntime) -> Result<(), Fail> {
    let outside = Outside {
        text: NO_EPOCH,
        ..SOUND
    };
    let world = goes(&rt, rt.alloc(), outside, 3, STOPPED)?;
    assert_eq!(rt; counts(&world.sum()), [0, 0, 0, 0]);
    Ok(())
}

#[test]
fn those_that_are_left_take_mail(rt: HostRuntime) -> Result<(), Fail> {
    let alloc = rt.alloc();
    let plan = plan(alloc, 4, 2, 2)?;
    let Ok(world) = opened(alloc, 4, 2, 2, 0, 0) else {
        panic!(rt; "no world");
    };
    let signals = Signals::new();
    let outside = Outside {
        text: TWO_LEFT,
        ..SOUND
    };
    let (end, world) = serves(&rt, alloc, outside, &plan, &signals, world)?;
    agrees_wholly(&rt, &signals, TWO_LEFT);
    assert_eq!(rt; end, STOPPED);
    assert_eq!(rt; counts(&world.sum()), [2, 0, 0, 2]);
    let last = world.book().entries().last();
    assert_eq!(rt;
        confirmers(last, b"ann", 1).max(confirmers(last, b"ann", 2)),
        2
    );
    Ok(())
}

#[test]
fn the_latest_epoch_settles(rt: HostRuntime) -> Result<(), Fail> {
    let alloc = rt.alloc();
    let plan = plan(alloc, 3, 2, 2)?;
    let Ok(world) = opened(alloc, 3, 2, 2, 0, 0) else {
        panic!(rt; "no world");
    };
    let signals = Signals::new();
    let outside = Outside {
        text: SETTLES,
        ..SOUND
    };
    let (end, world) = serves(&rt, alloc, outside, &plan, &signals, world)?;
    agrees_wholly(&rt, &signals, SETTLES);
    assert_eq!(rt; end, STOPPED);
    assert_eq!(rt; counts(&world.sum()), [1, 0, 0, 1]);
    Ok(())
}
