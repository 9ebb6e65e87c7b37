// A service over disks that tell nothing of what they hold.
ghost use Rattle.std.specs.Prelude.{◌≤◌};

use super::console::ORDERS;
use super::plans::plan;
use super::signals::Signals;
use super::trials::{Outside, SOUND, STOPPED, agrees_wholly, serves};
use super::worlds::{counts, mute_disks, opened_over};
use std::alloc::Global;
use std::process::Abort;
use std::sync::Wait;
use std::test::Fail;
use std::thread::Threads;
use std::time::Clock;

// Mail goes in, its node stops, starts again and regroups, and the mail is read.
const READ_AFTER: &[u8] = b"\
S1
<220 node1 Porcupine ready
>HELO c.example
<250 node1
>MAIL FROM:<bob@b.example>
<250 sender ok
>RCPT TO:<ann>
<250 recipient ok
>DATA
<354 end with a line that is a single period
>a text
>.
<250 stored
>QUIT
<221 node1 closing
C
@1
>crash 1
<*0 node 1 down
>start 1
<*0 node 1 up 2
>group 1
<*0 epoch 2.1 members 1
!9
@3
>sum
<*0 sum acked 1 struck 0 dropped 0 lost 0
>stop
P1@9
<+OK node1 ready <2.2.0@node1>
>USER ann
<+OK send PASS
>PASS sesame
<+OK maildrop open
>RETR 1
<+OK 137 octets
<Return-Path: <bob@b.example>
<Received: from c.example
< by node1 with SMTP id <1.1.1@node1>;
< Thu, 01 Jan 1970 00:00:00 +0000
<a text
<.
>QUIT
<+OK bye
";

// Serves a cluster of so many nodes over such disks. It is to end at the line `stop`, and each party to hear all. Gives the counts
// of its book.
fn goes_untold<R: Abort + Threads + Wait + Clock + Sync>(
    rt: &R,
    alloc: Global,
    text: &'static [u8],
    nodes: u8,
) -> Result<[u64; 4], Fail>
    requires some { 1 ≤ nodes }
    requires few { nodes ≤ 16 }
{
    let plan = plan(alloc, nodes, nodes, nodes)?;
    let Some(world) = opened_over(alloc, nodes, mute_disks(alloc, nodes)?) else {
        panic!(rt; "no memory");
    };
    let signals = Signals::new();
    let outside = Outside { text, ..SOUND };
    let (end, world) = serves(rt, alloc, outside, &plan, &signals, world)?;
    agrees_wholly(rt, &signals, text);
    assert_eq!(rt; end, STOPPED);
    Ok(counts(&world.sum()))
}

#[test]
fn each_line_is_answered(rt: HostRuntime) -> Result<(), Fail> {
    assert_eq!(rt; goes_untold(&rt, rt.alloc(), ORDERS, 3)?, [0, 0, 0, 1]);
    Ok(())
}

#[test]
fn mail_is_read_after_a_start(rt: HostRuntime) -> Result<(), Fail> {
    assert_eq!(rt; goes_untold(&rt, rt.alloc(), READ_AFTER, 1)?, [1, 0, 0, 0]);
    Ok(())
}
