// Each part of the outside fails in turn.
ghost use Rattle.std.specs.Prelude.{◌≤◌};

use super::signals::Signals;
use super::trials::{Outside, SOUND, STOPPED, agrees, agrees_wholly, goes, serves_weak};
use super::worlds::{calls, counts, is_up, opened};
use mail_service::{ConsoleEnd, DoorEnd, ServiceEnd};
use std::alloc::Global;
use std::process::Abort;
use std::sync::Wait;
use std::test::Fail;
use std::thread::Threads;
use std::time::Clock;

// One client sends, and another comes once that one was answered.
const TWO_CLIENTS: &[u8] = b"\
S1
<220 node1 Porcupine ready
>HELO c.example
<250 node1
>MAIL FROM:<bob@b.example>
<250 sender ok
>RCPT TO:<ann>
<250 recipient ok
>DATA
<354 end with a line that is a single period
>a text
>.
<250 stored
>QUIT
<221 node1 closing
S1@1
<220 node1 Porcupine ready
>QUIT
<221 node1 closing
C
@2
>stop
";

// The console has one line before `stop`.
const SUM: &[u8] = b"\
C
>sum
<*0 sum acked 0 struck 0 dropped 0 lost 0
>stop
";

// The disk of the client's node fails.
const FALLS: &[u8] = b"\
S1
<220 node1 Porcupine ready
>HELO c.example
<250 node1
>MAIL FROM:<bob@b.example>
<250 sender ok
>RCPT TO:<ann>
<250 recipient ok
>DATA
<354 end with a line that is a single period
>a text
>.
<421 node1 down
S1@1
C
@1
@2
>sum
<*0 sum acked 0 struck 0 dropped 0 lost 0
>stop
";

// The disk of the other node fails, which has to confirm.
const NOT_STORED: &[u8] = b"\
S1
<220 node1 Porcupine ready
>HELO c.example
<250 node1
>MAIL FROM:<bob@b.example>
<250 sender ok
>RCPT TO:<ann>
<250 recipient ok
>DATA
<354 end with a line that is a single period
>a text
>.
<451 not stored, try again
>QUIT
<221 node1 closing
C
@1
>sum
<*0 sum acked 0 struck 0 dropped 0 lost 0
>stop
";

// How many disk calls a node makes to record a message of another: two records, each in four.
const RECORDED: u64 = 8;

fn ended(console: ConsoleEnd, doors: DoorEnd) -> ServiceEnd {
    ServiceEnd::Served { console, doors }
}

// Serves over that outside, in which something fails. It is to end so, with a book in which nothing is.
fn fails<R: Abort + Threads + Wait + Clock + Sync>(
    rt: &R,
    alloc: Global,
    outside: Outside,
    end: ServiceEnd,
) -> Result<(), Fail> {
    let signals = Signals::new();
    let (came, world) = serves_weak(rt, alloc, outside, 2, 0, 0, &signals)?;
    agrees(rt, &signals);
    assert_eq!(rt; came, end);
    assert!(rt; world.book().entries().is_empty());
    Ok(())
}

#[test]
fn a_door_cannot_be_opened(rt: HostRuntime) -> Result<(), Fail> {
    for open in 1..=4u64 {
        let outside = Outside {
            text: TWO_CLIENTS,
            open,
            ..SOUND
        };
        fails(&rt, rt.alloc(), outside, ServiceEnd::Unopened)?;
    }
    Ok(())
}

// Both clients are served all the same: the door is called again.
#[test]
fn a_door_fails(rt: HostRuntime) -> Result<(), Fail> {
    for accept in 1..=3u64 {
        let outside = Outside {
            text: TWO_CLIENTS,
            accept,
            ..SOUND
        };
        let end = ended(ConsoleEnd::Stopped, DoorEnd::Failed);
        let world = goes(&rt, rt.alloc(), outside, 2, end)?;
        assert_eq!(rt; counts(&world.sum()), [1, 0, 0, 0]);
    }
    Ok(())
}

#[test]
fn the_console_fails(rt: HostRuntime) -> Result<(), Fail> {
    let sum = Outside { text: SUM, ..SOUND };
    // `sum` and `stop`, each with its LF
    for read in 1..=9u64 {
        let outside = Outside { read, ..sum };
        fails(
            &rt,
            rt.alloc(),
            outside,
            ended(ConsoleEnd::ReadFault, DoorEnd::Quiet),
        )?;
    }
    let outside = Outside { write: 1, ..sum };
    fails(
        &rt,
        rt.alloc(),
        outside,
        ended(ConsoleEnd::WriteFault, DoorEnd::Quiet),
    )?;
    Ok(())
}

// Serves a cluster of so many nodes, of which the disk of one fails at this call. That one goes down.
fn falls<R: Abort + Threads + Wait + Clock + Sync>(
    rt: &R,
    alloc: Global,
    text: &'static [u8],
    nodes: u8,
    weak: u8,
    call: u64,
) -> Result<(), Fail>
    requires some { 1 ≤ nodes }
    requires few { nodes ≤ 16 }
{
    let signals = Signals::new();
    let outside = Outside { text, ..SOUND };
    let (end, world) = serves_weak(rt, alloc, outside, nodes, weak, call, &signals)?;
    agrees_wholly(rt, &signals, text);
    assert_eq!(rt; end, STOPPED);
    assert!(rt; !is_up(&world, weak));
    Ok(())
}

// Each call of a disk fails that it has after its opening.
#[test]
fn a_disk_fails(rt: HostRuntime) -> Result<(), Fail> {
    let alloc = rt.alloc();
    let Ok(world) = opened(alloc, 1, 1, 1, 0, 0) else {
        panic!(rt; "no world");
    };
    let opening = calls(world);
    let outside = Outside {
        text: TWO_CLIENTS,
        ..SOUND
    };
    let served = calls(goes(&rt, alloc, outside, 1, STOPPED)?);
    assert!(rt; served >= opening.saturating_add(RECORDED));
    for call in opening..served {
        falls(&rt, alloc, FALLS, 1, 1, call.saturating_add(1))?;
    }
    for call in opening..opening.saturating_add(RECORDED) {
        falls(&rt, alloc, NOT_STORED, 2, 2, call.saturating_add(1))?;
    }
    Ok(())
}
