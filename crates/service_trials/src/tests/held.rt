// Two clients side by side, of whom the first to come is held until the other was answered.

use super::gates::Holds;
use super::signals::Signals;
use super::trials::{Outside, SOUND, STOPPED, agrees_wholly, serves_weak};
use super::worlds::counts;
use std::test::Fail;

// Whichever comes first is held. So a service that serves one after the other does not get through.
const BOTH: &[u8] = b"\
S1
<220 node1 Porcupine ready
>HELO one.example
<250 node1
>MAIL FROM:<bob@b.example>
<250 sender ok
>RCPT TO:<ann>
<250 recipient ok
>DATA
<354 end with a line that is a single period
>of one
>.
<250 stored
>QUIT
<221 node1 closing
S1
<220 node1 Porcupine ready
>HELO two.example
<250 node1
>MAIL FROM:<bob@b.example>
<250 sender ok
>RCPT TO:<alice@example.org>
<250 recipient ok
>DATA
<354 end with a line that is a single period
>of the other
>.
<250 stored
>QUIT
<221 node1 closing
C
@1
@2
>sum
<*0 sum acked 2 struck 0 dropped 0 lost 0
>stop
";

#[test]
fn one_who_is_held_keeps_nobody_waiting(rt: HostRuntime) -> Result<(), Fail> {
    let alloc = rt.alloc();
    let signals = Signals::new();
    let outside = Outside {
        text: BOTH,
        holds: Holds::First,
        ..SOUND
    };
    let (end, world) = serves_weak(&rt, alloc, outside, 1, 0, 0, &signals)?;
    agrees_wholly(&rt, &signals, BOTH);
    assert!(rt; signals.has_held());
    assert_eq!(rt; end, STOPPED);
    assert_eq!(rt; counts(&world.sum()), [2, 0, 0, 0]);
    Ok(())
}
