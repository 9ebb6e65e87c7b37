// Clients who say nothing more hold nobody up.

use super::trials::{Outside, SOUND, STOPPED, goes};
use super::worlds::counts;
use std::test::Fail;

// Two clients say nothing, one by SMTP and one by POP3, and one stops in the middle of a text. They go on once the doors are given
// back, and by then what comes in by their connections has ended.
const SILENT: &[u8] = b"\
S1
<220 node1 Porcupine ready
@0
P1
<+OK node1 ready <1.?.0@node1>
@0
S1
<220 node1 Porcupine ready
>HELO c.example
<250 node1
>MAIL FROM:<bob@b.example>
<250 sender ok
>RCPT TO:<ann>
<250 recipient ok
>DATA
<354 end with a line that is a single period
>the half of a text
@0
S1@3
<220 node1 Porcupine ready
>HELO c.example
<250 node1
>MAIL FROM:<bob@b.example>
<250 sender ok
>RCPT TO:<ann>
<250 recipient ok
>DATA
<354 end with a line that is a single period
>a text
>.
<250 stored
>QUIT
<221 node1 closing
P1@4
<+OK node1 ready <1.?.0@node1>
>USER ann
<+OK send PASS
>PASS sesame
<+OK maildrop open
>LIST
<+OK listing
<1 137
<.
>QUIT
<+OK bye
C
@1
@2
@5
>stop
";

#[test]
fn silent_clients_hold_nobody_up(rt: HostRuntime) -> Result<(), Fail> {
    let outside = Outside {
        text: SILENT,
        ..SOUND
    };
    let world = goes(&rt, rt.alloc(), outside, 1, STOPPED)?;
    assert_eq!(rt; counts(&world.sum()), [1, 0, 0, 0]);
    Ok(())
}
