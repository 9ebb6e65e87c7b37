// A message that goes in by SMTP is read back by POP3; and at three nodes it has two copies, and is read at another node.

use super::plans::plan;
use super::signals::Signals;
use super::trials::{Outside, SOUND, STOPPED, agrees_wholly, goes, serves};
use super::worlds::{confirmers, counts, opened};
use std::test::Fail;

// A text of 3,000 octets in two parts, with octets above 0x7F, a line of 1,500 octets, and one that begins with a period.
const READ_BACK: &[u8] = b"\
S1
<220 node1 Porcupine ready
>EHLO c.example
<250-node1
<250-SIZE 16777216
<250-8BITMIME
<250 PIPELINING
>MAIL FROM:<Bob@B.example> SIZE=3000 BODY=8BITMIME
<250 sender ok
>RCPT TO:<Alice@Example.ORG>
<250 recipient ok
>DATA
<354 end with a line that is a single period
>MIME-Version: 1.0
>Content-Type: multipart/mixed; boundary=cut
>
>--cut
>Content-Type: text/plain; charset=iso-8859-1
>
>Gr\xFC\xDFe aus K\xF6ln, \x80 bis \xFF.
>..begins with a period
>
>--cut
>Content-Type: text/plain
>
>~~~
>~~
>The rest of the text is a few lines of plain words, so that there are
>three thousand octets, which is what the client has said beforehand that
>its message would have, with the CRLF at the end of each of its lines.
>That is all that there is to it: ............................
>--cut--
>.
<250 stored
>QUIT
<221 node1 closing
P1@1
<+OK node1 ready <1.2.0@node1>
>CAPA
<+OK capabilities
<TOP
<USER
<UIDL
<PIPELINING
<RESP-CODES
<.
>USER alice@example.org
<+OK send PASS
>PASS open sesame
<+OK maildrop open
>UIDL
<+OK unique ids
<1 1.1.1
<.
>TOP 1 0
<+OK top
<Return-Path: <Bob@B.example>
<Received: from c.example
< by node1 with ESMTP id <1.1.1@node1>;
< Thu, 01 Jan 1970 00:00:00 +0000
<MIME-Version: 1.0
<Content-Type: multipart/mixed; boundary=cut
<
<.
>RETR 1
<+OK 3130 octets
<Return-Path: <Bob@B.example>
<Received: from c.example
< by node1 with ESMTP id <1.1.1@node1>;
< Thu, 01 Jan 1970 00:00:00 +0000
<MIME-Version: 1.0
<Content-Type: multipart/mixed; boundary=cut
<
<--cut
<Content-Type: text/plain; charset=iso-8859-1
<
<Gr\xFC\xDFe aus K\xF6ln, \x80 bis \xFF.
<..begins with a period
<
<--cut
<Content-Type: text/plain
<
<~~~
<~~
<The rest of the text is a few lines of plain words, so that there are
<three thousand octets, which is what the client has said beforehand that
<its message would have, with the CRLF at the end of each of its lines.
<That is all that there is to it: ............................
<--cut--
<.
>DELE 1
<+OK message 1 deleted
>QUIT
<+OK bye
C
@2
>sum
<*0 sum acked 1 struck 1 dropped 1 lost 0
>stop
";

// At three nodes mail is taken at each, and read at one that took none of it, once the cluster has settled.
const THREE_NODES: &[u8] = b"\
S1
<220 node1 Porcupine ready
>HELO c.example
<250 node1
>MAIL FROM:<bob@b.example>
<250 sender ok
>RCPT TO:<ann>
<250 recipient ok
>RCPT TO:<alice@example.org>
<250 recipient ok
>DATA
<354 end with a line that is a single period
>a text
>.
<250 stored
>QUIT
<221 node1 closing
S3@1
<220 node3 Porcupine ready
>HELO c.example
<250 node3
>MAIL FROM:<>
<250 sender ok
>RCPT TO:<postmaster>
<250 recipient ok
>DATA
<354 end with a line that is a single period
>another
>.
<250 stored
>QUIT
<221 node3 closing
P2@9
<+OK node2 ready <1.3.0@node2>
>USER ann
<+OK send PASS
>PASS sesame
<+OK maildrop open
>UIDL
<+OK unique ids
<1 1.1.1
<2 3.1.1
<.
>RETR 2
<+OK 125 octets
<Return-Path: <>
<Received: from c.example
< by node3 with SMTP id <3.1.1@node3>;
< Thu, 01 Jan 1970 00:00:00 +0000
<another
<.
>DELE 1
<+OK message 1 deleted
>QUIT
<+OK bye
C
@2
>settle
<*0 settled
!9
@3
>sum
<*0 sum acked 3 struck 1 dropped 1 lost 0
>stop
";

#[test]
fn mail_is_read_back_as_it_was_told(rt: HostRuntime) -> Result<(), Fail> {
    let outside = Outside {
        text: READ_BACK,
        ..SOUND
    };
    let world = goes(&rt, rt.alloc(), outside, 1, STOPPED)?;
    assert_eq!(rt; counts(&world.sum()), [1, 1, 1, 0]);
    assert_eq!(rt;
        confirmers(world.book().entries().first(), b"alice@example.org", 1),
        1
    );
    Ok(())
}

#[test]
fn mail_of_three_nodes_has_two_copies(rt: HostRuntime) -> Result<(), Fail> {
    let alloc = rt.alloc();
    let plan = plan(alloc, 3, 2, 2)?;
    let Ok(world) = opened(alloc, 3, 2, 2, 0, 0) else {
        panic!(rt; "no world");
    };
    let signals = Signals::new();
    let outside = Outside {
        text: THREE_NODES,
        ..SOUND
    };
    let (end, world) = serves(&rt, alloc, outside, &plan, &signals, world)?;
    agrees_wholly(&rt, &signals, THREE_NODES);
    assert_eq!(rt; end, STOPPED);
    let entries = world.book().entries();
    assert_eq!(rt; entries.len(), 5);
    assert_eq!(rt; confirmers(entries.first(), b"ann", 1), 2);
    assert_eq!(rt; confirmers(entries.get(1), b"alice@example.org", 1), 2);
    assert_eq!(rt; confirmers(entries.get(2), b"ann", 3), 2);
    Ok(())
}
