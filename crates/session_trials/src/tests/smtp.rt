// What clients that send mail hear, with replies from RFC 5321 and the texts that this service gives them.
mod rows;
mod tables;

use super::client::Step::{
    Cut, Ended, Endless, Feeds, Heard, Hundred, Large, Line, Long, Pieces, Says, Sent, Text,
};
use super::client::{octets_said, smtp};
use mail_base::NodeNo;
use rows::{HUNDRED_STAND, ROWS, TRANSACTION};
use smtp_session::Reply;
use std::test::Fail;
use tables::{BEGIN, COMMANDS, IN_TEXT, NOTHING_TOLD, PIECES, PIPELINED, REFUSED, TEXTS, UNASKED};

// The greeting is heard before each of these steps.
#[test]
fn each_row_is_answered(rt: HostRuntime) -> Result<(), Fail> {
    for table in ROWS {
        smtp(&rt, rt.alloc(), &[Says(table)])?;
    }
    let great = [
        // a command line above 1,024 octets
        Line(b"x", 1_025, b"  500 line too long\n"),
        Says(TRANSACTION),
        Hundred,
        // RCPT where 100 recipients stand
        Says(HUNDRED_STAND),
    ];
    smtp(&rt, rt.alloc(), &great)
}

#[test]
fn clients_hear_what_the_tables_say(rt: HostRuntime) -> Result<(), Fail> {
    for table in [NOTHING_TOLD, COMMANDS, REFUSED, PIECES, UNASKED] {
        smtp(&rt, rt.alloc(), &[Says(table)])?;
    }
    for table in IN_TEXT {
        smtp(&rt, rt.alloc(), &[Says(BEGIN), Says(table)])?;
    }
    Ok(())
}

#[test]
fn octets_come_in_any_pieces(rt: HostRuntime) -> Result<(), Fail> {
    for size in [1, 2, 7, 1000usize] {
        smtp(&rt, rt.alloc(), &[Pieces(PIECES, size)])?;
        for (octets, wanted) in TEXTS {
            let text = wanted.unwrap_or(b"");
            let sent = Sent(text.len(), usize::from(wanted.is_some()));
            let steps = [Says(BEGIN), Feeds(octets, size), sent, Text(text)];
            smtp(&rt, rt.alloc(), &steps)?;
        }
    }
    Ok(())
}

#[test]
fn commands_come_in_two_pieces_cut_anywhere(rt: HostRuntime) -> Result<(), Fail> {
    for at in 0..octets_said(PIPELINED) {
        smtp(&rt, rt.alloc(), &[Cut(PIPELINED, at)])?;
    }
    Ok(())
}

const STORED: &[u8] = b"  from bob\n  helo c\n  to alice\n  250 stored\n";

// The row of a text that has ended and has more than 16,777,216 octets is among these steps.
#[test]
fn texts_have_a_greatest_length(rt: HostRuntime) -> Result<(), Fail> {
    let steps = [
        Says(BEGIN),
        Heard(BEGIN),
        Large(b'x'),
        Heard(b"  552 message too large\n"),
        Says(BEGIN),
        Heard(BEGIN),
        Large(b'.'),
        Heard(STORED),
        Sent(16_777_216, 1),
        Says(BEGIN),
        Says(b"short\n.\n  from bob\n  helo c\n  to alice\n  | short\n  250 stored\n"),
    ];
    smtp(&rt, rt.alloc(), &steps)?;
    // A line of a text has any length.
    for size in [1000, 200_000usize] {
        smtp(
            &rt,
            rt.alloc(),
            &[Says(BEGIN), Long(size), Sent(100_001, 1)],
        )?;
    }
    Ok(())
}

#[test]
fn a_hundred_recipients_are_taken(rt: HostRuntime) -> Result<(), Fail> {
    let steps = [
        Says(b"HELO c\n  250 node1\nMAIL FROM:<bob>\n  250 sender ok\n"),
        Hundred,
        Says(b"RCPT TO:<u101>\n  452 too many recipients\nRCPT TO:<u001>\n  250 recipient ok\n"),
        Feeds(b"DATA\r\n.\r\n", 9),
        Ended(b"  to u100\n  250 stored\n"),
        Sent(0, 100),
    ];
    smtp(&rt, rt.alloc(), &steps)
}

#[test]
fn lines_have_a_greatest_length(rt: HostRuntime) -> Result<(), Fail> {
    let steps = [
        Line(b"x", 1_024, b"  500 unknown command\n"),
        Line(b"x", 1_025, b"  500 line too long\n"),
        Line(b"x", 100_000, b"  500 line too long\n"),
        Line(b"NOOP\n", 7, b"  500 unknown command\n"),
        Line(b"HELO c.example", 1_025, b"  500 line too long\n"),
        Line(b"MAIL FROM:<bob>", 17, b"  503 bad order\n"),
        Line(b"HELO c.example", 1_024, b"  250 node1\n"),
        Line(b"MAIL FROM:<bob>", 17, b"  250 sender ok\n"),
        Endless,
    ];
    smtp(&rt, rt.alloc(), &steps)
}

#[test]
fn replies_name_their_node(rt: HostRuntime) -> Result<(), Fail> {
    let node = NodeNo::new(16).ok_or("no node")?;
    let cases: [(Reply, &[u8]); 4] = [
        (Reply::Ready, b"220 node16 Porcupine ready"),
        (Reply::Stored, b"250 stored"),
        (Reply::Closing, b"221 node16 closing"),
        (Reply::Down, b"421 node16 down"),
    ];
    for (reply, wanted) in cases {
        let mut text = Vec::new(rt.alloc());
        reply.text_into(rt.alloc(), node, &mut text)?;
        assert!(rt; text.as_slice() == wanted);
    }
    Ok(())
}
