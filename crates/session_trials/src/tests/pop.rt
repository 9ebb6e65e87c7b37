// What clients that read mail hear.
mod rows;
mod tables;

use super::client::Step::{Cut, Endless, Feeds, Heard, Line, Pieces, Says, Shown};
use super::client::{octets_said, pop};
use super::desk::Message;
use rows::ROWS;
use std::test::Fail;
use tables::{
    DIGESTS, FAILED_LOGIN, LET_IN, LOGIN_GIVEN_UP, LOGINS, MARKS, NO_MESSAGE, NOT_LET_IN,
    ONE_MESSAGE, OPTIONAL, PIPELINED, THREE_MESSAGES,
};

// One message, of 151 octets.
const ONE: [Message; 1] = [(1, 1, 1, 151)];

// Two messages, of 28 and of 151 octets.
const TWO: [Message; 2] = [(1, 1, 1, 28), (1, 1, 2, 151)];

// Four messages.
const FOUR: [Message; 4] = [
    (1, 1, 1, 101),
    (1, 1, 2, 151),
    (1, 1, 3, 201),
    (1, 1, 4, 301),
];

// Messages of other nodes and boots.
const THREE: [Message; 3] = [
    (2, 1, 7, 302),
    (16, u32::MAX, u64::MAX, 151),
    (1, 3, 12, u64::MAX),
];

// What a client says that is let in.
const LOGIN: &[u8] = b"USER alice\r\nPASS sesame\r\n";

// The greeting is heard before each of these steps.
#[test]
fn each_row_is_answered(rt: HostRuntime) -> Result<(), Fail> {
    for table in ROWS {
        pop(&rt, rt.alloc(), &TWO, &[Says(table)])?;
    }
    // a command line above 1,024 octets
    let long = Line(b"x", 1_025, b"  -ERR line too long\n");
    pop(&rt, rt.alloc(), &TWO, &[long])
}

#[test]
fn clients_hear_what_the_tables_say(rt: HostRuntime) -> Result<(), Fail> {
    let cases: [(&[Message], &[u8]); 10] = [
        (&TWO, LOGINS),
        (&TWO, DIGESTS),
        (&TWO, NOT_LET_IN),
        (&TWO, FAILED_LOGIN),
        (&TWO, LOGIN_GIVEN_UP),
        (&ONE, ONE_MESSAGE),
        (&[], NO_MESSAGE),
        (&THREE, THREE_MESSAGES),
        (&FOUR, MARKS),
        (&FOUR, OPTIONAL),
    ];
    for (messages, table) in cases {
        pop(&rt, rt.alloc(), messages, &[Says(table)])?;
    }
    for table in LET_IN {
        pop(&rt, rt.alloc(), &TWO, &[Feeds(LOGIN, 9), Says(table)])?;
    }
    Ok(())
}

#[test]
fn octets_come_in_any_pieces(rt: HostRuntime) -> Result<(), Fail> {
    for size in [1, 2, 3, 7, 100_000usize] {
        pop(&rt, rt.alloc(), &ONE, &[Pieces(ONE_MESSAGE, size)])?;
        pop(&rt, rt.alloc(), &[], &[Pieces(LOGINS, size)])?;
        pop(&rt, rt.alloc(), &TWO, &[Pieces(DIGESTS, size)])?;
        pop(&rt, rt.alloc(), &FOUR, &[Pieces(MARKS, size)])?;
        pop(&rt, rt.alloc(), &FOUR, &[Pieces(OPTIONAL, size)])?;
    }
    Ok(())
}

#[test]
fn commands_come_in_two_pieces_cut_anywhere(rt: HostRuntime) -> Result<(), Fail> {
    for at in 0..octets_said(PIPELINED) {
        pop(&rt, rt.alloc(), &TWO, &[Cut(PIPELINED, at)])?;
    }
    Ok(())
}

#[test]
fn lines_end_at_crlf_alone(rt: HostRuntime) -> Result<(), Fail> {
    let steps = [
        Line(b"x", 1_024, b"  -ERR unknown command\n"),
        Line(b"x", 1_025, b"  -ERR line too long\n"),
        Line(b"x", 100_000, b"  -ERR line too long\n"),
        Line(b"USER ALICE", 12, b"  +OK send PASS\n"),
        Line(
            b"PASS x",
            1_024,
            b"  asks for alice\n  -ERR name or secret is wrong\n",
        ),
        Line(b"USER alice", 12, b"  +OK send PASS\n"),
        Line(b"PASS x", 1_025, b"  -ERR line too long\n"),
        Line(b"PASS sesame", 13, b"  -ERR bad order\n"),
        Heard(b"  -ERR bad order\n"),
        Feeds(b"USER alice\nPASS sesame\rQUIT\r", 11),
        Heard(b""),
        Feeds(b"\nQU", 9),
        Heard(b"  -ERR bad argument\n"),
        Feeds(b"IT\r\nSTAT", 9),
        Heard(b"  +OK bye\n  closed\n"),
    ];
    pop(&rt, rt.alloc(), &[], &steps)?;
    pop(&rt, rt.alloc(), &[], &[Endless])
}

#[test]
fn messages_are_shown_octet_for_octet(rt: HostRuntime) -> Result<(), Fail> {
    let cases: [(&[u8], &[u8]); 7] = [
        (b"", b"+OK 0 octets\r\n.\r\n"),
        (b"\r\n", b"+OK 2 octets\r\n\r\n.\r\n"),
        (b"a", b"+OK 1 octets\r\na\r\n.\r\n"),
        (b"a\r\n\r", b"+OK 4 octets\r\na\r\n\r\r\n.\r\n"),
        (b".\r\n..\r\n", b"+OK 7 octets\r\n..\r\n...\r\n.\r\n"),
        (b"x\n.\ny\r.\r", b"+OK 8 octets\r\nx\n.\ny\r.\r\r\n.\r\n"),
        (
            b"\x00\x7F\x80\xFF\r\n.\x00",
            b"+OK 8 octets\r\n\x00\x7F\x80\xFF\r\n..\x00\r\n.\r\n",
        ),
    ];
    for (octets, wanted) in cases {
        let steps = [Feeds(LOGIN, 9), Shown(octets, wanted)];
        pop(&rt, rt.alloc(), &TWO, &steps)?;
    }
    Ok(())
}
