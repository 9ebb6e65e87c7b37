// Rows that were worked by hand, against the plain functions.
use mail_model::plain::{Fate, Id, Stamp, id_text};
use mail_plain::{
    Entry, Item, Record, answers_to, lines_to, marked_ids, messages, sent, slots, slots_after,
    unmarked,
};
use std::alloc::{AllocError, Global};
use std::test::Fail;

const FIRST: Id = Id {
    node: 1,
    boot: 1,
    seq: 1,
};

const SECOND: Id = Id { seq: 2, ..FIRST };

const STAMP: Stamp = Stamp {
    count: 1,
    boot: 1,
    node: 1,
};

// One message as it is stored: 30 octets of return path, 26, 39 and 34 of trace lines, and 22 of text.
const STORED: &[u8] =
    b"Return-Path: <bob@b.example>\r\nReceived: from c.example\r\n by node1 with SMTP id <1.1.1@node1>;\r\n Thu, 01 Jan 1970 00:00:00 +0000\r\nSubject: hi\r\n\r\nhello\r\n";

fn cut(alloc: Global, text: &[u8]) -> Result<Vec<Vec<u8>>, AllocError> {
    let mut lines = Vec::new(alloc);
    for line in text.split(|x| *x == b'\n') {
        lines.push(Vec::from_slice(alloc, line)?)?;
    }
    Ok(lines)
}

fn joined(alloc: Global, lines: &[Vec<u8>]) -> Result<Vec<u8>, AllocError> {
    let mut text = Vec::new(alloc);
    for line in lines {
        text.extend_from_slice(line)?;
        text.push(b'|')?;
    }
    Ok(text)
}

// Each id with the size of its message.
fn shown(alloc: Global, items: &[Item]) -> Result<Vec<u8>, AllocError> {
    let mut text = Vec::new(alloc);
    for item in items {
        text.extend_from_slice(&id_text(alloc, item.id)?)?;
        text.extend_from_slice(format!(in alloc; " {}|", item.size)?.as_bytes())?;
    }
    Ok(text)
}

// What the lines of a tape send to the session.
fn sends(alloc: Global, session: u64, tape: &[u8]) -> Result<Vec<u8>, AllocError> {
    sent(alloc, session, &cut(alloc, tape)?)
}

const TAPE: &[u8] =
    b"open smtp 1\nsay 1 HELO c.example\nsay 1 MAIL FROM:<bob@b.example>\nsay 1 RCPT TO:<alice>\nsay 1 DATA\nsay 1 Subject: hi\nsay 1\nsay 1 hello\nsay 1 .\nsay 1 QUIT\nend";

const FED: &[u8] =
    b"open smtp 1\nsay 1 DATA\r\nfeed 1 2e2e0d0a2e610d0a780a2e0a790d0a2e0d0a\nfeed 1 2\nfeed 2 41\ngiveup 2\nwiden 1 alice 1.1.1 2\nsay 2  b\ncrash 1\nstart 1\nlose 2\npost 2\nagain 2\ndrop 2\nflow\npush 1\nclose 2\nsay x";

#[test]
fn sends_what_a_tape_says(rt: HostRuntime) -> Result<(), Fail> {
    let cases: [(u64, &[u8], &[u8]); 4] = [
        (
            1,
            TAPE,
            b"HELO c.example\r\nMAIL FROM:<bob@b.example>\r\nRCPT TO:<alice>\r\nDATA\r\nSubject: hi\r\n\r\nhello\r\n.\r\nQUIT\r\n",
        ),
        (2, TAPE, b""),
        (1, FED, b"DATA\r\n..\r\n.a\r\nx\n.\ny\r\n.\r\n"),
        (2, FED, b"A b\r\n"),
    ];
    for (at, (session, tape, wanted)) in cases.iter().enumerate() {
        let octets = sends(rt.alloc(), *session, tape)?;
        assert!(rt; octets.as_slice() == *wanted, "at {at}");
    }
    Ok(())
}

fn octets(id: Id, octets: &[u8]) -> Record<'_> {
    Record::Octets { id, octets }
}

fn copy(user: &[u8], id: Id, fate: Fate) -> Record<'_> {
    Record::Copy {
        user,
        id,
        fate,
        stamp: STAMP,
        targets: 1,
    }
}

// What the first records list of the user.
fn listed(alloc: Global, user: &[u8], count: usize) -> Result<Vec<u8>, AllocError> {
    let records = [
        Record::Boot { boot: 1 },
        octets(FIRST, STORED),
        copy(b"alice", FIRST, Fate::Here),
        octets(SECOND, b"hi"),
        copy(b"bob", SECOND, Fate::Here),
        copy(b"alice", SECOND, Fate::Here),
        copy(b"alice", FIRST, Fate::Gone),
        copy(b"alice", FIRST, Fate::Here),
    ];
    shown(alloc, &messages(alloc, user, &records[..count.min(8)])?)
}

#[test]
fn lists_messages(rt: HostRuntime) -> Result<(), Fail> {
    let cases: [(&[u8], usize, &[u8]); 4] = [
        (b"alice", 6, b"1.1.1 151|1.1.2 2|"),
        (b"alice", 8, b"1.1.2 2|"),
        (b"bob", 8, b"1.1.2 2|"),
        (b"carol", 8, b""),
    ];
    for (at, (user, count, wanted)) in cases.iter().enumerate() {
        let text = listed(rt.alloc(), user, *count)?;
        assert!(rt; text.as_slice() == *wanted, "at {at}");
    }
    Ok(())
}

// The messages that are not marked once these lines were heard, which `|` parts, and how many are marked.
fn left(alloc: Global, lines: &[u8]) -> Result<(Vec<u8>, usize), AllocError> {
    let items = [
        Item {
            id: FIRST,
            size: 151,
        },
        Item {
            id: SECOND,
            size: 2,
        },
    ];
    let mut places = slots(alloc, &items)?;
    for line in lines.split(|x| *x == b'|') {
        places = slots_after(alloc, &places, line)?;
    }
    let marked = marked_ids(alloc, &places)?.len();
    Ok((shown(alloc, &unmarked(alloc, &places)?)?, marked))
}

#[test]
fn marks_messages(rt: HostRuntime) -> Result<(), Fail> {
    let cases: [(&[u8], &[u8], usize); 5] = [
        (b"", b"1.1.1 151|1.1.2 2|", 0),
        (b"DELE 3", b"1.1.1 151|1.1.2 2|", 0),
        (b"DELE 3|dele 1 ", b"1.1.2 2|", 1),
        (b"DELE 3|dele 1 |RETR 2", b"1.1.2 2|", 1),
        (b"DELE 3|dele 1 |RETR 2|DELE 2", b"", 2),
    ];
    for (at, (lines, wanted, count)) in cases.iter().enumerate() {
        let (text, marked) = left(rt.alloc(), lines)?;
        assert!(rt; text.as_slice() == *wanted && marked == *count, "at {at}");
    }
    Ok(())
}

// The lines that the session got, and after `/` the last ones of its replies.
fn shows(alloc: Global, session: u64) -> Result<Vec<u8>, AllocError> {
    let entries = [
        Entry::Said {
            session: 1,
            text: b"220 node1 Porcupine ready",
        },
        Entry::Said {
            session: 1,
            text: b"250-node1",
        },
        Entry::Said {
            session: 2,
            text: b"+OK 1 151",
        },
        Entry::Said {
            session: 1,
            text: b"250 HELP",
        },
        Entry::Event { text: b"fault 1" },
        Entry::Said {
            session: 1,
            text: b"421 node1 down",
        },
        Entry::Event { text: b"1 closed" },
        Entry::Refused {
            text: b"line 7 BadLine",
        },
    ];
    let mut text = joined(alloc, &lines_to(alloc, session, &entries)?)?;
    text.push(b'/')?;
    text.extend_from_slice(&joined(alloc, &answers_to(alloc, session, &entries)?)?)?;
    Ok(text)
}

#[test]
fn shows_what_sessions_got(rt: HostRuntime) -> Result<(), Fail> {
    let cases: [(u64, &[u8]); 3] = [
        (
            1,
            b"220 node1 Porcupine ready|250-node1|250 HELP|421 node1 down|/220 node1 Porcupine ready|250 HELP|",
        ),
        (2, b"+OK 1 151|/+OK 1 151|"),
        (3, b"/"),
    ];
    for (at, (session, wanted)) in cases.iter().enumerate() {
        let text = shows(rt.alloc(), *session)?;
        assert!(rt; text.as_slice() == *wanted, "at {at}");
    }
    Ok(())
}
