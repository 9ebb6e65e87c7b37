// Replies of SMTP, cut at every place and followed by another.
use smtp_wire::{
    Reply, ReplyFault, ReplyLine, ReplyReader, answers_are_one, answers_last,
    begun_replies_are_none, is_reply_text, replies_are_one, replies_are_read_back, reply_into,
};
use std::alloc::{AllocError, Global};
use std::test::Fail;

// A reply as it is sent, and its code and texts.
fn reply_at(at: usize) -> (&'static [u8], &'static [u8]) {
    match at {
        0 => (
            b"220 node1 Porcupine ready\r\n",
            b"220(node1 Porcupine ready)",
        ),
        1 => (
            b"250-node1\r\n250-SIZE 16777216\r\n250-8BITMIME\r\n250 PIPELINING\r\n",
            b"250(node1)(SIZE 16777216)(8BITMIME)(PIPELINING)",
        ),
        2 => (b"250 sender ok\r\n", b"250(sender ok)"),
        3 => (
            b"354 end with a line that is a single period\r\n",
            b"354(end with a line that is a single period)",
        ),
        4 => (b"552 message too large\r\n", b"552(message too large)"),
        5 => (b"250 \r\n", b"250()"),
        6 => (b"599-\r\n599-\r\n599 \r\n", b"599()()()"),
        7 => (b"200-200 ok\r\n200 200-ok\r\n", b"200(200 ok)(200-ok)"),
        8 => (b"421 node1 down\r\n", b"421(node1 down)"),
        _ => (b"502  not done - \r\n", b"502( not done - )"),
    }
}

// The one behind it; behind the last the first.
fn next_at(at: usize) -> (&'static [u8], &'static [u8]) {
    reply_at(if at < 9 { at + 1 } else { 0 })
}

// Appends the code and the texts of a reply.
fn show(reply: &Reply, out: &mut Vec<u8>) -> Result<(), AllocError> {
    let code = reply.code;
    let number = format!(in *out.allocator(); "{code}")?;
    out.extend_from_slice(number.as_bytes())?;
    for line in &reply.lines {
        out.push(b'(')?;
        out.extend_from_slice(line.as_slice())?;
        out.push(b')')?;
    }
    out.push(b';')?;
    Ok(())
}

// Appends what the reader has next, `!` where there is none of a reply, and says whether it was a reply.
fn show_next(reader: &mut ReplyReader, out: &mut Vec<u8>) -> Result<bool, AllocError> {
    let found = reader.next();
    match &found {
        Ok(Some(reply)) => {
            show(reply, out)?;
            Ok(true)
        }
        Ok(None) => Ok(false),
        Err(ReplyFault::BadReply) => {
            out.push(b'!')?;
            Ok(false)
        }
        Err(ReplyFault::NoMemory) => {
            out.extend_from_slice(b"no memory")?;
            Ok(false)
        }
    }
}

// The same of each reply that is there once this piece was fed.
fn show_fed(reader: &mut ReplyReader, piece: &[u8], out: &mut Vec<u8>) -> Result<(), AllocError> {
    reader.feed(piece)?;
    for _ in 0..9u8 {
        if !show_next(reader, out)? {
            return Ok(());
        }
    }
    Ok(())
}

// What is read of two pieces, with `|` between what each gave; the second comes octet by octet if wanted.
fn read_cut(
    alloc: Global,
    front: &[u8],
    behind: &[u8],
    singly: bool,
) -> Result<Vec<u8>, AllocError> {
    let mut reader = ReplyReader::new(alloc);
    let mut out = Vec::new(alloc);
    show_fed(&mut reader, front, &mut out)?;
    out.push(b'|')?;
    if singly {
        for octet in behind {
            show_fed(&mut reader, &[*octet], &mut out)?;
        }
    } else {
        show_fed(&mut reader, behind, &mut out)?;
    }
    Ok(out)
}

// What is to be read of two replies that are cut at this place.
fn wanted_cut(alloc: Global, at: usize, whole: usize, cut: usize) -> Result<Vec<u8>, AllocError> {
    let first = reply_at(at);
    let second = next_at(at);
    let mut out = Vec::new(alloc);
    if cut < first.0.len() {
        out.push(b'|')?;
    }
    out.extend_from_slice(first.1)?;
    out.push(b';')?;
    if first.0.len() <= cut && cut < whole {
        out.push(b'|')?;
    }
    out.extend_from_slice(second.1)?;
    out.push(b';')?;
    if whole <= cut {
        out.push(b'|')?;
    }
    Ok(out)
}

// The octets of both.
fn both(alloc: Global, at: usize) -> Result<Vec<u8>, AllocError> {
    let first = reply_at(at);
    let second = next_at(at);
    let mut octets = Vec::from_slice(alloc, first.0)?;
    octets.extend_from_slice(second.0)?;
    Ok(octets)
}

#[test]
fn replies_are_read_however_they_are_cut(rt: HostRuntime) -> Result<(), Fail> {
    let alloc = rt.alloc();
    for at in 0..10 {
        let octets = both(alloc, at)?;
        for cut in 0..=octets.len() {
            let (front, behind) = octets.split_at(cut);
            let wanted = wanted_cut(alloc, at, octets.len(), cut)?;
            let found = read_cut(alloc, front, behind, false)?;
            assert!(rt; found == wanted, "at {at}, cut at {cut}");
            let found = read_cut(alloc, front, behind, true)?;
            assert!(rt; found == wanted, "at {at}, cut at {cut}, then singly");
        }
    }
    Ok(())
}

// The octets that the first reply in these is written with.
fn written_again(alloc: Global, octets: &[u8]) -> Result<Vec<u8>, AllocError> {
    let mut reader = ReplyReader::new(alloc);
    reader.feed(octets)?;
    let mut out = Vec::from_slice(alloc, b"> ")?;
    let found = reader.next();
    if let Ok(Some(reply)) = &found {
        reply_into(&mut out, reply)?;
    }
    Ok(out)
}

#[test]
fn replies_are_written_as_they_were_read(rt: HostRuntime) -> Result<(), Fail> {
    for at in 0..10 {
        let mut wanted = Vec::from_slice(rt.alloc(), b"> ")?;
        wanted.extend_from_slice(reply_at(at).0)?;
        let found = written_again(rt.alloc(), reply_at(at).0)?;
        assert!(rt; found == wanted, "at {at}");
    }
    let found = written_again(rt.alloc(), b"250\r\n")?;
    assert_eq!(rt; found.as_slice(), b"> 250 \r\n".as_slice());
    Ok(())
}

#[test]
fn only_lines_of_one_reply_are_taken(rt: HostRuntime) -> Result<(), Fail> {
    let cases: [(&[u8], &[u8]); 26] = [
        (b"250-a\r\n", b""),
        (b"250-a\r\n250-b\r\n", b""),
        (b"250-a\r\n250-b\r\n250 c\r\n", b"250(a)(b)(c);"),
        (b"250 a\r\n250-b\r\n", b"250(a);"),
        (b"250 a\r", b""),
        (b"250 a\n", b""),
        (b"250\r\n", b"250();"),
        (b"250-a\r\n250\r\n", b"250(a)();"),
        (b"250-a\r\n251 b\r\n", b"!"),
        (b"250-a\r\nb\r\n250 c\r\n", b"!"),
        (b"220 a\r\n\r\n", b"220(a);!"),
        (b"\r\n250 a\r\n", b"!"),
        (b"250_a\r\n", b"!"),
        (b"250a\r\n", b"!"),
        (b"25 a\r\n", b"!"),
        (b"25\r\n", b"!"),
        (b"2500 a\r\n", b"!"),
        (b" 250 a\r\n", b"!"),
        (b"+50 a\r\n", b"!"),
        (b"199 a\r\n", b"!"),
        (b"200 a\r\n", b"200(a);"),
        (b"600 a\r\n", b"!"),
        (b"250 a\tb\r\n", b"!"),
        (b"250 a\x7F\r\n", b"!"),
        (b"250 \x80\r\n", b"!"),
        (b"+OK a\r\n", b"!"),
    ];
    for (at, (octets, wanted)) in cases.iter().enumerate() {
        let mut shown = Vec::from_slice(rt.alloc(), b"|")?;
        shown.extend_from_slice(wanted)?;
        let found = read_cut(rt.alloc(), b"", octets, false)?;
        assert!(rt; found == shown, "at {at}");
    }
    Ok(())
}

// A reply with a text of so many octets, and the next one.
fn long_reply(alloc: Global, length: usize) -> Result<Vec<u8>, AllocError> {
    let mut octets = Vec::from_slice(alloc, b"250 ")?;
    for _ in 0..length {
        octets.push(b'x')?;
    }
    octets.extend_from_slice(b"\r\n220 b\r\n")?;
    Ok(octets)
}

#[test]
fn long_lines_are_none_of_a_reply(rt: HostRuntime) -> Result<(), Fail> {
    for (length, fits) in [(1_018, true), (1_019, false), (5_000, false)] {
        let octets = long_reply(rt.alloc(), length)?;
        for cut in [0, 1_000, 1_022, 1_023, 1_024, 1_025] {
            let (front, behind) = octets.split_at(octets.len().min(cut));
            let found = read_cut(rt.alloc(), front, behind, false)?;
            assert_eq!(rt;
                found.ends_with(b"220(b);"),
                fits,
                "of {length}, cut at {cut}"
            );
            assert_eq!(rt; found.ends_with(b"!"), !fits, "of {length}, cut at {cut}");
        }
    }
    Ok(())
}

// What is read three times of octets that are none of a reply, and of more behind them.
fn read_thrice(alloc: Global, octets: &[u8], more: &[u8]) -> Result<Vec<u8>, AllocError> {
    let mut reader = ReplyReader::new(alloc);
    let mut out = Vec::new(alloc);
    reader.feed(octets)?;
    show_next(&mut reader, &mut out)?;
    show_next(&mut reader, &mut out)?;
    reader.feed(more)?;
    show_next(&mut reader, &mut out)?;
    Ok(out)
}

#[test]
fn what_is_none_of_a_reply_stays(rt: HostRuntime) -> Result<(), Fail> {
    let found = read_thrice(rt.alloc(), b"250-a\r\nb\r\n", b"250 c\r\n")?;
    assert_eq!(rt; found.as_slice(), b"!!!".as_slice());
    Ok(())
}

// The octets of a text, where it may stand in a reply.
fn texts(alloc: Global, text: &[u8]) -> Result<Vec<u8>, AllocError> {
    if !is_reply_text(text) {
        return Vec::from_slice(alloc, b"none");
    }
    let line = ReplyLine::new(alloc, text)?;
    Vec::from_slice(alloc, line.as_slice())
}

#[test]
fn texts_are_printable(rt: HostRuntime) -> Result<(), Fail> {
    let cases: [(&[u8], &[u8]); 5] = [
        (b"", b""),
        (b" ~", b" ~"),
        (b"a\x1F", b"none"),
        (b"\x7F", b"none"),
        (b"a\r\n", b"none"),
    ];
    for (at, (text, wanted)) in cases.iter().enumerate() {
        let found = texts(rt.alloc(), text)?;
        assert!(rt; found.as_slice() == *wanted, "at {at}");
    }
    Ok(())
}

#[test]
fn laws_of_replies_are_said() {
    replies_are_read_back();
    replies_are_one();
    answers_are_one();
    answers_last();
    begun_replies_are_none();
}
