// Replies of POP3, cut at every place and followed by another.
use pop_wire::{
    PopReply, ReplyFault, ReplyLine, ReplyReader, answers_are_one, answers_last,
    begun_replies_are_none, is_reply_text, replies_are_one, replies_are_read_back, reply_into,
};
use std::alloc::{AllocError, Global};
use std::test::Fail;

// Whether a good reply is to have several lines, a reply as it is sent, and what it says.
fn reply_at(at: usize) -> (bool, &'static [u8], &'static [u8]) {
    match at {
        0 => (
            false,
            b"+OK node1 ready <1.2.0@node1>\r\n",
            b"+node1 ready <1.2.0@node1>",
        ),
        1 => (false, b"+OK\r\n", b"+"),
        2 => (
            true,
            b"+OK listing\r\n1 151\r\n2 302\r\n.\r\n",
            b"+listing(1 151)(2 302)",
        ),
        3 => (true, b"+OK unique ids\r\n.\r\n", b"+unique ids."),
        4 => (
            true,
            b"+OK capabilities\r\nTOP\r\nUSER\r\nUIDL\r\nPIPELINING\r\nRESP-CODES\r\n.\r\n",
            b"+capabilities(TOP)(USER)(UIDL)(PIPELINING)(RESP-CODES)",
        ),
        5 => (
            true,
            b"+OK\r\n..\r\n...a.\r\n\r\n a.\r\n..b\r\n.\r\n",
            b"+(.)(..a.)()( a.)(.b)",
        ),
        6 => (true, b"-ERR no such message\r\n", b"-no such message"),
        7 => (
            false,
            b"-ERR [IN-USE] maildrop is open elsewhere\r\n",
            b"-[IN-USE] maildrop is open elsewhere",
        ),
        8 => (false, b"-ERR\r\n", b"-"),
        _ => (false, b"+OK  bye .\r\n", b"+ bye ."),
    }
}

// The one behind it; behind the last the first.
fn next_at(at: usize) -> (bool, &'static [u8], &'static [u8]) {
    reply_at(if at < 9 { at + 1 } else { 0 })
}

// Appends the further lines of a reply, or a period where it has several and none is there.
fn show_lines(lines: &[ReplyLine], out: &mut Vec<u8>) -> Result<(), AllocError> {
    if lines.is_empty() {
        out.push(b'.')?;
    }
    for line in lines {
        out.push(b'(')?;
        out.extend_from_slice(line.as_slice())?;
        out.push(b')')?;
    }
    Ok(())
}

// Appends what a reply says.
fn show(reply: &PopReply, out: &mut Vec<u8>) -> Result<(), AllocError> {
    out.push(if reply.good { b'+' } else { b'-' })?;
    out.extend_from_slice(reply.text.as_slice())?;
    if let Some(lines) = &reply.lines {
        show_lines(lines, out)?;
    }
    out.push(b';')?;
    Ok(())
}

// Appends what the reader has next, `!` where there is none of a reply, and says whether it was a reply.
fn show_next(reader: &mut ReplyReader, out: &mut Vec<u8>) -> Result<bool, AllocError> {
    let found = reader.next();
    match &found {
        Ok(Some(reply)) => {
            show(reply, out)?;
            Ok(true)
        }
        Ok(None) => Ok(false),
        Err(ReplyFault::BadReply) => {
            out.push(b'!')?;
            Ok(false)
        }
        Err(ReplyFault::NoMemory) => {
            out.extend_from_slice(b"no memory")?;
            Ok(false)
        }
    }
}

// The same of each reply that is there once this piece was fed. Behind the first the second is awaited.
fn show_fed(
    reader: &mut ReplyReader,
    second: bool,
    piece: &[u8],
    out: &mut Vec<u8>,
) -> Result<(), AllocError> {
    reader.feed(piece)?;
    for _ in 0..9u8 {
        if !show_next(reader, out)? {
            return Ok(());
        }
        reader.expect(second);
    }
    Ok(())
}

// What is read of two pieces, with `|` between what each gave; the second comes octet by octet if wanted.
fn read_cut(
    alloc: Global,
    several: [bool; 2],
    front: &[u8],
    behind: &[u8],
    singly: bool,
) -> Result<Vec<u8>, AllocError> {
    let mut reader = ReplyReader::new(alloc);
    let mut out = Vec::new(alloc);
    reader.expect(several[0]);
    show_fed(&mut reader, several[1], front, &mut out)?;
    out.push(b'|')?;
    if singly {
        for octet in behind {
            show_fed(&mut reader, several[1], &[*octet], &mut out)?;
        }
    } else {
        show_fed(&mut reader, several[1], behind, &mut out)?;
    }
    Ok(out)
}

// What is to be read of two replies that are cut at this place.
fn wanted_cut(alloc: Global, at: usize, whole: usize, cut: usize) -> Result<Vec<u8>, AllocError> {
    let first = reply_at(at);
    let second = next_at(at);
    let mut out = Vec::new(alloc);
    if cut < first.1.len() {
        out.push(b'|')?;
    }
    out.extend_from_slice(first.2)?;
    out.push(b';')?;
    if first.1.len() <= cut && cut < whole {
        out.push(b'|')?;
    }
    out.extend_from_slice(second.2)?;
    out.push(b';')?;
    if whole <= cut {
        out.push(b'|')?;
    }
    Ok(out)
}

// The octets of both.
fn both(alloc: Global, at: usize) -> Result<Vec<u8>, AllocError> {
    let first = reply_at(at);
    let second = next_at(at);
    let mut octets = Vec::from_slice(alloc, first.1)?;
    octets.extend_from_slice(second.1)?;
    Ok(octets)
}

#[test]
fn replies_are_read_however_they_are_cut(rt: HostRuntime) -> Result<(), Fail> {
    let alloc = rt.alloc();
    for at in 0..10 {
        let octets = both(alloc, at)?;
        let first = reply_at(at);
        let second = next_at(at);
        for cut in 0..=octets.len() {
            let (front, behind) = octets.split_at(cut);
            let wanted = wanted_cut(alloc, at, octets.len(), cut)?;
            let found = read_cut(alloc, [first.0, second.0], front, behind, false)?;
            assert!(rt; found == wanted, "at {at}, cut at {cut}");
            let found = read_cut(alloc, [first.0, second.0], front, behind, true)?;
            assert!(rt; found == wanted, "at {at}, cut at {cut}, then singly");
        }
    }
    Ok(())
}

// The octets that the first reply in these is written with.
fn written_again(alloc: Global, several: bool, octets: &[u8]) -> Result<Vec<u8>, AllocError> {
    let mut reader = ReplyReader::new(alloc);
    reader.expect(several);
    reader.feed(octets)?;
    let mut out = Vec::from_slice(alloc, b"> ")?;
    let found = reader.next();
    if let Ok(Some(reply)) = &found {
        reply_into(&mut out, reply)?;
    }
    Ok(out)
}

#[test]
fn replies_are_written_as_they_were_read(rt: HostRuntime) -> Result<(), Fail> {
    for at in 0..10 {
        let (several, octets, _) = reply_at(at);
        let mut wanted = Vec::from_slice(rt.alloc(), b"> ")?;
        wanted.extend_from_slice(octets)?;
        let found = written_again(rt.alloc(), several, octets)?;
        assert!(rt; found == wanted, "at {at}");
    }
    let found = written_again(rt.alloc(), false, b"+OK \r\n")?;
    assert_eq!(rt; found.as_slice(), b"> +OK\r\n".as_slice());
    Ok(())
}

#[test]
fn only_lines_of_one_reply_are_taken(rt: HostRuntime) -> Result<(), Fail> {
    let cases: [(bool, &[u8], &[u8]); 27] = [
        (false, b"+OK a\r", b""),
        (false, b"+OK a\n", b""),
        (false, b"+OK \r\n", b"+;"),
        (false, b"-ERR \r\n", b"-;"),
        (false, b"+OK a\r\nb\r\n", b"+a;!"),
        (false, b"+OK a\r\n.\r\n", b"+a;!"),
        (true, b"+OK a\r\nb\r\n", b""),
        (true, b"+OK a\r\n..\r\n", b""),
        (true, b"+OK a\r\n..\r\n.\r\n", b"+a(.);"),
        (true, b"+OK a\r\n.\r\n.\r\n", b"+a.;!"),
        (true, b"+OK a\r\n.b\r\n.\r\n", b"!"),
        (true, b"+OK a\r\n. \r\n.\r\n", b"!"),
        (true, b"+OK a\r\n\tb\r\n.\r\n", b"!"),
        (true, b"+OK a\r\n+OK b\r\n.\r\n", b"+a(+OK b);"),
        (true, b"-ERR a\r\nb\r\n.\r\n", b"-a;!"),
        (true, b".\r\n", b"!"),
        (false, b"\r\n+OK\r\n", b"!"),
        (false, b"+ok a\r\n", b"!"),
        (false, b"-err a\r\n", b"!"),
        (false, b"+OKa\r\n", b"!"),
        (false, b"+OK\ta\r\n", b"!"),
        (false, b"+O\r\n", b"!"),
        (false, b"-ERR-a\r\n", b"!"),
        (false, b" +OK\r\n", b"!"),
        (false, b"+OK a\x7F\r\n", b"!"),
        (false, b"+OK \x80\r\n", b"!"),
        (false, b"250 a\r\n", b"!"),
    ];
    for (at, (several, octets, wanted)) in cases.iter().enumerate() {
        let mut shown = Vec::from_slice(rt.alloc(), b"|")?;
        shown.extend_from_slice(wanted)?;
        let found = read_cut(rt.alloc(), [*several, false], b"", octets, false)?;
        assert!(rt; found == shown, "at {at}");
    }
    Ok(())
}

// These octets, so many `x`, CRLF, and others.
fn with_long(
    alloc: Global,
    front: &[u8],
    length: usize,
    behind: &[u8],
) -> Result<Vec<u8>, AllocError> {
    let mut octets = Vec::from_slice(alloc, front)?;
    for _ in 0..length {
        octets.push(b'x')?;
    }
    octets.extend_from_slice(b"\r\n")?;
    octets.extend_from_slice(behind)?;
    Ok(octets)
}

#[test]
fn long_lines_are_none_of_a_reply(rt: HostRuntime) -> Result<(), Fail> {
    let cases: [(&[u8], &[u8]); 3] = [
        (b"+OK ", b".\r\n+OK b\r\n"),
        (b"-ERR ", b"+OK b\r\n"),
        (b"+OK a\r\n", b".\r\n+OK b\r\n"),
    ];
    for (at, (front, behind)) in cases.iter().enumerate() {
        for (length, fits) in [(1_017, true), (1_018, false), (5_000, false)] {
            let octets = with_long(rt.alloc(), front, length, behind)?;
            for cut in [0, 6, 1_000, 1_023, 1_024, 1_025, 1_026] {
                let (front, behind) = octets.split_at(octets.len().min(cut));
                let found = read_cut(rt.alloc(), [true, false], front, behind, false)?;
                assert_eq!(rt;
                    found.ends_with(b"+b;"),
                    fits,
                    "at {at}, of {length}, cut at {cut}"
                );
                assert_eq!(rt;
                    found.ends_with(b"!"),
                    !fits,
                    "at {at}, of {length}, cut at {cut}"
                );
            }
        }
    }
    Ok(())
}

// What is read three times of octets that are none of a reply, and of more behind them.
fn read_thrice(alloc: Global, octets: &[u8], more: &[u8]) -> Result<Vec<u8>, AllocError> {
    let mut reader = ReplyReader::new(alloc);
    let mut out = Vec::new(alloc);
    reader.expect(true);
    reader.feed(octets)?;
    show_next(&mut reader, &mut out)?;
    show_next(&mut reader, &mut out)?;
    reader.feed(more)?;
    show_next(&mut reader, &mut out)?;
    Ok(out)
}

#[test]
fn what_is_none_of_a_reply_stays(rt: HostRuntime) -> Result<(), Fail> {
    let found = read_thrice(rt.alloc(), b"+OK a\r\n.b\r\n", b".\r\n")?;
    assert_eq!(rt; found.as_slice(), b"!!!".as_slice());
    Ok(())
}

// What is read where one line is awaited anew in the midst of a reply of several.
fn read_in_the_midst(alloc: Global) -> Result<Vec<u8>, AllocError> {
    let mut reader = ReplyReader::new(alloc);
    let mut out = Vec::new(alloc);
    reader.expect(true);
    show_fed(&mut reader, false, b"+OK a\r\nb\r\n", &mut out)?;
    reader.expect(false);
    show_fed(&mut reader, false, b"+OK c\r\n.\r\n+OK d\r\n", &mut out)?;
    Ok(out)
}

#[test]
fn a_reply_that_has_begun_is_read_to_its_end(rt: HostRuntime) -> Result<(), Fail> {
    let found = read_in_the_midst(rt.alloc())?;
    assert_eq!(rt; found.as_slice(), b"+a(b)(+OK c);+d;".as_slice());
    Ok(())
}

// The octets of a text, where it may stand in a reply.
fn texts(alloc: Global, text: &[u8]) -> Result<Vec<u8>, AllocError> {
    if !is_reply_text(text) {
        return Vec::from_slice(alloc, b"none");
    }
    let line = ReplyLine::new(alloc, text)?;
    Vec::from_slice(alloc, line.as_slice())
}

#[test]
fn texts_are_printable(rt: HostRuntime) -> Result<(), Fail> {
    let cases: [(&[u8], &[u8]); 5] = [
        (b"", b""),
        (b" ~", b" ~"),
        (b"a\x1F", b"none"),
        (b"\x7F", b"none"),
        (b"a\r\n", b"none"),
    ];
    for (at, (text, wanted)) in cases.iter().enumerate() {
        let found = texts(rt.alloc(), text)?;
        assert!(rt; found.as_slice() == *wanted, "at {at}");
    }
    Ok(())
}

#[test]
fn laws_of_replies_are_said() {
    replies_are_read_back();
    replies_are_one();
    answers_are_one();
    answers_last();
    begun_replies_are_none();
}
