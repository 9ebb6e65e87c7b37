// Lines and texts that were worked by hand, cut at every place.
ghost use Rattle.std.specs.Prelude.{◌≤◌};

use dot_text::{
    Cut, Line, LineCutter, Undotter, begun_texts_have_no_end, dot_into, lines_are_all,
    lines_are_one, texts_are_one, texts_are_read_back, texts_are_sent_in_one_way,
    worked_as_received, worked_as_sent,
};
use std::alloc::{AllocError, Global};

#[test]
fn laws_are_said() {
    worked_as_received();
    worked_as_sent();
    lines_are_one();
    lines_are_all();
    texts_are_one();
    begun_texts_have_no_end();
    texts_are_read_back();
    texts_are_sent_in_one_way();
}

// The lines of the octets, with `|` after each, or `!` in place of a long one, and the rest.
fn lines_of(alloc: Global, limit: usize, pieces: [&[u8]; 2]) -> Result<Vec<u8>, AllocError>
    requires { 2 ≤ limit }
{
    let mut cutter = LineCutter::new(alloc, limit);
    let mut out = Vec::new(alloc);
    for piece in pieces {
        cutter.feed(piece)?;
        for _ in 0..9u8 {
            match cutter.find() {
                None => {}
                Some(Line::Long(length)) => {
                    out.push(b'!')?;
                    cutter.take(Line::Long(length));
                }
                Some(Line::Whole(length)) => {
                    out.extend_from_slice(&cutter.rest()[..length])?;
                    out.push(b'|')?;
                    cutter.take(Line::Whole(length));
                }
            }
        }
    }
    out.extend_from_slice(cutter.rest())?;
    Ok(out)
}

#[test]
fn cuts_lines(rt: HostRuntime) -> Result<(), AllocError> {
    let cases: [(&[u8], &[u8]); 8] = [
        (b"", b""),
        (b"a\r\nb\r\n", b"a|b|"),
        (b"\r\n\r\nab", b"||ab"),
        (b"a\nb\rc\r\r\nd\n\r", b"a\nb\rc\r|d\n\r"),
        (b"123456\r\n1234567\r\n1\r\n", b"123456|!1|"),
        (b"1234567890123\r\r\n\r\n", b"!|"),
        (b"1234567", b"1234567"),
        (b"1234567890123\r", b"\r"),
    ];
    for (at, (octets, wanted)) in cases.iter().enumerate() {
        for cut in 0..=octets.len() {
            let (front, behind) = octets.split_at(cut);
            let lines = lines_of(rt.alloc(), 8, [front, behind])?;
            assert_eq!(rt; lines.as_slice(), *wanted, "at {at}, cut at {cut}");
        }
    }
    Ok(())
}

#[test]
fn skips_octets(rt: HostRuntime) -> Result<(), AllocError> {
    let mut cutter = LineCutter::new(rt.alloc(), 100);
    cutter.feed(b"DATA\r\nabc\r\nx\r")?;
    assert_eq!(rt; cutter.find(), Some(Line::Whole(4)));
    assert_eq!(rt; cutter.find(), Some(Line::Whole(4)));
    if cutter.rest().len() > 6 {
        cutter.take(Line::Whole(4));
    }
    assert_eq!(rt; cutter.rest(), b"abc\r\nx\r".as_slice());
    if cutter.rest().len() > 4 {
        cutter.skip(4);
    }
    assert_eq!(rt; cutter.find(), None);
    cutter.feed(b"\n")?;
    assert_eq!(rt; cutter.find(), Some(Line::Whole(2)));
    assert_eq!(rt; cutter.rest(), b"\nx\r\n".as_slice());
    Ok(())
}

// A line that never ends: no more of it is held than the limit.
#[test]
fn lets_a_long_line_go(rt: HostRuntime) -> Result<(), AllocError> {
    let mut cutter = LineCutter::new(rt.alloc(), 1024);
    for _ in 0..100u8 {
        cutter.feed(&[b'x'; 1000])?;
        assert_eq!(rt; cutter.find(), None);
        assert!(rt; cutter.rest().len() < 1024);
    }
    cutter.feed(b"\r")?;
    assert_eq!(rt; cutter.find(), None);
    cutter.feed(b"\nQUIT\r\n")?;
    assert_eq!(rt; cutter.find(), Some(Line::Long(0)));
    Ok(())
}

// What an undotter makes of the octets, and how many it used, if the text ended.
fn undotted(alloc: Global, pieces: [&[u8]; 2]) -> Result<(Vec<u8>, Option<usize>), AllocError> {
    let mut undotter = Undotter::new();
    let mut out = Vec::new(alloc);
    let mut before = 0;
    for piece in pieces {
        match undotter.feed(piece, &mut out)? {
            Cut::More => before = piece.len(),
            Cut::Ended(used) => return Ok((out, before.checked_add(used))),
        }
    }
    Ok((out, None))
}

#[test]
fn undots_texts(rt: HostRuntime) -> Result<(), AllocError> {
    let cases: [(&[u8], &[u8], Option<usize>); 9] = [
        (
            b"..\r\n.a\r\nx\n.\ny\r\n.\r\n",
            b".\r\na\r\nx\n.\ny\r\n",
            Some(18),
        ),
        (b".\r\nQUIT\r\n", b"", Some(3)),
        (b"a\r\n.\r\n.\r\n", b"a\r\n", Some(6)),
        (b"a\n.\n.\r\n", b"a\n.\n.\r\n", None),
        (b"a\r.\rb\r\n.\r", b"a\r.\rb\r\n", None),
        (b".\r\r\n.\r.\r\n", b"\r\r\n\r.\r\n", None),
        (b"...\r\n.\n.\r\n", b"..\r\n\n.\r\n", None),
        (b"a.\r\n.", b"a.\r\n", None),
        (b".\rx\r\n.\r\n", b"\rx\r\n", Some(8)),
    ];
    for (at, (octets, text, used)) in cases.iter().enumerate() {
        for cut in 0..=octets.len() {
            let (front, behind) = octets.split_at(cut);
            let made = undotted(rt.alloc(), [front, behind])?;
            assert_eq!(rt; made.0.as_slice(), *text, "at {at}, cut at {cut}");
            assert_eq!(rt; made.1, *used, "at {at}, cut at {cut}");
        }
    }
    Ok(())
}

#[test]
fn dots_texts(rt: HostRuntime) -> Result<(), AllocError> {
    let cases: [(&[u8], &[u8]); 7] = [
        (b"", b".\r\n"),
        (b"\r\n", b"\r\n.\r\n"),
        (b".", b"..\r\n.\r\n"),
        (b".b\r\n.\r", b"..b\r\n..\r\r\n.\r\n"),
        (b"a.b\r\n..\r\n", b"a.b\r\n...\r\n.\r\n"),
        (b"a\n.b\r.c", b"a\n.b\r.c\r\n.\r\n"),
        (b"a\r\n\n", b"a\r\n\n\r\n.\r\n"),
    ];
    for (at, (text, wanted)) in cases.iter().enumerate() {
        let mut out = Vec::from_slice(rt.alloc(), b"<")?;
        dot_into(&mut out, text)?;
        assert_eq!(rt; out.get(1..), Some(*wanted), "at {at}");
    }
    Ok(())
}
