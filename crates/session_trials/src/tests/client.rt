// A client, and what it hears.
use super::desk::{Desk, FIRST_MESSAGE, Manner, Message, failed, in_use, note, note_lines};
use super::either::Either;
use super::users::{plan, user};
use call_tickets::{Answer, Move};
use mail_base::{Octets, Plan};
use std::alloc::{AllocError, Global};
use std::process::Abort;
use std::test::Fail;

// What a client does, and what it is to have heard.
#[derive(Clone, Copy)]
pub(super) enum Step<'a> {
    // Says the lines of a table that are not indented, one after the other; they lead to those that are.
    Says(&'a [u8]),
    // Says all of them in pieces of so many octets.
    Pieces(&'a [u8], usize),
    // Says all of them in two pieces, the first of so many octets.
    Cut(&'a [u8], usize),
    // Says octets in pieces of so many.
    Feeds(&'a [u8], usize),
    // Says a text of 16,384 lines of 1,024 octets with their CRLF, the first of which has this octet more, and the period.
    Large(u8),
    // Says a text of one line, of 100,001 octets with its CRLF, the period and QUIT, in pieces of so many.
    Long(usize),
    // Names u001 to u100 as recipients, each of whom is taken.
    Hundred,
    // Has heard this and no more since the last step that asked.
    Heard(&'a [u8]),
    // Has heard this last of all.
    Ended(&'a [u8]),
    // Says a line of so many octets with its CRLF that begins so, which leads to this and no more.
    Line(&'a [u8], usize, &'a [u8]),
    // Says a line that never ends, which leads to nothing.
    Endless,
    // Has sent, last of all, a message with a text of so many octets, for so many mailboxes; none where there are none.
    Sent(usize, usize),
    // Has sent this text last of all.
    Text(&'a [u8]),
    // Asks for message 1, is late answered with these octets of it, and is shown this.
    Shown(&'a [u8], &'a [u8]),
}

// A client of node 1, and what was said so far.
#[derive(Drop)]
struct Client {
    alloc: Global,
    plan: Plan,
    session: Either,
    desk: Desk,
    said: Vec<u8>,
}

// Whether a line of a table is said by the client.
fn is_said(line: &[u8]) -> bool {
    !line.starts_with(b"  ")
}

// How many octets the client says of a table, each line with its CRLF.
pub(super) fn octets_said(table: &[u8]) -> usize {
    let mut count = 0usize;
    for line in table.split_inclusive(|octet| *octet == b'\n') {
        if is_said(line) {
            count = count.saturating_add(line.len()).saturating_add(1);
        }
    }
    count
}

// What the client says of a table, each line with its CRLF, and what that leads to.
fn parted(alloc: Global, table: &[u8]) -> Result<(Vec<u8>, Vec<u8>), AllocError> {
    let mut says = Vec::new(alloc);
    let mut wanted = Vec::new(alloc);
    for line in table.split_inclusive(|octet| *octet == b'\n') {
        if is_said(line) {
            says.extend_from_slice(line.strip_suffix(b"\n").unwrap_or(line))?;
            says.extend_from_slice(b"\r\n")?;
        } else {
            wanted.extend_from_slice(line)?;
        }
    }
    Ok((says, wanted))
}

// A client takes these steps after this greeting.
fn takes(
    rt: &impl Abort,
    session: Either,
    desk: Desk,
    plan: Plan,
    greeting: &[u8],
    steps: &[Step],
) -> Result<(), Fail> {
    let mut client = Client {
        alloc: desk.alloc,
        plan,
        session,
        said: Vec::new(desk.alloc),
        desk,
    };
    client.takes(rt, greeting, steps)
}

// A client that sends mail takes these steps.
pub(super) fn smtp(rt: &impl Abort, alloc: Global, steps: &[Step]) -> Result<(), Fail> {
    let plan = plan(alloc)?;
    let desk = Desk::new(alloc, &[])?;
    let session = Either::smtp(alloc, desk.node);
    takes(
        rt,
        session,
        desk,
        plan,
        b"  220 node1 Porcupine ready\n",
        steps,
    )
}

// A client that reads mail, and these messages, takes these steps.
pub(super) fn pop(
    rt: &impl Abort,
    alloc: Global,
    messages: &[Message],
    steps: &[Step],
) -> Result<(), Fail> {
    let plan = plan(alloc)?;
    let desk = Desk::new(alloc, messages)?;
    let session = Either::pop(alloc, desk.node);
    let greeting = b"  +OK node1 ready <3.12.1000000000@node1>\n";
    takes(rt, session, desk, plan, greeting, steps)
}

impl Client {
    // Notes the lines that the session said.
    fn note_said(&mut self, out: &[u8]) -> Result<(), AllocError> {
        note_lines(&mut self.said, b"  ", out)?;
        if self.session.has_ended() {
            note(&mut self.said, b"  ", b"closed")?;
        }
        Ok(())
    }

    // The node answers in its manner; this is its answer where it serves.
    fn answer(&mut self, served: Option<Answer>) {
        match self.desk.manner {
            Manner::Serves => self.session.answer(served),
            Manner::Fails => self.session.answer(Some(failed())),
            Manner::IsInUse => self.session.answer(in_use()),
            Manner::HasNoProfile => self.session.answer(Some(Answer::NoProfile {
                manager: self.desk.node,
            })),
            Manner::GivesUp => self.session.answer(None),
            Manner::IsLate => {}
        }
    }

    // The next move. Whether it was one.
    fn next(&mut self) -> Result<bool, Fail> {
        let mut out = Vec::new(self.alloc);
        match self.session.next(self.alloc, &self.plan, &mut out)? {
            Move::Wait | Move::Idle | Move::End => return Ok(false),
            Move::Said => self.note_said(&out)?,
            Move::Begin(call) => {
                let served = self.desk.serves(&self.plan, &call, &mut self.said)?;
                self.answer(served);
            }
        }
        Ok(true)
    }

    // Makes moves until there is none, and so many at most.
    fn moves(&mut self, most: usize) -> Result<(), Fail> {
        for _ in 0..most {
            if !self.next()? {
                return Ok(());
            }
        }
        Ok(())
    }

    // Feeds a piece, and makes the moves that it leads to.
    fn feed(&mut self, piece: &[u8]) -> Result<(), Fail> {
        self.session.feed(piece)?;
        self.moves(piece.len().saturating_add(2))
    }

    // Feeds octets in pieces of so many.
    fn feed_all(&mut self, octets: &[u8], size: usize) -> Result<(), Fail> {
        for piece in octets.chunks(size.max(1)) {
            self.feed(piece)?;
        }
        Ok(())
    }

    // The answer comes late.
    fn late(&mut self, answer: Option<Answer>) -> Result<(), Fail> {
        self.session.answer(answer);
        self.moves(9)
    }

    // The node goes down.
    fn goes_down(&mut self) -> Result<(), Fail> {
        let mut out = Vec::new(self.alloc);
        self.session.node_down(self.alloc, &mut out)?;
        self.note_said(&out)?;
        self.moves(9)
    }

    // What its session asks as it leaves.
    fn leaves(&mut self) -> Result<(), Fail> {
        match &self.session.leave(self.alloc, self.desk.node) {
            None => Ok(note(&mut self.said, b"  leaves ", b"nothing")?),
            Some((user, login)) if login.seq == 7 && login.boot == 3 => {
                Ok(note(&mut self.said, b"  leaves ", user.octets())?)
            }
            Some(_) => Err(Fail::from("another login")),
        }
    }

    // What the letter of a line that begins with `!` says.
    fn befalls(&mut self, line: &[u8]) -> Result<(), Fail> {
        match line.get(1) {
            Some(b'f') => self.desk.manner = Manner::Fails,
            Some(b'u') => self.desk.manner = Manner::IsInUse,
            Some(b'h') => self.desk.manner = Manner::HasNoProfile,
            Some(b'g') => self.desk.manner = Manner::GivesUp,
            Some(b'i') => self.desk.manner = Manner::IsLate,
            Some(b's') => {
                let stored = self.desk.stored();
                return self.late(stored);
            }
            Some(b'w') => return self.late(Some(Answer::GoneAlready)),
            Some(b'c') => return self.late(Some(failed())),
            Some(b'n') => return self.late(None),
            Some(b'd') => return self.goes_down(),
            Some(b'l') => return self.leaves(),
            Some(b'p') => return self.feed(line.strip_prefix(b"!part ").unwrap_or(b"")),
            _ => return Err(Fail::from("no such line")),
        }
        Ok(())
    }

    // Says a line, or what befalls the client, which is noted. A line that begins with `#` is noted and no more.
    fn say(&mut self, line: &[u8]) -> Result<(), Fail> {
        note(&mut self.said, b"", line)?;
        if line.starts_with(b"#") {
            return Ok(());
        }
        if line.starts_with(b"!") {
            return self.befalls(line);
        }
        self.feed(line)?;
        self.feed(b"\r\n")
    }

    // Says the lines of a table that are not indented; they lead to those that are.
    fn says(&mut self, rt: &impl Abort, table: &[u8]) -> Result<(), Fail> {
        self.said.clear();
        for line in table.split_inclusive(|octet| *octet == b'\n') {
            if is_said(line) {
                self.say(line.strip_suffix(b"\n").unwrap_or(line))?;
            }
        }
        self.has_said(rt, table);
        Ok(())
    }

    // Says all lines of a table in pieces of so many octets; they lead to the same.
    fn says_in_pieces(&mut self, rt: &impl Abort, table: &[u8], size: usize) -> Result<(), Fail> {
        let (says, wanted) = parted(self.alloc, table)?;
        self.feed_all(&says, size)?;
        self.has_said(rt, &wanted);
        Ok(())
    }

    // Says all lines of a table in two pieces; they lead to the same.
    fn says_cut(&mut self, rt: &impl Abort, table: &[u8], at: usize) -> Result<(), Fail> {
        let (says, wanted) = parted(self.alloc, table)?;
        let (first, second) = says.split_at(at.min(says.len()));
        self.feed(first)?;
        self.feed(second)?;
        self.has_said(rt, &wanted);
        Ok(())
    }

    // Says a line of so many octets with its CRLF that begins so, which leads to this and no more. No more of it is held than the
    // limit, however it comes.
    fn says_line_of(
        &mut self,
        rt: &impl Abort,
        begins: &[u8],
        length: usize,
        wanted: &[u8],
    ) -> Result<(), Fail> {
        let mut line = begins.to_vec(self.alloc)?;
        line.resize(length.saturating_sub(2), b' ')?;
        self.said.clear();
        for piece in line.chunks(999) {
            self.feed(piece)?;
            assert!(rt; self.session.held() < 1_024);
        }
        self.has_said(rt, b"");
        self.feed(b"\r\n")?;
        self.has_said(rt, wanted);
        Ok(())
    }

    // Says a line that never ends: it leads to nothing, and little of it is held.
    fn says_without_end(&mut self, rt: &impl Abort) -> Result<(), Fail> {
        self.said.clear();
        let piece = [b'x'; 1000];
        for _ in 0..5_000u16 {
            self.feed(&piece)?;
            assert!(rt; self.session.held() < 1_024);
        }
        self.has_said(rt, b"");
        Ok(())
    }

    fn says_large(&mut self, first: u8) -> Result<(), Fail> {
        let mut line = [b'x'; 1024];
        line[1022] = b'\r';
        line[1023] = b'\n';
        self.feed(&[first])?;
        for _ in 0..16_384u32 {
            self.feed(&line)?;
        }
        self.feed(b".\r\n")
    }

    fn says_long(&mut self, size: usize) -> Result<(), Fail> {
        let mut text = b"..".to_vec(self.alloc)?;
        text.resize(100_000, b'x')?;
        text.extend_from_slice(b"\r\n.\r\nQUIT\r\n")?;
        self.feed_all(&text, size)
    }

    fn names_a_hundred(&mut self, rt: &impl Abort) -> Result<(), Fail> {
        for number in 1..101u8 {
            self.feed(b"RCPT TO:<")?;
            self.feed(&user(number))?;
            self.said.clear();
            self.feed(b">\r\n")?;
            self.has_said(rt, b"  250 recipient ok\n");
        }
        Ok(())
    }

    // Asks for message 1; the answer, these octets of it, comes late.
    fn is_shown(&mut self, rt: &impl Abort, octets: &[u8], wanted: &[u8]) -> Result<(), Fail> {
        self.desk.manner = Manner::IsLate;
        self.feed(b"RETR 1\r\n")?;
        self.session.answer(Some(Answer::Part {
            octets: Octets::from_vec(octets.to_vec(self.alloc)?),
            whole: FIRST_MESSAGE.len() as u64,
        }));
        let mut out = Vec::new(self.alloc);
        self.session.next(self.alloc, &self.plan, &mut out)?;
        assert!(rt; out.as_slice() == wanted, "{octets:?}");
        Ok(())
    }

    fn take(&mut self, rt: &impl Abort, step: Step) -> Result<(), Fail> {
        match step {
            Step::Says(table) => self.says(rt, table),
            Step::Pieces(table, size) => self.says_in_pieces(rt, table, size),
            Step::Cut(table, at) => self.says_cut(rt, table, at),
            Step::Feeds(octets, size) => self.feed_all(octets, size),
            Step::Large(first) => self.says_large(first),
            Step::Long(size) => self.says_long(size),
            Step::Hundred => self.names_a_hundred(rt),
            Step::Line(begins, length, wanted) => self.says_line_of(rt, begins, length, wanted),
            Step::Endless => self.says_without_end(rt),
            Step::Shown(octets, wanted) => self.is_shown(rt, octets, wanted),
            Step::Heard(wanted) => {
                self.has_said(rt, wanted);
                self.said.clear();
                Ok(())
            }
            Step::Ended(wanted) => {
                assert!(rt; self.said.ends_with(wanted));
                Ok(())
            }
            Step::Sent(octets, mailboxes) => {
                assert!(rt; self.desk.text.len() == octets && self.desk.mailboxes == mailboxes);
                Ok(())
            }
            Step::Text(text) => {
                assert!(rt; self.desk.text.as_slice() == text);
                Ok(())
            }
        }
    }

    // Hears the greeting, and takes each step.
    fn takes(&mut self, rt: &impl Abort, greeting: &[u8], steps: &[Step]) -> Result<(), Fail> {
        self.next()?;
        self.has_said(rt, greeting);
        self.said.clear();
        for step in steps {
            self.take(rt, *step)?;
        }
        Ok(())
    }

    fn has_said(&self, rt: &impl Abort, wanted: &[u8]) {
        assert!(rt; self.said.as_slice() == wanted, "{:?}", self.said);
    }
}
