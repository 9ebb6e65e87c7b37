// A trial as one text: who comes, what each says, and what each is to hear.
//
// | A line that begins with | Says |
// |---|---|
// | `S` or `P` | a client at the door for SMTP or for POP3, with its node; behind `@` the mark that it comes after |
// | `C` | the console |
// | `>` | what the party says, without the end of the line |
// | `<` | what it hears next; a `?` is any digit |
// | `!` | it leaves this mark, and goes on |
// | `@` | it goes on once this mark was left |
//
// Parties have numbers from 1 on, in the order of the text, and whoever has heard all leaves the mark of its number. The mark 0 is
// left as the doors are given back. In what is said or heard a `~` is a run of 500 octets `x`.

/// How many octets `x` a `~` is.
const RUN: u32 = 500;

/// How a line ends where it is said or heard.
#[derive(Clone, Copy, Debug, PartialEq, Eq)]
pub(super) enum LineEnd {
    /// With CRLF.
    CrLf,
    /// With LF.
    Lf,
}

/// What a party does next.
#[derive(Clone, Copy, Debug, PartialEq, Eq)]
pub(super) enum Step {
    /// It says or hears this octet.
    Octet(u8),
    /// It leaves this mark.
    Leave(u8),
    /// It waits for this mark.
    Await(u8),
    /// Nothing.
    Nothing,
}

/// The octet at this place, and 0 behind the end.
pub(super) fn octet_at(text: &[u8], at: usize) -> u8 {
    match text.get(at).copied() {
        Some(octet) => octet,
        None => 0,
    }
}

/// Where the next line begins.
pub(super) fn next_line(text: &[u8], at: usize) -> usize {
    let mut at = at;
    for _ in 0..text.len() {
        let octet = octet_at(text, at);
        if octet == 0 {
            return at;
        }
        at = at.saturating_add(1);
        if octet == b'\n' {
            return at;
        }
    }
    at
}

/// What the digit at this place counts.
pub(super) fn digit_at(text: &[u8], at: usize) -> u8 {
    octet_at(text, at).saturating_sub(b'0')
}

fn is_party(octet: u8) -> bool {
    octet == b'S' || octet == b'P' || octet == b'C'
}

/// Where the first line at or behind this place is that names a party; the end, where there is none.
pub(super) fn next_party(text: &[u8], at: usize) -> usize {
    let mut at = at;
    for _ in 0..text.len() {
        let octet = octet_at(text, at);
        if octet == 0 || is_party(octet) {
            return at;
        }
        at = next_line(text, at);
    }
    at
}

/// How many parties there are.
pub(super) fn parties(text: &[u8]) -> u8 {
    let mut count = 0u8;
    let mut at = 0usize;
    for _ in 0..text.len() {
        at = next_party(text, at);
        if octet_at(text, at) == 0 {
            return count;
        }
        count = count.saturating_add(1);
        at = next_line(text, at);
    }
    count
}

/// The lines of one party, from some place on, of which those are gone over that begin with one sign.
#[derive(Clone, Copy)]
pub(super) struct Lines {
    text: &'static [u8],
    at: usize,
    sign: u8,
    end: LineEnd,
    // whether a line was begun
    inside: bool,
    // whether the CR at its end was given
    cr: bool,
    // how many octets of a run were given
    run: u32,
}

impl Lines {
    /// The lines behind this place, of which those are gone over that begin with the sign.
    pub(super) fn new(text: &'static [u8], at: usize, sign: u8, end: LineEnd) -> Lines {
        Lines {
            text,
            at,
            sign,
            end,
            inside: false,
            cr: false,
            run: 0,
        }
    }

    /// Where they go on.
    pub(super) fn place(&self) -> usize {
        self.at
    }

    fn go_on(&mut self) {
        self.at = self.at.saturating_add(1);
    }

    // The octet at the end of a line.
    fn end_octet(&mut self) -> u8 {
        if self.end == LineEnd::CrLf && !self.cr {
            self.cr = true;
            return b'\r';
        }
        self.cr = false;
        self.inside = false;
        self.go_on();
        b'\n'
    }

    // An octet of a run.
    fn run_octet(&mut self) -> u8 {
        self.run = self.run.saturating_add(1);
        if self.run >= RUN {
            self.run = 0;
            self.go_on();
        }
        b'x'
    }

    // The next octet of a line that was begun.
    fn octet(&mut self) -> u8 {
        match octet_at(self.text, self.at) {
            b'\n' | 0 => self.end_octet(),
            b'~' => self.run_octet(),
            octet => {
                self.go_on();
                octet
            }
        }
    }

    // The mark that the line names, which is over.
    fn mark(&mut self) -> u8 {
        let mark = digit_at(self.text, self.at.saturating_add(1));
        self.at = next_line(self.text, self.at);
        mark
    }

    // Begins the next line, or does what it says.
    fn begin(&mut self) -> Option<Step> {
        match octet_at(self.text, self.at) {
            b'!' => Some(Step::Leave(self.mark())),
            b'@' => Some(Step::Await(self.mark())),
            b'<' | b'>' => {
                if octet_at(self.text, self.at) == self.sign {
                    self.inside = true;
                    self.go_on();
                } else {
                    self.at = next_line(self.text, self.at);
                }
                None
            }
            _ => Some(Step::Nothing),
        }
    }

    /// What comes next.
    pub(super) fn step(&mut self) -> Step {
        for _ in 0..self.text.len() {
            if self.inside {
                return Step::Octet(self.octet());
            }
            if let Some(step) = self.begin() {
                return step;
            }
        }
        Step::Nothing
    }

    /// The next octet, where marks are passed over.
    pub(super) fn next_octet(&mut self) -> Option<u8> {
        for _ in 0..self.text.len() {
            match self.step() {
                Step::Octet(octet) => return Some(octet),
                Step::Nothing => return None,
                Step::Leave(_) => {}
                Step::Await(_) => {}
            }
        }
        None
    }

    /// Whether no octet is left.
    pub(super) fn are_over(&self) -> bool {
        let mut ahead = *self;
        ahead.next_octet().is_none()
    }
}
