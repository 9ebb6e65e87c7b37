// What a party says, and what it hears.
ghost use Rattle.std.specs.Prelude.{None};

use super::script::{Lines, Step};
use super::signals::Signals;
use io_edge::{Failed, Sink, Source};

/// What a party says, an octet in each read. It waits where the script has it wait.
#[derive(Drop)]
pub(super) struct Says<'a> {
    lines: Lines,
    signals: &'a Signals,
}

impl<'a> Says<'a> {
    /// What is said in these lines.
    pub(super) fn new(lines: Lines, signals: &'a Signals) -> Says<'a> {
        Says { lines, signals }
    }

    // What is said next, after each mark before it was left and each wait is over.
    fn next(&mut self) -> Option<u8> {
        for _ in 0..u16::MAX {
            match self.lines.step() {
                Step::Octet(octet) => return Some(octet),
                Step::Nothing => return None,
                Step::Leave(mark) => self.signals.leave(mark),
                Step::Await(mark) => self.signals.wait(mark),
            }
        }
        None
    }
}

impl<'a> Source for Says<'a> {
    ghost left = { λ _. None };

    ghost faults = { λ _. 0 };

    fn read(&mut self, into: &mut [u8]) -> Result<usize, Failed> {
        if into.is_empty() {
            return Ok(0);
        }
        match self.next() {
            Some(octet) => {
                into[0] = octet;
                Ok(1)
            }
            None => Ok(0),
        }
    }
}

/// What a party hears, held against the script octet by octet.
#[derive(Drop)]
pub(super) struct Hears<'a> {
    lines: Lines,
    number: u8,
    signals: &'a Signals,
}

// Whether an octet is what was to be heard.
fn is_heard(wanted: Option<u8>, octet: u8) -> bool {
    match wanted {
        Some(b'?') => octet.is_ascii_digit(),
        Some(wanted) => wanted == octet,
        None => false,
    }
}

impl<'a> Hears<'a> {
    /// What the party of this number is to hear in these lines. Where that is nothing, it has heard all.
    pub(super) fn new(lines: Lines, number: u8, signals: &'a Signals) -> Hears<'a> {
        let hears = Hears {
            lines,
            number,
            signals,
        };
        hears.tell();
        hears
    }

    // Leaves the party's mark once it has heard all.
    fn tell(&self) {
        if self.lines.are_over() {
            self.signals.leave(self.number);
        }
    }

    fn hear(&mut self, octet: u8) {
        let wanted = self.lines.next_octet();
        if !is_heard(wanted, octet) {
            self.signals
                .note_wrong(self.number, self.lines.place(), octet);
        }
    }
}

impl<'a> Sink for Hears<'a> {
    ghost contents = { λ _. None };

    ghost faults = { λ _. 0 };

    fn write(&mut self, piece: &[u8]) -> Result<usize, Failed> {
        for octet in piece {
            self.hear(*octet);
        }
        self.tell();
        Ok(piece.len())
    }
}
