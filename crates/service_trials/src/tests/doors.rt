// Doors at which the clients of a script come.
ghost use Rattle.std.specs.Prelude.{None};

use super::clients::{Hears, Says};
use super::script::{LineEnd, Lines, digit_at, next_line, next_party, octet_at};
use super::signals::Signals;
use io_edge::{Accepted, Door, Failed, Protocol};
use std::thread;

/// Whom a door looks for in the script.
#[derive(Drop)]
pub(super) struct Search<'a> {
    text: &'static [u8],
    signals: &'a Signals,
    // with what the lines begin of those who come at this door
    sign: u8,
    node: u8,
    // where it looks next, and how many parties stand before that
    at: usize,
    number: u8,
}

impl<'a> Search<'a> {
    /// A search from the beginning, for the parties with this sign and node.
    pub(super) fn new(text: &'static [u8], signals: &'a Signals, sign: u8, node: u8) -> Search<'a> {
        Search {
            text,
            signals,
            sign,
            node,
            at: 0,
            number: 0,
        }
    }

    // Goes behind the line at this place, which names a party.
    fn pass(&mut self, at: usize) {
        self.number = self.number.saturating_add(1);
        self.at = next_line(self.text, at);
    }

    // Whether the party of this line comes to this door.
    fn is_ours(&self, at: usize) -> bool {
        octet_at(self.text, at) == self.sign
            && digit_at(self.text, at.saturating_add(1)) == self.node
    }

    // Whether the mark was left that it comes after, if its line names one.
    fn may_come(&self, at: usize) -> bool {
        octet_at(self.text, at.saturating_add(1)) == b'\n'
            || octet_at(self.text, at.saturating_add(2)) != b'@'
            || self.signals.has(digit_at(self.text, at.saturating_add(3)))
    }

    /// Whether another party is there. Its lines are then next.
    pub(super) fn find(&mut self) -> bool {
        for _ in 0..u8::MAX {
            let at = next_party(self.text, self.at);
            if octet_at(self.text, at) == 0 {
                return false;
            }
            let ours = self.is_ours(at);
            if ours && !self.may_come(at) {
                return false;
            }
            self.pass(at);
            if ours {
                return true;
            }
        }
        false
    }

    /// What the party that was found says.
    pub(super) fn says(&self, end: LineEnd) -> Says<'a> {
        Says::new(Lines::new(self.text, self.at, b'>', end), self.signals)
    }

    /// What it is to hear.
    pub(super) fn hears(&self, end: LineEnd) -> Hears<'a> {
        Hears::new(
            Lines::new(self.text, self.at, b'<', end),
            self.number,
            self.signals,
        )
    }
}

/// A door at which the clients of the script come that are for it, in order. It never fails.
#[derive(Drop)]
pub(super) struct ScriptDoor<'a> {
    search: Search<'a>,
    quiets: u64,
}

// With what the lines begin of those who speak it.
fn sign_of(protocol: Protocol) -> u8 {
    match protocol {
        Protocol::Smtp => b'S',
        Protocol::Pop => b'P',
    }
}

impl<'a> ScriptDoor<'a> {
    /// The door of this node for this protocol.
    pub(super) fn new(
        text: &'static [u8],
        signals: &'a Signals,
        node: u8,
        protocol: Protocol,
    ) -> ScriptDoor<'a> {
        ScriptDoor {
            search: Search::new(text, signals, sign_of(protocol), node),
            quiets: 0,
        }
    }
}

impl<'a> Door for ScriptDoor<'a> {
    type In = Says<'a>;

    type Out = Hears<'a>;

    ghost left = { λ _. None };

    ghost quiets = { λ d. d.quiets };

    ghost faults = { λ _. 0 };

    fn accept(&mut self) -> Result<Accepted<Says<'a>, Hears<'a>>, Failed> {
        if self.search.find() {
            let says = self.search.says(LineEnd::CrLf);
            let hears = self.search.hears(LineEnd::CrLf);
            return Ok(Accepted::Conn(says, hears));
        }
        thread::yield_now();
        self.quiets = self.quiets.saturating_add(1);
        Ok(Accepted::Quiet)
    }
}
