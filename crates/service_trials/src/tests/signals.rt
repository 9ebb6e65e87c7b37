// What those who take part in a trial leave for one another.

use std::sync::atomic::{AtomicBool, AtomicU64, Ordering};
use std::thread;

/// How often somebody who waits looks, and gives way after each look. That takes a second or two at least.
const LOOKS: u32 = 4_000_000;

/// Marks, by number, and what went wrong. Threads share it.
#[derive(Drop)]
pub(super) struct Signals {
    // one bit for each mark
    marks: AtomicU64,
    // who heard something else than it was to, where, and what; 0 where nobody did
    wrong: AtomicU64,
    // whether somebody has waited in vain
    late: AtomicBool,
    // the session that a gate holds; 0 until one has come
    held: AtomicU64,
    // whether another session was answered
    answered: AtomicBool,
}

// The bit of a mark.
fn bit(mark: u8) -> u64 {
    if mark < 64 { 1u64 << mark } else { 0 }
}

impl Signals {
    /// Nothing is left yet.
    pub(super) fn new() -> Signals {
        Signals {
            marks: AtomicU64::new(0),
            wrong: AtomicU64::new(0),
            late: AtomicBool::new(false),
            held: AtomicU64::new(0),
            answered: AtomicBool::new(false),
        }
    }

    /// Leaves a mark.
    pub(super) fn leave(&self, mark: u8) {
        self.marks.fetch_or(bit(mark), Ordering::SeqCst);
    }

    /// Whether the mark was left.
    pub(super) fn has(&self, mark: u8) -> bool {
        self.marks.load(Ordering::SeqCst) & bit(mark) != 0
    }

    /// Whether all marks up to this one were left.
    pub(super) fn has_all(&self, last: u8) -> bool {
        for mark in 0..=last {
            if !self.has(mark) {
                return false;
            }
        }
        true
    }

    /// Waits for the mark, and notes where it waited in vain.
    pub(super) fn wait(&self, mark: u8) {
        for _ in 0..LOOKS {
            if self.has(mark) || self.is_late() {
                return;
            }
            thread::yield_now();
        }
        self.late.store(true, Ordering::SeqCst);
    }

    /// Notes that the party of this number heard this octet, and was to hear another that stands before this place of the text. The
    /// first such note stays.
    pub(super) fn note_wrong(&self, number: u8, at: usize, octet: u8) {
        let place = (at as u64) % 1_000_000;
        let note = u64::from(number) * 1_000_000_000 + place * 1_000 + u64::from(octet);
        let _ = self
            .wrong
            .compare_exchange(0, note, Ordering::SeqCst, Ordering::SeqCst);
    }

    /// Who heard first what it was not to, where in the text, and which octet, by a thousand million, a thousand and one; 0 where
    /// nobody did.
    pub(super) fn wrong(&self) -> u64 {
        self.wrong.load(Ordering::SeqCst)
    }

    /// Whether somebody has waited in vain.
    pub(super) fn is_late(&self) -> bool {
        self.late.load(Ordering::SeqCst)
    }

    /// The first session to come is held until another was answered.
    pub(super) fn hold_first(&self, session: u64) {
        let _ = self
            .held
            .compare_exchange(0, session, Ordering::SeqCst, Ordering::SeqCst);
        if self.held.load(Ordering::SeqCst) == session {
            self.hold();
        }
    }

    // Waits until another was answered.
    fn hold(&self) {
        for _ in 0..LOOKS {
            if self.answered.load(Ordering::SeqCst) {
                return;
            }
            thread::yield_now();
        }
        self.late.store(true, Ordering::SeqCst);
    }

    /// The session was answered.
    pub(super) fn answer(&self, session: u64) {
        if self.held.load(Ordering::SeqCst) != session {
            self.answered.store(true, Ordering::SeqCst);
        }
    }

    /// Whether a session was held, and another was answered.
    pub(super) fn has_held(&self) -> bool {
        self.held.load(Ordering::SeqCst) != 0 && self.answered.load(Ordering::SeqCst)
    }
}
