// Three nodes, the letters in flight, and the lines of a table.
ghost use Rattle.std.specs.Prelude.{◌<◌, length, IfOk, IfSome};

use super::lines::{asked, at, digit, lines_of, node_at};
use super::says::name_of;
use super::site::{Site, named};
use mail_base::{Letter, MsgId, NodeNo, NodeSet};
use node_core::NodeFault;
use node_tickets::MishapKind;
use std::alloc::{AllocError, Global};
use std::process::Abort;
use std::test::Fail;
use whole_node::is_of_reads;

/// The nodes and the letters between them.
#[derive(Drop)]
pub(crate) struct Trial {
    pub(crate) alloc: Global,
    pub(crate) sites: Vec<Site>,
    pub(crate) flying: Vec<Letter>,
}

// A node whose journal is made. Its disk does not fail.
fn fresh(alloc: Global, number: u8) -> Result<Site, AllocError> {
    let own = NodeNo::new(number).ok_or(AllocError)?;
    match Site::new(alloc, own) {
        Ok(site) => Ok(site),
        Err(NodeFault::Disk) => Err(AllocError),
        Err(NodeFault::Worn) => Err(AllocError),
        Err(NodeFault::NoMemory { .. }) => Err(AllocError),
    }
}

// A node that begins in the first epoch.
fn opened(alloc: Global, number: u8) -> Result<Site, AllocError> {
    let own = NodeNo::new(number).ok_or(AllocError)?;
    match Site::open(alloc, own) {
        Ok(site) => Ok(site),
        Err(NodeFault::Disk) => Err(AllocError),
        Err(NodeFault::Worn) => Err(AllocError),
        Err(NodeFault::NoMemory { .. }) => Err(AllocError),
    }
}

// Where the first letter of this name is.
fn place_of(flying: &[Letter], name: &[u8]) -> Option<usize>
    ensures { IfSome result (λ place. place < length flying.now) }
{
    for (place, letter) in flying.iter().enumerate() {
        if name_of(letter).as_slice() == name {
            return Some(place);
        }
    }
    None
}

impl Trial {
    fn empty(alloc: Global) -> Result<Trial, AllocError> {
        let mut sites = Vec::new(alloc);
        for number in 1..4u8 {
            sites.push(fresh(alloc, number)?)?;
        }
        Ok(Trial {
            alloc,
            sites,
            flying: Vec::new(alloc),
        })
    }

    /// Three nodes in their first boots.
    pub(crate) fn new(alloc: Global) -> Result<Trial, AllocError> {
        let mut trial = Trial::empty(alloc)?;
        trial.start_all()?;
        Ok(trial)
    }

    // Three nodes that begin over empty disks, in the first epoch.
    fn opened(alloc: Global) -> Result<Trial, AllocError> {
        let mut sites = Vec::new(alloc);
        for number in 1..4u8 {
            sites.push(opened(alloc, number)?)?;
        }
        Ok(Trial {
            alloc,
            sites,
            flying: Vec::new(alloc),
        })
    }

    fn start_all(&mut self) -> Result<(), AllocError> {
        for number in 1..4u8 {
            self.start(number)?;
        }
        Ok(())
    }

    /// Where the node of this number stands.
    pub(crate) fn place(&self, number: u8) -> Result<usize, AllocError>
        ensures { IfOk result (λ place. place < length self.now.sites.items) }
    {
        let place = usize::from(number.saturating_sub(1));
        if number == 0 || place >= self.sites.len() {
            return Err(AllocError);
        }
        Ok(place)
    }

    /// The node starts; what comes of it is not told.
    pub(crate) fn start(&mut self, number: u8) -> Result<(), AllocError> {
        let place = self.place(number)?;
        let mut out = Vec::new(self.alloc);
        self.sites[place].start(self.alloc, &mut out)
    }

    /// The node stops.
    pub(crate) fn halt(&mut self, number: u8) -> Result<(), AllocError> {
        let place = self.place(number)?;
        self.sites[place].halt();
        Ok(())
    }

    fn take(&mut self, place: usize) -> Result<Letter, AllocError> {
        if place >= self.flying.len() {
            return Err(AllocError);
        }
        Ok(self.flying.remove(place))
    }

    // The letter of a call that reads had a mishap: its ticket notes it.
    fn befalls(
        &mut self,
        letter: &Letter,
        kind: MishapKind,
        out: &mut Vec<u8>,
    ) -> Result<(), AllocError> {
        let Some(ticket) = &letter.ticket else {
            return Ok(());
        };
        let at = if letter.from == ticket.node {
            letter.to
        } else {
            letter.from
        };
        let place = self.place(ticket.node.number())?;
        self.sites[place].befall(*ticket, kind, at, &mut self.flying, out)
    }

    // Hands a letter of a call that reads over.
    fn hand_read(&mut self, letter: &Letter, out: &mut Vec<u8>) -> Result<(), AllocError> {
        let place = self.place(letter.to.number())?;
        let mishap = self.sites[place].hear_read(self.alloc, letter, &mut self.flying, out)?;
        match mishap {
            Some(kind) => self.befalls(letter, kind, out),
            None => Ok(()),
        }
    }

    fn hand_over(&mut self, letter: &Letter, out: &mut Vec<u8>) -> Result<(), AllocError> {
        if is_of_reads(&letter.body) {
            return self.hand_read(letter, out);
        }
        let place = self.place(letter.to.number())?;
        self.sites[place].hear(self.alloc, letter, &mut self.flying, out)
    }

    /// Posts the letter at this place.
    pub(crate) fn post(&mut self, place: usize, out: &mut Vec<u8>) -> Result<(), AllocError> {
        let letter = self.take(place)?;
        self.hand_over(&letter, out)
    }

    /// Posts it, and keeps it in flight.
    fn post_again(&mut self, place: usize, out: &mut Vec<u8>) -> Result<(), AllocError> {
        if place >= self.flying.len() {
            return Err(AllocError);
        }
        let letter = self.flying[place].copy()?;
        self.hand_over(&letter, out)
    }

    // Drops it. A call of messages is not told; one that reads is.
    fn drop(&mut self, place: usize, out: &mut Vec<u8>) -> Result<(), AllocError> {
        let letter = self.take(place)?;
        if is_of_reads(&letter.body) {
            return self.befalls(&letter, MishapKind::Dropped, out);
        }
        Ok(())
    }

    /// What is done with the letter that the line names.
    fn moves(&mut self, line: &[u8], out: &mut Vec<u8>) -> Result<(), AllocError> {
        let name = [at(line, 2), at(line, 3), at(line, 4)];
        let Some(place) = place_of(self.flying.as_slice(), &name) else {
            return out.extend_from_slice(b" no letter");
        };
        match at(line, 0) {
            b'p' => self.post(place, out),
            b'a' => self.post_again(place, out),
            _ => self.drop(place, out),
        }
    }

    /// Opens a group.
    pub(crate) fn open_group(&mut self, number: u8, out: &mut Vec<u8>) -> Result<(), AllocError> {
        let place = self.place(number)?;
        self.sites[place].open_group(self.alloc, &mut self.flying, out)
    }

    /// Concludes it.
    pub(crate) fn conclude(&mut self, number: u8, out: &mut Vec<u8>) -> Result<(), AllocError> {
        let place = self.place(number)?;
        self.sites[place].conclude(self.alloc, &mut self.flying, out)
    }

    /// What the node that the line names does.
    fn acts(&mut self, line: &[u8], out: &mut Vec<u8>) -> Result<(), AllocError> {
        let place = self.place(digit(line, 2))?;
        match at(line, 0) {
            b's' => self.sites[place].start(self.alloc, out),
            b'x' => self.sites[place].fail(digit(line, 4)),
            b'w' => self.sites[place].leave_all(),
            b'm' => self.sites[place].deliver(self.alloc, &mut self.flying, out),
            b'r' => {
                let to = node_at(line, 4)?;
                self.sites[place].report(self.alloc, to, &mut self.flying, out)
            }
            b'l' => self.sites[place].look(out),
            b'q' => self.sites[place].owe(out),
            _ => {
                let ann = named(self.alloc, b"ann")?;
                self.sites[place].name(&ann, out)
            }
        }
    }

    // A fetch of the message of a node, which the nodes of a mask are said to hold.
    fn fetches(&mut self, line: &[u8], out: &mut Vec<u8>) -> Result<(), AllocError> {
        let place = self.place(digit(line, 2))?;
        let id = MsgId::new(node_at(line, 4)?, 1, 1).ok_or(AllocError)?;
        let holders = NodeSet::from_mask(u16::from(digit(line, 5)));
        self.sites[place].fetch(self.alloc, id, holders, &mut self.flying, out)
    }

    // What the node that the line names does for calls that read.
    fn reads(&mut self, line: &[u8], out: &mut Vec<u8>) -> Result<(), AllocError> {
        let place = self.place(digit(line, 2))?;
        let seq = u64::from(digit(line, 4));
        match at(line, 0) {
            b'b' => self.sites[place].log_in(self.alloc, at(line, 4), &mut self.flying, out),
            b'i' => self.sites[place].ask(self.alloc, seq, out),
            b'g' => self.sites[place].give_up(seq, &mut self.flying, out),
            b'u' => {
                let manager = node_at(line, 5)?;
                self.sites[place].leave(self.alloc, seq, manager, &mut self.flying, out)
            }
            _ => {
                let ann = named(self.alloc, b"ann")?;
                self.sites[place].hold(&ann, out)
            }
        }
    }

    fn does(&mut self, line: &[u8], out: &mut Vec<u8>) -> Result<(), AllocError> {
        match at(line, 0) {
            b'e' => self.fetches(line, out),
            b'b' | b'i' | b'g' | b'u' | b'k' => self.reads(line, out),
            b'p' | b'a' | b'd' => self.moves(line, out),
            b'o' => self.open_group(digit(line, 2), out),
            b'c' => self.conclude(digit(line, 2), out),
            b'h' => self.halt(digit(line, 2)),
            _ => self.acts(line, out),
        }
    }

    // Plays the line, and gives what comes in its place; nothing where it comes as it is written.
    fn plays_line(&mut self, line: &[u8]) -> Result<Vec<u8>, AllocError> {
        let mut out = Vec::from_slice(self.alloc, asked(line))?;
        out.extend_from_slice(b" >")?;
        self.does(line, &mut out)?;
        if out.as_slice() == line {
            out.clear();
        }
        Ok(out)
    }

    // Plays the lines, and gives what comes in place of the first that does not come as it is written.
    fn plays(&mut self, lines: &[&[u8]]) -> Result<Vec<u8>, AllocError> {
        for line in lines {
            let wrong = self.plays_line(line)?;
            if !wrong.is_empty() {
                return Ok(wrong);
            }
        }
        Ok(Vec::new(self.alloc))
    }
}

fn plays(alloc: Global, table: &[u8]) -> Result<Vec<u8>, AllocError> {
    let lines = lines_of(alloc, table)?;
    let mut trial = Trial::new(alloc)?;
    trial.plays(&lines)
}

fn plays_opened(alloc: Global, table: &[u8]) -> Result<Vec<u8>, AllocError> {
    let lines = lines_of(alloc, table)?;
    let mut trial = Trial::opened(alloc)?;
    trial.plays(&lines)
}

// A message of ann is at nodes 1 and 3, and node 1, which manages her, knows of both.
const FILED: &[u8] = b"\
m 3    > F31
p F31  > f13
p f13  >
r 3 1  > R31
p R31  > A13
p A13  >";

// First those lines, and then the table.
fn plays_read(alloc: Global, table: &[u8]) -> Result<Vec<u8>, AllocError> {
    let lines = lines_of(alloc, FILED)?;
    let mut trial = Trial::opened(alloc)?;
    let wrong = trial.plays(&lines)?;
    if !wrong.is_empty() {
        return Ok(wrong);
    }
    let lines = lines_of(alloc, table)?;
    trial.plays(&lines)
}

/// Each line of the table comes as it is written, once a message of ann is at nodes 1 and 3.
pub(crate) fn stands_read(rt: &impl Abort, alloc: Global, table: &[u8]) -> Result<(), Fail> {
    let Ok(wrong) = plays_read(alloc, table) else {
        panic!(rt; "out of memory");
    };
    assert_eq!(rt; str::from_utf8(&wrong)?, "");
    Ok(())
}

/// So it does of nodes that begin in the first epoch.
pub(crate) fn stands_opened(rt: &impl Abort, alloc: Global, table: &[u8]) -> Result<(), Fail> {
    let Ok(wrong) = plays_opened(alloc, table) else {
        panic!(rt; "out of memory");
    };
    assert_eq!(rt; str::from_utf8(&wrong)?, "");
    Ok(())
}

/// Each line of the table comes as it is written.
pub(crate) fn stands(rt: &impl Abort, alloc: Global, table: &[u8]) -> Result<(), Fail> {
    let Ok(wrong) = plays(alloc, table) else {
        panic!(rt; "out of memory");
    };
    assert_eq!(rt; str::from_utf8(&wrong)?, "");
    Ok(())
}
