// Node 1 as a session finds it: what it holds, and what it answers.
use call_tickets::{Answer, Call, Mishaps};
use mail_base::{
    Deliver, Item, Items, MsgId, Name, NodeNo, NodeSet, Octets, Plan, Proof, Stamp, Ticket,
};
use std::alloc::{AllocError, Global};
use std::test::Fail;

// A message of a maildrop: node, boot and number of its id, and how many octets it has.
pub(super) type Message = (u8, u32, u64, u64);

// What the message of number 1 holds.
pub(super) const FIRST_MESSAGE: &[u8] = b"Subject: x\r\n\r\n.\r\n..\r\nx.\ry\r\nz";

// How the node answers a call.
#[derive(Clone, Copy)]
pub(super) enum Manner {
    // At once.
    Serves,
    // At once: it failed.
    Fails,
    // A login, at once: another one has the maildrop.
    IsInUse,
    // A login, at once: the manager has no profile of the user.
    HasNoProfile,
    // The call is given up.
    GivesUp,
    // Not before it is asked to.
    IsLate,
}

#[derive(Drop)]
pub(super) struct Desk {
    pub(super) alloc: Global,
    pub(super) node: NodeNo,
    pub(super) manner: Manner,
    // The maildrop, until a client is let in to it.
    maildrop: Option<Items>,
    // The text of the message that was sent last, and how many mailboxes it is for; 0 before there is one.
    pub(super) text: Vec<u8>,
    pub(super) mailboxes: usize,
}

// Appends a line to what was said.
pub(super) fn note(said: &mut Vec<u8>, before: &[u8], line: &[u8]) -> Result<(), AllocError> {
    said.extend_from_slice(before)?;
    said.extend_from_slice(line)?;
    said.extend_from_slice(b"\n")
}

// Appends each line without its CRLF.
pub(super) fn note_lines(
    said: &mut Vec<u8>,
    before: &[u8],
    octets: &[u8],
) -> Result<(), AllocError> {
    for line in octets.split_inclusive(|octet| *octet == b'\n') {
        note(said, before, line.strip_suffix(b"\r\n").unwrap_or(line))?;
    }
    Ok(())
}

// The answer of a call that failed.
pub(super) fn failed() -> Answer {
    Answer::Failed(Mishaps {
        few_members: 0,
        year: 0,
        dropped: 0,
        stale: 0,
        down: 1,
        disk: 0,
        crowded: 0,
    })
}

// The answer of a login while another one, of node 2, has the maildrop.
pub(super) fn in_use() -> Option<Answer> {
    Some(Answer::InUse {
        by: Ticket::new(NodeNo::new(2)?, 1, 1),
    })
}

// A message as a maildrop lists it, held by the node of its id.
fn item(message: &Message) -> Option<Item> {
    let (node, boot, seq, length) = *message;
    let node = NodeNo::new(node)?;
    Some(Item {
        id: MsgId::new(node, boot, seq)?,
        stamp: Stamp::new(seq, boot, 1),
        targets: NodeSet::empty(),
        holders: NodeSet::empty().with(node),
        length,
    })
}

impl Desk {
    // Node 1, with a maildrop of these messages.
    pub(super) fn new(alloc: Global, messages: &[Message]) -> Result<Desk, Fail> {
        let mut items = Items::new(alloc);
        for message in messages {
            items.push(item(message).ok_or("no message")?)?;
        }
        Ok(Desk {
            alloc,
            node: NodeNo::new(1).ok_or("no node")?,
            manner: Manner::Serves,
            maildrop: Some(items),
            text: Vec::new(alloc),
            mailboxes: 0,
        })
    }

    // That the message of a call is stored.
    pub(super) fn stored(&self) -> Option<Answer> {
        Some(Answer::Stored {
            id: MsgId::new(self.node, 1, 1)?,
            confirmers: NodeSet::empty(),
        })
    }

    // The answer to a login: the maildrop, where the proof is right.
    fn let_in(&mut self, plan: &Plan, user: &Name, proof: &Proof) -> Answer {
        let right = match plan.users.secret(user) {
            Some(secret) => proof.is_right(secret),
            None => false,
        };
        match self.maildrop.take() {
            Some(items) if right => Answer::Listed {
                login: Ticket::new(self.node, 3, 7),
                manager: self.node,
                asked: NodeSet::empty().with(self.node),
                items,
            },
            maildrop => {
                self.maildrop = maildrop;
                Answer::Wrong {
                    stamp: Stamp::new(0, 0, 0),
                }
            }
        }
    }

    // The answer to RETR: it has the message of number 1, and the others are gone.
    fn read(&self, id: MsgId) -> Result<Answer, AllocError> {
        if id.seq() != 1 {
            return Ok(Answer::GoneAlready);
        }
        Ok(Answer::Part {
            octets: Octets::from_vec(FIRST_MESSAGE.to_vec(self.alloc)?),
            whole: FIRST_MESSAGE.len() as u64,
        })
    }

    // Notes a message that was sent: its sender, the argument of its HELO or EHLO, its mailboxes, and each line of a short
    // text.
    fn note_message(&self, deliver: &Deliver, said: &mut Vec<u8>) -> Result<(), AllocError> {
        note(said, b"  from ", deliver.sender.as_slice())?;
        let greeting = if deliver.extended {
            b"  ehlo "
        } else {
            b"  helo "
        };
        note(said, greeting, deliver.helo.as_slice())?;
        for name in deliver.users.as_slice() {
            note(said, b"  to ", name.octets())?;
        }
        if deliver.text.len() < 100 {
            note_lines(said, b"  | ", deliver.text.as_slice())?;
        }
        Ok(())
    }

    // Notes which messages are to be deleted.
    fn note_items(&self, items: &Items, said: &mut Vec<u8>) -> Result<(), AllocError> {
        for item in items.as_slice() {
            let text = item.id.id_text(self.alloc)?;
            note(said, b"  deletes ", text.as_bytes())?;
        }
        Ok(())
    }

    // What the node answers to a call where it serves, with a note of the call.
    pub(super) fn serves(
        &mut self,
        plan: &Plan,
        call: &Call,
        said: &mut Vec<u8>,
    ) -> Result<Option<Answer>, Fail> {
        match call {
            Call::Login { user, proof } => {
                note(said, b"  asks for ", user.octets())?;
                Ok(Some(self.let_in(plan, user, proof)))
            }
            Call::Fetch {
                user,
                id,
                from,
                most,
                ..
            } => {
                let text = id.id_text(self.alloc)?;
                note(said, b"  asks for ", text.as_bytes())?;
                if user.octets() != b"alice".as_slice() || *from != 0 || *most != u64::MAX {
                    return Err(Fail::from("another fetch"));
                }
                Ok(Some(self.read(*id)?))
            }
            Call::Strike { items, .. } => {
                self.note_items(items, said)?;
                Ok(Some(Answer::Dropped {
                    confirmers: Vec::new(self.alloc),
                }))
            }
            Call::Deliver(deliver) => {
                self.note_message(deliver, said)?;
                self.text.clear();
                self.text.extend_from_slice(deliver.text.as_slice())?;
                self.mailboxes = deliver.users.len();
                Ok(self.stored())
            }
            Call::Leave { .. } => Err(Fail::from("a leave")),
        }
    }
}
