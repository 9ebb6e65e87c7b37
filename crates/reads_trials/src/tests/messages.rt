// The user, what each node holds of the user, and what is listed of that.
use mail_base::{
    EpochId, MsgId, Name, NodeNo, NodeSet, Octets, Secret, Sequence, Stamp, Ticket, ToldItem,
    ToldPart, Users,
};
use std::alloc::{AllocError, Global};

/// A message as a node tells it: its id is node.1.seq, and its stamp count.1.node.
#[derive(Clone, Copy)]
struct Told {
    at: u8,
    node: u8,
    seq: u64,
    count: u64,
    targets: u16,
    length: u64,
}

/// A message of a listing.
#[derive(Clone, Copy)]
pub(crate) struct Shown {
    pub(crate) node: u8,
    pub(crate) seq: u64,
    pub(crate) count: u64,
    pub(crate) targets: u16,
    pub(crate) holders: u16,
    pub(crate) length: u64,
}

// Each node tells its messages by stamp. Message 1.1.1 stands at all three, at node 3 by an older stamp; message 2.1.1 at two, by two stamps.
const TOLD: [Told; 6] = [
    Told {
        at: 1,
        node: 1,
        seq: 1,
        count: 4,
        targets: 0b011,
        length: 10,
    },
    Told {
        at: 1,
        node: 1,
        seq: 3,
        count: 9,
        targets: 0b001,
        length: 30,
    },
    Told {
        at: 2,
        node: 2,
        seq: 1,
        count: 3,
        targets: 0b010,
        length: 20,
    },
    Told {
        at: 2,
        node: 1,
        seq: 1,
        count: 4,
        targets: 0b110,
        length: 10,
    },
    Told {
        at: 3,
        node: 1,
        seq: 1,
        count: 2,
        targets: 0b100,
        length: 10,
    },
    Told {
        at: 3,
        node: 2,
        seq: 1,
        count: 5,
        targets: 0b100,
        length: 20,
    },
];

/// What all three nodes hold.
pub(crate) const OF_ALL: [Shown; 3] = [
    Shown {
        node: 1,
        seq: 1,
        count: 4,
        targets: 0b111,
        holders: 0b111,
        length: 10,
    },
    Shown {
        node: 2,
        seq: 1,
        count: 5,
        targets: 0b110,
        holders: 0b110,
        length: 20,
    },
    Shown {
        node: 1,
        seq: 3,
        count: 9,
        targets: 0b001,
        holders: 0b001,
        length: 30,
    },
];

/// What nodes 2 and 3 hold.
pub(crate) const OF_OTHERS: [Shown; 2] = [
    Shown {
        node: 1,
        seq: 1,
        count: 4,
        targets: 0b110,
        holders: 0b110,
        length: 10,
    },
    Shown {
        node: 2,
        seq: 1,
        count: 5,
        targets: 0b110,
        holders: 0b110,
        length: 20,
    },
];

pub(crate) fn node(number: u8) -> Result<NodeNo, AllocError> {
    NodeNo::new(number).ok_or(AllocError)
}

pub(crate) fn id_of(number: u8, seq: u64) -> Result<MsgId, AllocError> {
    MsgId::new(node(number)?, 1, seq).ok_or(AllocError)
}

pub(crate) fn ann(alloc: Global) -> Result<Name, AllocError> {
    Name::spelt(alloc, b"ann")?.ok_or(AllocError)
}

pub(crate) fn ticket(seq: u64) -> Result<Ticket, AllocError> {
    Ok(Ticket::new(node(1)?, 1, seq))
}

pub(crate) fn epoch() -> EpochId {
    EpochId::new(1, 1)
}

pub(crate) fn users_of(alloc: Global) -> Result<Users, AllocError> {
    let secret = Secret::read(alloc, b"thyme")?.ok_or(AllocError)?;
    let mut users = Users::new(alloc);
    users.insert(ann(alloc)?, secret)?;
    Ok(users)
}

pub(crate) fn octets_of(alloc: Global, text: &[u8]) -> Result<Octets, AllocError> {
    let mut held = Vec::new(alloc);
    for octet in text {
        held.push(*octet)?;
    }
    Ok(Octets::from_vec(held))
}

fn told_item(told: &Told) -> Result<ToldItem, AllocError> {
    Ok(ToldItem::new(
        id_of(told.node, told.seq)?,
        Stamp::new(told.count, 1, told.node),
        NodeSet::from_mask(told.targets),
        told.length,
    ))
}

// What this node holds of the user.
pub(crate) fn list_of(alloc: Global, number: u8) -> Result<Sequence<ToldItem>, AllocError> {
    let mut items = Sequence::new(alloc);
    for told in &TOLD {
        if told.at == number {
            items.push(told_item(told)?)?;
        }
    }
    Ok(items)
}

// What this node tells of the message: node 3 says that it is gone, and each other gives its own number as the octets.
pub(crate) fn part_of(alloc: Global, number: u8) -> Result<ToldPart, AllocError> {
    if number == 3 {
        return Ok(ToldPart::Gone {
            stamp: Stamp::new(6, 1, 3),
        });
    }
    Ok(ToldPart::Octets {
        octets: octets_of(alloc, &[number])?,
        whole: 1,
    })
}
