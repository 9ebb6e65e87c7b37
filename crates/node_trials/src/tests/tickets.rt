// Tickets by hand: what node 1 hears, and what an ask then answers.
//
// The lines are written as those of a node. Column 15 has the number of the ticket and column 17 the boot that drew it; `f` and `s`
// are heard, and behind an `s` stands a b where the deletion is one of bob, and an o or a t where it tells of two. A failed call tells how many nodes were down, and how
// many dates there were none for.
use super::asked;
use super::lines::{at, digit, id_at, lines_of, named, node_at};
use super::says::{one, say_ask, say_whether};
use call_tickets::{Answer, Ask, Mishaps};
use mail_base::{Body, CallKind, Filing, Ids, MsgId, Names, NodeSet, Ticket};
use node_tickets::{MishapKind, Tickets};
use std::alloc::{AllocError, Global};
use std::process::Abort;
use std::test::Fail;

/// A delivery to nodes 1, 2 and 3, which three have to confirm: each counts once, and for its own message and boot alone.
const ONCE: &[u8] = b"\
a - --- -- - - 1 1 > 1/3
f 2 111 -- - - 1 1 > yes
f 2 111 -- - - 1 1 > yes
f 1 111 -- - - 1 1 > yes
f 3 112 -- - - 1 1 > yes
f 4 111 -- - - 1 1 > yes
a - --- -- - - 1 1 > 2/3
i - --- -- - - 1 1 > d14nf
f 3 111 -- - - 1 2 > no
f 3 111 -- - - 1 1 > yes
i - --- -- - - 1 1 > d10yf
a - --- -- - - 1 1 > stored 7
f 3 111 -- - - 1 1 > no
a - --- -- - - 1 1 > none";

/// Of two nodes that have to confirm one was down, and confirms after all.
const AFTER_ALL: &[u8] = b"\
m 2 --- -- - - 1 1 > yes
m 1 --- -- - - 1 1 > yes
i - --- -- - - 1 1 > d14nf
a - --- -- - - 1 1 > 1/2
f 2 111 -- - - 1 1 > yes
a - --- -- - - 1 1 > stored 3";

/// Both others were down.
const DOWN: &[u8] = b"\
m 2 --- -- - - 1 1 > yes
m 3 --- -- - - 1 1 > yes
a - --- -- - - 1 1 > failed 20
m 3 --- -- - - 1 1 > no";

/// Two copies of ann are deleted, the first at nodes 1 and 2, the second at nodes 2 and 3, of which one has to confirm.
const TWO: &[u8] = b"\
a - --- -- - - 1 1 > 1/2
s 2 112 -- - b 1 1 > yes
a - --- -- - - 1 1 > 1/2
i - --- -- - - 1 1 > k26n-
s 2 112 -- - - 1 1 > yes
a - --- -- - - 1 1 > dropped 12";

/// Beside a delivery stands a call that failed as it began.
const AT_ONCE: &[u8] = b"\
i - --- -- - - 2 1 > d00y-
a - --- -- - - 2 1 > failed 01
g - --- -- - - 2 1 > no
g - --- -- - - 1 1 > yes
a - --- -- - - 1 1 > none";

/// Node 2 tells of both deletions, in the order in which it was asked, and in the other.
const BOTH: &[u8] = b"\
s 2 111 -- - o 1 1 > yes
a - --- -- - - 1 1 > dropped 32";

const TURNED: &[u8] = b"\
s 2 111 -- - t 1 1 > yes
a - --- -- - - 1 1 > dropped 32";

fn ticket_of(line: &[u8]) -> Ticket {
    let boot = u32::from(digit(line, 17).max(1));
    Ticket::new(node_at(b"1", 0), boot, u64::from(digit(line, 15)))
}

// The message; with an o and with a t both messages of the deletions, in their order and turned round.
fn ids_of(alloc: Global, sign: u8, id: MsgId) -> Result<Ids, AllocError> {
    let mut ids = Ids::new(alloc);
    match sign {
        b'o' => {
            ids.push(id_at(b"    111"))?;
            ids.push(id_at(b"    112"))?;
        }
        b't' => {
            ids.push(id_at(b"    112"))?;
            ids.push(id_at(b"    111"))?;
        }
        _ => ids.push(id)?,
    }
    Ok(ids)
}

fn hears(alloc: Global, tickets: &mut Tickets, line: &[u8]) -> Result<bool, AllocError> {
    let (ticket, from, id) = (ticket_of(line), node_at(line, 2), id_at(line));
    if at(line, 0) == b'f' {
        return Ok(tickets.told(ticket, from, &Body::Filed { id }));
    }
    let user: &[u8] = if at(line, 13) == b'b' { b"bob" } else { b"ann" };
    let ids = ids_of(alloc, at(line, 13), id)?;
    let user = named(alloc, user)?;
    Ok(tickets.told(ticket, from, &Body::StrikeTold { user, ids }))
}

fn answers(out: &mut Vec<u8>, ask: &Option<Ask>) -> Result<(), AllocError> {
    if let Some(Ask::Done(Answer::Failed(mishaps))) = ask {
        out.extend_from_slice(b" failed ")?;
        return out.extend_from_slice(&[one(mishaps.down), one(mishaps.year)]);
    }
    say_ask(out, ask)
}

// The kind of the call, how much it wants, whom it waits for, whether it is done, and whether it has filed.
fn tells(out: &mut Vec<u8>, tickets: &Tickets, ticket: Ticket) -> Result<(), AllocError> {
    let kind = match tickets.kind(ticket) {
        Some(CallKind::Deliver) => b'd',
        Some(CallKind::Strike) => b'k',
        Some(CallKind::Login) => b'L',
        Some(CallKind::Fetch) => b'e',
        None => b'-',
    };
    let wants = one(tickets.wants(ticket).len() as u64);
    let waiting = one(u64::from(tickets.waiting(ticket).mask()));
    let done = if tickets.is_done(ticket) { b'y' } else { b'n' };
    let filed = if tickets.filing(ticket).is_some() {
        b'f'
    } else {
        b'-'
    };
    out.extend_from_slice(&[b' ', kind, wants, waiting, done, filed])
}

fn does(
    alloc: Global,
    tickets: &mut Tickets,
    line: &[u8],
    out: &mut Vec<u8>,
) -> Result<(), AllocError> {
    let ticket = ticket_of(line);
    match at(line, 0) {
        b'a' => answers(out, &tickets.ask(ticket)),
        b'g' => say_whether(out, tickets.give_up(ticket)),
        b'm' => {
            let stood = tickets.mishap(ticket, MishapKind::Down, node_at(line, 2));
            say_whether(out, stood)
        }
        b'i' => tells(out, tickets, ticket),
        _ => {
            let stood = hears(alloc, tickets, line)?;
            say_whether(out, stood)
        }
    }
}

// What comes in place of the line; nothing where it comes as it is written.
fn plays_line(alloc: Global, tickets: &mut Tickets, line: &[u8]) -> Result<Vec<u8>, AllocError> {
    let mut out = Vec::from_slice(alloc, asked(line))?;
    out.extend_from_slice(b" >")?;
    does(alloc, tickets, line, &mut out)?;
    if out.as_slice() == line {
        out.clear();
    }
    Ok(out)
}

// What comes in place of the first line that does not come as it is written.
fn plays(alloc: Global, tickets: &mut Tickets, table: &[u8]) -> Result<Vec<u8>, AllocError> {
    for line in lines_of(alloc, table)? {
        let wrong = plays_line(alloc, tickets, line)?;
        if !wrong.is_empty() {
            return Ok(wrong);
        }
    }
    Ok(Vec::new(alloc))
}

fn played(alloc: Global, mut tickets: Tickets, table: &[u8]) -> Result<Vec<u8>, AllocError> {
    plays(alloc, &mut tickets, table)
}

fn stands(rt: &impl Abort, alloc: Global, tickets: Tickets, table: &[u8]) -> Result<(), Fail> {
    let wrong = played(alloc, tickets, table)?;
    assert_eq!(rt; str::from_utf8(&wrong)?, "");
    Ok(())
}

// The tickets of node 1 in its first boot.
fn none(alloc: Global, confirm: u8) -> Tickets {
    Tickets::new(alloc, node_at(b"1", 0), 1, confirm)
}

fn delivery(alloc: Global, confirm: u8) -> Result<Tickets, AllocError> {
    let filing = Filing {
        id: id_at(b"    111"),
        users: Names::new(alloc),
        seconds: 0,
        length: 151,
        digest: [0; 32],
    };
    let mut tickets = none(alloc, confirm);
    tickets.open_delivery(alloc, 1, filing, NodeSet::from_mask(7))?;
    Ok(tickets)
}

fn deletion(alloc: Global) -> Result<Tickets, AllocError> {
    let ann = named(alloc, b"ann")?;
    let asks = [
        (id_at(b"    111"), NodeSet::from_mask(3)),
        (id_at(b"    112"), NodeSet::from_mask(6)),
    ];
    let mut tickets = none(alloc, 1);
    tickets.open_deletion(alloc, 1, &ann, &asks)?;
    Ok(tickets)
}

fn failed(alloc: Global) -> Result<Tickets, AllocError> {
    let mishaps = Mishaps {
        few_members: 0,
        year: 1,
        dropped: 0,
        stale: 0,
        down: 0,
        disk: 0,
        crowded: 0,
    };
    let mut tickets = delivery(alloc, 2)?;
    tickets.open_failed(alloc, 2, CallKind::Deliver, mishaps)?;
    Ok(tickets)
}

#[test]
fn tickets_hear_and_answer(rt: HostRuntime) -> Result<(), Fail> {
    let alloc = rt.alloc();
    stands(&rt, alloc, delivery(alloc, 3)?, ONCE)?;
    stands(&rt, alloc, delivery(alloc, 2)?, AFTER_ALL)?;
    stands(&rt, alloc, delivery(alloc, 2)?, DOWN)?;
    stands(&rt, alloc, deletion(alloc)?, TWO)?;
    stands(&rt, alloc, deletion(alloc)?, BOTH)?;
    stands(&rt, alloc, deletion(alloc)?, TURNED)?;
    stands(&rt, alloc, failed(alloc)?, AT_ONCE)
}
