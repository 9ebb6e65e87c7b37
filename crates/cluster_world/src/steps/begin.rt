//! A call begins at a node.
ghost use Rattle.std.specs.Prelude.{◌≡◌, ◌+◌, ◌≤◌, ◌<◌, ◌⊎◌, ◌++◌, ◌∷◌, true, [], length, All, None, Ok, IsTrue, IfOk, OnErr};
ghost use Rattle.mail_model.specs.Lines.{ends_in_crlf};
ghost use Rattle.cluster_model.specs.Makes.{struck_entries};
ghost use Rattle.joint_world.specs.Staying.{IsMailCall};
ghost use Rattle.node_store.specs.Disks.{view_of};
ghost use Rattle.node_core.specs.Beginning.{call_seen, struck_of, IsTextEnded};
ghost use Rattle.whole_node.specs.Hearing.{FitsMaps};
ghost use Rattle.cluster_world.specs.Hears.{AllCanBeHeard};
ghost use Rattle.world_book.specs.Books.{entries_of as all_of, spare_of};
ghost use Rattle.world_book.specs.declared.entry.Entry.TheVariants as written;
ghost use Rattle.cluster_world.specs.Lives.{all_falls_left, CanWorkOn};
ghost use Rattle.cluster_world.specs.Books.{entries_seen};
ghost use Rattle.cluster_world.specs.Installs.{installs_in, installs_booked};
ghost use Rattle.cluster_world.specs.Worlds.{state_with, life_among};
ghost use Rattle.cluster_world.specs.Turns.{node_refusal};
ghost use Rattle.cluster_world.specs.Unfinished.{said_of_fault};
ghost use Rattle.cluster_world.specs.Begins.{BeginsAt, strikes_of_call, said_of_begin, entries_of_failure, GoesOn, Concludes};
ghost use Rattle.cluster_world.specs.Missing.{SentOff};
ghost use Rattle.cluster_world.specs.Changes.{ChangesNode};
ghost use Rattle.cluster_world.specs.Steps.{StepDid, AreSettled};
ghost use Rattle.cluster_world.specs.declared.step.Step.TheVariants.{Begin};

use crate::fault::StepFault;
use crate::flying::{Flying, is_worn};
use crate::life::Life;
use crate::nodes::{Nodes, place_of};
use crate::sending::send;
use crate::step::Said;
use crate::steps::fault::{enter_fall, said_of, takes_down};
use crate::working::begin_at;
use call_tickets::Call;
use io_edge::Disk;
use mail_base::{Item, Letter, Name, NodeNo, Ticket};
use node_core::{NodeFault, Outbox};
use std::alloc::{AllocError, Global};
use world_book::{Book, Entry};

/// Whether a text is empty or ends in CRLF.
fn is_ended(text: &[u8]) -> bool
    ensures { IsTrue result → (text.now ≡ []) ⊎ (ends_in_crlf text.now ≡ true) }
{
    let length = text.len();
    if length == 0 {
        return true;
    }
    if length < 2 {
        return false;
    }
    if text[length - 2] != 13 {
        return false;
    }
    if text[length - 1] != 10 {
        return false;
    }
    true
}

/// Whether the text of a message that the call hands in is empty or ends in CRLF.
fn text_is_ended(call: &Call) -> bool
    ensures { IsTrue result → IsTextEnded (call_seen call.now) }
{
    match call {
        Call::Deliver(deliver) => is_ended(deliver.text.as_slice()),
        Call::Login { .. } | Call::Fetch { .. } | Call::Strike { .. } | Call::Leave { .. } => true,
    }
}

// The entry of one copy that is to be deleted.
fn struck(user: &Name, item: &Item) -> Result<Entry, AllocError>
    ensures { IfOk result (λ entry. entry ≡ written.Struck user.now item.now.id) }
{
    Ok(Entry::Struck {
        user: user.copy()?,
        id: item.id,
    })
}

// The entries of all of them.
fn all_struck(alloc: Global, user: &Name, items: &[Item]) -> Result<Vec<Entry>, AllocError>
    ensures seen { IfOk result (λ entries. entries_seen entries.items ≡ struck_entries user.now (struck_of items.now)) }
    ensures installs { IfOk result (λ entries. installs_in entries.items ≡ []) }
{
    let mut entries = Vec::new(alloc);
    for item in items {
        entries.push(struck(user, item)?)?;
    }
    Ok(entries)
}

/// The entries of the book for what the call is to delete.
fn struck_in(alloc: Global, call: &Call) -> Result<Vec<Entry>, AllocError>
    ensures seen { IfOk result (λ entries. entries_seen entries.items ≡ strikes_of_call (call_seen call.now)) }
    ensures installs { IfOk result (λ entries. installs_in entries.items ≡ []) }
{
    match call {
        Call::Strike { user, items } => all_struck(alloc, user, items.as_slice()),
        Call::Deliver(_) | Call::Login { .. } | Call::Fetch { .. } | Call::Leave { .. } => {
            Ok(Vec::new(alloc))
        }
    }
}

/// The node begins the call.
fn begin_in<D: Disk>(
    alloc: Global,
    nodes: &mut Nodes<D>,
    node: NodeNo,
    call: Call,
    seconds: u64,
) -> Result<(Option<Ticket>, Outbox), NodeFault>
    requires fit { node_refusal nodes.old.plan (life_among nodes.old) (Begin node call) ≡ None }
    requires works { CanWorkOn D.seen nodes.old.plan nodes.old.lives.items nodes.old.disks.items }
    requires mail { IsMailCall (call_seen call) }
    requires ended { IsTextEnded (call_seen call) }
    ensures begins { ChangesNode node (BeginsAt (view_of D.seen D.faults D.clock) D.settled nodes.old.plan node seconds (call_seen call) result) nodes.old nodes.new }
    ensures fits { IfOk result (λ begun. All FitsMaps (begun.1).letters) }
{
    let place = place_of(node);
    begin_at(
        alloc,
        &mut nodes.lives[place],
        &mut nodes.disks[place],
        call,
        seconds,
    )
}

/// Puts the letters in flight. Where there are none it takes no memory.
fn send_some<D: Disk>(
    alloc: Global,
    nodes: &mut Nodes<D>,
    flying: &mut Flying,
    letters: Vec<Letter>,
) -> Result<(), AllocError>
    requires works { CanWorkOn D.seen nodes.old.plan nodes.old.lives.items nodes.old.disks.items }
    requires heard { AllCanBeHeard letters.items }
    ensures ok { IfOk result (λ _. SentOff (view_of D.seen D.faults D.clock) nodes.old.plan letters.items None flying.old flying.new nodes.old nodes.new) }
    ensures some { OnErr result (1 ≤ length letters.items) }
    ensures err { OnErr result (flying.new ≡ flying.old) }
    ensures same { OnErr result (nodes.new ≡ nodes.old) }
{
    if letters.is_empty() {
        return Ok(());
    }
    send(alloc, nodes, flying, letters, None)
}

/// What is said of a call that has begun.
pub(crate) fn begun(ticket: Option<Ticket>) -> Said
    ensures { result ≡ said_of_begin ticket }
{
    match ticket {
        Some(ticket) => Said::Begun { ticket, stirs: 0 },
        None => Said::Noted,
    }
}

// The book has what was to be deleted, and that the node went down.
fn enter_failure(book: &mut Book, node: NodeNo, entries: Vec<Entry>)
    requires room { length entries.items < spare_of book.old }
    ensures entries { all_of book.new ≡ all_of book.old ++ (entries.items ++ written.Down node ∷ []) }
    ensures spare { spare_of book.new + length entries.items + 1 ≡ spare_of book.old }
{
    book.add_all(entries);
    enter_fall(book, node);
}

// The book has it, where the node went down.
fn note_failure(book: &mut Book, node: NodeNo, entries: Vec<Entry>, why: NodeFault)
    requires room { length entries.items < spare_of book.old }
    ensures entries { all_of book.new ≡ all_of book.old ++ entries_of_failure node entries.items why }
    ensures spare { spare_of book.old ≤ spare_of book.new + length entries.items + 1 }
{
    if takes_down(why) {
        enter_failure(book, node, entries);
    }
}

// What is said of a call that the node did not begin, or did not end beginning, and what the book has of it.
fn tell_failure(
    book: &mut Book,
    node: NodeNo,
    entries: Vec<Entry>,
    why: NodeFault,
) -> Result<Said, StepFault>
    requires room { length entries.items < spare_of book.old }
    ensures said { result ≡ said_of_fault node why }
    ensures entries { all_of book.new ≡ all_of book.old ++ entries_of_failure node entries.items why }
    ensures spare { spare_of book.old ≤ spare_of book.new + length entries.items + 1 }
{
    note_failure(book, node, entries, why);
    said_of(node, why)
}

// A call has begun: its letters are put in flight. Where there is no memory for them the node goes down.
fn go_on<D: Disk>(
    alloc: Global,
    nodes: &mut Nodes<D>,
    flying: &mut Flying,
    book: &mut Book,
    node: NodeNo,
    entries: Vec<Entry>,
    ticket: Option<Ticket>,
    letters: Vec<Letter>,
) -> Result<Said, StepFault>
    requires within { node ≤ nodes.old.plan.nodes }
    requires works { CanWorkOn D.seen nodes.old.plan nodes.old.lives.items nodes.old.disks.items }
    requires heard { AllCanBeHeard letters.items }
    requires room { length entries.items < spare_of book.old }
    ensures goes { GoesOn (view_of D.seen D.faults D.clock) node entries.items result nodes.old flying.old book.old nodes.new flying.new book.new ticket letters.items }
    ensures spare { spare_of book.old ≤ spare_of book.new + length entries.items + 1 }
{
    if send_some(alloc, nodes, flying, letters).is_err() {
        nodes.turn(node, Life::Down);
        enter_failure(book, node, entries);
        return Err(StepFault::NoMemory { down: Some(node) });
    }
    book.add_all(entries);
    Ok(begun(ticket))
}

// What comes of what the node did.
fn conclude<D: Disk>(
    alloc: Global,
    nodes: &mut Nodes<D>,
    flying: &mut Flying,
    book: &mut Book,
    node: NodeNo,
    entries: Vec<Entry>,
    did: Result<(Option<Ticket>, Outbox), NodeFault>,
) -> Result<Said, StepFault>
    requires within { node ≤ nodes.old.plan.nodes }
    requires works { CanWorkOn D.seen nodes.old.plan nodes.old.lives.items nodes.old.disks.items }
    requires heard { IfOk did (λ begun. AllCanBeHeard begun.1.letters) }
    requires room { length entries.items < spare_of book.old }
    ensures concludes { Concludes (view_of D.seen D.faults D.clock) node entries.items result nodes.old flying.old book.old nodes.new flying.new book.new did }
    ensures spare { spare_of book.old ≤ spare_of book.new + length entries.items + 1 }
{
    match did {
        Ok((ticket, outbox)) => go_on(
            alloc,
            nodes,
            flying,
            book,
            node,
            entries,
            ticket,
            outbox.letters.into_vec(),
        ),
        Err(why) => tell_failure(book, node, entries, why),
    }
}

/// Begins a call of messages at a node that is up. The book has at once what a Strike is to delete, also where the node goes down in it.
pub(crate) fn begin_call<D: Disk>(
    alloc: Global,
    nodes: &mut Nodes<D>,
    flying: &mut Flying,
    book: &mut Book,
    node: NodeNo,
    call: Call,
    seconds: u64,
) -> Result<Said, StepFault>
    requires fit { node_refusal nodes.old.plan (life_among nodes.old) (Begin node call) ≡ None }
    requires ready { CanWorkOn D.seen nodes.old.plan nodes.old.lives.items nodes.old.disks.items }
    requires mail { IsMailCall (call_seen call) }
    requires room { all_falls_left nodes.old.lives.items ≤ spare_of book.old }
    ensures did { StepDid (view_of D.seen D.faults D.clock) result (Begin node call) (state_with nodes.old flying.old seconds book.old) (state_with nodes.new flying.new seconds book.new) }
    ensures ready { CanWorkOn D.seen nodes.new.plan nodes.new.lives.items nodes.new.disks.items }
    ensures settled { AreSettled D.settled (state_with nodes.old flying.old seconds book.old) → AreSettled D.settled (state_with nodes.new flying.new seconds book.new) }
    ensures room { all_falls_left nodes.new.lives.items ≤ spare_of book.new }
    ensures installs { installs_booked book.new ≡ installs_booked book.old }
{
    if is_worn(flying.sent()) {
        return Err(StepFault::Worn);
    }
    if !text_is_ended(&call) {
        return Err(StepFault::NoMemory { down: None });
    }
    let entries = struck_in(alloc, &call)?;
    book.reserve(nodes.most_falls() + entries.len() + 2)?;
    let did = begin_in(alloc, nodes, node, call, seconds);
    conclude(alloc, nodes, flying, book, node, entries, did)
}
