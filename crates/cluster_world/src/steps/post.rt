//! A letter is handed to its receiver.
ghost use Rattle.std.specs.Prelude.{◌≡◌, ◌+◌, ◌≤◌, ◌<◌, ℕ, All, true, false, Some, IfOk, is_some};
ghost use Rattle.mail_base.specs.Bodies.{body_seen};
ghost use Rattle.node_store.specs.Disks.{view_of};
ghost use Rattle.cluster_world.specs.Hears.{CanBeHeard, AllCanBeHeard};
ghost use Rattle.object_model.specs.Letters.{Letter as PlainLetter, is_read_body};
ghost use Rattle.cluster_model.specs.Steps.{letter_at};
ghost use Rattle.whole_node.specs.Hearing.{FitsMaps};
ghost use Rattle.world_book.specs.Books.{spare_of};
ghost use Rattle.cluster_world.specs.Flights.{taken_out};
ghost use Rattle.cluster_world.specs.Lives.{is_up_life, all_falls_left, CanWorkOn};
ghost use Rattle.cluster_world.specs.Worlds.{life_among, state_with};
ghost use Rattle.cluster_world.specs.Installs.{installs_booked, AddsInstalls};
ghost use Rattle.cluster_world.specs.Changes.{ChangesNode, IsTurnedTo};
ghost use Rattle.cluster_world.specs.Posts.{out_of, HearsAtNode, mishap_of_thrown, mishap_of_fault, mishap_of, IsEntered, IsNotedIf, AnswersSent, EndsThrown, EndsHeard, LeavesIfFailed, EndsStopped, EndsPost};
ghost use Rattle.cluster_world.specs.Steps.{StepDid, AreSettled};
ghost use Rattle.cluster_world.specs.declared.life.Life.TheVariants as lives;
ghost use Rattle.cluster_world.specs.declared.step.Step.TheVariants as step;
ghost use Rattle.cluster_world.specs.declared.fault.StepFault.TheVariants as fault;

use crate::fault::StepFault;
use crate::flying::{Flying, is_worn};
use crate::installing::{enter_install, epoch_at, hearer_of_install};
use crate::life::Life;
use crate::mishaps::note_in;
use crate::nodes::{Nodes, place_of};
use crate::sending::send;
use crate::step::Said;
use crate::steps::fault::{enter_fall, note_fall, said_of};
use crate::working::hear_at;
use io_edge::Disk;
use mail_base::{Body, Letter, NodeNo};
use node_core::{NodeFault, Outbox, Why};
use node_tickets::MishapKind;
use std::alloc::{AllocError, Global};
use world_book::Book;

/// To whom a letter goes.
pub(crate) fn receiver_of(letter: &Letter) -> NodeNo
    ensures { result ≡ letter.now.to }
{
    letter.to
}

/// Whether the node is up.
pub(crate) fn has_up<D>(nodes: &Nodes<D>, node: NodeNo) -> bool
    ensures { result ≡ is_up_life (life_among nodes.now node) }
{
    match nodes.life(node) {
        Some(life) => life.is_up(),
        None => false,
    }
}

/// The letter that is to leave, if it is not kept.
pub(crate) fn out_of(number: u64, keep: bool) -> Option<u64>
    ensures { result ≡ out_of number keep }
{
    if keep { None } else { Some(number) }
}

/// The letter leaves, if one is named. It takes no memory.
fn leave(flying: &mut Flying, posted: Option<u64>)
    ensures { flying.new ≡ taken_out posted flying.old }
{
    if let Some(number) = posted {
        flying.take(number);
    }
}

/// The receiver, which is up, hears the letter.
fn hear_in<D: Disk>(
    alloc: Global,
    nodes: &mut Nodes<D>,
    letter: &Letter,
) -> Result<Outbox, NodeFault>
    requires up { is_up_life (life_among nodes.old letter.now.to) ≡ true }
    requires works { CanWorkOn D.seen nodes.old.plan nodes.old.lives.items nodes.old.disks.items }
    requires kind { is_read_body letter.now.body ≡ false }
    requires fits { CanBeHeard letter.now }
    ensures hears { ChangesNode letter.now.to (HearsAtNode (view_of D.seen D.faults D.clock) D.settled nodes.old.plan letter.now.to letter.now result) nodes.old nodes.new }
    ensures fits { IfOk result (λ outbox. All FitsMaps outbox.letters) }
{
    let place = place_of(receiver_of(letter));
    hear_at(
        alloc,
        &mut nodes.lives[place],
        &mut nodes.disks[place],
        letter,
    )
}

/// Notes the mishap of a letter that was thrown, if it has one. It takes no memory.
fn note_thrown<D: Disk>(nodes: &mut Nodes<D>, letter: &Letter, thrown: &Option<Why>)
    requires works { CanWorkOn D.seen nodes.old.plan nodes.old.lives.items nodes.old.disks.items }
    ensures { IsNotedIf (view_of D.seen D.faults D.clock) nodes.old.plan letter.now (mishap_of_thrown thrown.now) nodes.old nodes.new }
{
    match thrown {
        Some(Why::Stale) => note_in(nodes, MishapKind::Stale, letter),
        Some(Why::Down | Why::Old | Why::NotPromised | Why::NotMember | Why::Late) => {}
        None => {}
    }
}

/// Whether a letter has a mishap as the disk of its receiver fails: one of messages does.
fn has_mishap(body: &Body) -> bool
    ensures { result ≡ is_some (mishap_of_fault (body_seen body.now)) }
{
    match body {
        Body::Group { .. }
        | Body::Join { .. }
        | Body::Install { .. }
        | Body::Report { .. }
        | Body::ReportAck { .. } => false,
        Body::File { .. }
        | Body::Filed { .. }
        | Body::LoginAsk { .. }
        | Body::LoginTold { .. }
        | Body::ListAsk { .. }
        | Body::ListTold { .. }
        | Body::FetchAsk { .. }
        | Body::FetchTold { .. }
        | Body::Strike { .. }
        | Body::StrikeTold { .. }
        | Body::Unlock { .. }
        | Body::Push { .. }
        | Body::PushAck { .. }
        | Body::Retired { .. } => true,
    }
}

/// Notes that the disk of the receiver failed, if that is a mishap of the letter. It takes no memory.
fn note_fault<D: Disk>(nodes: &mut Nodes<D>, letter: &Letter)
    requires works { CanWorkOn D.seen nodes.old.plan nodes.old.lives.items nodes.old.disks.items }
    ensures { IsNotedIf (view_of D.seen D.faults D.clock) nodes.old.plan letter.now (mishap_of_fault letter.now.body) nodes.old nodes.new }
{
    if has_mishap(&letter.body) {
        note_in(nodes, MishapKind::Disk, letter);
    }
}

/// Notes the mishap of a letter that was handed to its receiver, if it has one. It takes no memory.
fn note_handed<D: Disk>(nodes: &mut Nodes<D>, letter: &Letter, heard: &Result<Outbox, NodeFault>)
    requires works { CanWorkOn D.seen nodes.old.plan nodes.old.lives.items nodes.old.disks.items }
    ensures { IsNotedIf (view_of D.seen D.faults D.clock) nodes.old.plan letter.now (mishap_of letter.now.body heard.now) nodes.old nodes.new }
{
    match heard {
        Ok(outbox) => note_thrown(nodes, letter, &outbox.thrown),
        Err(NodeFault::Disk) => note_fault(nodes, letter),
        Err(NodeFault::Worn) => {}
        Err(NodeFault::NoMemory { .. }) => {}
    }
}

/// A node goes down for want of memory. It takes none.
fn fall_short<D>(nodes: &mut Nodes<D>, book: &mut Book, node: NodeNo) -> StepFault
    requires within { node ≤ nodes.old.plan.nodes }
    requires room { 0 < spare_of book.old }
    ensures fault { result ≡ fault.NoMemory (Some node) }
    ensures turned { ChangesNode node (IsTurnedTo lives.Down) nodes.old nodes.new }
    ensures entered { IsEntered node book.old book.new }
{
    nodes.turn(node, Life::Down);
    enter_fall(book, node);
    StepFault::NoMemory { down: Some(node) }
}

/// What a node sends is put in flight, and this is said. Where there is no memory for that, the node goes down, since it has
/// done its work.
pub(crate) fn send_answers<D: Disk>(
    alloc: Global,
    nodes: &mut Nodes<D>,
    flying: &mut Flying,
    book: &mut Book,
    node: NodeNo,
    posted: Option<u64>,
    said: Said,
    letters: Vec<Letter>,
) -> Result<Said, StepFault>
    requires works { CanWorkOn D.seen nodes.old.plan nodes.old.lives.items nodes.old.disks.items }
    requires within { node ≤ nodes.old.plan.nodes }
    requires room { 0 < spare_of book.old }
    requires fit { AllCanBeHeard letters.items }
    ensures { AnswersSent (view_of D.seen D.faults D.clock) nodes.old.plan node posted said letters.items result nodes.old flying.old book.old nodes.new flying.new book.new }
{
    match send(alloc, nodes, flying, letters, posted) {
        Ok(()) => Ok(said),
        Err(AllocError) => Err(fall_short(nodes, book, node)),
    }
}

/// A letter that was thrown leaves, if it is to. An old Group is answered all the same. Where nothing is answered this takes no
/// memory.
fn end_thrown<D: Disk>(
    alloc: Global,
    nodes: &mut Nodes<D>,
    flying: &mut Flying,
    book: &mut Book,
    node: NodeNo,
    posted: Option<u64>,
    why: Why,
    letters: Vec<Letter>,
) -> Result<Said, StepFault>
    requires works { CanWorkOn D.seen nodes.old.plan nodes.old.lives.items nodes.old.disks.items }
    requires within { node ≤ nodes.old.plan.nodes }
    requires room { 0 < spare_of book.old }
    requires fit { AllCanBeHeard letters.items }
    ensures { EndsThrown (view_of D.seen D.faults D.clock) nodes.old.plan node posted why letters.items result nodes.old flying.old book.old nodes.new flying.new book.new }
{
    let said = Said::Thrown(why);
    if letters.is_empty() {
        leave(flying, posted);
        return Ok(said);
    }
    send_answers(alloc, nodes, flying, book, node, posted, said, letters)
}

/// A letter that was heard, or thrown, leaves, if it is to, and what the receiver answers is in flight.
fn end_heard<D: Disk>(
    alloc: Global,
    nodes: &mut Nodes<D>,
    flying: &mut Flying,
    book: &mut Book,
    node: NodeNo,
    posted: Option<u64>,
    outbox: Outbox,
) -> Result<Said, StepFault>
    requires works { CanWorkOn D.seen nodes.old.plan nodes.old.lives.items nodes.old.disks.items }
    requires within { node ≤ nodes.old.plan.nodes }
    requires room { 0 < spare_of book.old }
    requires fit { AllCanBeHeard outbox.letters }
    ensures { EndsHeard (view_of D.seen D.faults D.clock) nodes.old.plan node posted outbox.thrown outbox.letters result nodes.old flying.old book.old nodes.new flying.new book.new }
{
    let Outbox { letters, thrown } = outbox;
    match thrown {
        Some(why) => end_thrown(
            alloc,
            nodes,
            flying,
            book,
            node,
            posted,
            why,
            letters.into_vec(),
        ),
        None => send_answers(
            alloc,
            nodes,
            flying,
            book,
            node,
            posted,
            Said::Heard,
            letters.into_vec(),
        ),
    }
}

/// The letter leaves with a disk fault, if one is named. It takes no memory.
fn leave_if_failed(flying: &mut Flying, posted: Option<u64>, fault: NodeFault)
    ensures { LeavesIfFailed posted fault flying.old flying.new }
{
    match fault {
        NodeFault::Disk => leave(flying, posted),
        NodeFault::Worn | NodeFault::NoMemory { .. } => {}
    }
}

/// A letter in whose hearing the receiver's work stopped: it leaves with a disk fault alone.
fn end_stopped(
    flying: &mut Flying,
    book: &mut Book,
    node: NodeNo,
    posted: Option<u64>,
    fault: NodeFault,
) -> Result<Said, StepFault>
    requires room { 0 < spare_of book.old }
    ensures { EndsStopped node posted fault result flying.old book.old flying.new book.new }
{
    note_fall(book, node, fault);
    leave_if_failed(flying, posted, fault);
    said_of(node, fault)
}

/// What is made of a letter that was handed to its receiver.
fn end_post<D: Disk>(
    alloc: Global,
    nodes: &mut Nodes<D>,
    flying: &mut Flying,
    book: &mut Book,
    node: NodeNo,
    posted: Option<u64>,
    heard: Result<Outbox, NodeFault>,
) -> Result<Said, StepFault>
    requires works { CanWorkOn D.seen nodes.old.plan nodes.old.lives.items nodes.old.disks.items }
    requires within { node ≤ nodes.old.plan.nodes }
    requires room { 0 < spare_of book.old }
    requires fit { IfOk heard (λ outbox. AllCanBeHeard outbox.letters) }
    ensures { EndsPost (view_of D.seen D.faults D.clock) nodes.old.plan node posted heard result nodes.old flying.old book.old nodes.new flying.new book.new }
{
    match heard {
        Ok(outbox) => end_heard(alloc, nodes, flying, book, node, posted, outbox),
        Err(why) => end_stopped(flying, book, node, posted, why),
    }
}

// Hands a letter to its receiver. Of what the receiver may install the book has nothing yet.
fn hand_letter<D: Disk>(
    alloc: Global,
    nodes: &mut Nodes<D>,
    flying: &mut Flying,
    book: &mut Book,
    number: u64,
    keep: bool,
) -> Result<Said, StepFault>
    requires ready { CanWorkOn D.seen nodes.old.plan nodes.old.lives.items nodes.old.disks.items }
    requires mail { (letter : PlainLetter) → letter_at number flying.old.flights ≡ Some letter → is_read_body letter.body ≡ false }
    requires room { all_falls_left nodes.old.lives.items ≤ spare_of book.old }
    ensures did { (seconds : ℕ) → StepDid (view_of D.seen D.faults D.clock) result (step.Post number keep) (state_with nodes.old flying.old seconds book.old) (state_with nodes.new flying.new seconds book.new) }
    ensures ready { CanWorkOn D.seen nodes.new.plan nodes.new.lives.items nodes.new.disks.items }
    ensures settled { (seconds : ℕ) → AreSettled D.settled (state_with nodes.old flying.old seconds book.old) → AreSettled D.settled (state_with nodes.new flying.new seconds book.new) }
    ensures spare { spare_of book.old + all_falls_left nodes.new.lives.items ≤ spare_of book.new + all_falls_left nodes.old.lives.items }
    ensures installs { installs_booked book.new ≡ installs_booked book.old }
{
    let Some(letter) = flying.letter(number) else {
        return Err(StepFault::NoSuchLetter);
    };
    if is_worn(flying.sent()) {
        return Err(StepFault::Worn);
    }
    let node = receiver_of(letter);
    if !has_up(nodes, node) {
        note_in(nodes, MishapKind::Down, letter);
        leave(flying, out_of(number, keep));
        return Ok(Said::Thrown(Why::Down));
    }
    let heard = hear_in(alloc, nodes, letter);
    note_handed(nodes, letter, &heard);
    end_post(
        alloc,
        nodes,
        flying,
        book,
        node,
        out_of(number, keep),
        heard,
    )
}

/// Hands a letter that is of no call that reads to its receiver. It leaves, or is kept in flight, so that it can be posted again; where memory runs out it
/// stays. Its ticket has a mishap where the receiver is not up, has another epoch, or has a disk fault. Of an Install that the
/// receiver hears the book has the epoch.
pub(crate) fn post_letter<D: Disk>(
    alloc: Global,
    nodes: &mut Nodes<D>,
    flying: &mut Flying,
    book: &mut Book,
    number: u64,
    keep: bool,
) -> Result<Said, StepFault>
    requires ready { CanWorkOn D.seen nodes.old.plan nodes.old.lives.items nodes.old.disks.items }
    requires mail { (letter : PlainLetter) → letter_at number flying.old.flights ≡ Some letter → is_read_body letter.body ≡ false }
    requires room { all_falls_left nodes.old.lives.items ≤ spare_of book.old }
    ensures did { (seconds : ℕ) → StepDid (view_of D.seen D.faults D.clock) result (step.Post number keep) (state_with nodes.old flying.old seconds book.old) (state_with nodes.new flying.new seconds book.new) }
    ensures ready { CanWorkOn D.seen nodes.new.plan nodes.new.lives.items nodes.new.disks.items }
    ensures settled { (seconds : ℕ) → AreSettled D.settled (state_with nodes.old flying.old seconds book.old) → AreSettled D.settled (state_with nodes.new flying.new seconds book.new) }
    ensures room { all_falls_left nodes.new.lives.items ≤ spare_of book.new }
    ensures installs { AddsInstalls (step.Post number keep) flying.old.flights nodes.old.lives.items book.old nodes.new.lives.items book.new }
{
    let Some(node) = hearer_of_install(flying, number) else {
        return hand_letter(alloc, nodes, flying, book, number, keep);
    };
    book.reserve(nodes.most_falls() + 1)?;
    let was = epoch_at(nodes, node);
    let said = hand_letter(alloc, nodes, flying, book, number, keep);
    enter_install(nodes, book, node, was);
    said
}
