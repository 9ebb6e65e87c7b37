//! What is said of the lines of the console.
ghost use Rattle.std.specs.Prelude.{◌≡◌, ◌≤◌, ◌++◌, ◌∷◌, codes, List, ℕ, Some, OnOk, IfOk};
ghost use Rattle.std.specs.Fmt.{decimal};
ghost use Rattle.std.specs.Option.{option_copied, option_map};
ghost use Rattle.mail_model.specs.Lines.{ended};
ghost use Rattle.object_model.specs.Sets.{nodes_in};
ghost use Rattle.session_model.specs.Events.{node_words, sum_text};
ghost use Rattle.cluster_world.specs.Sums.{sum_seen};
ghost use Rattle.board_service.specs.ConsoleAnswers.{node_line, up_line, fault_line, refused_line, refusal_word, epoch_line, start_said, start_told, regroup_line, regroup_told, settle_line, settle_told, map_line, map_told, sum_told, order_told, answer_to};

use crate::orders::ConsoleOrder;
use cluster_world::{BookSum, Regroup, Said, Settle, StepFault};
use mail_base::{EpochId, Name, NodeNo, NodeSet};
use shard_board::Told;
use std::alloc::{AllocError, Global};

// The text as a line, behind what is there.
fn push_line(out: &mut Vec<u8>, text: &[u8]) -> Result<(), AllocError>
    ensures { OnOk result (out.new.items ≡ out.old.items ++ ended text.now) }
{
    out.extend_from_slice(text)?;
    out.push(b'\n')?;
    Ok(())
}

// `WORD N`
fn behind_word(alloc: Global, word: &[u8], number: u64) -> Result<Vec<u8>, AllocError>
    ensures { IfOk result (λ text. text.items ≡ word.now ++ decimal number) }
{
    let number = number.to_string(alloc)?;
    let mut text = Vec::from_slice(alloc, word)?;
    text.extend_from_slice(number.as_bytes())?;
    Ok(text)
}

// A word and a number more.
fn push_number(
    alloc: Global,
    text: &mut Vec<u8>,
    word: &[u8],
    number: u64,
) -> Result<(), AllocError>
    ensures { OnOk result (text.new.items ≡ text.old.items ++ word.now ++ decimal number) }
{
    let number = number.to_string(alloc)?;
    text.extend_from_slice(word)?;
    text.extend_from_slice(number.as_bytes())
}

// `*0 node N WORD`
fn say_node(alloc: Global, node: u64, word: &[u8], out: &mut Vec<u8>) -> Result<(), AllocError>
    ensures { OnOk result (out.new.items ≡ out.old.items ++ node_line node word.now) }
{
    let mut text = behind_word(alloc, b"*0 node ", node)?;
    text.extend_from_slice(word)?;
    push_line(out, &text)
}

// `*0 node N up B`
fn say_up(alloc: Global, node: u64, boot: u32, out: &mut Vec<u8>) -> Result<(), AllocError>
    ensures { OnOk result (out.new.items ≡ out.old.items ++ up_line node boot) }
{
    let mut text = behind_word(alloc, b"*0 node ", node)?;
    let boot = boot.to_string(alloc)?;
    text.extend_from_slice(b" up ")?;
    text.extend_from_slice(boot.as_bytes())?;
    push_line(out, &text)
}

// `*0 fault N`
fn say_fault(alloc: Global, node: NodeNo, out: &mut Vec<u8>) -> Result<(), AllocError>
    ensures { OnOk result (out.new.items ≡ out.old.items ++ fault_line node) }
{
    let text = behind_word(alloc, b"*0 fault ", u64::from(node.number()))?;
    push_line(out, &text)
}

// `*0 sum acked A struck S dropped D lost L`
fn say_sum(alloc: Global, sum: &BookSum, out: &mut Vec<u8>) -> Result<(), AllocError>
    ensures { OnOk result (out.new.items ≡ out.old.items ++ ended (codes "*0 " ++ sum_text (sum_seen sum.now))) }
{
    let mut text = behind_word(alloc, b"*0 sum acked ", sum.acked)?;
    push_number(alloc, &mut text, b" struck ", sum.struck)?;
    push_number(alloc, &mut text, b" dropped ", sum.dropped)?;
    push_number(alloc, &mut text, b" lost ", sum.lost)?;
    push_line(out, &text)
}

#[tactic(auto, using(crate::proofs::Members::with_last, crate::proofs::Members::without_last))]
// ` a b ..`: those of the members from 1 to so many.
fn push_members(
    alloc: Global,
    text: &mut Vec<u8>,
    members: NodeSet,
    nodes: u8,
) -> Result<(), AllocError>
    requires { nodes ≤ 16 }
    ensures { OnOk result (text.new.items ≡ text.old.items ++ node_words (nodes_in members nodes)) }
{
    if nodes == 0 {
        return Ok(());
    }
    push_members(alloc, text, members, nodes - 1)?;
    let last = NodeNo::new(nodes).unwrap();
    if members.has(last) {
        push_number(alloc, text, b" ", u64::from(nodes))?;
    }
    Ok(())
}

// `*0 epoch C.N members a b ..`
fn say_epoch(
    alloc: Global,
    epoch: EpochId,
    members: NodeSet,
    out: &mut Vec<u8>,
) -> Result<(), AllocError>
    ensures { OnOk result (out.new.items ≡ out.old.items ++ epoch_line epoch members) }
{
    let mut text = behind_word(alloc, b"*0 epoch ", epoch.count)?;
    push_number(alloc, &mut text, b".", u64::from(epoch.node))?;
    text.extend_from_slice(b" members")?;
    push_members(alloc, &mut text, members, 16)?;
    push_line(out, &text)
}

/// `! line N WORD`
pub(crate) fn say_refused(
    alloc: Global,
    number: u64,
    word: &[u8],
    out: &mut Vec<u8>,
) -> Result<(), AllocError>
    ensures { OnOk result (out.new.items ≡ out.old.items ++ refused_line number word.now) }
{
    let mut text = behind_word(alloc, b"! line ", number)?;
    text.push(b' ')?;
    text.extend_from_slice(word)?;
    push_line(out, &text)
}

// The word for a refusal; none for want of memory.
fn refusal_word(why: StepFault) -> Option<&'static [u8]>
    ensures { option_copied result ≡ refusal_word why }
{
    match why {
        StepFault::NoSuchNode => Some(b"NoSuchNode"),
        StepFault::NodeLost => Some(b"NodeLost"),
        StepFault::NodeDown => Some(b"NodeDown"),
        StepFault::NodeUp => Some(b"NodeUp"),
        StepFault::NoSuchLetter => Some(b"NoSuchLetter"),
        StepFault::NoSuchTicket => Some(b"NoSuchTicket"),
        StepFault::NotAGroup => Some(b"NotAGroup"),
        StepFault::Worn => Some(b"Worn"),
        StepFault::NoRoom => Some(b"NoRoom"),
        StepFault::NoMemory { .. } => None,
    }
}

// What is said of an order that was refused.
fn say_why(alloc: Global, number: u64, why: StepFault, out: &mut Vec<u8>) -> Result<(), AllocError>
    ensures { OnOk result ((said : List ℕ) × (option_map (refused_line number) (refusal_word why) ≡ Some said) × (out.new.items ≡ out.old.items ++ said)) }
{
    match refusal_word(why) {
        Some(word) => say_refused(alloc, number, word, out),
        None => Err(AllocError),
    }
}

// What is said of a node that was to start.
fn say_start(alloc: Global, node: u64, said: &Said, out: &mut Vec<u8>) -> Result<(), AllocError>
    ensures { OnOk result (out.new.items ≡ out.old.items ++ start_said node said.now) }
{
    match said {
        Said::NodeUp { boot } => say_up(alloc, node, *boot, out),
        Said::Faulted(failed) => say_fault(alloc, *failed, out),
        Said::Begun { .. } => Ok(()),
        Said::Noted => Ok(()),
        Said::Asked(_) => Ok(()),
        Said::Heard => Ok(()),
        Said::Thrown(_) => Ok(()),
        Said::Sent { .. } => Ok(()),
        Said::Widened(_) => Ok(()),
        Said::Grouped(_) => Ok(()),
        Said::Concluded { .. } => Ok(()),
        Said::Done => Ok(()),
    }
}

// The same of what was told.
fn say_start_told(
    alloc: Global,
    node: u64,
    told: &Told,
    out: &mut Vec<u8>,
) -> Result<(), AllocError>
    ensures { OnOk result (out.new.items ≡ out.old.items ++ start_told node told.now) }
{
    match told {
        Told::Said(said) => say_start(alloc, node, said, out),
        Told::Regrouped(_) => Ok(()),
        Told::Settled(_) => Ok(()),
        Told::Mapped(_) => Ok(()),
        Told::Sum(_) => Ok(()),
    }
}

// What is said of a regroup.
fn say_regroup(alloc: Global, came: &Regroup, out: &mut Vec<u8>) -> Result<(), AllocError>
    ensures { OnOk result (out.new.items ≡ out.old.items ++ regroup_line came.now) }
{
    match came {
        Regroup::Formed { epoch, members } => say_epoch(alloc, *epoch, *members, out),
        Regroup::Fault(failed) => say_fault(alloc, *failed, out),
    }
}

// The same of what was told.
fn say_regroup_told(alloc: Global, told: &Told, out: &mut Vec<u8>) -> Result<(), AllocError>
    ensures { OnOk result (out.new.items ≡ out.old.items ++ regroup_told told.now) }
{
    match told {
        Told::Said(_) => Ok(()),
        Told::Regrouped(came) => say_regroup(alloc, came, out),
        Told::Settled(_) => Ok(()),
        Told::Mapped(_) => Ok(()),
        Told::Sum(_) => Ok(()),
    }
}

// `*0 settled`
fn say_settled(alloc: Global, out: &mut Vec<u8>) -> Result<(), AllocError>
    ensures { OnOk result (out.new.items ≡ out.old.items ++ ended (codes "*0 settled")) }
{
    let text = Vec::from_slice(alloc, b"*0 settled")?;
    push_line(out, &text)
}

// `*0 not-all-up N`
fn say_absent(alloc: Global, member: NodeNo, out: &mut Vec<u8>) -> Result<(), AllocError>
    ensures { OnOk result (out.new.items ≡ out.old.items ++ ended (codes "*0 not-all-up " ++ decimal member)) }
{
    let text = behind_word(alloc, b"*0 not-all-up ", u64::from(member.number()))?;
    push_line(out, &text)
}

// What is said of a settle.
fn say_settle(alloc: Global, came: &Settle, out: &mut Vec<u8>) -> Result<(), AllocError>
    ensures { OnOk result (out.new.items ≡ out.old.items ++ settle_line came.now) }
{
    match came {
        Settle::Settled => say_settled(alloc, out),
        Settle::NotAllUp(member) => say_absent(alloc, *member, out),
        Settle::Fault(failed) => say_fault(alloc, *failed, out),
    }
}

// The same of what was told.
fn say_settle_told(alloc: Global, told: &Told, out: &mut Vec<u8>) -> Result<(), AllocError>
    ensures { OnOk result (out.new.items ≡ out.old.items ++ settle_told told.now) }
{
    match told {
        Told::Said(_) => Ok(()),
        Told::Regrouped(_) => Ok(()),
        Told::Settled(came) => say_settle(alloc, came, out),
        Told::Mapped(_) => Ok(()),
        Told::Sum(_) => Ok(()),
    }
}

// ` at M: a b ..`
fn push_told(
    alloc: Global,
    text: &mut Vec<u8>,
    manager: NodeNo,
    named: NodeSet,
) -> Result<(), AllocError>
    ensures { OnOk result (text.new.items ≡ text.old.items ++ codes " at " ++ decimal manager ++ codes ":" ++ node_words (nodes_in named 16)) }
{
    push_number(alloc, text, b" at ", u64::from(manager.number()))?;
    text.extend_from_slice(b":")?;
    push_members(alloc, text, named, 16)
}

// `*0 maps NAME at M: a b ..`, or `*0 maps NAME none`
fn say_map(
    alloc: Global,
    user: &Name,
    map: &Option<(NodeNo, NodeSet)>,
    out: &mut Vec<u8>,
) -> Result<(), AllocError>
    ensures { OnOk result (out.new.items ≡ out.old.items ++ map_line user.now map.now) }
{
    let mut text = Vec::from_slice(alloc, b"*0 maps ")?;
    text.extend_from_slice(user.octets())?;
    match map {
        Some((manager, named)) => push_told(alloc, &mut text, *manager, *named)?,
        None => text.extend_from_slice(b" none")?,
    }
    push_line(out, &text)
}

// The same of what was told.
fn say_map_told(
    alloc: Global,
    user: &Name,
    told: &Told,
    out: &mut Vec<u8>,
) -> Result<(), AllocError>
    ensures { OnOk result (out.new.items ≡ out.old.items ++ map_told user.now told.now) }
{
    match told {
        Told::Said(_) => Ok(()),
        Told::Regrouped(_) => Ok(()),
        Told::Settled(_) => Ok(()),
        Told::Mapped(map) => say_map(alloc, user, map, out),
        Told::Sum(_) => Ok(()),
    }
}

// What is said of the entries that were counted.
fn say_sum_told(alloc: Global, told: &Told, out: &mut Vec<u8>) -> Result<(), AllocError>
    ensures { OnOk result (out.new.items ≡ out.old.items ++ sum_told told.now) }
{
    match told {
        Told::Said(_) => Ok(()),
        Told::Regrouped(_) => Ok(()),
        Told::Settled(_) => Ok(()),
        Told::Mapped(_) => Ok(()),
        Told::Sum(sum) => say_sum(alloc, sum, out),
    }
}

// What is said of an order that was done.
fn say_told(
    alloc: Global,
    order: &ConsoleOrder,
    told: &Told,
    out: &mut Vec<u8>,
) -> Result<(), AllocError>
    ensures { OnOk result (out.new.items ≡ out.old.items ++ order_told order.now told.now) }
{
    match order {
        ConsoleOrder::Crash(node) => say_node(alloc, *node, b" down", out),
        ConsoleOrder::Start(node) => say_start_told(alloc, *node, told, out),
        ConsoleOrder::Lose(node) => say_node(alloc, *node, b" lost", out),
        ConsoleOrder::Group(_) => say_regroup_told(alloc, told, out),
        ConsoleOrder::Settle => say_settle_told(alloc, told, out),
        ConsoleOrder::Maps(user) => say_map_told(alloc, user, told, out),
        ConsoleOrder::Sum => say_sum_told(alloc, told, out),
    }
}

/// What is said of an order on the line of this number.
///
/// # Errors
///
/// Out of memory: here, or as the order was done.
pub(crate) fn say_answer(
    alloc: Global,
    number: u64,
    order: &ConsoleOrder,
    came: &Result<Told, StepFault>,
    out: &mut Vec<u8>,
) -> Result<(), AllocError>
    ensures { OnOk result ((said : List ℕ) × (answer_to number order.now came.now ≡ Some said) × (out.new.items ≡ out.old.items ++ said)) }
{
    match came {
        Ok(told) => say_told(alloc, order, told, out),
        Err(why) => say_why(alloc, number, *why, out),
    }
}
