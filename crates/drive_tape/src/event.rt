// What came of a run line that moves the cluster, and its line of the transcript.
ghost use Rattle.std.specs.Prelude.{◌≡◌, ◌≤◌, ◌++◌, codes, IfOk, IsErrOf};
ghost use Rattle.std.specs.Fmt.{decimal};
ghost use Rattle.io_edge.specs.Causes.{Rose};
ghost use Rattle.mail_model.specs.Transcript.{why_word};
ghost use Rattle.session_model.specs.Events.{event_entries, widened_text, sum_text};
ghost use Rattle.cluster_world.specs.Sums.{sum_seen};
ghost use Rattle.drive_tape.specs.Happenings.{why_seen, event_seen, entries_of_event, fallen_by, WritesOrStops};

use crate::entry::Entry;
use crate::epoch_text::{formed, grouped, push_number};
use crate::map_text::mapped;
use crate::{WriteStop, write_entries};
use cluster_world::BookSum;
use io_edge::Sink;
use mail_base::{EpochId, Name, NodeNo, NodeSet, Octets};
use node_core::Why;
use std::alloc::{AllocError, Global};

/// What came of a run line that moves the cluster.
#[derive(Debug, Drop)]
pub(crate) enum ClusterEvent {
    /// A node went down.
    WentDown(NodeNo),
    /// A node came up, in this boot.
    CameUp {
        node: NodeNo,
        boot: u32,
    },
    /// A node is lost for good.
    WasLost(NodeNo),
    /// A letter was heard.
    WasHeard(u64),
    /// A letter was thrown.
    WasThrown {
        letter: u64,
        why: Why,
    },
    /// A letter was dropped.
    WasDropped(u64),
    /// All letters were posted.
    HasFlowed,
    /// A node sent so many letters.
    HasSent(u64),
    /// Whether a copy got a target more.
    HasWidened(bool),
    /// A group was opened for this epoch.
    HasGrouped(EpochId),
    /// The epoch was formed, with these members.
    HasFormed {
        epoch: EpochId,
        members: NodeSet,
    },
    /// The latest epoch has settled.
    HasSettled,
    /// It could not, since this member of it is not live.
    WasAbsent(NodeNo),
    /// A manager names these nodes as those with mail of the user; or none does.
    HasMapped {
        user: Name,
        told: Option<(NodeNo, NodeSet)>,
    },
    /// The clock was set.
    HasTicked,
    /// The entries of the book were counted.
    HasSummed(BookSum),
    /// The disk of a node failed, and the node is down.
    HasFaulted(NodeNo),
}

// The word that the transcript has for why a letter was thrown.
fn why_word(why: Why) -> &'static [u8]
    ensures { result.now ≡ why_word (why_seen why) }
{
    match why {
        Why::Down => b"down",
        Why::Stale => b"stale",
        Why::Old => b"old",
        Why::NotPromised => b"not-promised",
        Why::NotMember => b"not-member",
        Why::Late => b"late",
    }
}

// `WORD N`
fn behind_word(alloc: Global, word: &[u8], number: u64) -> Result<Vec<u8>, AllocError>
    ensures { IfOk result (λ text. text.items ≡ word.now ++ decimal number) }
{
    let number = number.to_string(alloc)?;
    let mut text = Vec::from_slice(alloc, word)?;
    text.extend_from_slice(number.as_bytes())?;
    Ok(text)
}

// `node N WORD`
fn of_node(alloc: Global, node: NodeNo, word: &[u8]) -> Result<Octets, AllocError>
    ensures { IfOk result (λ text. text ≡ codes "node " ++ decimal node ++ word.now) }
{
    let mut text = behind_word(alloc, b"node ", u64::from(node.number()))?;
    text.extend_from_slice(word)?;
    Ok(Octets::from_vec(text))
}

// `node N up B`
fn came_up(alloc: Global, node: NodeNo, boot: u32) -> Result<Octets, AllocError>
    ensures { IfOk result (λ text. text ≡ codes "node " ++ decimal node ++ codes " up " ++ decimal boot) }
{
    let mut text = behind_word(alloc, b"node ", u64::from(node.number()))?;
    let boot = boot.to_string(alloc)?;
    text.extend_from_slice(b" up ")?;
    text.extend_from_slice(boot.as_bytes())?;
    Ok(Octets::from_vec(text))
}

// `I WORD`
fn of_letter(alloc: Global, letter: u64, word: &[u8]) -> Result<Octets, AllocError>
    ensures { IfOk result (λ text. text ≡ decimal letter ++ word.now) }
{
    let mut text = behind_word(alloc, b"", letter)?;
    text.extend_from_slice(word)?;
    Ok(Octets::from_vec(text))
}

// `I thrown WHY`
fn thrown(alloc: Global, letter: u64, why: Why) -> Result<Octets, AllocError>
    ensures { IfOk result (λ text. text ≡ decimal letter ++ codes " thrown " ++ why_word (why_seen why)) }
{
    let mut text = behind_word(alloc, b"", letter)?;
    text.extend_from_slice(b" thrown ")?;
    text.extend_from_slice(why_word(why))?;
    Ok(Octets::from_vec(text))
}

// `widened` or `not widened`
fn widened(alloc: Global, did: bool) -> Result<Octets, AllocError>
    ensures { IfOk result (λ text. text ≡ widened_text did) }
{
    let text: &[u8] = if did { b"widened" } else { b"not widened" };
    Ok(Octets::from_vec(Vec::from_slice(alloc, text)?))
}

// `sum acked A struck S dropped D lost L`
fn summed(alloc: Global, sum: &BookSum) -> Result<Octets, AllocError>
    ensures { IfOk result (λ text. text ≡ sum_text (sum_seen sum.now)) }
{
    let mut text = behind_word(alloc, b"sum acked ", sum.acked)?;
    push_number(alloc, &mut text, b" struck ", sum.struck)?;
    push_number(alloc, &mut text, b" dropped ", sum.dropped)?;
    push_number(alloc, &mut text, b" lost ", sum.lost)?;
    Ok(Octets::from_vec(text))
}

// The octets of the word.
fn word(alloc: Global, word: &[u8]) -> Result<Octets, AllocError>
    ensures { IfOk result (λ text. text ≡ word.now) }
{
    Ok(Octets::from_vec(Vec::from_slice(alloc, word)?))
}

// `WORD N`
fn numbered(alloc: Global, word: &[u8], number: u64) -> Result<Octets, AllocError>
    ensures { IfOk result (λ text. text ≡ word.now ++ decimal number) }
{
    Ok(Octets::from_vec(behind_word(alloc, word, number)?))
}

// `fault N`
fn faulted(alloc: Global, node: NodeNo) -> Result<Octets, AllocError>
    ensures { IfOk result (λ text. text ≡ codes "fault " ++ decimal node) }
{
    numbered(alloc, b"fault ", u64::from(node.number()))
}

// `not-all-up N`
fn absent(alloc: Global, member: NodeNo) -> Result<Octets, AllocError>
    ensures { IfOk result (λ text. text ≡ codes "not-all-up " ++ decimal member) }
{
    numbered(alloc, b"not-all-up ", u64::from(member.number()))
}

impl ClusterEvent {
    // The text of its line; none where it has no line.
    fn text(&self, alloc: Global) -> Result<Option<Octets>, AllocError>
        ensures { IfOk result (λ text. entries_of_event text ≡ event_entries (event_seen self.now)) }
    {
        match self {
            ClusterEvent::WentDown(node) => Ok(Some(of_node(alloc, *node, b" down")?)),
            ClusterEvent::CameUp { node, boot } => Ok(Some(came_up(alloc, *node, *boot)?)),
            ClusterEvent::WasLost(node) => Ok(Some(of_node(alloc, *node, b" lost")?)),
            ClusterEvent::WasHeard(letter) => Ok(Some(of_letter(alloc, *letter, b" heard")?)),
            ClusterEvent::WasThrown { letter, why } => Ok(Some(thrown(alloc, *letter, *why)?)),
            ClusterEvent::WasDropped(_) => Ok(None),
            ClusterEvent::HasFlowed => Ok(Some(word(alloc, b"flowed")?)),
            ClusterEvent::HasSent(count) => Ok(Some(numbered(alloc, b"sent ", *count)?)),
            ClusterEvent::HasWidened(did) => Ok(Some(widened(alloc, *did)?)),
            ClusterEvent::HasGrouped(epoch) => Ok(Some(grouped(alloc, *epoch)?)),
            ClusterEvent::HasFormed { epoch, members } => {
                Ok(Some(formed(alloc, *epoch, *members)?))
            }
            ClusterEvent::HasSettled => Ok(Some(word(alloc, b"settled")?)),
            ClusterEvent::WasAbsent(member) => Ok(Some(absent(alloc, *member)?)),
            ClusterEvent::HasMapped { user, told } => Ok(Some(mapped(alloc, user, told)?)),
            ClusterEvent::HasTicked => Ok(None),
            ClusterEvent::HasSummed(sum) => Ok(Some(summed(alloc, sum)?)),
            ClusterEvent::HasFaulted(node) => Ok(Some(faulted(alloc, *node)?)),
        }
    }

    /// The node whose sessions fall with it.
    pub(crate) fn fallen(&self) -> Option<NodeNo>
        ensures { result ≡ fallen_by (event_seen self.now) }
    {
        match self {
            ClusterEvent::WentDown(node) => Some(*node),
            ClusterEvent::WasLost(node) => Some(*node),
            ClusterEvent::HasFaulted(node) => Some(*node),
            ClusterEvent::CameUp { .. } => None,
            ClusterEvent::WasHeard(_) => None,
            ClusterEvent::WasThrown { .. } => None,
            ClusterEvent::WasDropped(_) => None,
            ClusterEvent::HasFlowed => None,
            ClusterEvent::HasSent(_) => None,
            ClusterEvent::HasWidened(_) => None,
            ClusterEvent::HasGrouped(_) => None,
            ClusterEvent::HasFormed { .. } => None,
            ClusterEvent::HasSettled => None,
            ClusterEvent::WasAbsent(_) => None,
            ClusterEvent::HasMapped { .. } => None,
            ClusterEvent::HasTicked => None,
            ClusterEvent::HasSummed(_) => None,
        }
    }
}

/// Writes the line of the event, where it has one.
#[tactic(auto, using(crate::proofs::Replies::writes_none))]
pub(crate) fn write_event<K: Sink>(
    alloc: Global,
    sink: &mut K,
    event: &ClusterEvent,
) -> Result<(), WriteStop>
    ensures written { WritesOrStops (K.contents sink.old) (K.contents sink.new) result (event_entries (event_seen event.now)) }
    ensures later { K.faults sink.old ≤ K.faults sink.new }
    ensures failed { IsErrOf result WriteStop.WriteFault → Rose (K.faults sink.old) (K.faults sink.new) }
{
    match event.text(alloc)? {
        Some(text) => {
            let entries = [Entry::Event { text }];
            write_entries(alloc, sink, &entries)
        }
        None => Ok(()),
    }
}
