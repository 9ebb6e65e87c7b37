// The run lines that move the cluster itself.
ghost use Rattle.std.specs.Prelude.{◌≡◌, codes, option_and_then, IfOk};
ghost use Rattle.std.specs.Option.{option_map};
ghost use Rattle.mail_model.specs.Tape as tape;
ghost use Rattle.mail_model.specs.Tape.{strip, numbered_line, bare_line, widen_line, maps_line, cluster_order_of};
ghost use Rattle.tape_lines.specs.ClusterOrders.{moves_seen};

use crate::id_word::id_of_word;
use crate::words::strip;
use line_words::{behind_word, first_word, number};
use mail_base::{MsgId, Name};
use std::alloc::{AllocError, Global};

/// A run line that moves the cluster itself. Its numbers are as the tape gives them, below 2^64: whether there is such a
/// node or letter is not asked here.
#[derive(Debug, Drop, PartialEq, Eq)]
pub enum ClusterOrder {
    /// A node stops.
    Crash {
        node: u64,
    },
    /// A node starts again.
    Start {
        node: u64,
    },
    /// A node is lost with its disk.
    Lose {
        node: u64,
    },
    /// A letter in flight is posted.
    Post {
        letter: u64,
    },
    /// A letter is posted, and stays in flight.
    Again {
        letter: u64,
    },
    /// A letter is dropped.
    Drop {
        letter: u64,
    },
    /// All letters are posted, the lowest first, until none is in flight.
    Flow,
    /// A node pushes what it owes to each other member.
    Push {
        node: u64,
    },
    /// A copy of a message gets a target more.
    Widen {
        at: u64,
        user: Name,
        id: MsgId,
        to: u64,
    },
    /// A node opens a group.
    Group {
        node: u64,
    },
    /// A node concludes its group.
    Conclude {
        node: u64,
    },
    /// A node opens a group, all letters of it are posted, and the node concludes it.
    Regroup {
        node: u64,
    },
    /// A node reports its rows to each other member.
    Report {
        node: u64,
    },
    /// The cluster settles: letters are posted, and the members push and report, until nothing is due.
    Settle,
    /// It is asked which nodes have mail of the user.
    Maps {
        user: Name,
    },
    /// The clock is set to these seconds since 1970.
    Tick {
        seconds: u64,
    },
    /// The entries of the book are counted.
    Sum,
}

fn crashes(line: &[u8]) -> Option<ClusterOrder>
    ensures { option_map moves_seen result ≡ option_and_then (numbered_line tape.ClusterOrder.Crash) (strip (codes "crash ") line.now) }
{
    let node = number(strip(b"crash ", line)?)?;
    Some(ClusterOrder::Crash { node })
}

fn starts(line: &[u8]) -> Option<ClusterOrder>
    ensures { option_map moves_seen result ≡ option_and_then (numbered_line tape.ClusterOrder.Start) (strip (codes "start ") line.now) }
{
    let node = number(strip(b"start ", line)?)?;
    Some(ClusterOrder::Start { node })
}

fn loses(line: &[u8]) -> Option<ClusterOrder>
    ensures { option_map moves_seen result ≡ option_and_then (numbered_line tape.ClusterOrder.Lose) (strip (codes "lose ") line.now) }
{
    let node = number(strip(b"lose ", line)?)?;
    Some(ClusterOrder::Lose { node })
}

fn posts(line: &[u8]) -> Option<ClusterOrder>
    ensures { option_map moves_seen result ≡ option_and_then (numbered_line tape.ClusterOrder.Post) (strip (codes "post ") line.now) }
{
    let letter = number(strip(b"post ", line)?)?;
    Some(ClusterOrder::Post { letter })
}

fn posts_again(line: &[u8]) -> Option<ClusterOrder>
    ensures { option_map moves_seen result ≡ option_and_then (numbered_line tape.ClusterOrder.Again) (strip (codes "again ") line.now) }
{
    let letter = number(strip(b"again ", line)?)?;
    Some(ClusterOrder::Again { letter })
}

fn drops(line: &[u8]) -> Option<ClusterOrder>
    ensures { option_map moves_seen result ≡ option_and_then (numbered_line tape.ClusterOrder.Drop) (strip (codes "drop ") line.now) }
{
    let letter = number(strip(b"drop ", line)?)?;
    Some(ClusterOrder::Drop { letter })
}

fn flows(line: &[u8]) -> Option<ClusterOrder>
    ensures { option_map moves_seen result ≡ option_and_then (bare_line tape.ClusterOrder.Flow) (strip (codes "flow") line.now) }
{
    let rest = strip(b"flow", line)?;
    if !rest.is_empty() {
        return None;
    }
    Some(ClusterOrder::Flow)
}

fn pushes(line: &[u8]) -> Option<ClusterOrder>
    ensures { option_map moves_seen result ≡ option_and_then (numbered_line tape.ClusterOrder.Push) (strip (codes "push ") line.now) }
{
    let node = number(strip(b"push ", line)?)?;
    Some(ClusterOrder::Push { node })
}

fn ticks(line: &[u8]) -> Option<ClusterOrder>
    ensures { option_map moves_seen result ≡ option_and_then (numbered_line tape.ClusterOrder.Tick) (strip (codes "tick ") line.now) }
{
    let seconds = number(strip(b"tick ", line)?)?;
    Some(ClusterOrder::Tick { seconds })
}

fn sums(line: &[u8]) -> Option<ClusterOrder>
    ensures { option_map moves_seen result ≡ option_and_then (bare_line tape.ClusterOrder.Sum) (strip (codes "sum") line.now) }
{
    let rest = strip(b"sum", line)?;
    if !rest.is_empty() {
        return None;
    }
    Some(ClusterOrder::Sum)
}

fn groups(line: &[u8]) -> Option<ClusterOrder>
    ensures { option_map moves_seen result ≡ option_and_then (numbered_line tape.ClusterOrder.Group) (strip (codes "group ") line.now) }
{
    let node = number(strip(b"group ", line)?)?;
    Some(ClusterOrder::Group { node })
}

fn concludes(line: &[u8]) -> Option<ClusterOrder>
    ensures { option_map moves_seen result ≡ option_and_then (numbered_line tape.ClusterOrder.Conclude) (strip (codes "conclude ") line.now) }
{
    let node = number(strip(b"conclude ", line)?)?;
    Some(ClusterOrder::Conclude { node })
}

fn regroups(line: &[u8]) -> Option<ClusterOrder>
    ensures { option_map moves_seen result ≡ option_and_then (numbered_line tape.ClusterOrder.Regroup) (strip (codes "regroup ") line.now) }
{
    let node = number(strip(b"regroup ", line)?)?;
    Some(ClusterOrder::Regroup { node })
}

fn reports(line: &[u8]) -> Option<ClusterOrder>
    ensures { option_map moves_seen result ≡ option_and_then (numbered_line tape.ClusterOrder.Report) (strip (codes "report ") line.now) }
{
    let node = number(strip(b"report ", line)?)?;
    Some(ClusterOrder::Report { node })
}

fn settles(line: &[u8]) -> Option<ClusterOrder>
    ensures { option_map moves_seen result ≡ option_and_then (bare_line tape.ClusterOrder.Settle) (strip (codes "settle") line.now) }
{
    let rest = strip(b"settle", line)?;
    if !rest.is_empty() {
        return None;
    }
    Some(ClusterOrder::Settle)
}

fn widen_to(alloc: Global, rest: &[u8]) -> Result<Option<ClusterOrder>, AllocError>
    ensures { IfOk result (λ order. option_map moves_seen order ≡ widen_line rest.now) }
{
    let Some(at) = number(first_word(rest)) else {
        return Ok(None);
    };
    let after_node = behind_word(rest);
    let Some(user) = Name::spelt(alloc, first_word(after_node))? else {
        return Ok(None);
    };
    let after_name = behind_word(after_node);
    let Some(id) = id_of_word(first_word(after_name)) else {
        return Ok(None);
    };
    let Some(to) = number(behind_word(after_name)) else {
        return Ok(None);
    };
    Ok(Some(ClusterOrder::Widen { at, user, id, to }))
}

fn widens(alloc: Global, line: &[u8]) -> Result<Option<ClusterOrder>, AllocError>
    ensures { IfOk result (λ order. option_map moves_seen order ≡ option_and_then widen_line (strip (codes "widen ") line.now)) }
{
    match strip(b"widen ", line) {
        Some(rest) => widen_to(alloc, rest),
        None => Ok(None),
    }
}

fn maps_of(alloc: Global, rest: &[u8]) -> Result<Option<ClusterOrder>, AllocError>
    ensures { IfOk result (λ order. option_map moves_seen order ≡ maps_line rest.now) }
{
    let Some(user) = Name::spelt(alloc, rest)? else {
        return Ok(None);
    };
    Ok(Some(ClusterOrder::Maps { user }))
}

fn asks_maps(alloc: Global, line: &[u8]) -> Result<Option<ClusterOrder>, AllocError>
    ensures { IfOk result (λ order. option_map moves_seen order ≡ option_and_then maps_line (strip (codes "maps ") line.now)) }
{
    match strip(b"maps ", line) {
        Some(rest) => maps_of(alloc, rest),
        None => Ok(None),
    }
}

/// The run line that moves the cluster itself; nothing where the line is none of these. Only `widen` and `maps` take memory.
///
/// # Errors
///
/// Out of memory alone, for the name of `widen` or `maps`.
pub(crate) fn cluster_order(alloc: Global, line: &[u8]) -> Result<Option<ClusterOrder>, AllocError>
    ensures { IfOk result (λ order. option_map moves_seen order ≡ cluster_order_of line.now) }
{
    if let Some(order) = crashes(line) {
        return Ok(Some(order));
    }
    if let Some(order) = starts(line) {
        return Ok(Some(order));
    }
    if let Some(order) = loses(line) {
        return Ok(Some(order));
    }
    if let Some(order) = posts(line) {
        return Ok(Some(order));
    }
    if let Some(order) = posts_again(line) {
        return Ok(Some(order));
    }
    if let Some(order) = drops(line) {
        return Ok(Some(order));
    }
    if let Some(order) = flows(line) {
        return Ok(Some(order));
    }
    if let Some(order) = pushes(line) {
        return Ok(Some(order));
    }
    if let Some(order) = ticks(line) {
        return Ok(Some(order));
    }
    if let Some(order) = sums(line) {
        return Ok(Some(order));
    }
    if let Some(order) = groups(line) {
        return Ok(Some(order));
    }
    if let Some(order) = concludes(line) {
        return Ok(Some(order));
    }
    if let Some(order) = regroups(line) {
        return Ok(Some(order));
    }
    if let Some(order) = reports(line) {
        return Ok(Some(order));
    }
    if let Some(order) = settles(line) {
        return Ok(Some(order));
    }
    if let Some(order) = widens(alloc, line)? {
        return Ok(Some(order));
    }
    asks_maps(alloc, line)
}
