// Parts of a payload, read from its beginning: each is given with the octets after it.
ghost use Rattle.std.specs.Int.{w16, w32, w64};
ghost use Rattle.record_form.specs.Reading.{FindsAsRead, octet_at, number_at, text_at, id_at, epoch_at, stamp_at, targets_at};

use mail_base::{EpochId, MsgId, NodeNo, NodeSet, Stamp};

pub fn octet_at(octets: &[u8]) -> Option<(u8, &[u8])>
    ensures { FindsAsRead (λ x. (x.0, x.1.now)) result (octet_at octets.now) }
{
    match octets {
        [first, rest @ ..] => Some((*first, rest)),
        [] => None,
    }
}

fn u16_at(octets: &[u8]) -> Option<(u16, &[u8])>
    ensures { FindsAsRead (λ x. (x.0, x.1.now)) result (number_at w16 octets.now) }
{
    if octets.len() < 2 {
        return None;
    }
    let (front, rest) = octets.split_at(2);
    Some((u16::from_be_bytes([front[0], front[1]]), rest))
}

pub fn u32_at(octets: &[u8]) -> Option<(u32, &[u8])>
    ensures { FindsAsRead (λ x. (x.0, x.1.now)) result (number_at w32 octets.now) }
{
    if octets.len() < 4 {
        return None;
    }
    let (front, rest) = octets.split_at(4);
    let number = u32::from_be_bytes([front[0], front[1], front[2], front[3]]);
    Some((number, rest))
}

fn u64_at(octets: &[u8]) -> Option<(u64, &[u8])>
    ensures { FindsAsRead (λ x. (x.0, x.1.now)) result (number_at w64 octets.now) }
{
    if octets.len() < 8 {
        return None;
    }
    let (front, rest) = octets.split_at(8);
    let number = u64::from_be_bytes([
        front[0], front[1], front[2], front[3], front[4], front[5], front[6], front[7],
    ]);
    Some((number, rest))
}

/// A text after the octet that counts it.
#[tactic(auto, unfolding(crate::specs::Reading::text_at))]
pub fn text_at(octets: &[u8]) -> Option<(&[u8], &[u8])>
    ensures { FindsAsRead (λ x. (x.0.now, x.1.now)) result (text_at octets.now) }
{
    let (size, rest) = octet_at(octets)?;
    let size = size as usize;
    if rest.len() < size {
        return None;
    }
    Some(rest.split_at(size))
}

#[tactic(auto, unfolding(crate::specs::Reading::id_at))]
pub fn id_at(octets: &[u8]) -> Option<(MsgId, &[u8])>
    ensures { FindsAsRead (λ x. (x.0, x.1.now)) result (id_at octets.now) }
{
    let (node, rest) = octet_at(octets)?;
    let node = NodeNo::new(node)?;
    let (boot, rest) = u32_at(rest)?;
    let (seq, rest) = u64_at(rest)?;
    let id = MsgId::new(node, boot, seq)?;
    Some((id, rest))
}

#[tactic(auto, unfolding(crate::specs::Reading::epoch_at))]
pub fn epoch_at(octets: &[u8]) -> Option<(EpochId, &[u8])>
    ensures { FindsAsRead (λ x. (x.0, x.1.now)) result (epoch_at octets.now) }
{
    let (count, rest) = u64_at(octets)?;
    let (node, rest) = octet_at(rest)?;
    let node = NodeNo::new(node)?;
    Some((EpochId::new(count, node.number()), rest))
}

#[tactic(auto, unfolding(crate::specs::Reading::stamp_at))]
pub fn stamp_at(octets: &[u8]) -> Option<(Stamp, &[u8])>
    ensures { FindsAsRead (λ x. (x.0, x.1.now)) result (stamp_at octets.now) }
{
    let (count, rest) = u64_at(octets)?;
    let (boot, rest) = u32_at(rest)?;
    let (node, rest) = octet_at(rest)?;
    if node > 16 {
        return None;
    }
    Some((Stamp::new(count, boot, node), rest))
}

#[tactic(auto, unfolding(crate::specs::Reading::targets_at))]
pub fn targets_at(octets: &[u8]) -> Option<(NodeSet, &[u8])>
    ensures { FindsAsRead (λ x. (x.0, x.1.now)) result (targets_at octets.now) }
{
    let (mask, rest) = u16_at(octets)?;
    if mask == 0 {
        return None;
    }
    Some((NodeSet::from_mask(mask), rest))
}
