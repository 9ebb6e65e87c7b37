// What nodes answer, as the lines of a table write it.
use mail_base::{Body, EpochId, Letter, Member};
use node_core::Why;
use std::alloc::AllocError;

pub(super) fn one(number: u64) -> u8 {
    b'0' + (number % 10) as u8
}

fn kind_of(body: &Body) -> u8 {
    match body {
        Body::Group { .. } => b'G',
        Body::Join { .. } => b'J',
        Body::Install { .. } => b'I',
        Body::Report { .. } => b'R',
        Body::ReportAck { .. } => b'A',
        Body::File { .. } => b'F',
        Body::Filed { .. } => b'f',
        Body::LoginAsk { .. } => b'L',
        Body::LoginTold { .. } => b'l',
        Body::ListAsk { .. } => b'C',
        Body::ListTold { .. } => b'c',
        Body::FetchAsk { .. } => b'E',
        Body::FetchTold { .. } => b'e',
        Body::Unlock { .. } => b'U',
        _ => b'?',
    }
}

/// The name of a letter.
pub(super) fn name_of(letter: &Letter) -> [u8; 3] {
    [
        kind_of(&letter.body),
        one(u64::from(letter.from.number())),
        one(u64::from(letter.to.number())),
    ]
}

/// Writes the letters that are sent.
pub(super) fn say_letters(out: &mut Vec<u8>, letters: &[Letter]) -> Result<(), AllocError> {
    for letter in letters {
        out.push(b' ')?;
        out.extend_from_slice(&name_of(letter))?;
    }
    Ok(())
}

/// Writes why a letter was thrown, if it was.
pub(super) fn say_why(out: &mut Vec<u8>, thrown: &Option<Why>) -> Result<(), AllocError> {
    match thrown {
        Some(Why::Down) => out.extend_from_slice(b" down"),
        Some(Why::Stale) => out.extend_from_slice(b" stale"),
        Some(Why::Old) => out.extend_from_slice(b" old"),
        Some(Why::NotPromised) => out.extend_from_slice(b" not-promised"),
        Some(Why::NotMember) => out.extend_from_slice(b" not-member"),
        Some(Why::Late) => out.extend_from_slice(b" late"),
        None => Ok(()),
    }
}

/// Writes an epoch.
pub(super) fn say_epoch(out: &mut Vec<u8>, epoch: EpochId) -> Result<(), AllocError> {
    out.extend_from_slice(&[b' ', one(epoch.count), b'.', one(u64::from(epoch.node))])
}

/// Writes members with their boots.
pub(super) fn say_members(out: &mut Vec<u8>, members: &[Member]) -> Result<(), AllocError> {
    for member in members {
        let node = one(u64::from(member.node.number()));
        out.extend_from_slice(&[b' ', node, one(u64::from(member.boot))])?;
    }
    Ok(())
}
