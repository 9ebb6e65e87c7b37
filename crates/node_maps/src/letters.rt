// Letters that a node sends for membership and maps.
ghost use Rattle.std.specs.Prelude.{◌≡◌, ◌≤◌, ◌∷◌, ◌++◌, [], map, nat_eq, None, if◌then◌else◌, IfOk, OnOk};
ghost use Rattle.object_model.specs.Letters.Body.{Group, Install as InstallBody, ReportAck};
ghost use Rattle.mail_base.specs.Bodies.{body_seen};
ghost use Rattle.maps_model.specs.Rules.{letter_to, others};
ghost use Rattle.node_maps.specs.Nodes.{installs_to};

use mail_base::{Body, EpochId, Letter, Member, Name, NodeNo, Sequence};
use membership::Install;
use std::alloc::{AllocError, Global};

/// No letters. It takes no memory.
pub(crate) fn no_letters(alloc: Global) -> Sequence<Letter>
    ensures { result ≡ [] }
{
    Sequence::new(alloc)
}

// A letter of membership carries no epoch of its sender.
fn letter_to(own: NodeNo, body: Body, to: NodeNo) -> Letter
    ensures { result ≡ letter_to own (body_seen body) to }
{
    Letter {
        from: own,
        to,
        epoch: EpochId::none(),
        ticket: None,
        body,
    }
}

/// This one letter of membership.
pub(crate) fn one_letter(
    alloc: Global,
    own: NodeNo,
    body: Body,
    to: NodeNo,
) -> Result<Sequence<Letter>, AllocError>
    ensures { IfOk result (λ letters. letters ≡ letter_to own (body_seen body) to ∷ []) }
{
    let mut letters = no_letters(alloc);
    letters.push(letter_to(own, body, to))?;
    Ok(letters)
}

// The answer to a Report.
fn ack_letter(letter: &Letter, user: Name, version: u64) -> Letter
    ensures { result ≡ record { from = letter.now.to; to = letter.now.from; epoch = letter.now.epoch; ticket = None; body = ReportAck user version } }
{
    Letter {
        from: letter.to,
        to: letter.from,
        epoch: letter.epoch,
        ticket: None,
        body: Body::ReportAck { user, version },
    }
}

/// The acknowledgement of a row of that version.
pub(crate) fn acknowledgement(
    alloc: Global,
    letter: &Letter,
    user: &Name,
    version: u64,
) -> Result<Sequence<Letter>, AllocError>
    ensures { IfOk result (λ letters. letters ≡ record { from = letter.now.to; to = letter.now.from; epoch = letter.now.epoch; ticket = None; body = ReportAck user.now version } ∷ []) }
{
    let mut letters = no_letters(alloc);
    letters.push(ack_letter(letter, user.copy()?, version))?;
    Ok(letters)
}

fn node_of(number: u8) -> NodeNo
    requires low { 1 ≤ number }
    requires high { number ≤ 16 }
    ensures { result ≡ number }
{
    NodeNo::new(number).unwrap()
}

/// Puts a Group for each node of the plan but the own one behind the letters, from the greatest number down.
pub(crate) fn ask_others(
    letters: &mut Sequence<Letter>,
    own: NodeNo,
    nodes: u8,
    epoch: EpochId,
) -> Result<(), AllocError>
    requires { nodes ≤ 16 }
    ensures { OnOk result (letters.new ≡ letters.old ++ map (letter_to own (Group epoch)) (others own nodes)) }
{
    if nodes == 0 {
        return Ok(());
    }
    let last = node_of(nodes);
    if last != own {
        letters.push(letter_to(own, Body::Group { epoch }, last))?;
    }
    ask_others(letters, own, nodes - 1, epoch)?;
    Ok(())
}

// An Install for this member, unless it is the own node.
fn tell_member(
    letters: &mut Sequence<Letter>,
    own: NodeNo,
    install: &Install,
    to: NodeNo,
) -> Result<(), AllocError>
    ensures { OnOk result (letters.new ≡ letters.old ++ (if nat_eq to own then [] else letter_to own (InstallBody install.now) to ∷ [])) }
{
    if to == own {
        return Ok(());
    }
    let copy = install.copy()?;
    letters.push(letter_to(own, install_body(copy), to))?;
    Ok(())
}

fn install_body(install: Install) -> Body
    ensures { body_seen result ≡ InstallBody install }
{
    Body::Install {
        epoch: install.epoch,
        members: install.members,
        map: install.map,
    }
}

fn tell_members(
    letters: &mut Sequence<Letter>,
    own: NodeNo,
    install: &Install,
    members: &[Member],
) -> Result<(), AllocError>
    ensures { OnOk result (letters.new ≡ letters.old ++ installs_to own install.now members.now) }
{
    for member in members {
        tell_member(letters, own, install, member.node)?;
    }
    Ok(())
}

/// An Install for each member but the own node, in the order of the members.
pub(crate) fn installs(
    alloc: Global,
    own: NodeNo,
    install: &Install,
) -> Result<Sequence<Letter>, AllocError>
    ensures { IfOk result (λ letters. letters ≡ installs_to own install.now install.now.members) }
{
    let mut letters = no_letters(alloc);
    tell_members(&mut letters, own, install, install.members.as_slice())?;
    Ok(letters)
}
