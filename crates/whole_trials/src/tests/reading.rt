// What a node does for calls that read, by the lines of a table.
ghost use Rattle.std.specs.Prelude.{◌≡◌, ℕ, List, Option, true, is_some};
ghost use Rattle.object_model.specs.Letters.{is_read_body};
ghost use Rattle.whole_trials.specs.Able.{octets_told, IsAble, IsAbleOver};

use super::site::{Site, is_up, named, settle};
use super::tells::{say_ask, say_fault, say_ticket, tell_heard, tell_letter, tell_reader};
use call_tickets::Ask;
use mail_base::{Letter, MsgId, Name, NodeNo, NodeSet, Octets, Proof, Secret, Ticket, Users};
use node_core::{NodeFault, Outbox, Why};
use node_disk::MemoryDisk;
use node_tickets::MishapKind;
use std::alloc::{AllocError, Global};
use whole_node::{WholeNode, is_of_reads};

/// The users of the plan: ann, with her secret.
fn users_of(alloc: Global) -> Result<Users, AllocError> {
    let mut users = Users::new(alloc);
    let secret = Secret::read(alloc, b"tulip")?.ok_or(AllocError)?;
    users.insert(named(alloc, b"ann")?, secret)?;
    Ok(users)
}

/// Her secret, or where the sign is an x another one.
fn proof_of(alloc: Global, sign: u8) -> Result<Proof, AllocError> {
    let given: &[u8] = if sign == b'x' { b"lotus" } else { b"tulip" };
    Ok(Proof::Pass(Octets::from_vec(Vec::from_slice(alloc, given)?)))
}

// A user of the plan, or where the sign is a z nobody that it has.
fn reader_of(alloc: Global, sign: u8) -> Result<Name, AllocError> {
    if sign == b'z' {
        return named(alloc, b"zoe");
    }
    named(alloc, b"ann")
}

fn login_at(
    alloc: Global,
    node: &mut Option<WholeNode>,
    sign: u8,
) -> Result<(Option<Ticket>, Outbox), NodeFault>
    requires up { is_some node.old ≡ true }
    requires able { IsAbleOver node.old }
    ensures able { (seen : Option (List ℕ)) → IsAble seen node.old → IsAble seen node.new }
{
    let users = users_of(alloc)?;
    let user = reader_of(alloc, sign)?;
    let proof = proof_of(alloc, sign)?;
    match node {
        Some(up) => up.begin_login(alloc, &users, user, proof),
        None => unreachable!(),
    }
}

fn fetch_at(
    alloc: Global,
    disk: &mut MemoryDisk,
    node: &mut Option<WholeNode>,
    id: MsgId,
    holders: NodeSet,
) -> Result<(Option<Ticket>, Outbox), NodeFault>
    requires up { is_some node.old ≡ true }
    requires able { IsAble (octets_told disk.old) node.old }
    ensures able { IsAble (octets_told disk.new) node.new }
{
    let ann = named(alloc, b"ann")?;
    let done = match node {
        Some(up) => up.begin_fetch(alloc, disk, ann, id, 0, 5, holders),
        None => unreachable!(),
    };
    settle(node, &done);
    done
}

fn hear_read_at(
    alloc: Global,
    disk: &mut MemoryDisk,
    node: &mut Option<WholeNode>,
    letter: &Letter,
) -> Result<Outbox, NodeFault>
    requires up { is_some node.old ≡ true }
    requires able { IsAble (octets_told disk.old) node.old }
    requires kind { is_read_body letter.now.body ≡ true }
    ensures able { IsAble (octets_told disk.new) node.new }
{
    let users = users_of(alloc)?;
    let done = match node {
        Some(up) => up.hear_read(alloc, disk, &users, letter),
        None => unreachable!(),
    };
    settle(node, &done);
    done
}

fn ask_at(
    alloc: Global,
    node: &mut Option<WholeNode>,
    ticket: Ticket,
) -> Result<Option<Ask>, AllocError>
    requires able { IsAbleOver node.old }
    ensures able { (seen : Option (List ℕ)) → IsAble seen node.old → IsAble seen node.new }
{
    match node {
        Some(up) => {
            if up.reads_stand(ticket) {
                return up.ask_read(alloc, ticket);
            }
            Ok(up.ask(ticket))
        }
        None => Ok(None),
    }
}

fn give_up_at(node: &mut Option<WholeNode>, ticket: Ticket) -> Option<Letter>
    requires able { IsAbleOver node.old }
    ensures able { (seen : Option (List ℕ)) → IsAble seen node.old → IsAble seen node.new }
{
    match node {
        Some(up) => up.give_up_read(ticket),
        None => None,
    }
}

fn befall_at(
    node: &mut Option<WholeNode>,
    ticket: Ticket,
    kind: MishapKind,
    at: NodeNo,
) -> Option<Letter>
    requires able { IsAbleOver node.old }
    ensures able { (seen : Option (List ℕ)) → IsAble seen node.old → IsAble seen node.new }
{
    match node {
        Some(up) => up.befall(ticket, kind, at),
        None => None,
    }
}

fn leave_at(
    node: &mut Option<WholeNode>,
    user: Name,
    login: Ticket,
    manager: NodeNo,
) -> Option<Letter>
    requires able { IsAbleOver node.old }
    ensures able { (seen : Option (List ℕ)) → IsAble seen node.old → IsAble seen node.new }
{
    match node {
        Some(up) => up.leave(user, login, manager),
        None => None,
    }
}

// What befell a letter as it was heard.
fn mishap_of(heard: &Result<Outbox, NodeFault>) -> Option<MishapKind> {
    match heard {
        Ok(outbox) => match outbox.thrown {
            Some(Why::Stale) => Some(MishapKind::Stale),
            _ => None,
        },
        Err(_) => Some(MishapKind::Disk),
    }
}

fn say_holder(node: &WholeNode, user: &Name, out: &mut Vec<u8>) -> Result<(), AllocError> {
    match node.locks().holder(user) {
        Some(by) => say_ticket(out, by),
        None => out.extend_from_slice(b" none"),
    }
}

impl Site {
    /// A login begins at it: with an x it is one of ann with a wrong secret, with a z one of somebody else.
    pub(crate) fn log_in(
        &mut self,
        alloc: Global,
        sign: u8,
        flying: &mut Vec<Letter>,
        out: &mut Vec<u8>,
    ) -> Result<(), AllocError> {
        if !is_up(&self.node) {
            return out.extend_from_slice(b" down");
        }
        let begun = login_at(alloc, &mut self.node, sign);
        tell_reader(begun, flying, out)
    }

    /// A fetch of the first five octets of a message begins at it.
    pub(crate) fn fetch(
        &mut self,
        alloc: Global,
        id: MsgId,
        holders: NodeSet,
        flying: &mut Vec<Letter>,
        out: &mut Vec<u8>,
    ) -> Result<(), AllocError> {
        if !is_up(&self.node) {
            return out.extend_from_slice(b" down");
        }
        let begun = fetch_at(alloc, &mut self.disk, &mut self.node, id, holders);
        tell_reader(begun, flying, out)
    }

    /// It hears a letter of a call that reads. What befell the letter is answered.
    pub(crate) fn hear_read(
        &mut self,
        alloc: Global,
        letter: &Letter,
        flying: &mut Vec<Letter>,
        out: &mut Vec<u8>,
    ) -> Result<Option<MishapKind>, AllocError> {
        if !is_up(&self.node) {
            out.extend_from_slice(b" down")?;
            return Ok(Some(MishapKind::Down));
        }
        if !is_of_reads(&letter.body) {
            return Ok(None);
        }
        let heard = hear_read_at(alloc, &mut self.disk, &mut self.node, letter);
        let mishap = mishap_of(&heard);
        tell_heard(heard, flying, out)?;
        Ok(mishap)
    }

    // Its ticket of this number, in its boot.
    fn ticket(&self, seq: u64) -> Ticket {
        let boot = match &self.node {
            Some(node) => node.mail().boot(),
            None => 1,
        };
        Ticket::new(self.own, boot, seq)
    }

    /// It is asked about its ticket of this number.
    pub(crate) fn ask(
        &mut self,
        alloc: Global,
        seq: u64,
        out: &mut Vec<u8>,
    ) -> Result<(), AllocError> {
        let ticket = self.ticket(seq);
        let ask = ask_at(alloc, &mut self.node, ticket)?;
        say_ask(&ask, out)
    }

    /// It gives this ticket up.
    pub(crate) fn give_up(
        &mut self,
        seq: u64,
        flying: &mut Vec<Letter>,
        out: &mut Vec<u8>,
    ) -> Result<(), AllocError> {
        let ticket = self.ticket(seq);
        let letter = give_up_at(&mut self.node, ticket);
        tell_letter(letter, flying, out)
    }

    /// A letter of this ticket, to or from the node, had a mishap.
    pub(crate) fn befall(
        &mut self,
        ticket: Ticket,
        kind: MishapKind,
        at: NodeNo,
        flying: &mut Vec<Letter>,
        out: &mut Vec<u8>,
    ) -> Result<(), AllocError> {
        let letter = befall_at(&mut self.node, ticket, kind, at);
        tell_letter(letter, flying, out)
    }

    /// A session of ann ends that this login let in, whose manager is the node.
    pub(crate) fn leave(
        &mut self,
        alloc: Global,
        seq: u64,
        manager: NodeNo,
        flying: &mut Vec<Letter>,
        out: &mut Vec<u8>,
    ) -> Result<(), AllocError> {
        let login = self.ticket(seq);
        let ann = named(alloc, b"ann")?;
        let letter = leave_at(&mut self.node, ann, login, manager);
        tell_letter(letter, flying, out)
    }

    /// Writes whose login has the lock of ann's maildrop.
    pub(crate) fn hold(&self, user: &Name, out: &mut Vec<u8>) -> Result<(), AllocError> {
        match &self.node {
            Some(node) => say_holder(node, user, out),
            None => out.extend_from_slice(b" down"),
        }
    }
}
