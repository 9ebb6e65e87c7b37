//! What a node does for logins as the manager of a user: it judges, and keeps the lock of the maildrop.
ghost use Rattle.std.specs.Prelude.{◌≡◌, ℕ, List, true, not, is_some, IfOk, OnErr};
ghost use Rattle.std.specs.FinMap as fin;
ghost use Rattle.mail_model.specs.Plan.{Plan as PlainPlan, Proof as PlainProof};
ghost use Rattle.mail_model.specs.Record.{Record};
ghost use Rattle.object_model.specs.Sets.{has};
ghost use Rattle.object_model.specs.Locks.{Held, holder_beside};
ghost use Rattle.object_model.specs.Letters.LoginWord.{Named as NamedNodes};
ghost use Rattle.mail_base.specs.Bodies.{proof_seen, word_seen};
ghost use Rattle.login_model.specs.Cluster as login;
ghost use Rattle.login_model.specs.Facts.{IsToldList};
ghost use Rattle.joint_world.specs.Rules.{Judged, judged, judged_beside};
ghost use Rattle.node_core.specs.Nodes.{NodeKeeps};

use drop_lock::Locks;
use mail_base::{
    LoginWord, Name, NodeNo, NodeSet, Proof, Sequence, Stamp, Ticket, ToldItem, Users,
};
use node_core::Node;
use node_reads::opens;
use std::alloc::{AllocError, Global};

// The ticket that holds the lock, where it is another one.
fn held_beside(locks: &Locks, user: &Name, ticket: Ticket) -> Option<Ticket>
    ensures { result ≡ holder_beside user.now ticket locks.now }
{
    match locks.holder(user) {
        Some(by) => { if by == ticket { None } else { Some(by) } }
        None => None,
    }
}

// The login takes the lock, or another one has it.
fn word_beside(
    named: NodeSet,
    user: &Name,
    ticket: Ticket,
    locks: &mut Locks,
) -> Result<LoginWord, AllocError>
    ensures ok { IfOk result (λ word. (node : login.Node) → node.named user.now ≡ named → judged_beside node user.now ticket locks.old (holder_beside user.now ticket locks.old) ≡ record { word = word_seen word; locks = locks.new }) }
    ensures err { OnErr result (locks.new ≡ locks.old) }
{
    if let Some(by) = held_beside(locks, user, ticket) {
        return Ok(LoginWord::InUse(by));
    }
    if locks.take(user, ticket).is_err() {
        return Err(AllocError);
    }
    Ok(LoginWord::Named(named))
}

/// The word of a manager, and the lock that it leaves: where the proof is right and no other login has the maildrop, this one takes
/// its lock.
///
/// # Errors
///
/// Out of memory alone; the locks are then as before.
pub(crate) fn judge_for(
    users: &Users,
    named: NodeSet,
    user: &Name,
    proof: &Proof,
    ticket: Ticket,
    locks: &mut Locks,
) -> Result<LoginWord, AllocError>
    ensures ok { IfOk result (λ word. (plan : PlainPlan) (node : login.Node) → users.now ≡ plan.users → node.named user.now ≡ named → judged plan node user.now (proof_seen proof.now) ticket locks.old ≡ record { word = word_seen word; locks = locks.new }) }
    ensures err { OnErr result (locks.new ≡ locks.old) }
{
    if !opens(users, user, proof) {
        // No node made the secrets of the plan.
        return Ok(LoginWord::Wrong(Stamp::new(0, 0, 0)));
    }
    word_beside(named, user, ticket, locks)
}

/// Whether nobody has the lock.
pub(crate) fn is_free(locks: &Locks, user: &Name) -> bool
    ensures { result ≡ not (is_some (fin.get locks.now user.now)) }
{
    locks.holder(user).is_none()
}

/// A lock that was free before a login was judged is let go again.
pub(crate) fn give_back(locks: &mut Locks, user: &Name, ticket: Ticket, was_free: bool)
    ensures { (plan : PlainPlan) (node : login.Node) (proof : PlainProof) (before : Held) → was_free ≡ not (is_some (fin.get before user.now)) → (judged plan node user.now proof ticket before).locks ≡ locks.old → locks.new ≡ before }
{
    if was_free {
        locks.release(user, ticket);
    }
}

// Whether the word names the node.
fn names(word: &LoginWord, own: NodeNo) -> bool
    ensures { (named : ℕ) → word_seen word.now ≡ NamedNodes named → result ≡ has named own }
{
    match word {
        LoginWord::Named(named) => named.has(own),
        LoginWord::Wrong(_) => false,
        LoginWord::InUse(_) => false,
        LoginWord::NoProfile => false,
    }
}

/// The own list of the user, where the word names the own node.
///
/// # Errors
///
/// Out of memory alone.
pub(crate) fn own_list(
    alloc: Global,
    mail: &Node,
    user: &Name,
    word: &LoginWord,
) -> Result<Sequence<ToldItem>, AllocError>
    ensures { IfOk result (λ mine. (records : List Record) → NodeKeeps records mail.now → (named : ℕ) → word_seen word.now ≡ NamedNodes named → has named mail.now.store.own ≡ true → IsToldList user.now records mine) }
{
    if names(word, mail.own()) {
        return mail.told_list(alloc, user);
    }
    Ok(Sequence::new(alloc))
}
