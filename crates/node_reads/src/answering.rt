//! What a node answers to the letters of calls that read at other nodes, and the end of a login.
ghost use Rattle.std.specs.Prelude.{◌≡◌, ◌∷◌, [], if◌then◌else◌};
ghost use Rattle.std.specs.FinMap as fin;
ghost use Rattle.mail_model.specs.Plan.{Plan as PlainPlan, is_right_by};
ghost use Rattle.mail_base.specs.Bodies.{proof_seen, word_seen, part_seen};
ghost use Rattle.object_model.specs.Letters.LoginWord.{Named as NamedNodes, Wrong as WrongProof};
ghost use Rattle.object_model.specs.Letters.Body.{LoginTold, ListTold, FetchTold};
ghost use Rattle.login_model.specs.Cluster.{Node};
ghost use Rattle.login_model.specs.Rules.{answering, judge, leave, first_stamp};
ghost use Rattle.node_reads.specs.Readings.{listed};

use crate::letters::{answer, unlock};
use crate::under::Under;
use mail_base::{
    Body, EpochId, Letter, LoginWord, Name, NodeNo, NodeSet, Proof, Sequence, Stamp, Ticket,
    ToldItem, ToldPart, Users,
};

/// Whether the proof is right by the secret that the plan has of the user. It takes no memory.
pub fn opens(users: &Users, user: &Name, proof: &Proof) -> bool
    ensures { result ≡ is_right_by (fin.get users.now user.now) (proof_seen proof.now) }
{
    match users.secret(user) {
        Some(secret) => proof.is_right(secret),
        None => false,
    }
}

// The word of a manager, once the proof was judged.
fn word_of(opened: bool, named: NodeSet) -> LoginWord
    ensures { word_seen result ≡ (if opened then NamedNodes named else WrongProof first_stamp) }
{
    if opened {
        LoginWord::Named(named)
    } else {
        // No node made the secrets of the plan.
        LoginWord::Wrong(Stamp::new(0, 0, 0))
    }
}

/// The word of a user's manager: where the proof is right by the secret that the plan has of the user, the nodes that it names of
/// the user, and else that it is wrong, with the stamp 0.0.0 of the plan's secrets. It takes no memory.
pub fn judge(users: &Users, user: &Name, proof: &Proof, named: NodeSet) -> LoginWord
    ensures { (plan : PlainPlan) (node : Node) → users.now ≡ plan.users → node.named user.now ≡ named → judge plan node user.now (proof_seen proof.now) ≡ word_seen result }
{
    word_of(opens(users, user, proof), named)
}

/// The manager answers a LoginAsk with its word. It takes no memory.
pub fn answer_login(letter: &Letter, word: LoginWord) -> Letter
    ensures { (node : Node) → answering node letter.now (LoginTold (word_seen word)) ≡ record { node = node; out = result ∷ [] } }
{
    answer(letter, Body::LoginTold { word })
}

/// A node answers a ListAsk with the messages of the user that are here. The list is moved. It takes no memory.
pub fn answer_list(letter: &Letter, items: Sequence<ToldItem>) -> Letter
    ensures { (node : Node) → answering node letter.now (ListTold items) ≡ record { node = node; out = result ∷ [] } }
{
    answer(letter, Body::ListTold { items })
}

/// A holder answers a FetchAsk with octets of the message, or that the message is gone. The part is moved. It takes no memory.
pub fn answer_fetch(letter: &Letter, part: ToldPart) -> Letter
    ensures { (node : Node) → answering node letter.now (FetchTold (part_seen part)) ≡ record { node = node; out = result ∷ [] } }
{
    answer(letter, Body::FetchTold { part })
}

/// A session of this login has ended: its manager gets the lock back, by a letter unless that is the own node. It has no ticket, and
/// takes no memory.
pub fn leave(
    own: NodeNo,
    epoch: EpochId,
    user: Name,
    login: Ticket,
    manager: NodeNo,
) -> Option<Letter>
    ensures { (node : Node) → node.epoch ≡ epoch → leave own node user login manager ≡ record { node = node; out = listed result } }
{
    let u = Under {
        own,
        epoch,
        number: login,
    };
    unlock(&u, user, manager)
}
