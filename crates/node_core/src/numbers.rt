//! The numbers that a node draws.
ghost use Rattle.std.specs.Prelude.{◌≡◌, ℕ, List, max, map};
ghost use Rattle.mail_model.specs.Identity.{Stamp};
ghost use Rattle.mail_base.specs.Bodies.{body_seen};
ghost use Rattle.mail_base.specs.Seen.{key_seen};
ghost use Rattle.cluster_model.specs.Rules.{greatest_named, drawn_past};
ghost use Rattle.cluster_model.specs.Store.{here_updates, gone_updates};
ghost use Rattle.cluster_model.specs.Thrown.{count_through, stamps_in};
ghost use Rattle.node_core.specs.Naming.{knowing_id};

use mail_base::{Body, Key, LoginWord, MsgId, Name, NodeNo, Row, StrikeMark, ToldItem, ToldPart};

/// The boot, and the greatest numbers that the node drew or knows of.
#[derive(Clone, Copy, Debug)]
pub(crate) struct Numbers {
    pub(crate) boot: u32,
    /// Of messages of this boot.
    pub(crate) drawn: u64,
    /// Of stamps.
    pub(crate) count: u64,
    /// Of tickets of this boot.
    pub(crate) calls: u64,
}

// The greatest count once the stamps of these messages are known.
fn through_items(count: u64, items: &[ToldItem]) -> u64
    ensures { result ≡ count_through count (map (λ item. item.stamp) items.now) }
{
    let mut greatest = count;
    for item in items {
        greatest = greatest.max(item.stamp.count);
    }
    greatest
}

fn through_marks(count: u64, marks: &[StrikeMark]) -> u64
    ensures { result ≡ count_through count (map (λ mark. mark.stamp) marks.now) }
{
    let mut greatest = count;
    for mark in marks {
        greatest = greatest.max(mark.stamp.count);
    }
    greatest
}

fn through_row(count: u64, row: &Row) -> u64
    ensures { result ≡ count_through count (stamps_in (body_seen (Body.Report row.now))) }
{
    match &row.profile {
        Some((stamp, _)) => count.max(stamp.count),
        None => count,
    }
}

fn through_word(count: u64, word: &LoginWord) -> u64
    ensures { result ≡ count_through count (stamps_in (body_seen (Body.LoginTold word.now))) }
{
    match word {
        LoginWord::Wrong(stamp) => count.max(stamp.count),
        LoginWord::Named(_) => count,
        LoginWord::InUse(_) => count,
        LoginWord::NoProfile => count,
    }
}

fn through_part(count: u64, part: &ToldPart) -> u64
    ensures { result ≡ count_through count (stamps_in (body_seen (Body.FetchTold part.now))) }
{
    match part {
        ToldPart::Gone { stamp } => count.max(stamp.count),
        ToldPart::Octets { .. } => count,
    }
}

// The greatest count once the stamps of a letter are known.
fn through_body(count: u64, body: &Body) -> u64
    ensures { result ≡ count_through count (stamps_in (body_seen body.now)) }
{
    match body {
        Body::File { stamp, .. } => count.max(stamp.count),
        Body::LoginTold { word } => through_word(count, word),
        Body::ListTold { items } => through_items(count, items.as_slice()),
        Body::FetchTold { part } => through_part(count, part),
        Body::Strike { marks, .. } => through_marks(count, marks.as_slice()),
        Body::Push { state, .. } => count.max(state.stamp.count),
        Body::PushAck { state, .. } => count.max(state.stamp.count),
        Body::Retired { state, .. } => count.max(state.stamp.count),
        Body::Report { row } => through_row(count, row),
        Body::Filed { .. }
        | Body::LoginAsk { .. }
        | Body::ListAsk { .. }
        | Body::FetchAsk { .. }
        | Body::StrikeTold { .. }
        | Body::Unlock { .. }
        | Body::Group { .. }
        | Body::Join { .. }
        | Body::Install { .. }
        | Body::ReportAck { .. } => count,
    }
}

impl Numbers {
    /// Knows the stamps of a letter.
    pub(crate) fn learn(&mut self, body: &Body)
        ensures { self.new ≡ record self.old { count = count_through self.old.count (stamps_in (body_seen body.now)) } }
    {
        self.count = through_body(self.count, body);
    }

    /// Knows of the message: where this node drew it in this boot, the next number is above it.
    pub(crate) fn know_id(&mut self, own: NodeNo, id: MsgId)
        ensures { self.new ≡ record self.old { drawn = knowing_id own self.old.boot self.old.drawn id } }
    {
        if id.node() == own && id.boot() == self.boot {
            self.drawn = self.drawn.max(id.seq());
        }
    }

    /// Knows of the message of which copies for these users are here.
    pub(crate) fn know_copies(&mut self, own: NodeNo, id: MsgId, users: &[Name])
        ensures { (stamp : Stamp) (targets : ℕ) → self.new ≡ record self.old { drawn = drawn_past own self.old.boot self.old.drawn (here_updates id stamp targets users.now) } }
    {
        for _user in users {
            self.know_id(own, id);
        }
    }

    /// Knows of the messages of these deletions.
    pub(crate) fn know_marks(&mut self, own: NodeNo, marks: &[StrikeMark])
        ensures { (user : List ℕ) (targets : ℕ) → self.new ≡ record self.old { drawn = drawn_past own self.old.boot self.old.drawn (gone_updates user targets marks.now) } }
    {
        for mark in marks {
            self.know_id(own, mark.id);
        }
    }

    /// Knows of the object.
    pub(crate) fn know_key(&mut self, own: NodeNo, key: &Key)
        ensures { self.new ≡ record self.old { drawn = max self.old.drawn (greatest_named own self.old.boot (key_seen key.now)) } }
    {
        match key {
            Key::Message(_, id) => self.know_id(own, *id),
            Key::Profile(_) => {}
        }
    }
}
