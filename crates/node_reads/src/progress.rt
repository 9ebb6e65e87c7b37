//! The ticket of a call that reads.
ghost use Rattle.std.specs.Prelude.{◌≡◌, List, [], Some, None, map, IfOk, OnOk, OnErr};
ghost use Rattle.std.specs.Option.{option_copied};
ghost use Rattle.mail_base.specs.Bodies.{word_seen, part_seen};
ghost use Rattle.object_model.specs.Letters as plain;
ghost use Rattle.object_model.specs.Letters.Body.{LoginTold, ListTold, FetchTold};
ghost use Rattle.object_model.specs.Mishaps.{no_mishaps};
ghost use Rattle.login_model.specs.Rules as rules;
ghost use Rattle.login_model.specs.Rules.{befell, give_up};
ghost use Rattle.login_model.specs.Progress.{ask_read, chances};
ghost use Rattle.told_lists.specs.Joining.{login_item};
ghost use Rattle.node_tickets.specs.Seen.{kind_of_mishap};
ghost use Rattle.node_reads.specs.Asking.{DoneAs, ReadingLists, pending_of, is_done, kind_of, user_befallen, user_held};
ghost use Rattle.node_reads.specs.Seen.{reading_seen};
ghost use Rattle.node_reads.specs.Readings.{listed, user_of_login};
ghost use Rattle.node_reads.specs.Tickets.{ticket_did, ticket_told, ticket_befell};

use crate::fetch::Fetch;
use crate::letters::no_letters;
use crate::login::Login;
use crate::mishaps::{count, none};
use crate::under::Under;
use call_tickets::{Answer, Ask, Mishaps};
use mail_base::{
    CallKind, Items, Letter, LoginWord, Name, NodeNo, Sequence, Ticket, ToldItem, ToldPart,
};
use node_tickets::MishapKind;
use std::alloc::{AllocError, Global};
use std::marker::Model;

/// A call that reads: a login, or a fetch of a part of a message.
#[derive(Drop)]
pub(crate) enum Reading {
    LogsIn(Login),
    Fetches(Fetch),
}

/// The ticket of a call that reads: how far the call has come, and what befell it.
#[derive(Drop)]
pub(crate) struct ReadProgress {
    reading: Reading,
    mishaps: Mishaps,
}

impl Model for ReadProgress {
    ghost use Rattle.login_model.specs.Readings.{ReadTicket};
    ghost use Rattle.node_tickets.specs.Seen.{mishaps_seen};
    ghost use Rattle.node_reads.specs.Seen.{reading_seen};

    ghost Value = { ReadTicket };

    ghost view = { λ p. record { reading = reading_seen p.reading; mishaps = mishaps_seen p.mishaps } };
}

impl ReadProgress {
    /// The ticket of a call that begins.
    pub(crate) fn new(reading: Reading) -> ReadProgress
        ensures { result ≡ record { reading = reading_seen reading; mishaps = no_mishaps } }
    {
        ReadProgress {
            reading,
            mishaps: none(),
        }
    }

    /// The user of a login.
    pub(crate) fn user_of_login(&self) -> Option<&Name>
        ensures { option_copied result ≡ user_of_login self.now.reading }
    {
        match &self.reading {
            Reading::LogsIn(login) => Some(login.user()),
            Reading::Fetches(_) => None,
        }
    }

    /// The user of a login that this node manages, where a mishap at that one makes it fail.
    pub(crate) fn user_befallen(&self, own: NodeNo, at: NodeNo) -> Option<&Name>
        ensures { option_copied result ≡ user_befallen own at self.now.reading }
    {
        match &self.reading {
            Reading::LogsIn(login) => login.user_befallen(own, at),
            Reading::Fetches(_) => None,
        }
    }

    /// The user of a login that this node manages, where it may have given the login a lock.
    pub(crate) fn user_held(&self, own: NodeNo) -> Option<&Name>
        ensures { option_copied result ≡ user_held own self.now.reading }
    {
        match &self.reading {
            Reading::LogsIn(login) => login.user_held(own),
            Reading::Fetches(_) => None,
        }
    }

    /// The kind of its call.
    pub(crate) fn kind(&self) -> CallKind
        ensures { result ≡ kind_of self.now.reading }
    {
        match &self.reading {
            Reading::LogsIn(_) => CallKind::Login,
            Reading::Fetches(_) => CallKind::Fetch,
        }
    }

    /// How many letters mishaps may still send for it.
    pub(crate) fn chances(&self) -> u32
        ensures { result ≡ chances self.now.reading }
    {
        match &self.reading {
            Reading::LogsIn(login) => login.chances(),
            Reading::Fetches(fetch) => fetch.chances(),
        }
    }

    /// The word of a manager answers it.
    ///
    /// # Errors
    ///
    /// Out of memory alone; the ticket is then as before.
    pub(crate) fn hear_word(
        &mut self,
        alloc: Global,
        u: &Under,
        from: NodeNo,
        word: LoginWord,
        mine: Sequence<ToldItem>,
    ) -> Result<Sequence<Letter>, AllocError>
        ensures ok { IfOk result (λ letters. record { ticket = self.new; out = letters } ≡ ticket_told u.now from mine (LoginTold (word_seen word)) self.old) }
        ensures err { OnErr result (self.new ≡ self.old) }
    {
        match &mut self.reading {
            Reading::LogsIn(login) => login.hear_word(alloc, u, from, word, mine),
            Reading::Fetches(_) => Ok(no_letters(alloc)),
        }
    }

    /// The list of a node answers it. It is moved.
    ///
    /// # Errors
    ///
    /// Out of memory alone; the ticket is then as before.
    pub(crate) fn hear_list(
        &mut self,
        from: NodeNo,
        items: Sequence<ToldItem>,
    ) -> Result<(), AllocError>
        ensures ok { OnOk result ((u : rules.Under) (mine : List plain.ToldItem) → record { ticket = self.new; out = [] } ≡ ticket_told u from mine (ListTold items) self.old) }
        ensures err { OnErr result (self.new ≡ self.old) }
    {
        match &mut self.reading {
            Reading::LogsIn(login) => login.hear_list(from, items),
            Reading::Fetches(_) => Ok(()),
        }
    }

    /// A part of a message answers it. It is moved. It takes no memory.
    pub(crate) fn hear_part(&mut self, from: NodeNo, part: ToldPart)
        ensures { (u : rules.Under) (mine : List plain.ToldItem) → record { ticket = self.new; out = [] } ≡ ticket_told u from mine (FetchTold (part_seen part)) self.old }
    {
        match &mut self.reading {
            Reading::LogsIn(_) => {}
            Reading::Fetches(fetch) => fetch.hear_part(from, part),
        }
    }

    // A mishap at a node befalls the call.
    fn fail(&mut self, u: &Under, at: NodeNo) -> Option<Letter>
        ensures { record { ticket = self.new; out = listed result } ≡ ticket_did self.old.mishaps (befell u.now at self.old.reading) }
    {
        match &mut self.reading {
            Reading::LogsIn(login) => login.befell(u, at),
            Reading::Fetches(fetch) => fetch.befell(u, at),
        }
    }

    /// A mishap is counted; a login that waits for the node fails, and a fetch that does asks the next holder. It takes no memory.
    pub(crate) fn befell(&mut self, u: &Under, kind: MishapKind, at: NodeNo) -> Option<Letter>
        ensures { record { ticket = self.new; out = listed result } ≡ ticket_befell u.now (kind_of_mishap kind) at self.old }
    {
        let letter = self.fail(u, at);
        count(&mut self.mishaps, kind);
        letter
    }

    /// It is given up. It takes no memory.
    pub(crate) fn give_up(self, u: &Under) -> Option<Letter>
        ensures { listed result ≡ give_up u.now self.reading }
    {
        match self.reading {
            Reading::LogsIn(login) => login.give_up(u),
            Reading::Fetches(_) => None,
        }
    }

    /// How far the call has come; nothing exactly where it is done.
    pub(crate) fn pending(&self) -> Option<Ask>
        ensures { result ≡ pending_of (ask_read self.now self.now.reading) }
    {
        match &self.reading {
            Reading::LogsIn(login) => login.pending(),
            Reading::Fetches(fetch) => fetch.pending(),
        }
    }

    /// Whether the call is done.
    pub(crate) fn is_done(&self) -> bool
        ensures { result ≡ is_done self.now }
    {
        !self.pending().is_some()
    }

    /// The listing of a login; no messages where the call is none.
    ///
    /// # Errors
    ///
    /// Out of memory alone.
    pub(crate) fn listing(&self, alloc: Global) -> Result<Items, AllocError>
        ensures { IfOk result (λ items. ReadingLists self.now.reading (map login_item items)) }
    {
        match &self.reading {
            Reading::LogsIn(login) => login.listing(alloc),
            Reading::Fetches(_) => Ok(Items::new(alloc)),
        }
    }

    /// The answer to a call that is done, with its listing, which is moved. It takes no memory.
    pub(crate) fn into_answer(self, number: Ticket, items: Items) -> Answer
        requires done { pending_of (ask_read self self.reading) ≡ None }
        requires listing { ReadingLists self.reading (map login_item items) }
        ensures { DoneAs number (ask_read self self.reading) result }
    {
        let ReadProgress { reading, mishaps } = self;
        match reading {
            Reading::LogsIn(login) => login.answer(number, mishaps, items),
            Reading::Fetches(fetch) => fetch.into_answer(mishaps),
        }
    }
}
