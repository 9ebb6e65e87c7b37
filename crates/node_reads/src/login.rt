//! How far a login has come.
ghost use Rattle.std.specs.Prelude.{◌≡◌, true, [], List, Some, None, map, nat_eq, IfOk, OnOk, OnErr, if◌then◌else◌};
ghost use Rattle.std.specs.Option.{option_copied};
ghost use Rattle.mail_base.specs.Bodies.{word_seen};
ghost use Rattle.object_model.specs.Letters as plain;
ghost use Rattle.object_model.specs.Mishaps as befell;
ghost use Rattle.object_model.specs.Letters.LoginWord.{Named as NamedNodes};
ghost use Rattle.login_model.specs.Readings.LoginStage.{AsksManager};
ghost use Rattle.login_model.specs.Rules as rules;
ghost use Rattle.login_model.specs.Rules.{take_word, word_at, list_at, fail, login_befell, given_up};
ghost use Rattle.login_model.specs.Progress.{login_ask, login_chances};
ghost use Rattle.login_model.specs.Progress.ReadAnswer.{Denies};
ghost use Rattle.node_tickets.specs.Seen.{mishaps_seen};
ghost use Rattle.told_lists.specs.Joining.{login_item};
ghost use Rattle.node_reads.specs.Asking.{AnswersAs, DoneAs, StageLists, pending_of};
ghost use Rattle.node_reads.specs.Readings.{listed, login_did, asks_manager, login_waits, may_hold_lock};
ghost use Rattle.node_reads.specs.LoginStages.{denial_seen, login_stage_seen};

use crate::letters::{ask_lists, no_letters, unlock};
use crate::lists::NamedLists;
use crate::nodes::others;
use crate::under::Under;
use call_tickets::{Answer, Ask, Mishaps};
use mail_base::{
    EpochId, Items, Letter, LoginWord, Name, NodeNo, NodeSet, Sequence, Stamp, Ticket, ToldItem,
};
use std::alloc::{AllocError, Global};
use std::marker::Model;

/// Why a manager did not let a login in.
#[derive(Clone, Copy, Debug)]
pub(crate) enum Denial {
    /// The proof is not right by the profile of this stamp.
    Wrong(Stamp),
    /// Another login has the maildrop.
    InUse(Ticket),
    /// The manager has no profile of the user.
    NoProfile,
}

/// How far a login has come. It asks the manager, which names nodes or does not let it in; then it asks these nodes. Where one
/// that it waits for fails, it has failed.
#[derive(Drop)]
pub(crate) enum LoginStage {
    AsksManager,
    IsDenied(Denial),
    AsksNodes(NamedLists),
    HasFailed,
}

/// A login: its user, the user's manager, and how far it has come. A contract sees no more.
#[derive(Drop)]
pub(crate) struct Login {
    user: Name,
    // a copy of the name, so that to fail takes no memory
    spare: Option<Name>,
    manager: NodeNo,
    stage: LoginStage,
}

impl Model for Login {
    ghost use Rattle.login_model.specs.Readings.{Login as Seen};
    ghost use Rattle.node_reads.specs.LoginStages.{login_stage_seen};
    ghost use Rattle.node_reads.specs.Readings.{HasSpare};

    ghost Value = { Seen };

    ghost view = { λ l. record { user = l.user; manager = l.manager; stage = login_stage_seen l.stage } };

    ghost invariant = { λ l. HasSpare (login_stage_seen l.stage) l.user l.spare };
}

// Why a login was not let in, as its answer.
fn denied(denial: &Denial, manager: NodeNo) -> Answer
    ensures { (number : plain.Number) → AnswersAs number (Denies manager (denial_seen denial.now)) result }
{
    match denial {
        Denial::Wrong(stamp) => Answer::Wrong { stamp: *stamp },
        Denial::InUse(by) => Answer::InUse { by: *by },
        Denial::NoProfile => Answer::NoProfile { manager },
    }
}

impl Login {
    /// A login that asks the manager.
    ///
    /// # Errors
    ///
    /// Out of memory alone.
    pub(crate) fn new(user: Name, manager: NodeNo) -> Result<Login, AllocError>
        ensures { IfOk result (λ login. login ≡ record { user = user; manager = manager; stage = AsksManager }) }
    {
        let spare = Some(user.copy()?);
        Ok(Login {
            user,
            spare,
            manager,
            stage: LoginStage::AsksManager,
        })
    }

    /// Its user.
    pub(crate) fn user(&self) -> &Name
        ensures { result.now ≡ self.now.user }
    {
        &self.user
    }

    // Its user, where this node is its manager.
    fn managed_user(&self, own: NodeNo) -> Option<&Name>
        ensures { option_copied result ≡ (if nat_eq self.now.manager own then Some self.now.user else None) }
    {
        if self.manager == own {
            Some(&self.user)
        } else {
            None
        }
    }

    /// Its user, where this node is its manager and a mishap at that one makes it fail.
    pub(crate) fn user_befallen(&self, own: NodeNo, at: NodeNo) -> Option<&Name>
        ensures { option_copied result ≡ (if login_waits at self.now self.now.stage then (if nat_eq self.now.manager own then Some self.now.user else None) else None) }
    {
        if !self.waits_for(at) {
            return None;
        }
        self.managed_user(own)
    }

    /// Its user, where this node is its manager and may have given it a lock.
    pub(crate) fn user_held(&self, own: NodeNo) -> Option<&Name>
        ensures { option_copied result ≡ (if may_hold_lock self.now.stage then (if nat_eq self.now.manager own then Some self.now.user else None) else None) }
    {
        if !self.may_hold_lock() {
            return None;
        }
        self.managed_user(own)
    }

    /// How many letters mishaps may still send for it.
    pub(crate) fn chances(&self) -> u32
        ensures { result ≡ login_chances self.now.stage }
    {
        match &self.stage {
            LoginStage::AsksManager => 1,
            LoginStage::IsDenied(_) => 0,
            LoginStage::AsksNodes(_) => 1,
            LoginStage::HasFailed => 0,
        }
    }

    // The manager lets it in: the nodes that it names are asked, and the own node tells its list at once.
    fn let_in(
        &mut self,
        alloc: Global,
        u: &Under,
        named: NodeSet,
        mine: Sequence<ToldItem>,
    ) -> Result<Sequence<Letter>, AllocError>
        requires { may_hold_lock self.old.stage ≡ true }
        ensures ok { IfOk result (λ letters. login_did self.new letters ≡ take_word u.now self.old mine (NamedNodes named)) }
        ensures err { OnErr result (self.new ≡ self.old) }
    {
        let to = others(alloc, u.own, named)?;
        let letters = ask_lists(alloc, u, &to, &self.user)?;
        let lists = NamedLists::of(alloc, u.own, named, mine)?;
        self.stage = LoginStage::AsksNodes(lists);
        Ok(letters)
    }

    // The manager does not let it in.
    fn deny(&mut self, denial: Denial)
        ensures { (u : rules.Under) (mine : List plain.ToldItem) → login_did self.new [] ≡ take_word u self.old mine (denial_seen denial) }
    {
        self.stage = LoginStage::IsDenied(denial);
    }

    /// What its manager told is taken, by a login that has not failed and was not denied.
    ///
    /// # Errors
    ///
    /// Out of memory alone; all is then as before.
    pub(crate) fn take_word(
        &mut self,
        alloc: Global,
        u: &Under,
        word: LoginWord,
        mine: Sequence<ToldItem>,
    ) -> Result<Sequence<Letter>, AllocError>
        requires { may_hold_lock self.old.stage ≡ true }
        ensures ok { IfOk result (λ letters. login_did self.new letters ≡ take_word u.now self.old mine (word_seen word)) }
        ensures err { OnErr result (self.new ≡ self.old) }
    {
        match word {
            LoginWord::Named(named) => return self.let_in(alloc, u, named, mine),
            LoginWord::Wrong(stamp) => self.deny(Denial::Wrong(stamp)),
            LoginWord::InUse(by) => self.deny(Denial::InUse(by)),
            LoginWord::NoProfile => self.deny(Denial::NoProfile),
        }
        Ok(no_letters(alloc))
    }

    // Whether it asks this manager.
    fn asks_manager(&self, from: NodeNo) -> bool
        ensures { result ≡ asks_manager from self.now self.now.stage }
    {
        match &self.stage {
            LoginStage::AsksManager => from == self.manager,
            LoginStage::IsDenied(_) => false,
            LoginStage::AsksNodes(_) => false,
            LoginStage::HasFailed => false,
        }
    }

    /// The word of a manager is heard while that one is asked; the first counts.
    ///
    /// # Errors
    ///
    /// Out of memory alone; all is then as before.
    #[tactic(auto, using(crate::proofs::Stages::word_is, crate::proofs::Stages::asks_may_hold))]
    pub(crate) fn hear_word(
        &mut self,
        alloc: Global,
        u: &Under,
        from: NodeNo,
        word: LoginWord,
        mine: Sequence<ToldItem>,
    ) -> Result<Sequence<Letter>, AllocError>
        ensures ok { IfOk result (λ letters. login_did self.new letters ≡ word_at u.now from self.old mine (word_seen word) self.old.stage) }
        ensures err { OnErr result (self.new ≡ self.old) }
    {
        if !self.asks_manager(from) {
            return Ok(no_letters(alloc));
        }
        self.take_word(alloc, u, word, mine)
    }

    /// A list is heard from a node that is waited for; the first of each node counts. It is moved.
    ///
    /// # Errors
    ///
    /// Out of memory alone; all is then as before.
    pub(crate) fn hear_list(
        &mut self,
        from: NodeNo,
        items: Sequence<ToldItem>,
    ) -> Result<(), AllocError>
        ensures ok { OnOk result (login_did self.new [] ≡ list_at from self.old items self.old.stage) }
        ensures err { OnErr result (self.new ≡ self.old) }
    {
        match &mut self.stage {
            LoginStage::AsksManager => Ok(()),
            LoginStage::IsDenied(_) => Ok(()),
            LoginStage::AsksNodes(lists) => lists.tell(from, items),
            LoginStage::HasFailed => Ok(()),
        }
    }

    // Whether it waits for the node.
    fn waits_for(&self, at: NodeNo) -> bool
        ensures { result ≡ login_waits at self.now self.now.stage }
    {
        match &self.stage {
            LoginStage::AsksManager => at == self.manager,
            LoginStage::IsDenied(_) => false,
            LoginStage::AsksNodes(lists) => lists.waiting().has(at),
            LoginStage::HasFailed => false,
        }
    }

    // It fails, and its manager gets the lock back. It takes no memory.
    #[tactic(auto, using(crate::proofs::Stages::spare_is))]
    fn fail(&mut self, u: &Under) -> Option<Letter>
        requires { may_hold_lock self.old.stage ≡ true }
        ensures { login_did self.new (listed result) ≡ fail u.now self.old }
    {
        let spare = self.spare.take();
        self.stage = LoginStage::HasFailed;
        match spare {
            Some(user) => unlock(u, user, self.manager),
            None => unreachable!(),
        }
    }

    /// A mishap at a node: the login fails, where it waits for the node. It takes no memory.
    #[tactic(auto, using(crate::proofs::Stages::login_befell_is, crate::proofs::Stages::waits_may_hold))]
    pub(crate) fn befell(&mut self, u: &Under, at: NodeNo) -> Option<Letter>
        ensures { login_did self.new (listed result) ≡ login_befell u.now at self.old self.old.stage }
    {
        if !self.waits_for(at) {
            return None;
        }
        self.fail(u)
    }

    // Whether its manager may have given it a lock.
    fn may_hold_lock(&self) -> bool
        ensures { result ≡ may_hold_lock self.now.stage }
    {
        match &self.stage {
            LoginStage::AsksManager => true,
            LoginStage::IsDenied(_) => false,
            LoginStage::AsksNodes(_) => true,
            LoginStage::HasFailed => false,
        }
    }

    /// It is given up: its manager gets the lock back, unless that was told so already or let nobody in. It takes no memory.
    #[tactic(auto, using(crate::proofs::Stages::given_up_is))]
    pub(crate) fn give_up(self, u: &Under) -> Option<Letter>
        ensures { listed result ≡ given_up u.now self self.stage }
    {
        if !self.may_hold_lock() {
            return None;
        }
        unlock(u, self.user, self.manager)
    }

    /// How far it has come; nothing exactly where it is done.
    pub(crate) fn pending(&self) -> Option<Ask>
        ensures { (mishaps : befell.Mishaps) → result ≡ pending_of (login_ask self.now mishaps self.now.stage) }
    {
        match &self.stage {
            LoginStage::AsksManager => Some(Ask::Pending { got: 0, wanted: 1 }),
            LoginStage::IsDenied(_) => None,
            LoginStage::AsksNodes(lists) => lists.pending(),
            LoginStage::HasFailed => None,
        }
    }

    /// What was told, joined; no messages where no node is asked.
    ///
    /// # Errors
    ///
    /// Out of memory alone.
    pub(crate) fn listing(&self, alloc: Global) -> Result<Items, AllocError>
        ensures { IfOk result (λ items. StageLists self.now.stage (map login_item items)) }
    {
        match &self.stage {
            LoginStage::AsksManager => Ok(Items::new(alloc)),
            LoginStage::IsDenied(_) => Ok(Items::new(alloc)),
            LoginStage::AsksNodes(lists) => lists.joined(alloc),
            LoginStage::HasFailed => Ok(Items::new(alloc)),
        }
    }

    /// The answer to a login that is done, with its listing, which is moved. It takes no memory.
    pub(crate) fn answer(&self, number: Ticket, mishaps: Mishaps, items: Items) -> Answer
        requires done { pending_of (login_ask self.now (mishaps_seen mishaps) self.now.stage) ≡ None }
        requires listing { StageLists self.now.stage (map login_item items) }
        ensures { DoneAs number (login_ask self.now (mishaps_seen mishaps) self.now.stage) result }
    {
        match &self.stage {
            LoginStage::AsksManager => unreachable!(),
            LoginStage::IsDenied(denial) => denied(denial, self.manager),
            LoginStage::AsksNodes(lists) => Answer::Listed {
                login: number,
                manager: self.manager,
                asked: lists.named(),
                items,
            },
            LoginStage::HasFailed => Answer::Failed(mishaps),
        }
    }
}
