// The letters of membership and maps, as a node hears them.
ghost use Rattle.std.specs.Prelude.{◌≡◌, ◌↔◌, ◌∷◌, [], IfOk, IsTrue};
ghost use Rattle.std.specs.Option.{option_copied};
ghost use Rattle.mail_model.specs.Identity.{no_epoch};
ghost use Rattle.object_model.specs.Letters.Body.{Group, Join, Install as InstallBody, Report, ReportAck};
ghost use Rattle.object_model.specs.Keys.{is_same_epoch};
ghost use Rattle.maps_model.specs.Cluster.{epoch_in, epoch_of};
ghost use Rattle.maps_model.specs.Rules.{letter_to, claims_in};
ghost use Rattle.node_maps.specs.Nodes.{node_of, own_of, is_within};
ghost use Rattle.node_maps.specs.Hearing.{group_answer, HearsBody, HearsAs, TellsOwnRow};

use crate::answer::{Answer, Refusal};
use crate::entering::copy_installed;
use crate::letters::{acknowledgement, no_letters, one_letter};
use crate::maps::NodeMaps;
use crate::opening::is_before;
use mail_base::{Body, Claim, EpochId, Letter, Member, Name, NodeNo, Row, Sequence, UserMap};
use membership::{GroupFault, Install};
use std::alloc::{AllocError, Global};

fn epoch_in(installed: Option<&Install>) -> EpochId
    ensures { result ≡ epoch_in (option_copied installed.entry) }
{
    match installed {
        Some(install) => install.epoch,
        None => EpochId::none(),
    }
}

fn is_same(a: EpochId, b: EpochId) -> bool
    ensures { result ≡ is_same_epoch a b }
{
    a.count == b.count && a.node == b.node
}

fn is_within(installed: Option<&Install>, epoch: EpochId) -> bool
    ensures { result ≡ is_within (option_copied installed.entry) epoch }
{
    match installed {
        Some(install) => is_same(install.epoch, epoch),
        None => false,
    }
}

/// Whether a letter, if it is a Report, tells the row of its sender.
pub fn tells_own_row(letter: &Letter) -> bool
    ensures { IsTrue result ↔ TellsOwnRow letter.now.from letter.now.body }
{
    match &letter.body {
        Body::Report { row } => row.node == letter.from,
        Body::File { .. }
        | Body::Filed { .. }
        | Body::LoginAsk { .. }
        | Body::LoginTold { .. }
        | Body::ListAsk { .. }
        | Body::ListTold { .. }
        | Body::FetchAsk { .. }
        | Body::FetchTold { .. }
        | Body::Strike { .. }
        | Body::StrikeTold { .. }
        | Body::Unlock { .. }
        | Body::Push { .. }
        | Body::PushAck { .. }
        | Body::Retired { .. }
        | Body::Group { .. }
        | Body::Join { .. }
        | Body::Install { .. }
        | Body::ReportAck { .. } => true,
    }
}

impl NodeMaps {
    // The Join of a node that has promised the epoch.
    fn join(
        &self,
        alloc: Global,
        to: NodeNo,
        epoch: EpochId,
    ) -> Result<Sequence<Letter>, AllocError>
        ensures { IfOk result (λ letters. letters ≡ letter_to (own_of self.now) (Join epoch epoch self.now.group.boot (epoch_of (node_of self.now)) (claims_in (own_of self.now) self.now.group.installed)) to ∷ []) }
    {
        let body = Body::Join {
            epoch,
            promise: epoch,
            boot: self.group.boot(),
            was: epoch_in(self.group.installed()),
            claims: self.group.claims(alloc)?,
        };
        one_letter(alloc, self.group.own(), body, to)
    }

    // The Join that tells of a greater promise.
    fn greater_promise(
        &self,
        alloc: Global,
        to: NodeNo,
        epoch: EpochId,
    ) -> Result<Sequence<Letter>, AllocError>
        ensures { IfOk result (λ letters. letters ≡ letter_to (own_of self.now) (Join epoch self.now.group.promise self.now.group.boot no_epoch []) to ∷ []) }
    {
        let body = Body::Join {
            epoch,
            promise: self.group.promise(),
            boot: self.group.boot(),
            was: EpochId::none(),
            claims: Sequence::new(alloc),
        };
        one_letter(alloc, self.group.own(), body, to)
    }

    // The answer to a Group. No claims are made for one that is old.
    fn group_answer(
        &self,
        alloc: Global,
        to: NodeNo,
        epoch: EpochId,
    ) -> Result<Sequence<Letter>, AllocError>
        ensures { IfOk result (λ letters. letters ≡ group_answer self.now to epoch) }
    {
        if is_before(epoch, self.group.promise()) {
            self.greater_promise(alloc, to, epoch)
        } else {
            self.join(alloc, to, epoch)
        }
    }

    fn hear_group(
        &mut self,
        alloc: Global,
        letter: &Letter,
        epoch: EpochId,
    ) -> Result<Answer, AllocError>
        ensures { HearsAs letter.now (Group epoch) result self.old self.new }
    {
        let told = self.group_answer(alloc, letter.from, epoch)?;
        match self.group.hear_group(epoch) {
            Ok(_rose) => Ok(Answer::heard(told)),
            Err(_) => Ok(Answer::thrown(told, Refusal::Old)),
        }
    }

    fn hear_join(
        &mut self,
        alloc: Global,
        letter: &Letter,
        epoch: EpochId,
        promise: EpochId,
        boot: u32,
        was: EpochId,
        claims: &[Claim],
    ) -> Result<Answer, AllocError>
        ensures { HearsAs letter.now (Join epoch promise boot was claims.now) result self.old self.new }
    {
        let member = Member::new(letter.from, boot, was);
        match self.group.hear_join(alloc, epoch, promise, member, claims) {
            Ok(()) => Ok(Answer::heard(no_letters(alloc))),
            Err(GroupFault::NotAGroup) => Ok(Answer::thrown(no_letters(alloc), Refusal::Late)),
            Err(GroupFault::NoMemory) => Err(AllocError),
            Err(GroupFault::OldEpoch) => unreachable!(),
            Err(GroupFault::NotMember) => unreachable!(),
            Err(GroupFault::NotPromised) => unreachable!(),
        }
    }

    fn hear_install(
        &mut self,
        alloc: Global,
        letter: &Letter,
        install: &Install,
    ) -> Result<Answer, AllocError>
        ensures { HearsAs letter.now (InstallBody install.now) result self.old self.new }
    {
        let before = copy_installed(&self.group)?;
        match self.group.hear_install(install) {
            Ok(()) => {
                self.enter(alloc, &before, install)?;
                Ok(Answer::heard(no_letters(alloc)))
            }
            Err(GroupFault::OldEpoch) => Ok(Answer::thrown(no_letters(alloc), Refusal::Old)),
            Err(GroupFault::NotPromised) => {
                Ok(Answer::thrown(no_letters(alloc), Refusal::NotPromised))
            }
            Err(GroupFault::NotMember) => Ok(Answer::thrown(no_letters(alloc), Refusal::NotMember)),
            Err(GroupFault::NoMemory) => Err(AllocError),
            Err(GroupFault::NotAGroup) => unreachable!(),
        }
    }

    fn hear_report(
        &mut self,
        alloc: Global,
        letter: &Letter,
        row: &Row,
    ) -> Result<Answer, AllocError>
        requires { row.now.node ≡ letter.now.from }
        ensures { HearsAs letter.now (Report row.now) result self.old self.new }
    {
        if !is_within(self.group.installed(), letter.epoch) {
            return Ok(Answer::thrown(no_letters(alloc), Refusal::Stale));
        }
        let letters = acknowledgement(alloc, letter, &row.user, row.version)?;
        self.rows.tell(row)?;
        Ok(Answer::heard(letters))
    }

    fn hear_ack(&mut self, alloc: Global, letter: &Letter, user: &Name, version: u64) -> Answer
        ensures { HearsBody self.old letter.now (ReportAck user.now version) result self.new }
    {
        if !is_within(self.group.installed(), letter.epoch) {
            return Answer::thrown(no_letters(alloc), Refusal::Stale);
        }
        self.reports.report_acknowledged(user, version);
        Answer::heard(no_letters(alloc))
    }

    /// Hears a letter of membership or maps that is for this node, or throws it. A letter of another kind changes nothing, and
    /// nothing is answered. The promise that it makes due (`promise_due`) is on the disk.
    ///
    /// # Errors
    ///
    /// Only out of memory. Of an Install nothing is then said, and the node has to go down; else it is as before.
    pub fn hear(&mut self, alloc: Global, letter: &Letter) -> Result<Answer, AllocError>
        requires { TellsOwnRow letter.now.from letter.now.body }
        ensures { HearsAs letter.now letter.now.body result self.old self.new }
    {
        match &letter.body {
            Body::Group { epoch } => self.hear_group(alloc, letter, *epoch),
            Body::Join {
                epoch,
                promise,
                boot,
                was,
                claims,
            } => self.hear_join(
                alloc,
                letter,
                *epoch,
                *promise,
                *boot,
                *was,
                claims.as_slice(),
            ),
            Body::Install {
                epoch,
                members,
                map,
            } => {
                let install = Install::new(*epoch, members.copy()?, map.copy()?);
                self.hear_install(alloc, letter, &install)
            }
            Body::Report { row } => self.hear_report(alloc, letter, row),
            Body::ReportAck { user, version } => Ok(self.hear_ack(alloc, letter, user, *version)),
            Body::File { .. }
            | Body::Filed { .. }
            | Body::LoginAsk { .. }
            | Body::LoginTold { .. }
            | Body::ListAsk { .. }
            | Body::ListTold { .. }
            | Body::FetchAsk { .. }
            | Body::FetchTold { .. }
            | Body::Strike { .. }
            | Body::StrikeTold { .. }
            | Body::Unlock { .. }
            | Body::Push { .. }
            | Body::PushAck { .. }
            | Body::Retired { .. } => Ok(Answer::heard(no_letters(alloc))),
        }
    }
}
