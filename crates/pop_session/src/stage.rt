// What a line leads to, by what its session has been told.
ghost use Rattle.std.specs.Prelude.{◌≡◌, ◌++◌, List, ℕ, Option, Ok, flat_map, codes, true, false, IfOk, OnOk, OnErr};
ghost use Rattle.mail_model.specs.Lines.{sent_line};
ghost use Rattle.mail_model.specs.Session.{is_long_line};
ghost use Rattle.mail_model.specs.Maildrop.{says_line, bad_order, outcome_of_quit, no_such_message, retr_outcome, dele_outcome, quit_outcome, login_outcome, pass_outcome, before_login, behind_login, list_outcome, uidl_outcome, command_outcome, named_by, marked_by};
ghost use Rattle.mail_model.specs.Names.{is_name, lower};
ghost use Rattle.mail_model.specs.Maildrop.Given.{ByDigest};
ghost use Rattle.mail_model.specs.Pop.{lines_asked};
ghost use Rattle.session_model.specs.Calls.{given_of};
ghost use Rattle.mail_base.specs.Bodies.{proof_seen};
ghost use Rattle.pop_wire.specs.Seen.{seen, command_seen, IsWithinLimits};
ghost use Rattle.pop_session.specs.declared.listing.Slot.{Slot as Slots};
ghost use Rattle.pop_session.specs.Banners.{banner_seen, HasBanner};
ghost use Rattle.pop_session.specs.Slots.{slots_seen, items_of_slots};
ghost use Rattle.pop_session.specs.Shown.{stage_of, outcome_of_heard, reply_in, told_by_line, told_long, login_in, listed_in, name_in, slots_in, IsOwn, AsksSo, HearsLine};

use crate::banner::Banner;
use crate::listing::Listing;
use crate::reply::Reply;
use mail_base::{Item, Items, Name, NodeNo, Octets, Plan, Proof, Ticket};
use pop_wire::{PopCommand, PopFault, read_command};
use std::alloc::{AllocError, Global};

/// By what a session was let in.
#[derive(Debug, Drop)]
pub(crate) struct Login {
    /// Whose maildrop it reads.
    pub(crate) user: Name,
    /// By which the login is known.
    pub(crate) ticket: Ticket,
    /// The node that manages it.
    pub(crate) manager: NodeNo,
}

/// What a session has been told.
#[derive(Debug, Drop)]
pub(crate) enum Stage {
    /// Before the login (RFC 1939, section 4): the user whom a good USER named, where its line was the
    /// last.
    Authorization { user: Option<Name> },
    /// After it (RFC 1939, section 5): the login, and the messages of the maildrop, with which of them are
    /// marked.
    Transaction { login: Login, listing: Listing },
}

/// What a line leads to.
#[derive(Debug, Drop)]
pub(crate) enum Heard {
    /// Its reply.
    Said(Reply),
    /// Its reply, which ends the session.
    Ended(Reply),
    /// The node is asked whether this proves to be the user.
    LogsIn {
        /// The user.
        user: Name,
        /// The same name, which the session keeps until the answer.
        kept: Name,
        /// What was given.
        proof: Proof,
    },
    /// The node is asked for this message of the user, of this number; the reply shows all of it, or so many
    /// lines behind its header.
    Fetches {
        user: Name,
        number: u32,
        lines: Option<u32>,
        item: Item,
    },
    /// The node is asked to delete these messages of the user, of which there is one at least, in the order of
    /// the listing.
    Deletes {
        user: Name,
        items: Items,
    },
}

// A reply of one line.
fn said(alloc: Global, text: &[u8]) -> Result<Heard, AllocError>
    ensures outcome { IfOk result (λ heard. outcome_of_heard heard ≡ says_line text.now) }
    ensures own { (banner name : List ℕ) (slots : List Slots) → IfOk result (λ heard. IsOwn banner name slots heard) }
    ensures asks { (asked : Option ℕ) → IfOk result (λ heard. AsksSo heard asked) }
{
    Ok(Heard::Said(Reply::said(alloc, text)?))
}

// The command is none that may come now.
fn bad_order(alloc: Global) -> Result<Heard, AllocError>
    ensures outcome { IfOk result (λ heard. outcome_of_heard heard ≡ bad_order) }
    ensures own { (banner name : List ℕ) (slots : List Slots) → IfOk result (λ heard. IsOwn banner name slots heard) }
    ensures asks { (asked : Option ℕ) → IfOk result (λ heard. AsksSo heard asked) }
{
    said(alloc, b"-ERR bad order")
}

// To QUIT with nothing to delete (RFC 1939, sections 4 and 6).
fn farewell(alloc: Global) -> Result<Heard, AllocError>
    ensures outcome { IfOk result (λ heard. outcome_of_heard heard ≡ outcome_of_quit) }
    ensures own { (banner name : List ℕ) (slots : List Slots) → IfOk result (λ heard. IsOwn banner name slots heard) }
    ensures asks { (asked : Option ℕ) → IfOk result (λ heard. AsksSo heard asked) }
{
    Ok(Heard::Ended(Reply::said(alloc, b"+OK bye")?))
}

// The login of this user, where it is one of the plan, by this proof.
fn ask_login(alloc: Global, plan: &Plan, user: &Name, proof: Proof) -> Result<Heard, AllocError>
    ensures outcome { IfOk result (λ heard. outcome_of_heard heard ≡ login_outcome plan.now user.now (given_of (proof_seen proof))) }
    ensures own { (banner name : List ℕ) (slots : List Slots) → HasBanner banner proof → IfOk result (λ heard. IsOwn banner name slots heard) }
    ensures asks { (asked : Option ℕ) → IfOk result (λ heard. AsksSo heard asked) }
{
    if !plan.users.has(user) {
        return said(alloc, b"-ERR name or secret is wrong");
    }
    Ok(Heard::LogsIn {
        user: user.copy()?,
        kept: user.copy()?,
        proof,
    })
}

// PASS (RFC 1939, section 7).
fn log_in(
    user: &Option<Name>,
    alloc: Global,
    plan: &Plan,
    secret: &[u8],
) -> Result<Heard, AllocError>
    ensures outcome { IfOk result (λ heard. outcome_of_heard heard ≡ pass_outcome plan.now user.now secret.now) }
    ensures own { (banner name : List ℕ) (slots : List Slots) → IfOk result (λ heard. IsOwn banner name slots heard) }
    ensures asks { (asked : Option ℕ) → IfOk result (λ heard. AsksSo heard asked) }
{
    let Some(user) = user else {
        return bad_order(alloc);
    };
    let secret = Octets::from_vec(secret.to_vec(alloc)?);
    ask_login(alloc, plan, user, Proof::Pass(secret))
}

// APOP (RFC 1939, section 7).
fn log_in_by_digest(
    banner: &Banner,
    alloc: Global,
    plan: &Plan,
    name: &[u8],
    digest: [u8; 16],
) -> Result<Heard, AllocError>
    ensures outcome { is_name name.now ≡ true → IfOk result (λ heard. outcome_of_heard heard ≡ login_outcome plan.now (lower name.now) (ByDigest digest)) }
    ensures own { (name : List ℕ) (slots : List Slots) → IfOk result (λ heard. IsOwn (banner_seen banner.now) name slots heard) }
    ensures asks { (asked : Option ℕ) → IfOk result (λ heard. AsksSo heard asked) }
{
    let Some(user) = Name::spelt(alloc, name)? else {
        return said(alloc, b"-ERR name or secret is wrong");
    };
    let banner = Octets::from_vec(banner.text(alloc)?);
    ask_login(alloc, plan, &user, Proof::Apop { banner, digest })
}

// A command before the login.
fn authorize(
    user: &Option<Name>,
    banner: &Banner,
    alloc: Global,
    plan: &Plan,
    command: &PopCommand<'_>,
) -> Result<Heard, AllocError>
    ensures outcome { IsWithinLimits command.now → IfOk result (λ heard. outcome_of_heard heard ≡ before_login plan.now user.now (command_seen command.now)) }
    ensures own { (name : List ℕ) (slots : List Slots) → IfOk result (λ heard. IsOwn (banner_seen banner.now) name slots heard) }
    ensures asks { IfOk result (λ heard. AsksSo heard (lines_asked (Ok (command_seen command.now)))) }
{
    match command {
        PopCommand::User { .. } => said(alloc, b"+OK send PASS"),
        PopCommand::Pass { secret } => log_in(user, alloc, plan, secret),
        PopCommand::Apop { name, digest } => log_in_by_digest(banner, alloc, plan, name, *digest),
        PopCommand::Stat => bad_order(alloc),
        PopCommand::List { .. } => bad_order(alloc),
        PopCommand::Uidl { .. } => bad_order(alloc),
        PopCommand::Retr { .. } => bad_order(alloc),
        PopCommand::Dele { .. } => bad_order(alloc),
        PopCommand::Top { .. } => bad_order(alloc),
        PopCommand::Noop => bad_order(alloc),
        PopCommand::Rset => bad_order(alloc),
        PopCommand::Quit => farewell(alloc),
        PopCommand::Capa => Ok(Heard::Said(Reply::capabilities(alloc)?)),
    }
}

// There is no message of the number that was asked for.
fn no_such_message(alloc: Global) -> Result<Heard, AllocError>
    ensures outcome { IfOk result (λ heard. outcome_of_heard heard ≡ no_such_message) }
    ensures own { (banner name : List ℕ) (slots : List Slots) → IfOk result (λ heard. IsOwn banner name slots heard) }
    ensures asks { (asked : Option ℕ) → IfOk result (λ heard. AsksSo heard asked) }
{
    said(alloc, b"-ERR no such message")
}

// LIST (RFC 1939, section 5).
fn list(listing: &Listing, alloc: Global, number: Option<u32>) -> Result<Heard, AllocError>
    ensures outcome { IfOk result (λ heard. outcome_of_heard heard ≡ list_outcome (slots_seen listing.now) number) }
    ensures own { (banner name : List ℕ) (slots : List Slots) → IfOk result (λ heard. IsOwn banner name slots heard) }
    ensures asks { (asked : Option ℕ) → IfOk result (λ heard. AsksSo heard asked) }
{
    let Some(number) = number else {
        return Ok(Heard::Said(Reply::sizes(alloc, listing)?));
    };
    match listing.message(number) {
        None => no_such_message(alloc),
        Some(item) => Ok(Heard::Said(Reply::size(alloc, number, item)?)),
    }
}

// UIDL (RFC 1939, section 7).
fn uidl(listing: &Listing, alloc: Global, number: Option<u32>) -> Result<Heard, AllocError>
    ensures outcome { IfOk result (λ heard. outcome_of_heard heard ≡ uidl_outcome (slots_seen listing.now) number) }
    ensures own { (banner name : List ℕ) (slots : List Slots) → IfOk result (λ heard. IsOwn banner name slots heard) }
    ensures asks { (asked : Option ℕ) → IfOk result (λ heard. AsksSo heard asked) }
{
    let Some(number) = number else {
        return Ok(Heard::Said(Reply::ids(alloc, listing)?));
    };
    match listing.message(number) {
        None => no_such_message(alloc),
        Some(item) => Ok(Heard::Said(Reply::id(alloc, number, item)?)),
    }
}

// RETR (RFC 1939, section 5), and TOP with its number of lines (section 7).
fn retr(
    user: &Name,
    listing: &Listing,
    alloc: Global,
    number: u32,
    lines: Option<u32>,
) -> Result<Heard, AllocError>
    ensures outcome { IfOk result (λ heard. outcome_of_heard heard ≡ retr_outcome (slots_seen listing.now) number) }
    ensures own { (banner : List ℕ) → IfOk result (λ heard. IsOwn banner user.now listing.now heard) }
    ensures asks { IfOk result (λ heard. AsksSo heard lines) }
{
    match listing.message(number) {
        None => no_such_message(alloc),
        Some(item) => Ok(Heard::Fetches {
            user: user.copy()?,
            number,
            lines,
            item: *item,
        }),
    }
}

// DELE (RFC 1939, section 5). The mark itself comes once this reply stands.
fn dele(listing: &Listing, alloc: Global, number: u32) -> Result<Heard, AllocError>
    ensures outcome { IfOk result (λ heard. outcome_of_heard heard ≡ dele_outcome (slots_seen listing.now) number) }
    ensures own { (banner name : List ℕ) (slots : List Slots) → IfOk result (λ heard. IsOwn banner name slots heard) }
    ensures asks { (asked : Option ℕ) → IfOk result (λ heard. AsksSo heard asked) }
{
    match listing.message(number) {
        None => no_such_message(alloc),
        Some(_) => Ok(Heard::Said(Reply::deleted(alloc, number)?)),
    }
}

// QUIT after the login (RFC 1939, section 6).
fn quit(user: &Name, listing: &Listing, alloc: Global) -> Result<Heard, AllocError>
    ensures outcome { IfOk result (λ heard. outcome_of_heard heard ≡ quit_outcome (slots_seen listing.now)) }
    ensures own { (banner : List ℕ) → IfOk result (λ heard. IsOwn banner user.now listing.now heard) }
    ensures asks { (asked : Option ℕ) → IfOk result (λ heard. AsksSo heard asked) }
{
    let items = listing.marked_items(alloc)?;
    if items.is_empty() {
        return farewell(alloc);
    }
    Ok(Heard::Deletes {
        user: user.copy()?,
        items,
    })
}

// A command after the login.
fn transact(
    user: &Name,
    listing: &Listing,
    alloc: Global,
    command: &PopCommand<'_>,
) -> Result<Heard, AllocError>
    ensures outcome { IfOk result (λ heard. outcome_of_heard heard ≡ behind_login (slots_seen listing.now) (command_seen command.now)) }
    ensures own { (banner : List ℕ) → IfOk result (λ heard. IsOwn banner user.now listing.now heard) }
    ensures asks { IfOk result (λ heard. AsksSo heard (lines_asked (Ok (command_seen command.now)))) }
{
    match command {
        PopCommand::User { .. } => bad_order(alloc),
        PopCommand::Pass { .. } => bad_order(alloc),
        PopCommand::Apop { .. } => bad_order(alloc),
        PopCommand::Stat => Ok(Heard::Said(Reply::count(alloc, listing)?)),
        PopCommand::List { number } => list(listing, alloc, *number),
        PopCommand::Uidl { number } => uidl(listing, alloc, *number),
        PopCommand::Retr { number } => retr(user, listing, alloc, *number, None),
        PopCommand::Dele { number } => dele(listing, alloc, *number),
        PopCommand::Top { number, lines } => retr(user, listing, alloc, *number, Some(*lines)),
        PopCommand::Noop => said(alloc, b"+OK"),
        PopCommand::Rset => said(alloc, b"+OK unmarked"),
        PopCommand::Quit => quit(user, listing, alloc),
        PopCommand::Capa => Ok(Heard::Said(Reply::capabilities(alloc)?)),
    }
}

// What a command line that is not too long leads to.
fn obey(
    stage: &Stage,
    banner: &Banner,
    alloc: Global,
    plan: &Plan,
    command: &Result<PopCommand<'_>, PopFault>,
) -> Result<Heard, AllocError>
    requires { IfOk command.now IsWithinLimits }
    ensures outcome { IfOk result (λ heard. outcome_of_heard heard ≡ command_outcome plan.now (stage_of stage.now) (seen command.now)) }
    ensures own { IfOk result (λ heard. IsOwn (banner_seen banner.now) (name_in stage.now) (slots_in stage.now) heard) }
    ensures asks { IfOk result (λ heard. AsksSo heard (lines_asked (seen command.now))) }
{
    match command {
        Err(PopFault::UnknownVerb) => said(alloc, b"-ERR unknown command"),
        Err(PopFault::BadArgument) => said(alloc, b"-ERR bad argument"),
        Err(PopFault::BadNumber) => said(alloc, b"-ERR bad argument"),
        Ok(command) => match stage {
            Stage::Authorization { user } => authorize(user, banner, alloc, plan, command),
            Stage::Transaction { login, listing } => transact(&login.user, listing, alloc, command),
        },
    }
}

// The user whom a good USER names.
fn named_by(
    alloc: Global,
    command: &Result<PopCommand<'_>, PopFault>,
) -> Result<Option<Name>, AllocError>
    requires { IfOk command.now IsWithinLimits }
    ensures { IfOk result (λ user. user ≡ named_by (seen command.now)) }
{
    match command {
        Ok(PopCommand::User { name }) => Name::spelt(alloc, name),
        _ => Ok(None),
    }
}

// DELE marks its message, and RSET takes all marks away.
fn mark_by(listing: &mut Listing, command: &Result<PopCommand<'_>, PopFault>)
    ensures marks { slots_seen listing.new ≡ marked_by (slots_seen listing.old) (seen command.now) }
    ensures items { items_of_slots listing.new ≡ items_of_slots listing.old }
{
    match command {
        Ok(PopCommand::Dele { number }) => listing.mark(*number),
        Ok(PopCommand::Rset) => listing.unmark(),
        _ => {}
    }
}

impl Stage {
    // The command was obeyed: before the login this user comes in place of the one before, and after it
    // DELE marks and RSET unmarks.
    fn tell(&mut self, named: Option<Name>, command: &Result<PopCommand<'_>, PopFault>)
        ensures told { stage_of self.new ≡ told_by_line (stage_of self.old) named (seen command.now) }
        ensures login { login_in self.new ≡ login_in self.old }
        ensures items { listed_in self.new ≡ listed_in self.old }
    {
        match self {
            Stage::Authorization { user } => *user = named,
            Stage::Transaction { listing, .. } => mark_by(listing, command),
        }
    }

    // A line that is too long names nobody.
    fn tell_long(&mut self)
        ensures told { stage_of self.new ≡ told_long (stage_of self.old) }
        ensures login { login_in self.new ≡ login_in self.old }
        ensures items { listed_in self.new ≡ listed_in self.old }
    {
        match self {
            Stage::Authorization { user } => *user = None,
            Stage::Transaction { .. } => {}
        }
    }

    /// Hears a command line that is not too long, given without its CRLF, and appends its reply, where it has
    /// one.
    pub(crate) fn hear(
        &mut self,
        alloc: Global,
        plan: &Plan,
        banner: &Banner,
        line: &[u8],
        out: &mut Vec<u8>,
    ) -> Result<Heard, AllocError>
        ensures ok { is_long_line line.now ≡ false → IfOk result (λ heard. HearsLine (banner_seen banner.now) plan.now self.old line.now heard self.new) }
        ensures own { IfOk result (λ heard. IsOwn (banner_seen banner.now) (name_in self.old) (slots_in self.old) heard) }
        ensures login { login_in self.new ≡ login_in self.old }
        ensures items { listed_in self.new ≡ listed_in self.old }
        ensures said { IfOk result (λ heard. out.new.items ≡ out.old.items ++ flat_map sent_line (reply_in heard)) }
        ensures err { OnErr result ((self.new ≡ self.old) × (out.new.items ≡ out.old.items)) }
    {
        let command = read_command(line);
        let heard = obey(self, banner, alloc, plan, &command)?;
        let user = named_by(alloc, &command)?;
        heard.reply_into(alloc, out)?;
        self.tell(user, &command);
        Ok(heard)
    }

    /// Hears a line that is too long, and appends its reply.
    pub(crate) fn hear_long(&mut self, out: &mut Vec<u8>) -> Result<(), AllocError>
        ensures ok { OnOk result (stage_of self.new ≡ told_long (stage_of self.old)) }
        ensures login { login_in self.new ≡ login_in self.old }
        ensures items { listed_in self.new ≡ listed_in self.old }
        ensures said { OnOk result (out.new.items ≡ out.old.items ++ sent_line (codes "-ERR line too long")) }
        ensures err { OnErr result ((self.new ≡ self.old) × (out.new.items ≡ out.old.items)) }
    {
        out.extend_from_slice(b"-ERR line too long\r\n")?;
        self.tell_long();
        Ok(())
    }
}

impl Heard {
    // Appends the lines of its reply, where it has one.
    fn reply_into(&self, alloc: Global, out: &mut Vec<u8>) -> Result<(), AllocError>
        ensures ok { OnOk result (out.new.items ≡ out.old.items ++ flat_map sent_line (reply_in self.now)) }
        ensures err { OnErr result (out.new.items ≡ out.old.items) }
    {
        match self {
            Heard::Said(reply) => reply.lines_into(alloc, out),
            Heard::Ended(reply) => reply.lines_into(alloc, out),
            Heard::LogsIn { .. } => Ok(()),
            Heard::Fetches { .. } => Ok(()),
            Heard::Deletes { .. } => Ok(()),
        }
    }
}
