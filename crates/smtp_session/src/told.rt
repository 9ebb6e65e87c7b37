// What a session has been told, and what a command makes of it.
ghost use Rattle.std.specs.Prelude.{◌≡◌, ◌≤◌, ◌++◌, [], List, ℕ, true, false, length, unwrap_or, Ok, OnErr, IfOk, if◌then◌else◌};
ghost use Rattle.std.specs.Option.{option_map};
ghost use Rattle.mail_model.specs.Smtp as smtp;
ghost use Rattle.mail_model.specs.Smtp.{extension_lines};
ghost use Rattle.mail_model.specs.Session.{silent, greeted_text, is_too_large, is_long_line, is_quit, after_unit};
ghost use Rattle.mail_model.specs.Session.Unit.{Text as OfText};
ghost use Rattle.mail_model.specs.Plan.{Plan as Plans};
ghost use Rattle.mail_model.specs.Told.{unnamed, unaddressed};
ghost use Rattle.smtp_wire.specs.Seen.{seen, IsWithinLimits};
ghost use Rattle.smtp_session.specs.Replies.{text_of, front_of, octets_of};
ghost use Rattle.smtp_session.specs.Talks.{talk_of, envelope_of, DoesCommand};
ghost use Rattle.smtp_session.specs.Hears.{HearsLine, Addresses, reply_in};

use crate::{Envelope, Greeting, Reply};
use mail_base::{Names, NodeNo, Octets, Plan};
use smtp_wire::{Command, SmtpFault, read_command};
use std::alloc::{AllocError, Global};

/// What a command line leads to.
#[derive(Clone, Copy, Debug, PartialEq, Eq)]
pub enum Heard {
    /// Its reply, after which the session goes on.
    GoesOn(Reply),
    /// Its reply, which ends the session.
    Ends(Reply),
}

/// What a session has been told (RFC 5321, section 3.3).
#[derive(Debug, Drop)]
pub struct Told {
    /// The HELO or EHLO in force; none before the first.
    pub greeting: Option<Greeting>,
    /// The transaction; none outside one.
    pub envelope: Option<Envelope>,
    /// Whether a text comes next.
    pub in_text: bool,
}

impl Told {
    /// Nothing was told yet. It takes no memory.
    pub fn new() -> Told
        ensures { talk_of result ≡ silent }
    {
        Told {
            greeting: None,
            envelope: None,
            in_text: false,
        }
    }

    // HELO and EHLO begin anew (RFC 5321, section 4.1.1.1). Unchanged on refusal.
    fn greet(
        &mut self,
        alloc: Global,
        node: NodeNo,
        name: &[u8],
        extended: bool,
        out: &mut Vec<u8>,
    ) -> Result<Reply, AllocError>
        requires { length name.now ≤ 255 }
        ensures ok { IfOk result (λ reply. (plan : Plans) → DoesCommand plan (talk_of self.old) (Ok (smtp.Command.Helo name.now extended)) reply (talk_of self.new)) }
        ensures said { IfOk result (λ reply. out.new.items ≡ out.old.items ++ octets_of reply node) }
        ensures err { OnErr result ((self.new ≡ self.old) × (out.new.items ≡ out.old.items)) }
    {
        let name = Octets::from_vec(name.to_vec(alloc)?);
        let reply = hello(alloc, node, extended, out)?;
        self.greeting = Some(Greeting { name, extended });
        self.envelope = None;
        Ok(reply)
    }

    // MAIL begins a transaction (RFC 5321, section 4.1.1.2). Unchanged on refusal.
    fn begin(
        &mut self,
        alloc: Global,
        node: NodeNo,
        sender: &[u8],
        size: Option<u128>,
        out: &mut Vec<u8>,
    ) -> Result<Reply, AllocError>
        requires { length sender.now ≤ 512 }
        ensures ok { IfOk result (λ reply. (plan : Plans) → DoesCommand plan (talk_of self.old) (Ok (smtp.Command.Mail sender.now size)) reply (talk_of self.new)) }
        ensures said { IfOk result (λ reply. out.new.items ≡ out.old.items ++ octets_of reply node) }
        ensures err { OnErr result ((self.new ≡ self.old) × (out.new.items ≡ out.old.items)) }
    {
        if self.greeting.is_none() || self.envelope.is_some() {
            return Reply::BadOrder.said(alloc, node, out);
        }
        if is_too_large(size) {
            return Reply::TooLarge.said(alloc, node, out);
        }
        let sender = Octets::from_vec(sender.to_vec(alloc)?);
        let reply = Reply::SenderOk.said(alloc, node, out)?;
        self.envelope = Some(Envelope {
            sender,
            mailboxes: Names::new(alloc),
        });
        Ok(reply)
    }

    // DATA asks for the text (RFC 5321, section 4.1.1.4). Unchanged on refusal.
    fn ask_text(
        &mut self,
        alloc: Global,
        node: NodeNo,
        out: &mut Vec<u8>,
    ) -> Result<Reply, AllocError>
        ensures ok { IfOk result (λ reply. (plan : Plans) → DoesCommand plan (talk_of self.old) (Ok smtp.Command.Data) reply (talk_of self.new)) }
        ensures said { IfOk result (λ reply. out.new.items ≡ out.old.items ++ octets_of reply node) }
        ensures err { OnErr result ((self.new ≡ self.old) × (out.new.items ≡ out.old.items)) }
    {
        match &self.envelope {
            Some(envelope) if !envelope.mailboxes.is_empty() => {
                let reply = Reply::SendText.said(alloc, node, out)?;
                self.in_text = true;
                Ok(reply)
            }
            _ => Reply::BadOrder.said(alloc, node, out),
        }
    }

    // RSET ends the transaction (RFC 5321, section 4.1.1.5). Unchanged on refusal.
    fn reset(&mut self, alloc: Global, node: NodeNo, out: &mut Vec<u8>) -> Result<Reply, AllocError>
        ensures ok { IfOk result (λ reply. (plan : Plans) → DoesCommand plan (talk_of self.old) (Ok smtp.Command.Rset) reply (talk_of self.new)) }
        ensures said { IfOk result (λ reply. out.new.items ≡ out.old.items ++ octets_of reply node) }
        ensures err { OnErr result ((self.new ≡ self.old) × (out.new.items ≡ out.old.items)) }
    {
        let reply = Reply::Reset.said(alloc, node, out)?;
        self.envelope.take();
        Ok(reply)
    }

    // Does what the command says, and appends its reply. Unchanged on refusal.
    fn obey(
        &mut self,
        alloc: Global,
        plan: &Plan,
        node: NodeNo,
        command: &Result<Command<'_>, SmtpFault>,
        out: &mut Vec<u8>,
    ) -> Result<Reply, AllocError>
        requires { IfOk command.now IsWithinLimits }
        ensures ok { IfOk result (λ reply. DoesCommand plan.now (talk_of self.old) (seen command.now) reply (talk_of self.new)) }
        ensures said { IfOk result (λ reply. out.new.items ≡ out.old.items ++ octets_of reply node) }
        ensures err { OnErr result ((self.new ≡ self.old) × (out.new.items ≡ out.old.items)) }
    {
        match command {
            Err(SmtpFault::UnknownVerb) => Reply::UnknownCommand.said(alloc, node, out),
            Err(SmtpFault::BadArgument) => Reply::BadArgument.said(alloc, node, out),
            Err(SmtpFault::NotDone) => Reply::NotDone.said(alloc, node, out),
            Err(SmtpFault::BadParameter) => Reply::BadParameter.said(alloc, node, out),
            Ok(Command::Helo { name, extended }) => Ok(self.greet(
                alloc, node, name, *extended, out,
            )?),
            Ok(Command::Mail { sender, size }) => Ok(self.begin(alloc, node, sender, *size, out)?),
            Ok(Command::Rcpt { path }) => Ok(address(
                &mut self.envelope,
                alloc,
                plan,
                node,
                path,
                out,
            )?),
            Ok(Command::Data) => Ok(self.ask_text(alloc, node, out)?),
            Ok(Command::Rset) => Ok(self.reset(alloc, node, out)?),
            Ok(Command::Noop) => Reply::Fine.said(alloc, node, out),
            Ok(Command::Quit) => Reply::Closing.said(alloc, node, out),
            Ok(Command::Vrfy) => Reply::NotVerified.said(alloc, node, out),
        }
    }

    /// Hears a command line, given without its CRLF, and appends the reply of the node. Where the line has at
    /// most 1,022 octets, what it leads to is what the definition of a session says (RFC 5321, section 4.1.4).
    ///
    /// # Errors
    ///
    /// Out of memory alone; nothing is changed then.
    pub fn hear(
        &mut self,
        alloc: Global,
        plan: &Plan,
        node: NodeNo,
        line: &[u8],
        out: &mut Vec<u8>,
    ) -> Result<Heard, AllocError>
        ensures ok { is_long_line line.now ≡ false → IfOk result (λ heard. HearsLine plan.now (talk_of self.old) line.now heard (talk_of self.new)) }
        ensures said { IfOk result (λ heard. out.new.items ≡ out.old.items ++ octets_of (reply_in heard) node) }
        ensures err { OnErr result ((self.new ≡ self.old) × (out.new.items ≡ out.old.items)) }
    {
        let command = read_command(line);
        let reply = self.obey(alloc, plan, node, &command, out)?;
        Ok(heard_of(&command, reply))
    }

    /// The argument of the HELO in force once more; nothing where there is none.
    ///
    /// # Errors
    ///
    /// Out of memory alone.
    pub fn name(&self, alloc: Global) -> Result<Octets, AllocError>
        ensures name { IfOk result (λ name. name ≡ (unwrap_or (talk_of self.now).greeting unnamed).name) }
        ensures short { IfOk result (λ name. length name ≤ 255) }
    {
        match &self.greeting {
            None => Ok(Octets::new(alloc)),
            Some(greeting) => Ok(greeting.name.copy()?),
        }
    }

    /// Whether the one in force was an EHLO.
    pub fn is_extended(&self) -> bool
        ensures { result ≡ (unwrap_or (talk_of self.now).greeting unnamed).extended }
    {
        match &self.greeting {
            None => false,
            Some(greeting) => greeting.extended,
        }
    }

    /// A text has ended, and with it the transaction (RFC 5321, section 4.1.1.4): its envelope. It takes no
    /// memory.
    pub fn end_text(&mut self, alloc: Global) -> Envelope
        ensures envelope { envelope_of result ≡ unwrap_or (talk_of self.old).envelope unaddressed }
        ensures told { (plan : Plans) (lines : List (List ℕ)) (reply : List ℕ) → talk_of self.new ≡ after_unit plan (talk_of self.old) (OfText lines) reply }
    {
        self.in_text = false;
        self.envelope.take().unwrap_or(Envelope::new(alloc))
    }
}

// What the reply to a command leads to: QUIT ends the session.
fn heard_of(command: &Result<Command<'_>, SmtpFault>, reply: Reply) -> Heard
    ensures heard { result ≡ (if is_quit (seen command.now) then Heard.Ends reply else Heard.GoesOn reply) }
    ensures reply { reply_in result ≡ reply }
{
    match command {
        Ok(Command::Quit) => Heard::Ends(reply),
        _ => Heard::GoesOn(reply),
    }
}

// The reply to HELO or EHLO. Unchanged on refusal.
fn hello(
    alloc: Global,
    node: NodeNo,
    extended: bool,
    out: &mut Vec<u8>,
) -> Result<Reply, AllocError>
    ensures text { IfOk result (λ reply. (n : ℕ) → text_of reply n ≡ greeted_text n extended) }
    ensures front { IfOk result (λ reply. (n : ℕ) → front_of reply n ≡ (if extended then extension_lines n else [])) }
    ensures said { IfOk result (λ reply. out.new.items ≡ out.old.items ++ octets_of reply node) }
    ensures err { OnErr result (out.new.items ≡ out.old.items) }
{
    if extended {
        Reply::extended(alloc, node, out)
    } else {
        Reply::Hello.said(alloc, node, out)
    }
}

// The client says that the text will pass the limit.
fn is_too_large(size: Option<u128>) -> bool
    ensures { result ≡ is_too_large size }
{
    match size {
        Some(size) => size > 16_777_216,
        None => false,
    }
}

// RCPT: a mailbox of the plan goes into the envelope of the transaction. Unchanged on refusal.
fn address(
    envelope: &mut Option<Envelope>,
    alloc: Global,
    plan: &Plan,
    node: NodeNo,
    path: &[u8],
    out: &mut Vec<u8>,
) -> Result<Reply, AllocError>
    ensures ok { IfOk result (λ reply. (n : ℕ) → Addresses plan.now (option_map envelope_of envelope.old) path.now (text_of reply n) (option_map envelope_of envelope.new)) }
    ensures said { IfOk result (λ reply. out.new.items ≡ out.old.items ++ octets_of reply node) }
    ensures alone { IfOk result (λ reply. (n : ℕ) → front_of reply n ≡ []) }
    ensures err { OnErr result ((envelope.new ≡ envelope.old) × (out.new.items ≡ out.old.items)) }
{
    match envelope {
        None => Reply::BadOrder.said(alloc, node, out),
        Some(envelope) => match plan.mailbox(alloc, path)? {
            None => Reply::NoSuchMailbox.said(alloc, node, out),
            Some(mailbox) => Ok(envelope.accept(alloc, node, mailbox, out)?),
        },
    }
}
