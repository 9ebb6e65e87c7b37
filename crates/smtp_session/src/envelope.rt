// What a session keeps of HELO, and of a transaction.
ghost use Rattle.std.specs.Prelude.{◌≤◌, length};

use crate::Reply;
use mail_base::{Name, Names, NodeNo, Octets};
use std::alloc::{AllocError, Global};

/// What HELO or EHLO said (RFC 5321, section 4.1.1.1).
#[derive(Debug, Drop)]
pub struct Greeting {
    /// The client's name for itself, 1 to 255 visible octets.
    pub name: Octets,
    /// Whether the client said EHLO.
    pub extended: bool,
    ghost short: { length name ≤ 255 },
}

/// A transaction (RFC 5321, section 3.3): whom a message is from and whom it is for.
#[derive(Debug, Drop)]
pub struct Envelope {
    /// The sender's path, at most 512 octets, and none for `<>`.
    pub sender: Octets,
    /// The mailboxes that were accepted, each once, in the order of RCPT, at most 100.
    pub mailboxes: Names,
    ghost short: { length sender ≤ 512 },
    ghost few: { length mailboxes ≤ 100 },
}

impl Envelope {
    ghost use Rattle.std.specs.Prelude.{◌≡◌, ◌++◌, [], ℕ, Some, IfOk, OnErr, if◌then◌else◌};
    ghost use Rattle.mail_model.specs.Session.{recipient_text, is_accepted, with_mailbox};
    ghost use Rattle.mail_model.specs.Told.{unaddressed};
    ghost use Rattle.smtp_session.specs.Replies.{text_of, front_of, octets_of};
    ghost use Rattle.smtp_session.specs.Talks.{envelope_of};

    /// An envelope with no sender and no mailbox. It takes no memory.
    pub fn new(alloc: Global) -> Envelope
        ensures { envelope_of result ≡ unaddressed }
    {
        Envelope {
            sender: Octets::new(alloc),
            mailboxes: Names::new(alloc),
        }
    }

    /// One mailbox more, where it is not in the envelope and there is room (RFC 5321, section 4.1.1.3).
    /// The reply of the node says which, and is appended.
    ///
    /// # Errors
    ///
    /// Out of memory alone; the envelope and `out` are then as before.
    pub fn accept(
        &mut self,
        alloc: Global,
        node: NodeNo,
        mailbox: Name,
        out: &mut Vec<u8>,
    ) -> Result<Reply, AllocError>
        ensures ok { IfOk result (λ reply. (n : ℕ) → (text_of reply n ≡ recipient_text (Some mailbox) self.old.mailboxes)
            × (envelope_of self.new ≡ (if is_accepted (recipient_text (Some mailbox) self.old.mailboxes) then with_mailbox (envelope_of self.old) mailbox else envelope_of self.old))) }
        ensures said { IfOk result (λ reply. out.new.items ≡ out.old.items ++ octets_of reply node) }
        ensures alone { IfOk result (λ reply. (n : ℕ) → front_of reply n ≡ []) }
        ensures sender { self.new.sender ≡ self.old.sender }
        ensures err { OnErr result ((self.new ≡ self.old) × (out.new.items ≡ out.old.items)) }
    {
        if self.mailboxes.contains(&mailbox) {
            return Reply::RecipientOk.said(alloc, node, out);
        }
        if self.mailboxes.len() >= 100 {
            return Reply::TooManyRecipients.said(alloc, node, out);
        }
        let kept = out.len();
        let reply = Reply::RecipientOk.said(alloc, node, out)?;
        match self.mailboxes.push(mailbox) {
            Ok(()) => Ok(reply),
            Err(error) => {
                out.truncate(kept);
                Err(error)
            }
        }
    }
}
