// The replies of a session.
ghost use Rattle.std.specs.Prelude.{◌≡◌, ◌++◌, IfOk, OnOk, OnErr};
ghost use Rattle.std.specs.Fmt.{decimal};
ghost use Rattle.mail_model.specs.Lines.{sent_line};
ghost use Rattle.smtp_session.specs.Replies.{text_of, octets_of};

use mail_base::NodeNo;
use std::alloc::{AllocError, Global};

/// What a session answers (RFC 5321, section 4.2). Each is one line, but that to EHLO, and its text begins
/// with a code of three digits.
#[derive(Clone, Copy, Debug, PartialEq, Eq)]
pub enum Reply {
    /// 220, before the first line of a session (RFC 5321, section 3.1).
    Ready,
    /// 250 to HELO (section 4.1.1.1): the node's name.
    Hello,
    /// 250 to EHLO, in four lines (section 4.1.1.1): the node's name, SIZE (RFC 1870), 8BITMIME
    /// (RFC 6152), and PIPELINING (RFC 2920).
    Extended,
    /// 250 to MAIL: a transaction has begun (section 4.1.1.2).
    SenderOk,
    /// 250 to RCPT: the mailbox stands in the envelope (section 4.1.1.3).
    RecipientOk,
    /// 550 to RCPT: the path means no mailbox of the plan (section 3.3).
    NoSuchMailbox,
    /// 452 to RCPT: the envelope has 100 other mailboxes (section 4.5.3.1.10).
    TooManyRecipients,
    /// 503: the command comes out of its order (section 4.1.4).
    BadOrder,
    /// 500: the verb is none of those that are read (section 4.2.4).
    UnknownCommand,
    /// 501: what follows the verb is not its argument (section 4.2.2).
    BadArgument,
    /// 502 to EXPN and HELP (section 4.2.4).
    NotDone,
    /// 555: a parameter of MAIL or RCPT that is not known (section 4.1.1.11).
    BadParameter,
    /// 500: a command line of more than 1,024 octets with its CRLF (section 4.5.3.1.9).
    LineTooLong,
    /// 354 to DATA: the text comes next (section 4.1.1.4).
    SendText,
    /// 552 at the end of a text of more than 16,777,216 octets (section 4.5.3.1.9), and to MAIL that
    /// names such a size (RFC 1870, section 6.1).
    TooLarge,
    /// 250 to RSET: no transaction is under way (section 4.1.1.5).
    Reset,
    /// 250 to NOOP (section 4.1.1.9).
    Fine,
    /// 252 to VRFY: nothing is said of the address (section 3.5.3).
    NotVerified,
    /// 250 at the end of a text, once the message is stored (section 4.1.1.4).
    Stored,
    /// 451 at the end of a text whose message could not be stored, or may not be (section 4.2.2).
    NotStored,
    /// 221 to QUIT (section 4.1.1.10).
    Closing,
    /// 421: the node leaves the session (section 3.8).
    Down,
}

// The text of a reply that names the node: its parts before and after the number.
fn named_into(
    out: &mut Vec<u8>,
    alloc: Global,
    before: &[u8],
    node: NodeNo,
    behind: &[u8],
) -> Result<(), AllocError>
    ensures ok { OnOk result (out.new.items ≡ out.old.items ++ before.now ++ decimal node ++ behind.now) }
    ensures err { OnErr result (out.new.items ≡ out.old.items) }
{
    let number = node.number().to_string(alloc)?;
    let mut text = before.to_vec(alloc)?;
    text.extend_from_slice(number.as_bytes())?;
    text.extend_from_slice(behind)?;
    out.extend_from_slice(&text)
}

impl Reply {
    /// Appends the text of the reply of that node, without its CRLF (RFC 5321, section 4.2); of the reply to
    /// EHLO that of its last line.
    ///
    /// # Errors
    ///
    /// Out of memory alone; the octets are then as before.
    pub fn text_into(self, alloc: Global, node: NodeNo, out: &mut Vec<u8>) -> Result<(), AllocError>
        ensures ok { OnOk result (out.new.items ≡ out.old.items ++ text_of self node) }
        ensures err { OnErr result (out.new.items ≡ out.old.items) }
    {
        match self {
            Reply::Ready => named_into(out, alloc, b"220 node", node, b" Porcupine ready"),
            Reply::Hello => named_into(out, alloc, b"250 node", node, b""),
            Reply::Closing => named_into(out, alloc, b"221 node", node, b" closing"),
            Reply::Down => named_into(out, alloc, b"421 node", node, b" down"),
            Reply::Extended => out.extend_from_slice(b"250 PIPELINING"),
            Reply::NotDone => out.extend_from_slice(b"502 not done here"),
            Reply::BadParameter => out.extend_from_slice(b"555 parameter not known"),
            Reply::Reset => out.extend_from_slice(b"250 reset"),
            Reply::Fine => out.extend_from_slice(b"250 ok"),
            Reply::NotVerified => out.extend_from_slice(b"252 not verified"),
            Reply::SenderOk => out.extend_from_slice(b"250 sender ok"),
            Reply::RecipientOk => out.extend_from_slice(b"250 recipient ok"),
            Reply::NoSuchMailbox => out.extend_from_slice(b"550 no such mailbox"),
            Reply::TooManyRecipients => out.extend_from_slice(b"452 too many recipients"),
            Reply::BadOrder => out.extend_from_slice(b"503 bad order"),
            Reply::UnknownCommand => out.extend_from_slice(b"500 unknown command"),
            Reply::BadArgument => out.extend_from_slice(b"501 bad argument"),
            Reply::LineTooLong => out.extend_from_slice(b"500 line too long"),
            Reply::SendText => out.extend_from_slice(
                b"354 end with a line that is a single period",
            ),
            Reply::TooLarge => out.extend_from_slice(b"552 message too large"),
            Reply::Stored => out.extend_from_slice(b"250 stored"),
            Reply::NotStored => out.extend_from_slice(b"451 not stored, try again"),
        }
    }

    /// Appends the reply of that node as it is sent: its text and CRLF; of the reply to EHLO its last line.
    ///
    /// # Errors
    ///
    /// Out of memory alone; the octets are then as before.
    pub fn line_into(self, alloc: Global, node: NodeNo, out: &mut Vec<u8>) -> Result<(), AllocError>
        ensures ok { OnOk result (out.new.items ≡ out.old.items ++ sent_line (text_of self node)) }
        ensures err { OnErr result (out.new.items ≡ out.old.items) }
    {
        let mut line = Vec::new(alloc);
        self.text_into(alloc, node, &mut line)?;
        line.extend_from_slice(b"\r\n")?;
        out.extend_from_slice(&line)
    }

    /// The same, and gives the reply back.
    pub(crate) fn said(
        self,
        alloc: Global,
        node: NodeNo,
        out: &mut Vec<u8>,
    ) -> Result<Reply, AllocError>
        ensures ok { IfOk result (λ reply. (reply ≡ self) × (out.new.items ≡ out.old.items ++ sent_line (text_of self node))) }
        ensures err { OnErr result (out.new.items ≡ out.old.items) }
    {
        self.line_into(alloc, node, out)?;
        Ok(self)
    }

    /// Appends the reply to EHLO as it is sent, and gives it back.
    ///
    /// # Errors
    ///
    /// Out of memory alone; the octets are then as before.
    pub(crate) fn extended(
        alloc: Global,
        node: NodeNo,
        out: &mut Vec<u8>,
    ) -> Result<Reply, AllocError>
        ensures ok { IfOk result (λ reply. (reply ≡ Reply.Extended) × (out.new.items ≡ out.old.items ++ octets_of Reply.Extended node)) }
        ensures err { OnErr result (out.new.items ≡ out.old.items) }
    {
        named_into(
            out,
            alloc,
            b"250-node",
            node,
            b"\r\n250-SIZE 16777216\r\n250-8BITMIME\r\n250 PIPELINING\r\n",
        )?;
        Ok(Reply::Extended)
    }
}
