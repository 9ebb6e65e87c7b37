// What is said to the answer of a call.
ghost use Rattle.std.specs.Prelude.{◌≡◌, ◌++◌, ℕ, List, Option, OnOk, OnErr};
ghost use Rattle.mail_model.specs.Lines.{sent_line};
ghost use Rattle.session_model.specs.Calls as calls;
ghost use Rattle.mail_model.specs.Maildrop.{Given};
ghost use Rattle.mail_model.specs.Session.{Unit};
ghost use Rattle.session_model.specs.Calls.{IsReply, asked_lines};
ghost use Rattle.mail_model.specs.Identity.{Id};
ghost use Rattle.call_tickets.specs.Seen.{given_answer};
ghost use Rattle.session_model.specs.Talk.{TalkState};
ghost use Rattle.session_model.specs.Talk.TalkState.{Entering};
ghost use Rattle.pop_session.specs.Dues.{text_of, IsAsked, Says, due_login, due_items, taken_login, taken_items};
ghost use Rattle.pop_session.specs.declared.due.Asked.TheVariants as asks;
ghost use Rattle.pop_session.specs.declared.stage.Login.{Login as Logins};
ghost use Rattle.mail_base.specs.declared.item.Item.{Item as Listings};

use crate::reply::line_into;
use crate::stage::Login;
use call_tickets::Answer;
use mail_base::{Name, Octets, Ticket};
use std::alloc::AllocError;

/// What a session waits for.
#[derive(Debug, Drop)]
pub(crate) enum Asked {
    /// That this user is let in.
    Login(Name),
    /// A message, or so many lines behind its header.
    Message(Option<u32>),
    /// That messages are deleted.
    Deletion,
}

/// A reply of one line to the answer of a call.
#[derive(Clone, Copy, Debug, PartialEq, Eq)]
pub(crate) enum Text {
    /// To a login whose secret or digest is wrong (RFC 1939, section 7).
    Wrong,
    /// To a login while another one has the maildrop (RFC 2449, section 8.1.2).
    InUse,
    /// To a login, or to RETR or TOP, that the node can't answer now (RFC 3206).
    Later,
    /// To RETR or TOP of a message that was deleted since the login.
    Gone,
    /// To QUIT whose deletions are done (RFC 1939, section 6).
    Bye,
    /// To QUIT, where it is not known that every marked message was deleted (RFC 1939, section 6; RFC 3206).
    Remaining,
}

/// What a session has to say to the answer of its call.
#[derive(Debug, Drop)]
pub(crate) enum Due {
    /// The user is let in.
    Entered {
        /// The login.
        login: Login,
        /// The answer that lists the messages of the maildrop.
        listed: Answer,
    },
    /// The message has these octets, all of which are shown, or so many lines behind the header.
    Shown(Octets, Option<u32>),
    /// This line, after which the session goes on.
    Said(Text),
    /// This line, which ends the session.
    Last(Text),
}

impl Text {
    /// Appends the line with its CRLF.
    ///
    /// # Errors
    ///
    /// Out of memory alone; the octets are then as before.
    pub(crate) fn line_into(self, out: &mut Vec<u8>) -> Result<(), AllocError>
        ensures ok { OnOk result (out.new.items ≡ out.old.items ++ sent_line (text_of self)) }
        ensures err { OnErr result (out.new.items ≡ out.old.items) }
    {
        match self {
            Text::Wrong => line_into(out, b"-ERR name or secret is wrong"),
            Text::InUse => line_into(out, b"-ERR [IN-USE] maildrop is open elsewhere"),
            Text::Later => line_into(out, b"-ERR [SYS/TEMP] try again later"),
            Text::Gone => line_into(out, b"-ERR message was deleted"),
            Text::Bye => line_into(out, b"+OK bye"),
            Text::Remaining => line_into(out, b"-ERR [SYS/TEMP] some messages may remain"),
        }
    }
}

// To a login.
fn login_due(user: Name, answer: Option<Answer>) -> Due
    ensures says { (named : Option (List ℕ)) (given : Given) (reply : List (List ℕ)) (unit : Unit) → IsReply (calls.Call.Login user given) (given_answer answer) reply → Says result unit (Entering named) (calls.Call.Login user given) (given_answer answer) }
    ensures login { (other : Option Logins) → due_login result other ≡ taken_login (asks.Login user) answer other }
    ensures items { (other : List Listings) → due_items result other ≡ taken_items (asks.Login user) answer other }
{
    let Some(answer) = answer else {
        return Due::Said(Text::Later);
    };
    match &answer {
        Answer::Listed { login, manager, .. } => {
            let ticket = Ticket::new(login.node, login.boot, login.seq);
            let login = Login {
                user,
                ticket,
                manager: *manager,
            };
            Due::Entered {
                login,
                listed: answer,
            }
        }
        Answer::Wrong { .. } => Due::Said(Text::Wrong),
        Answer::InUse { .. } => Due::Said(Text::InUse),
        Answer::NoProfile { .. } => Due::Said(Text::Later),
        Answer::Failed(_) => Due::Said(Text::Later),
        Answer::Stored { .. } => Due::Said(Text::Later),
        Answer::Part { .. } => Due::Said(Text::Later),
        Answer::GoneAlready => Due::Said(Text::Later),
        Answer::Dropped { .. } => Due::Said(Text::Later),
    }
}

// To RETR and TOP.
fn message_due(lines: Option<u32>, answer: Option<Answer>) -> Due
    ensures says { (state : TalkState) (user : List ℕ) (id : Id) (reply : List (List ℕ)) (unit : Unit) → asked_lines unit ≡ lines → IsReply (calls.Call.Fetch user id) (given_answer answer) reply → Says result unit state (calls.Call.Fetch user id) (given_answer answer) }
    ensures login { (other : Option Logins) → due_login result other ≡ taken_login (asks.Message lines) answer other }
    ensures items { (other : List Listings) → due_items result other ≡ taken_items (asks.Message lines) answer other }
{
    match answer {
        Some(Answer::Part { octets, .. }) => Due::Shown(octets, lines),
        Some(Answer::GoneAlready) => Due::Said(Text::Gone),
        Some(Answer::Failed(_)) => Due::Said(Text::Later),
        None => Due::Said(Text::Later),
        Some(Answer::Stored { .. }) => Due::Said(Text::Later),
        Some(Answer::Listed { .. }) => Due::Said(Text::Later),
        Some(Answer::Wrong { .. }) => Due::Said(Text::Later),
        Some(Answer::InUse { .. }) => Due::Said(Text::Later),
        Some(Answer::NoProfile { .. }) => Due::Said(Text::Later),
        Some(Answer::Dropped { .. }) => Due::Said(Text::Later),
    }
}

// To a QUIT with marks.
fn deletion_due(answer: &Option<Answer>) -> Due
    ensures says { (state : TalkState) (user : List ℕ) (ids : List Id) (reply : List (List ℕ)) (unit : Unit) → IsReply (calls.Call.Strike user ids) (given_answer answer.now) reply → Says result unit state (calls.Call.Strike user ids) (given_answer answer.now) }
    ensures login { (other : Option Logins) → due_login result other ≡ taken_login asks.Deletion answer.now other }
    ensures items { (other : List Listings) → due_items result other ≡ taken_items asks.Deletion answer.now other }
{
    match answer {
        Some(Answer::Dropped { .. }) => Due::Last(Text::Bye),
        Some(Answer::Failed(_)) => Due::Last(Text::Remaining),
        None => Due::Last(Text::Remaining),
        Some(Answer::Stored { .. }) => Due::Last(Text::Remaining),
        Some(Answer::Listed { .. }) => Due::Last(Text::Remaining),
        Some(Answer::Wrong { .. }) => Due::Last(Text::Remaining),
        Some(Answer::InUse { .. }) => Due::Last(Text::Remaining),
        Some(Answer::NoProfile { .. }) => Due::Last(Text::Remaining),
        Some(Answer::Part { .. }) => Due::Last(Text::Remaining),
        Some(Answer::GoneAlready) => Due::Last(Text::Remaining),
    }
}

impl Asked {
    /// What is to be said to this answer. It takes no memory.
    pub(crate) fn due(self, answer: Option<Answer>) -> Due
        ensures says { (unit : Unit) (state : TalkState) (call : calls.Call) (reply : List (List ℕ)) → IsAsked self unit state call → IsReply call (given_answer answer) reply → Says result unit state call (given_answer answer) }
        ensures login { (other : Option Logins) → due_login result other ≡ taken_login self answer other }
        ensures items { (other : List Listings) → due_items result other ≡ taken_items self answer other }
    {
        match self {
            Asked::Login(user) => login_due(user, answer),
            Asked::Message(lines) => message_due(lines, answer),
            Asked::Deletion => deletion_due(&answer),
        }
    }
}
