// What a letter says.
ghost use Rattle.std.specs.Prelude.{◌≡◌, IfOk};
ghost use Rattle.mail_base.specs.Bodies.{carried};

use crate::{
    Claim, EpochId, Ids, Key, LoginWord, Member, MsgId, Name, Names, NodeSet, ObjState, Octets,
    Proof, Row, Sequence, Stamp, StrikeMark, Ticket, ToldItem, ToldPart, UserMap,
};
use std::alloc::AllocError;

/// What a letter says.
///
/// File, LoginAsk, ListAsk, FetchAsk and Strike are asked for a ticket; Filed, LoginTold, ListTold, FetchTold and StrikeTold
/// answer them.
#[derive(Drop)]
pub enum Body {
    /// A message is to be filed for these users.
    File {
        /// The message.
        id: MsgId,
        /// The stamp of each copy.
        stamp: Stamp,
        /// The nodes that are to hold it.
        targets: NodeSet,
        /// Its users, each once.
        users: Names,
        /// Its octets, the trace lines with them.
        octets: Octets,
    },
    /// The message is filed.
    Filed {
        /// The message.
        id: MsgId,
    },
    /// A client wants to open the maildrop of this user.
    LoginAsk {
        /// The user.
        user: Name,
        /// What the client gave.
        proof: Proof,
    },
    /// What the manager answers.
    LoginTold {
        /// Its answer.
        word: LoginWord,
    },
    /// Which messages of the user are here?
    ListAsk {
        /// The user.
        user: Name,
    },
    /// These are.
    ListTold {
        /// The messages, each once.
        items: Sequence<ToldItem>,
    },
    /// Octets of a message are asked for.
    FetchAsk {
        /// In whose maildrop it is.
        user: Name,
        /// The message.
        id: MsgId,
        /// How many of its octets to pass over.
        from: u64,
        /// How many octets to give at most.
        most: u64,
    },
    /// What the node has of them.
    FetchTold {
        /// The octets, or that the message is gone.
        part: ToldPart,
    },
    /// The user's copies of these messages are to be deleted.
    Strike {
        /// The user.
        user: Name,
        /// The messages, each with the stamp of its deletion.
        marks: Sequence<StrikeMark>,
    },
    /// They are deleted.
    StrikeTold {
        /// The user.
        user: Name,
        /// The messages.
        ids: Ids,
    },
    /// The login gives its lock back.
    Unlock {
        /// The user.
        user: Name,
        /// The ticket of the login.
        login: Ticket,
    },
    /// The sender's state of an object, for a target of it.
    Push {
        /// The object.
        key: Key,
        /// Its state.
        state: ObjState,
        /// The message's octets where the state is Here, and else nothing.
        octets: Option<Octets>,
    },
    /// The state was taken.
    PushAck {
        /// The object.
        key: Key,
        /// The state as it was pushed.
        state: ObjState,
    },
    /// All targets of the state have it.
    Retired {
        /// The object.
        key: Key,
        /// The state.
        state: ObjState,
    },
    /// The sender opens a group.
    Group {
        /// The epoch that the group is to become.
        epoch: EpochId,
    },
    /// The sender joins the group, or tells of the greater promise that keeps it away.
    Join {
        /// The epoch of the group.
        epoch: EpochId,
        /// The greatest epoch that the sender has promised.
        promise: EpochId,
        /// The sender's boot.
        boot: u32,
        /// The epoch that it has installed.
        was: EpochId,
        /// The buckets that it manages.
        claims: Sequence<Claim>,
    },
    /// The group is concluded, and the epoch begins.
    Install {
        /// The epoch.
        epoch: EpochId,
        /// Its members.
        members: Sequence<Member>,
        /// Who manages each bucket.
        map: UserMap,
    },
    /// What the sender has of a user.
    Report {
        /// The row.
        row: Row,
    },
    /// The row was heard.
    ReportAck {
        /// The user.
        user: Name,
        /// The version of the row.
        version: u64,
    },
}

fn copy_octets(octets: &Option<Octets>) -> Result<Option<Octets>, AllocError>
    ensures { IfOk result (λ copy. copy ≡ octets.now) }
{
    match octets {
        Some(octets) => Ok(Some(octets.copy()?)),
        None => Ok(None),
    }
}

impl Body {
    /// The same body once more. Message octets are copied too: a body that is sent to one node alone is better moved.
    ///
    /// # Errors
    ///
    /// Out of memory alone.
    pub fn copy(&self) -> Result<Body, AllocError>
        ensures { IfOk result (λ body. body ≡ self.now) }
    {
        Ok(match self {
            Body::File {
                id,
                stamp,
                targets,
                users,
                octets,
            } => Body::File {
                id: *id,
                stamp: *stamp,
                targets: *targets,
                users: users.copy()?,
                octets: octets.copy()?,
            },
            Body::Filed { id } => Body::Filed { id: *id },
            Body::LoginAsk { user, proof } => Body::LoginAsk {
                user: user.copy()?,
                proof: proof.copy()?,
            },
            Body::LoginTold { word } => Body::LoginTold { word: word.copy() },
            Body::ListAsk { user } => Body::ListAsk { user: user.copy()? },
            Body::ListTold { items } => Body::ListTold {
                items: items.copy()?,
            },
            Body::FetchAsk {
                user,
                id,
                from,
                most,
            } => Body::FetchAsk {
                user: user.copy()?,
                id: *id,
                from: *from,
                most: *most,
            },
            Body::FetchTold { part } => Body::FetchTold { part: part.copy()? },
            Body::Strike { user, marks } => Body::Strike {
                user: user.copy()?,
                marks: marks.copy()?,
            },
            Body::StrikeTold { user, ids } => Body::StrikeTold {
                user: user.copy()?,
                ids: ids.copy()?,
            },
            Body::Unlock { user, login } => Body::Unlock {
                user: user.copy()?,
                login: *login,
            },
            Body::Push { key, state, octets } => Body::Push {
                key: key.copy()?,
                state: state.copy()?,
                octets: copy_octets(octets)?,
            },
            Body::PushAck { key, state } => Body::PushAck {
                key: key.copy()?,
                state: state.copy()?,
            },
            Body::Retired { key, state } => Body::Retired {
                key: key.copy()?,
                state: state.copy()?,
            },
            Body::Group { epoch } => Body::Group { epoch: *epoch },
            Body::Join {
                epoch,
                promise,
                boot,
                was,
                claims,
            } => Body::Join {
                epoch: *epoch,
                promise: *promise,
                boot: *boot,
                was: *was,
                claims: claims.copy()?,
            },
            Body::Install {
                epoch,
                members,
                map,
            } => Body::Install {
                epoch: *epoch,
                members: members.copy()?,
                map: map.copy()?,
            },
            Body::Report { row } => Body::Report { row: row.copy()? },
            Body::ReportAck { user, version } => Body::ReportAck {
                user: user.copy()?,
                version: *version,
            },
        })
    }

    /// How many message octets it carries.
    pub fn carried(&self) -> usize
        ensures { result ≡ carried self.now }
    {
        match self {
            Body::File { octets, .. } => octets.len(),
            Body::Push { octets, .. } => match octets {
                Some(octets) => octets.len(),
                None => 0,
            },
            Body::FetchTold { part } => match part {
                ToldPart::Octets { octets, .. } => octets.len(),
                ToldPart::Gone { .. } => 0,
            },
            Body::Filed { .. }
            | Body::LoginAsk { .. }
            | Body::LoginTold { .. }
            | Body::ListAsk { .. }
            | Body::ListTold { .. }
            | Body::FetchAsk { .. }
            | Body::Strike { .. }
            | Body::StrikeTold { .. }
            | Body::Unlock { .. }
            | Body::PushAck { .. }
            | Body::Retired { .. }
            | Body::Group { .. }
            | Body::Join { .. }
            | Body::Install { .. }
            | Body::Report { .. }
            | Body::ReportAck { .. } => 0,
        }
    }
}
