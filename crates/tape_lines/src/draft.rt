// The plan as far as the lines of a tape gave it.
ghost use Rattle.std.specs.Prelude.{◌≡◌, ◌||◌, not, nat_le, is_some, is_none, Some, None, false, IfOk, OnErr, if◌then◌else◌};
ghost use Rattle.std.specs.FinMap as map;
ghost use Rattle.mail_model.specs.Tape.{empty_draft, drafted, planned};
ghost use Rattle.tape_lines.specs.PlanLines.{plan_line_seen};

use crate::{CopyCount, PlanLine};
use mail_base::{Name, Plan, Secret, Users};
use std::alloc::{AllocError, Global};
use std::marker::Model;

/// What the plan lines so far gave. A contract sees the plain record.
#[derive(Drop)]
pub struct Draft {
    nodes: Option<u8>,
    copies: Option<CopyCount>,
    buckets: Option<u32>,
    users: Users,
    postmaster: Option<Name>,
}

impl Model for Draft {
    ghost use Rattle.mail_model.specs.Tape.{Draft as Seen};
    ghost use Rattle.tape_lines.specs.Drafts.{draft_code};

    ghost Value = { Seen };

    ghost coded = { draft_code };

    ghost view = { λ d. record { nodes = d.nodes; copies = d.copies; buckets = d.buckets; users = d.users; postmaster = d.postmaster } };
}

// Fills the place where it is empty.
fn set_once<T: Drop>(place: &mut Option<T>, value: T) -> bool
    ensures took { result ≡ is_none place.old }
    ensures set { place.new ≡ (if is_none place.old then Some value else place.old) }
{
    if place.is_some() {
        return false;
    }
    *place = Some(value);
    true
}

// Adds a user whose name does not stand, up to 4,096.
fn add_user(users: &mut Users, name: Name, secret: Secret) -> Result<bool, AllocError>
    ensures took { IfOk result (λ took. took ≡ not (is_some (map.get users.old name) || nat_le 4096 (map.len users.old))) }
    ensures set { IfOk result (λ took. users.new ≡ (if took then map.insert users.old name secret else users.old)) }
    ensures err { OnErr result (users.new ≡ users.old) }
{
    if users.has(&name) || users.len() >= 4096 {
        return Ok(false);
    }
    users.insert(name, secret)?;
    Ok(true)
}

impl Draft {
    /// The draft before the first line. Takes no memory.
    pub fn new(alloc: Global) -> Draft
        ensures { result ≡ empty_draft }
    {
        Draft {
            nodes: None,
            copies: None,
            buckets: None,
            users: Users::new(alloc),
            postmaster: None,
        }
    }

    /// One plan line more. It answers false exactly where the line cannot stand here: it stood already, its user has a
    /// secret already, there are 4,096 users, or it is the last line. The draft is then as before.
    ///
    /// # Errors
    ///
    /// Out of memory alone, for a user; the draft is then as before.
    pub fn add(&mut self, line: PlanLine) -> Result<bool, AllocError>
        ensures took { IfOk result (λ took. drafted self.old (plan_line_seen line) ≡ (if took then Some self.new else None)) }
        ensures kept { IfOk result (λ took. took ≡ false → self.new ≡ self.old) }
        ensures err { OnErr result (self.new ≡ self.old) }
    {
        match line {
            PlanLine::Nodes(count) => Ok(set_once(&mut self.nodes, count)),
            PlanLine::Copies(count) => Ok(set_once(&mut self.copies, count)),
            PlanLine::Buckets(count) => Ok(set_once(&mut self.buckets, count)),
            PlanLine::User { name, secret } => add_user(&mut self.users, name, secret),
            PlanLine::Postmaster(name) => Ok(set_once(&mut self.postmaster, name)),
            PlanLine::Go => Ok(false),
        }
    }

    /// The plan at `go`; nothing where a part is missing, there are fewer nodes than copies, or the postmaster is no
    /// user. Takes no memory.
    pub fn finish(self) -> Option<Plan>
        ensures { result ≡ planned self }
    {
        let Draft {
            nodes,
            copies,
            buckets,
            users,
            postmaster,
        } = self;
        let nodes = nodes?;
        let copies = copies?;
        let buckets = buckets?;
        let postmaster = postmaster?;
        if copies.copies() > u64::from(nodes) || !users.has(&postmaster) {
            return None;
        }
        Some(Plan {
            nodes,
            copies: copies.copies() as u8,
            confirm: copies.confirm() as u8,
            buckets,
            users,
            postmaster,
        })
    }
}
