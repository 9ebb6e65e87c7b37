// The plan of a cluster.
ghost use Rattle.std.specs.Prelude.{◌≡◌, codes, nat_eq, Some, None, IfOk, if◌then◌else◌};
ghost use Rattle.std.specs.Cmp.Lexicographic.{pointwise};
ghost use Rattle.mail_model.specs.Names.{lower};
ghost use Rattle.mail_model.specs.Plan.{is_user, mailbox_of};

use crate::{Name, Users};
use std::alloc::{AllocError, Global};
use std::marker::Model;

/// The plan of a cluster: how many nodes, copies of an object and confirmations, how many buckets, the users, and the
/// mailbox of the postmaster. A contract sees the plain record.
#[derive(Drop)]
pub struct Plan {
    pub nodes: u8,
    pub copies: u8,
    pub confirm: u8,
    pub buckets: u32,
    pub users: Users,
    pub postmaster: Name,
}

impl Model for Plan {
    ghost use Rattle.mail_model.specs.Plan.{Plan as Seen};
    ghost use Rattle.mail_base.specs.Codes.{plan_code};

    ghost Value = { Seen };

    ghost coded = { plan_code };

    ghost view = { λ p. record {
      nodes = p.nodes;
      copies = p.copies;
      confirm = p.confirm;
      buckets = p.buckets;
      users = p.users;
      postmaster = p.postmaster;
    } };
}

fn is_postmaster(path: &[u8]) -> bool
    ensures { result ≡ pointwise nat_eq (lower path.now) (codes "postmaster") }
{
    path.eq_ignore_ascii_case(b"postmaster")
}

impl Plan {
    /// The mailbox that a path means, in any case of its letters: `postmaster` means the configured one, and any other path the user of that name.
    ///
    /// Nothing where it means no mailbox. RFC 5321, section 4.5.1.
    pub fn mailbox(&self, alloc: Global, path: &[u8]) -> Result<Option<Name>, AllocError>
        ensures { IfOk result (λ mailbox. mailbox ≡ mailbox_of self.now path.now) }
    {
        if is_postmaster(path) {
            return Ok(Some(self.postmaster.copy()?));
        }
        self.user(alloc, path)
    }

    /// The user whose name the octets spell, in any case of their letters; nothing where there is none.
    #[tactic(auto, using(crate::proofs::Lower::lower_keeps_name))]
    pub fn user(&self, alloc: Global, octets: &[u8]) -> Result<Option<Name>, AllocError>
        ensures { IfOk result (λ user. user ≡ (if is_user self.now (lower octets.now) then Some (lower octets.now) else None)) }
    {
        let Some(name) = Name::spelt(alloc, octets)? else {
            return Ok(None);
        };
        Ok(if self.users.has(&name) {
            Some(name)
        } else {
            None
        })
    }
}
