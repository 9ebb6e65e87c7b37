// A list of ids of messages.
ghost use Rattle.std.specs.Prelude.{◌≡◌, ◌↔◌, [], ◌∷◌, ◌++◌, length, IsTrue, IfOk, OnOk, OnErr};

use crate::MsgId;
use std::alloc::{AllocError, Global};
use std::marker::Model;

/// Ids of messages in the order in which they were pushed. A contract sees the list.
#[derive(Debug, Drop)]
pub struct Ids {
    held: Vec<MsgId>,
}

impl Model for Ids {
    ghost use Rattle.std.specs.Prelude.{List};
    ghost use Rattle.std.specs.Coded.{coded_list};
    ghost use Rattle.mail_model.specs.Identity.{Id};
    ghost use Rattle.mail_base.specs.Codes.{id_code};

    ghost Value = { List Id };

    ghost coded = { coded_list id_code };

    ghost view = { λ i. i.held.items };
}

impl Ids {
    /// No ids. It takes no memory.
    pub fn new(alloc: Global) -> Ids
        ensures { result ≡ [] }
    {
        Ids {
            held: Vec::new(alloc),
        }
    }

    /// The ids of the vector. It takes no memory.
    pub fn from_vec(held: Vec<MsgId>) -> Ids
        ensures { result ≡ held.items }
    {
        Ids { held }
    }

    /// The same ids once more.
    ///
    /// # Errors
    ///
    /// Out of memory alone.
    pub fn copy(&self) -> Result<Ids, AllocError>
        ensures { IfOk result (λ ids. ids ≡ self.now) }
    {
        let mut held = Vec::new(*self.held.allocator());
        for id in &self.held {
            held.push(*id)?;
        }
        Ok(Ids { held })
    }

    /// Puts the id after the others.
    ///
    /// # Errors
    ///
    /// Out of memory alone; the list is then as before.
    pub fn push(&mut self, id: MsgId) -> Result<(), AllocError>
        ensures ok { OnOk result (self.new ≡ self.old ++ id ∷ []) }
        ensures err { OnErr result (self.new ≡ self.old) }
    {
        self.held.push(id)?;
        Ok(())
    }

    /// How many ids these are.
    pub fn len(&self) -> usize
        ensures { result ≡ length self.now }
    {
        self.held.len()
    }

    /// Whether there are none.
    pub fn is_empty(&self) -> bool
        ensures { IsTrue result ↔ (self.now ≡ []) }
    {
        self.held.is_empty()
    }

    /// The vector of these ids. It takes no memory.
    pub fn into_vec(self) -> Vec<MsgId>
        ensures { result.items ≡ self }
    {
        self.held
    }

    /// These ids as a slice.
    pub fn as_slice(&self) -> &[MsgId]
        ensures { result.now ≡ self.now }
    {
        &self.held
    }
}
