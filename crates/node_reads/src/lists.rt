//! The lists that a login asks nodes for.
ghost use Rattle.std.specs.Prelude.{◌≡◌, ◌∷◌, ◌++◌, [], map, IfOk, OnOk, OnErr, if◌then◌else◌};
ghost use Rattle.object_model.specs.Sets.{has, without_node, nodes_in};
ghost use Rattle.login_model.specs.Readings.{Login};
ghost use Rattle.login_model.specs.Rules.{own_told};
ghost use Rattle.login_model.specs.Progress.{ask_of_nodes};
ghost use Rattle.login_model.specs.Listing.{IsMergeOfTold};
ghost use Rattle.told_lists.specs.Joining.{login_item};
ghost use Rattle.node_reads.specs.Asking.{pending_of, is_empty};

use call_tickets::Ask;
use mail_base::{Items, NodeNo, NodeSet, Sequence, ToldItem};
use std::alloc::{AllocError, Global};
use std::marker::Model;
use told_lists::{ToldList, join_told};

/// The nodes that a manager named, those that have not told yet, and what the others told.
#[derive(Drop)]
pub(crate) struct NamedLists {
    named: NodeSet,
    waiting: NodeSet,
    told: Sequence<ToldList>,
}

impl Model for NamedLists {
    ghost use Rattle.node_reads.specs.Named.{NamedLists as Seen};

    ghost Value = { Seen };

    ghost view = { λ l. record { named = l.named; waiting = l.waiting; told = l.told } };
}

// What the own node tells at once, where it is named.
fn own_told(
    alloc: Global,
    own: NodeNo,
    named: NodeSet,
    mine: Sequence<ToldItem>,
) -> Result<Sequence<ToldList>, AllocError>
    ensures { IfOk result (λ told. told ≡ own_told own named mine) }
{
    let mut told = Sequence::new(alloc);
    if named.has(own) {
        told.push(ToldList {
            node: own,
            items: mine,
        })?;
    }
    Ok(told)
}

impl NamedLists {
    /// The lists of the nodes that were named. The own one is told at once, and the others are waited for.
    pub(crate) fn of(
        alloc: Global,
        own: NodeNo,
        named: NodeSet,
        mine: Sequence<ToldItem>,
    ) -> Result<NamedLists, AllocError>
        ensures { IfOk result (λ lists. lists ≡ record { named = named; waiting = without_node named own; told = own_told own named mine }) }
    {
        let told = own_told(alloc, own, named, mine)?;
        Ok(NamedLists {
            named,
            waiting: named.without(own),
            told,
        })
    }

    /// The nodes that have not told yet.
    pub(crate) fn waiting(&self) -> NodeSet
        ensures { result ≡ self.now.waiting }
    {
        self.waiting
    }

    // The list of this node is kept.
    fn take(&mut self, from: NodeNo, items: Sequence<ToldItem>) -> Result<(), AllocError>
        ensures ok { OnOk result (self.new ≡ record { named = self.old.named; waiting = without_node self.old.waiting from; told = self.old.told ++ record { node = from; items = items } ∷ [] }) }
        ensures err { OnErr result (self.new ≡ self.old) }
    {
        self.told.push(ToldList { node: from, items })?;
        self.waiting = self.waiting.without(from);
        Ok(())
    }

    /// A list is told. The first of each node that is waited for is kept, and every other is let go.
    ///
    /// # Errors
    ///
    /// Out of memory alone; all is then as before.
    pub(crate) fn tell(&mut self, from: NodeNo, items: Sequence<ToldItem>) -> Result<(), AllocError>
        ensures ok { OnOk result (self.new ≡ (if has self.old.waiting from then record { named = self.old.named; waiting = without_node self.old.waiting from; told = self.old.told ++ record { node = from; items = items } ∷ [] } else self.old)) }
        ensures err { OnErr result (self.new ≡ self.old) }
    {
        if !self.waiting.has(from) {
            return Ok(());
        }
        self.take(from, items)
    }

    // Whether nobody is waited for.
    #[tactic(auto, using(crate::proofs::Asked::none_waits))]
    fn have_all_told(&self) -> bool
        ensures { result ≡ is_empty (nodes_in self.now.waiting 64) }
    {
        self.waiting.count() == 0
    }

    /// How many nodes have told, of how many; nothing exactly where each node that was named has.
    #[tactic(auto, using(crate::proofs::Asked::pending_nodes))]
    pub(crate) fn pending(&self) -> Option<Ask>
        ensures { (login : Login) → result ≡ pending_of (ask_of_nodes login self.now.named self.now.told (nodes_in self.now.waiting 64)) }
    {
        if self.have_all_told() {
            return None;
        }
        Some(Ask::Pending {
            got: self.told.len() as u64,
            wanted: u64::from(self.named.count()),
        })
    }

    /// The nodes that were named.
    pub(crate) fn named(&self) -> NodeSet
        ensures { result ≡ self.now.named }
    {
        self.named
    }

    /// The listing that the lists make.
    ///
    /// # Errors
    ///
    /// Out of memory alone.
    pub(crate) fn joined(&self, alloc: Global) -> Result<Items, AllocError>
        ensures { IfOk result (λ items. IsMergeOfTold self.now.told (map login_item items)) }
    {
        join_told(alloc, self.told.as_slice())
    }
}
