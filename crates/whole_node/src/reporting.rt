//! Rows that a node reports.
ghost use Rattle.std.specs.Prelude.{◌↔◌, IsTrue, IfOk};
ghost use Rattle.node_maps.specs.Nodes.{node_of};
ghost use Rattle.whole_node.specs.Nodes.{HasMaps};
ghost use Rattle.whole_node.specs.Reporting.{ReportsTo};
ghost use Rattle.whole_world.specs.Steps.{HasDue};

use crate::node::WholeNode;
use mail_base::{Letter, NodeNo, Sequence};
use std::alloc::{AllocError, Global};

impl WholeNode {
    /// The Reports of the first rows that are due to a node, in the order of names: 64 at most, and no more than there is room
    /// for. None where it is the node itself, or where no epoch is installed; some where a row is due and there is room. The rows
    /// stay due until they are acknowledged.
    ///
    /// # Errors
    ///
    /// Only out of memory.
    pub fn report(
        &self,
        alloc: Global,
        to: NodeNo,
        room: usize,
    ) -> Result<Sequence<Letter>, AllocError>
        requires maps { HasMaps self.now }
        ensures { IfOk result (λ letters. ReportsTo to room letters self.now) }
    {
        if to == self.mail.own() {
            return Ok(Sequence::new(alloc));
        }
        self.maps.report(alloc, to, room.min(64))
    }

    /// Whether a row is due to a node: it manages a marked user in the epoch that is installed. None ever is to the node itself,
    /// nor where no epoch is installed. It takes no memory, and stops at the first.
    pub fn owes_rows(&self, to: NodeNo) -> bool
        ensures { IsTrue result ↔ HasDue self.now.mail.store.own to (node_of self.now.maps) }
    {
        if to == self.mail.own() {
            return false;
        }
        self.maps.owes_rows(to)
    }
}
