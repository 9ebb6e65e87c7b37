// Rows that are due go to their managers.
ghost use Rattle.std.specs.Prelude.{◌≡◌, ◌≢◌, ◌↔◌, map, None, Some, IsTrue, IfOk};
ghost use Rattle.std.specs.Ordering.{nat_cmp};
ghost use Rattle.std.specs.Cmp.Lexicographic.{slice_cmp};
ghost use Rattle.std.specs.List.Sorted.{IsStrictlySortedBy};
ghost use Rattle.object_model.specs.Letters.{Membership};
ghost use Rattle.object_model.specs.Letters.Body.{Report};
ghost use Rattle.map_rebuild.specs.Rows.{due_users, marked_users};
ghost use Rattle.node_maps.specs.Nodes.{node_of, own_of, row_of};
ghost use Rattle.node_maps.specs.Naming.{HasRowFor};
ghost use Rattle.node_maps.specs.Rounds.{ReportsAs};

use crate::entering::own_row;
use crate::letters::no_letters;
use crate::maps::NodeMaps;
use mail_base::{Body, EpochId, Letter, Name, NodeNo, Sequence};
use membership::Install;
use std::alloc::{AllocError, Global};

impl NodeMaps {
    // The Report of one user.
    fn report_of(&self, epoch: EpochId, to: NodeNo, user: &Name) -> Result<Letter, AllocError>
        ensures { IfOk result (λ letter. letter ≡ record { from = own_of self.now; to = to; epoch = epoch; ticket = None; body = Report (row_of (own_of self.now) self.now.group.boot self.now.reports self.now.fragments user.now) }) }
    {
        let own = self.group.own();
        let row = own_row(&self.reports, &self.fragments, own, self.group.boot(), user)?;
        Ok(Letter {
            from: own,
            to,
            epoch,
            ticket: None,
            body: Body::Report { row },
        })
    }

    fn reports_of(
        &self,
        alloc: Global,
        epoch: EpochId,
        to: NodeNo,
        users: &[Name],
    ) -> Result<Sequence<Letter>, AllocError>
        ensures { IfOk result (λ letters. letters ≡ map (λ user. record { from = own_of self.now; to = to; epoch = epoch; ticket = None; body = Report (row_of (own_of self.now) self.now.group.boot self.now.reports self.now.fragments user) }) users.now) }
    {
        let mut letters = no_letters(alloc);
        for user in users {
            letters.push(self.report_of(epoch, to, user)?)?;
        }
        Ok(letters)
    }

    // The first reports that are due to that node in this membership.
    fn reports_in(
        &self,
        alloc: Global,
        install: &Install,
        to: NodeNo,
        most: usize,
    ) -> Result<Sequence<Letter>, AllocError>
        ensures letters { IfOk result (λ letters. letters ≡ map (λ user. record { from = own_of self.now; to = to; epoch = install.now.epoch; ticket = None; body = Report (row_of (own_of self.now) self.now.group.boot self.now.reports self.now.fragments user) }) (due_users install.now.map to most self.now.reports)) }
        ensures in_order { IsStrictlySortedBy (slice_cmp nat_cmp) (marked_users self.now.reports) }
    {
        let users = self.reports.due(&install.map, to, most)?;
        self.reports_of(alloc, install.epoch, to, users.as_slice())
    }

    /// The Reports of the first rows that are due to another node, as many as are wanted and in the order of names; none where
    /// no epoch is installed. The rows stay due until they are acknowledged.
    ///
    /// # Errors
    ///
    /// Only out of memory.
    pub fn report(
        &self,
        alloc: Global,
        to: NodeNo,
        most: usize,
    ) -> Result<Sequence<Letter>, AllocError>
        requires { to ≢ own_of self.now }
        ensures reports { ReportsAs to most result self.now }
        ensures in_order { (membership : Membership) → self.now.group.installed ≡ Some membership → IsStrictlySortedBy (slice_cmp nat_cmp) (marked_users self.now.reports) }
    {
        match self.group.installed() {
            Some(install) => self.reports_in(alloc, install, to, most),
            None => Ok(no_letters(alloc)),
        }
    }

    /// Whether a row is due to the node: it manages a marked user in the epoch that is installed. It takes no memory, and stops
    /// at the first.
    pub fn owes_rows(&self, to: NodeNo) -> bool
        ensures { IsTrue result ↔ HasRowFor to (node_of self.now) }
    {
        match self.group.installed() {
            Some(install) => self.reports.is_due(&install.map, to),
            None => false,
        }
    }
}
