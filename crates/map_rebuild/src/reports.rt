// Versions and marks of a node's rows.
ghost use Rattle.std.specs.Prelude.{◌≡◌, ◌↔◌, ◌≤◌, ◌+◌, ◌-◌, ◌<◌, ◌^◌, length, List, [], ℕ, true, false, IsTrue, IfOk, OnOk, OnErr};
ghost use Rattle.std.specs.Ordering.{nat_cmp};
ghost use Rattle.std.specs.Cmp.Lexicographic.{slice_cmp};
ghost use Rattle.std.specs.List.Sorted.{IsStrictlySortedBy};
ghost use Rattle.mail_model.specs.Identity.{no_epoch};
ghost use Rattle.map_rebuild.specs.Rows.{version_of, is_marked, marked_users, install_epoch, marks_of_install, HasSameReports, KeepsVersions, KeepsMarks, SetsVersion, SetsMark, ClearsMark, MarksUsers, is_due_at, KeepsCount, counted_before, counted_after, due_users, is_any_due, ManagesMarked};

use crate::marks::{any_due_in, due_in, has, put, put_all, take_out};
use crate::versions::{set_version, version_in};
use mail_base::{EpochId, Name, Names, NodeNo, UserMap};
use std::alloc::{AllocError, Global};
use std::collections::{BTreeMap, BTreeSet};

/// The versions of a node's rows in this boot, and the users whose rows are still to be reported.
#[derive(Drop)]
pub struct Reports {
    alloc: Global,
    versions: BTreeMap<Name, u64>,
    marked: BTreeSet<Name>,
    // The last install that marked, and how many marks it made.
    epoch: EpochId,
    at_install: u64,
}

impl Reports {
    /// No version, no mark, and no install. It takes no memory.
    pub fn new(alloc: Global) -> Reports
        ensures versions { (user : List ℕ) → version_of result user ≡ 0 }
        ensures marks { (user : List ℕ) → is_marked result user ≡ false }
        ensures epoch { install_epoch result ≡ no_epoch }
        ensures count { marks_of_install result ≡ 0 }
    {
        Reports {
            alloc,
            versions: BTreeMap::new(alloc),
            marked: BTreeSet::new(alloc),
            epoch: EpochId::none(),
            at_install: 0,
        }
    }

    /// Notes a change of the user's row: its version rises by one, and the user is marked. It answers the version.
    ///
    /// # Errors
    ///
    /// Only out of memory; all is then as before.
    pub fn mark_user(&mut self, user: &Name) -> Result<u64, AllocError>
        requires { version_of self.old user.now + 1 < 2 ^ 64 }
        ensures answer { IfOk result (λ version. version ≡ version_of self.old user.now + 1) }
        ensures versions { OnOk result (SetsVersion self.old self.new user.now (version_of self.old user.now + 1)) }
        ensures marks { OnOk result (SetsMark self.old self.new user.now true) }
        ensures count { KeepsCount self.old self.new }
        ensures err { OnErr result (HasSameReports self.old self.new) }
    {
        let version = version_in(&self.versions, user) + 1;
        let fresh = put(&mut self.marked, user)?;
        match set_version(&mut self.versions, user, version) {
            Ok(()) => Ok(version),
            Err(refused) => {
                if fresh {
                    take_out(&mut self.marked, user);
                }
                Err(refused)
            }
        }
    }

    /// Notes a change of the row of a user whom the node manages itself: its version rises by one, and marks stay. The node
    /// tells its own map that version in the same step. It answers the version.
    ///
    /// # Errors
    ///
    /// Only out of memory; all is then as before.
    pub fn raise(&mut self, user: &Name) -> Result<u64, AllocError>
        requires { version_of self.old user.now + 1 < 2 ^ 64 }
        ensures answer { IfOk result (λ version. version ≡ version_of self.old user.now + 1) }
        ensures versions { OnOk result (SetsVersion self.old self.new user.now (version_of self.old user.now + 1)) }
        ensures marks { KeepsMarks self.old self.new }
        ensures count { KeepsCount self.old self.new }
        ensures err { OnErr result (HasSameReports self.old self.new) }
    {
        let version = version_in(&self.versions, user) + 1;
        set_version(&mut self.versions, user, version)?;
        Ok(version)
    }

    /// Takes the user's mark away, where one stands: the node manages the user itself and has told its row. Versions stay.
    /// It takes no memory.
    pub fn told(&mut self, user: &Name)
        ensures marks { SetsMark self.old self.new user.now false }
        ensures versions { KeepsVersions self.old self.new }
        ensures count { KeepsCount self.old self.new }
    {
        take_out(&mut self.marked, user);
    }

    /// Marks these users, since an install of this epoch gave their bucket to a manager who has to be told. Versions
    /// stay, and so do earlier marks. It is called once for each bucket of each install, with no users too: the first call of
    /// an epoch begins the count of `marked_at_install` at 0. Each user is copied.
    ///
    /// # Errors
    ///
    /// Only out of memory; all is then as before.
    pub fn mark_bucket(&mut self, users: &[Name], epoch: EpochId) -> Result<(), AllocError>
        ensures marks { OnOk result (MarksUsers self.old self.new users.now) }
        ensures versions { KeepsVersions self.old self.new }
        ensures epoch { OnOk result (install_epoch self.new ≡ epoch) }
        ensures count { OnOk result (marks_of_install self.new ≡ counted_after epoch self.old self.new) }
        ensures bound { OnOk result (marks_of_install self.new ≤ counted_before epoch self.old + length users.now) }
        ensures err { OnErr result (HasSameReports self.old self.new) }
    {
        let before = self.marked.len();
        put_all(self.alloc, &mut self.marked, users)?;
        let made = (self.marked.len() - before) as u64;
        let counted = if self.epoch == epoch {
            self.at_install
        } else {
            0
        };
        self.epoch = epoch;
        self.at_install = counted.saturating_add(made);
        Ok(())
    }

    /// The version of the user's row, 0 where it never changed. It takes no memory.
    pub fn version(&self, user: &Name) -> u64
        ensures { result ≡ version_of self.now user.now }
    {
        version_in(&self.versions, user)
    }

    /// The first marked users, as many as are wanted and in the order of their names, whom the node manages by this map. It
    /// goes through the marked users in that order and stops once it has found so many.
    ///
    /// # Errors
    ///
    /// Only out of memory.
    pub fn due(&self, map: &UserMap, to: NodeNo, most: usize) -> Result<Names, AllocError>
        ensures users { IfOk result (λ users. users ≡ due_users map.now to most self.now) }
        ensures in_order { IsStrictlySortedBy (slice_cmp nat_cmp) (marked_users self.now) }
    {
        due_in(&self.marked, self.alloc, map, to, most)
    }

    /// Whether the node manages a marked user by this map: a row is due to it. It goes through the marked users in the order of
    /// their names, takes no memory, and stops at the first.
    pub fn is_due(&self, map: &UserMap, to: NodeNo) -> bool
        ensures any { result ≡ is_any_due map.now to self.now }
        ensures due { IsTrue result ↔ ManagesMarked map.now to self.now }
    {
        any_due_in(&self.marked, map, to)
    }

    /// The manager has the user's row of this version: the mark is cleared. False, with nothing changed, exactly where no
    /// mark of the user stands or the row's version is another. It takes no memory.
    pub fn report_acknowledged(&mut self, user: &Name, version: u64) -> bool
        ensures answer { result ≡ is_due_at self.old user.now version }
        ensures marks { ClearsMark result self.old self.new user.now }
        ensures versions { KeepsVersions self.old self.new }
        ensures count { KeepsCount self.old self.new }
    {
        if has(&self.marked, user) && self.version(user) == version {
            take_out(&mut self.marked, user);
            true
        } else {
            false
        }
    }

    /// How many marks the last install made. A user who was marked before is not counted. It takes no memory.
    pub fn marked_at_install(&self) -> u64
        ensures { result ≡ marks_of_install self.now }
    {
        self.at_install
    }

    /// How many users are marked. It takes no memory.
    pub fn len(&self) -> usize
        ensures { result ≡ length (marked_users self.now) }
    {
        self.marked.len()
    }

    /// Whether no user is marked. It takes no memory.
    pub fn is_clear(&self) -> bool
        ensures { IsTrue result ↔ (marked_users self.now ≡ []) }
    {
        self.marked.is_empty()
    }
}
