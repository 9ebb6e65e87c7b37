// The mail map of a manager.
ghost use Rattle.std.specs.Prelude.{◌≡◌, not, None, Some, ℕ, List, IfOk, OnOk, OnErr};
ghost use Rattle.std.specs.Option.{option_copied, option_map};
ghost use Rattle.std.specs.Ordering.{nat_cmp};
ghost use Rattle.std.specs.Cmp.Lexicographic.{slice_cmp};
ghost use Rattle.std.specs.BTreeMap as tree;
ghost use Rattle.object_model.specs.Sets.{has};
ghost use Rattle.mail_map.specs.Rows.{rows_of, is_older, told_row, HasSameRows, is_named};
ghost use Rattle.maps_model.specs.Rules.{set_row};
ghost use Rattle.mail_map.specs.Installs.{kept_rows};
ghost use Rattle.mail_map.specs.Profiles.{IsGreatest};

use crate::installs::keep_user;
use crate::profiles::greatest_profile;
use crate::rows::{has_newer, named_in, put};
use crate::teller::Teller;
use mail_base::{EpochId, Member, Name, NodeNo, NodeSet, Row, Secret, Stamp, UserMap};
use std::alloc::{AllocError, Global};
use std::collections::BTreeMap;

/// The rows that a manager was told, by user, node and boot.
#[derive(Drop)]
pub struct MailMap {
    alloc: Global,
    users: BTreeMap<Name, BTreeMap<Teller, Row>>,
}

impl MailMap {
    /// No rows. It takes no memory.
    pub fn new(alloc: Global) -> MailMap
        ensures { (n boot : ℕ) (user : List ℕ) → rows_of result n boot user ≡ None }
    {
        MailMap {
            alloc,
            users: BTreeMap::new(alloc),
        }
    }

    // Whether the row is older than the one that stands.
    fn is_older(&self, row: &Row) -> bool
        ensures { result ≡ is_older (rows_of self.now row.now.node row.now.boot row.now.user) row.now.version }
    {
        match self.users.get(&row.user) {
            Some(rows) => has_newer(rows, row),
            None => false,
        }
    }

    /// The members with a row of the user that says full. It takes no memory, and looks at no row of another user.
    pub fn named(&self, user: &Name, members: &[Member]) -> NodeSet
        ensures { (n : ℕ) → has result n ≡ is_named (rows_of self.now) user.now members.now n }
    {
        match self.users.get(user) {
            Some(rows) => named_in(rows, members),
            None => NodeSet::empty(),
        }
    }

    // Begins the user's rows with this one. None stands of the user.
    fn begin(&mut self, row: Row) -> Result<(), AllocError>
        requires { tree.get (slice_cmp nat_cmp) self.old.users row.user ≡ None }
        ensures ok { OnOk result ((n boot : ℕ) (user : List ℕ) → rows_of self.new n boot user ≡ set_row (rows_of self.old) row.node row.boot row.user row n boot user) }
        ensures err { OnErr result (HasSameRows self.old self.new) }
    {
        let user = row.user.copy()?;
        let mut first = BTreeMap::new(self.alloc);
        put(&mut first, row)?;
        self.users.insert(user, first)?;
        Ok(())
    }

    /// Puts the row in place of the one of its user, node and boot, whatever its version: a manager's own row, which is never
    /// older than what it told before. It takes time logarithmic in the number of users and in that of the user's rows.
    ///
    /// # Errors
    ///
    /// Only out of memory; the rows are then as before.
    pub fn set(&mut self, row: &Row) -> Result<(), AllocError>
        ensures ok { OnOk result ((n boot : ℕ) (user : List ℕ) → rows_of self.new n boot user ≡ set_row (rows_of self.old) row.now.node row.now.boot row.now.user row.now n boot user) }
        ensures err { OnErr result (HasSameRows self.old self.new) }
    {
        let copy = row.copy()?;
        match self.users.get_mut(&row.user) {
            Some(rows) => put(rows, copy),
            None => self.begin(copy),
        }
    }

    /// Takes the row, unless it is older than the one of its user, node and boot that stands: false exactly where it is. Of
    /// equal versions the later told stands. It takes time logarithmic in the number of users and in that of the user's rows.
    ///
    /// # Errors
    ///
    /// Only out of memory; the rows are then as before.
    pub fn tell(&mut self, row: &Row) -> Result<bool, AllocError>
        ensures taken { IfOk result (λ taken. taken ≡ not (is_older (rows_of self.old row.now.node row.now.boot row.now.user) row.now.version)) }
        ensures rows { OnOk result ((n boot : ℕ) (user : List ℕ) → rows_of self.new n boot user ≡ told_row row.now (rows_of self.old) n boot user) }
        ensures err { OnErr result (HasSameRows self.old self.new) }
    {
        if self.is_older(row) {
            return Ok(false);
        }
        self.set(row)?;
        Ok(true)
    }

    /// Keeps the rows of users whom the node manages by its old and its new map, told by members in the same boot that come
    /// from the epoch `was`, the node's own before this install. All other rows are dropped. It takes no memory, and looks at
    /// each user and each row once.
    pub fn install(
        &mut self,
        own: NodeNo,
        old: Option<&UserMap>,
        new: &UserMap,
        was: EpochId,
        members: &[Member],
    )
        ensures { (n boot : ℕ) (user : List ℕ) → rows_of self.new n boot user ≡ kept_rows own (option_copied old.entry) new.now was members.now (rows_of self.old) n boot user }
    {
        self.users.retain(|user, rows| keep_user(own, old, new, was, members, user, rows));
    }

    /// The greatest profile among the rows of the user: of the latest stamp, and the greatest secret at one stamp. Nothing
    /// exactly where no row has one. It takes no memory, and looks at the rows of this user alone.
    pub fn profile(&self, user: &Name) -> Option<(Stamp, &Secret)>
        ensures { IsGreatest (λ n boot. rows_of self.now n boot user.now) (option_map (λ p. (p.0, p.1.now)) result) }
    {
        match self.users.get(user) {
            Some(rows) => greatest_profile(rows),
            None => None,
        }
    }
}
