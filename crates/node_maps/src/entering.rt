// A membership that a node enters: which rows it keeps, tells and makes due.
ghost use Rattle.std.specs.Prelude.{◌≡◌, false, not, ℕ, List, IfOk, OnOk};
ghost use Rattle.std.specs.List.{filter};
ghost use Rattle.std.specs.Option.{option_copied};
ghost use Rattle.maps_model.specs.Cluster.{epoch_in, manager_of, member_of};
ghost use Rattle.maps_model.specs.Rules.{set_row};
ghost use Rattle.object_model.specs.Keys.{is_same_epoch};
ghost use Rattle.mail_map.specs.Rows.{rows_of};
ghost use Rattle.mail_map.specs.Laws.{map_in};
ghost use Rattle.map_rebuild.specs.Rows.{SetsMark, KeepsVersions};
ghost use Rattle.map_rebuild.specs.Laws.{TellsUsers};
ghost use Rattle.node_maps.specs.Nodes.{row_of};
ghost use Rattle.node_maps.specs.Entering.{came_from, is_kept_by, is_spared, told_in, Enters, EntersAs};

use crate::maps::NodeMaps;
use mail_base::{EpochId, Member, Name, NodeNo, Row, UserMap, bucket_of};
use mail_map::MailMap;
use mailbox_fragment::Fragments;
use map_rebuild::Reports;
use membership::{Group, Install};
use std::alloc::{AllocError, Global};

/// The membership that is installed, once more.
pub(crate) fn copy_installed(group: &Group) -> Result<Option<Install>, AllocError>
    ensures { IfOk result (λ copy. copy ≡ group.now.installed) }
{
    match group.installed() {
        Some(install) => Ok(Some(install.copy()?)),
        None => Ok(None),
    }
}

fn map_of(installed: &Option<Install>) -> Option<&UserMap>
    ensures { option_copied result ≡ map_in installed.now }
{
    match installed {
        Some(install) => Some(&install.map),
        None => None,
    }
}

fn epoch_of(installed: &Option<Install>) -> EpochId
    ensures { result ≡ epoch_in installed.now }
{
    match installed {
        Some(install) => install.epoch,
        None => EpochId::none(),
    }
}

// Who manages the user.
fn manager_of(install: &Install, user: &Name) -> Option<NodeNo>
    ensures { result ≡ manager_of install.now user.now }
{
    let buckets = install.map.buckets();
    if buckets == 0 {
        return None;
    }
    install.map.manager_of(bucket_of(user, buckets))
}

fn is_same(a: EpochId, b: EpochId) -> bool
    ensures { result ≡ is_same_epoch a b }
{
    a.count == b.count && a.node == b.node
}

// Whether the first of these members with that number comes from the epoch.
fn comes_from(members: &[Member], node: NodeNo, epoch: EpochId) -> bool
    ensures { result ≡ came_from (member_of members.now node) epoch }
{
    for member in members {
        if member.node == node {
            return is_same(member.was, epoch);
        }
    }
    false
}

// Whether the user's manager stayed the same, and comes from the node's own old epoch.
fn is_kept_by(old: &Install, new: &Install, user: &Name) -> bool
    ensures { result ≡ is_kept_by old.now new.now user.now }
{
    match manager_of(old, user) {
        Some(manager) => match manager_of(new, user) {
            Some(next) => {
                manager == next && comes_from(new.members.as_slice(), manager, old.epoch)
            }
            None => false,
        },
        None => false,
    }
}

fn is_spared(old: &Option<Install>, new: &Install, user: &Name) -> bool
    ensures { result ≡ is_spared old.now new.now user.now }
{
    match old {
        Some(old) => is_kept_by(old, new, user),
        None => false,
    }
}

// Those of the users who are not spared.
fn unspared(
    alloc: Global,
    old: &Option<Install>,
    new: &Install,
    users: &[Name],
) -> Result<Vec<Name>, AllocError>
    ensures { IfOk result (λ due. due.items ≡ filter (λ user. not (is_spared old.now new.now user)) users.now) }
{
    let mut due = Vec::new(alloc);
    for user in users {
        if !is_spared(old, new, user) {
            due.push(user.copy()?)?;
        }
    }
    Ok(due)
}

/// What the node says of a user.
pub(crate) fn own_row(
    reports: &Reports,
    fragments: &Fragments,
    own: NodeNo,
    boot: u32,
    user: &Name,
) -> Result<Row, AllocError>
    ensures { IfOk result (λ row. row ≡ row_of own boot reports.now fragments.now user.now) }
{
    Ok(Row {
        user: user.copy()?,
        node: own,
        boot,
        version: reports.version(user),
        full: !fragments.is_empty(user),
        profile: None,
    })
}

// The node tells itself its row of a user.
fn tell(
    rows: &mut MailMap,
    reports: &mut Reports,
    fragments: &Fragments,
    own: NodeNo,
    boot: u32,
    user: &Name,
) -> Result<(), AllocError>
    ensures rows { OnOk result ((n b : ℕ) (u : List ℕ) → rows_of rows.new n b u ≡ set_row (rows_of rows.old) own boot user.now (row_of own boot reports.old fragments.now user.now) n b u) }
    ensures marks { OnOk result (SetsMark reports.old reports.new user.now false) }
    ensures versions { KeepsVersions reports.old reports.new }
{
    let row = own_row(reports, fragments, own, boot, user)?;
    rows.set(&row)?;
    reports.told(user);
    Ok(())
}

// And of all these users.
fn tell_all(
    rows: &mut MailMap,
    reports: &mut Reports,
    fragments: &Fragments,
    own: NodeNo,
    boot: u32,
    users: &[Name],
) -> Result<(), AllocError>
    ensures rows { OnOk result ((n b : ℕ) (u : List ℕ) → rows_of rows.new n b u ≡ told_in own boot (row_of own boot reports.old fragments.now) users.now (rows_of rows.old) n b u) }
    ensures marks { OnOk result (TellsUsers users.now reports.old reports.new) }
{
    for user in users {
        tell(rows, reports, fragments, own, boot, user)?;
    }
    Ok(())
}

// Rows of a node that enters a membership, and which of its own are due. Where memory runs out, only some of it may be done.
fn enter(
    alloc: Global,
    rows: &mut MailMap,
    reports: &mut Reports,
    fragments: &Fragments,
    own: NodeNo,
    boot: u32,
    old: &Option<Install>,
    new: &Install,
) -> Result<(), AllocError>
    ensures { OnOk result (Enters own boot old.now new.now fragments.now rows.old reports.old rows.new reports.new) }
{
    let held = fragments.users()?;
    let due = unspared(alloc, old, new, held.as_slice())?;
    reports.mark_bucket(&due, new.epoch)?;
    let told = reports.due(&new.map, own, reports.len())?;
    rows.install(
        own,
        map_of(old),
        &new.map,
        epoch_of(old),
        new.members.as_slice(),
    );
    tell_all(rows, reports, fragments, own, boot, told.as_slice())?;
    Ok(())
}

impl NodeMaps {
    /// Makes of rows, and of which are due, what entering the membership makes of them. It is installed already, instead of `old`.
    pub(crate) fn enter(
        &mut self,
        alloc: Global,
        old: &Option<Install>,
        new: &Install,
    ) -> Result<(), AllocError>
        ensures { OnOk result (EntersAs old.now new.now self.old self.new) }
    {
        let own = self.group.own();
        let boot = self.group.boot();
        enter(
            alloc,
            &mut self.rows,
            &mut self.reports,
            &self.fragments,
            own,
            boot,
            old,
            new,
        )?;
        Ok(())
    }
}
