//! The epoch by which messages go.
ghost use Rattle.std.specs.Prelude.{◌≡◌, true, IfOk, OnOk, OnErr, if◌then◌else◌};
ghost use Rattle.object_model.specs.Keys.{is_same_epoch};
ghost use Rattle.object_model.specs.Locks.{no_locks};
ghost use Rattle.cluster_model.specs.Cluster.{epoch_of};
ghost use Rattle.mail_base.specs.Bodies.{body_seen};
ghost use Rattle.node_core.specs.Nodes.{node_seen};
ghost use Rattle.node_core.specs.Installing.{HasInstalled};
ghost use Rattle.node_maps.specs.Nodes.{node_of};
ghost use Rattle.whole_node.specs.Nodes.{KeepsBeside};
ghost use Rattle.whole_node.specs.Hearing.{is_install, SharesInstall};

use crate::hearing::is_install;
use crate::node::WholeNode;
use mail_base::{Body, EpochId};
use membership::{Group, Install};
use std::alloc::AllocError;

fn is_same(a: EpochId, b: EpochId) -> bool
    ensures { result ≡ is_same_epoch a b }
{
    a.count == b.count && a.node == b.node
}

// What is installed, once more.
fn copy_installed(group: &Group) -> Result<Option<Install>, AllocError>
    ensures { IfOk result (λ copy. copy ≡ group.now.installed) }
{
    match group.installed() {
        Some(install) => Ok(Some(install.copy()?)),
        None => Ok(None),
    }
}

impl WholeNode {
    /// Messages go by the epoch that the maps have installed from now on.
    ///
    /// # Errors
    ///
    /// Only out of memory, and nothing changes.
    pub(crate) fn share_epoch(&mut self) -> Result<(), AllocError>
        ensures shares { OnOk result (HasInstalled (node_of self.old.maps).installed self.old.mail self.new.mail) }
        ensures kept { OnErr result (self.new.mail ≡ self.old.mail) }
        ensures maps { self.new.maps ≡ self.old.maps }
        ensures beside { KeepsBeside self.old self.new }
    {
        let copied = copy_installed(self.maps.group())?;
        self.mail.install(copied);
        Ok(())
    }

    /// So they do after an Install.
    pub(crate) fn share_after(&mut self, body: &Body) -> Result<(), AllocError>
        ensures shares { OnOk result (SharesInstall (body_seen body.now) (node_of self.old.maps).installed self.old.mail self.new.mail) }
        ensures install { OnErr result (is_install (body_seen body.now) ≡ true) }
        ensures kept { OnErr result (self.new.mail ≡ self.old.mail) }
        ensures maps { self.new.maps ≡ self.old.maps }
        ensures beside { KeepsBeside self.old self.new }
    {
        if is_install(body) {
            self.share_epoch()?;
            return Ok(());
        }
        Ok(())
    }

    /// All locks are let go where another epoch than this one is installed. It takes no memory.
    pub(crate) fn keep_locks(&mut self, before: EpochId)
        ensures locks { self.new.locks ≡ (if is_same_epoch before (epoch_of (node_seen self.old.mail)) then self.old.locks else no_locks) }
        ensures mail { self.new.mail ≡ self.old.mail }
        ensures maps { self.new.maps ≡ self.old.maps }
        ensures reads { self.new.reads ≡ self.old.reads }
    {
        if !is_same(before, self.mail.epoch()) {
            self.locks.clear();
        }
    }
}
