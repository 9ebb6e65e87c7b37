// Messages that come to be here, or are here no more.
ghost use Rattle.std.specs.Prelude.{◌≡◌, ◌+◌, ◌<◌, ◌^◌, OnOk};
ghost use Rattle.std.specs.Option.{option_copied};
ghost use Rattle.maps_model.specs.Cluster.{manages_in};
ghost use Rattle.map_rebuild.specs.Rows.{version_of};
ghost use Rattle.node_maps.specs.Rounds.{Turns, TellsOwn, NotesMessage};

use crate::entering::own_row;
use crate::maps::NodeMaps;
use mail_base::{MsgId, Name, NodeNo};
use membership::Install;
use std::alloc::AllocError;
use user_map::manages;

// Whether the node manages the user by what it has installed.
fn manages_in(installed: Option<&Install>, own: NodeNo, user: &Name) -> bool
    ensures { result ≡ manages_in (option_copied installed.entry) own user.now }
{
    match installed {
        Some(install) => manages(&install.map, own, user),
        None => false,
    }
}

impl NodeMaps {
    // Notes a change of the row of a user whom the node manages itself, and tells it.
    fn tell_own(&mut self, user: &Name) -> Result<(), AllocError>
        requires { version_of self.old.reports user.now + 1 < 2 ^ 64 }
        ensures { OnOk result (TellsOwn user.now self.old self.new) }
    {
        let own = self.group.own();
        let boot = self.group.boot();
        self.reports.raise(user)?;
        let row = own_row(&self.reports, &self.fragments, own, boot, user)?;
        self.rows.set(&row)
    }

    // Notes a change of the row of a user.
    fn turn(&mut self, user: &Name) -> Result<(), AllocError>
        requires { version_of self.old.reports user.now + 1 < 2 ^ 64 }
        ensures { OnOk result (Turns user.now self.old self.new) }
    {
        if manages_in(self.group.installed(), self.group.own(), user) {
            self.tell_own(user)?;
        } else {
            self.reports.mark_user(user)?;
        }
        Ok(())
    }

    /// Notes whether the user's message is here, once the disk says so. Where the user became full or empty, the node's row of
    /// the user has a new version: it is due, or where the node manages the user itself, its own map is told.
    ///
    /// # Errors
    ///
    /// Only out of memory. Nothing is then said of the node, which has to go down.
    pub fn note(&mut self, user: &Name, id: MsgId, here: bool) -> Result<(), AllocError>
        requires { version_of self.old.reports user.now + 1 < 2 ^ 64 }
        ensures { OnOk result (NotesMessage user.now id here self.old self.new) }
    {
        if self.fragments.set(user, id, here)? {
            self.turn(user)?;
        }
        Ok(())
    }
}
