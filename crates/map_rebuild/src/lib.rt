//! map_rebuild: which of its rows a node has still to report to their managers.
//!
//! SUMMARY
//!
//! A node tells the manager of a user whether it holds a message of the user, and which profile. That is
//! its row of the user. `Reports` remembers each row's version and which users are marked, so that the
//! mail maps of all managers come to agree with what the nodes hold.
//!
//! DESCRIPTION
//!
//! A row's version is 0 when a boot begins. `Reports::mark_user` notes a change: the version rises by one
//! and the user is marked. `Reports::due` gives the first marked users of one manager, and
//! `Reports::is_due` tells whether there is any. `Reports::report_acknowledged` clears a mark only where
//! the version that was acknowledged is still the row's; else the row has changed since, and is reported
//! again. `Reports::told` clears the mark of a user whose manager is the node itself.
//!
//! `Reports::mark_bucket` marks the users of one bucket at an install of a new epoch. Marks made earlier
//! stay, and versions stay. `Reports::marked_at_install` counts the marks that the last install made. A
//! user who was marked before is not counted.
//!
//! Contracts ask of each user for the version and the mark, as the machine of `maps_model` does. The laws
//! say that a change, an acknowledgement, a report and an install are to versions and marks what they are
//! to that machine, and that an install counts at most as many marks as users are named to it.
//!
//! STANDS ON
//!
//! `mail_base` for names, epochs and maps of users, `user_map` for who manages a user, `maps_model` for what
//! a node does with marks.
//!
//! WHAT IT DOES NOT DO
//!
//! It keeps no rows and sends nothing. Which users an install has to mark says who calls `mark_bucket`.
#![tactic(auto)]

mod laws;
mod marks;
mod reports;
mod versions;

pub use laws::{
    acknowledges_as_the_machine, changes_as_the_machine, due_are_given, installs_as_the_machine,
    installs_count_at_most, marked_are_listed, reports_as_the_machine, tells_as_the_machine,
};
pub use reports::Reports;
