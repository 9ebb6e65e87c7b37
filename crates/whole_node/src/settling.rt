//! Whether a node owes nobody anything.
ghost use Rattle.std.specs.Prelude.{◌≡◌, ◌↔◌, IsTrue};
ghost use Rattle.whole_node.specs.Nodes.{whole_seen};
ghost use Rattle.whole_node.specs.Settling.{has_no_marks, owes_nobody, OwesNobody};

use crate::node::WholeNode;

impl WholeNode {
    fn has_no_marks(&self) -> bool
        ensures { result ≡ has_no_marks self.now }
    {
        self.maps.reports().len() == 0
    }

    fn owes_nobody(&self) -> bool
        ensures { result ≡ owes_nobody self.now }
    {
        self.mail.is_settled() && self.has_no_marks()
    }

    /// Whether nothing is owed to another member of the epoch that is installed, and no row is due to any manager. It takes no
    /// memory, and at most a pass over the update log for each member.
    pub fn is_settled(&self) -> bool
        ensures test { result ≡ owes_nobody self.now }
        ensures settled { IsTrue result ↔ OwesNobody self.now.mail.store.own (whole_seen self.now) }
    {
        self.owes_nobody()
    }
}
