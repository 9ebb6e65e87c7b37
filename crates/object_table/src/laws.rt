//! What holds of a table, whatever was taken and in whatever order.
ghost use Rattle.object_table.specs.Laws.{HoldsJoins, HoldsMerges, AnyOrder};

/// After any states were taken, an empty table holds for each object the join of its states among them: the greatest by value, stamp and secret, with the targets of all.
pub fn tables_hold_merges()
    ensures joins { HoldsJoins }
    ensures merges { HoldsMerges }
{}

/// The same states make equal tables, in whatever order and however often they are taken.
pub fn any_order()
    ensures { AnyOrder }
{}
