// What a disk says of a copy is one view of all its records.
ghost use Rattle.object_model.specs.Views.{HereIsSaid, GoneIsSaid};

/// Records say that a copy is here exactly where the join of its states is.
pub fn here_is_said()
    ensures { HereIsSaid }
{}

/// Records say that a copy is gone exactly where the join of its states is.
pub fn gone_is_said()
    ensures { GoneIsSaid }
{}
