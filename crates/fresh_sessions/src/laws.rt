// What is owed of the end of a run is kept.
ghost use Rattle.fresh_sessions.specs.Kept.{OwedSettledIsKept};

/// Where a cluster gives what it owes of the end of a run, a new session lists exactly what stands, and a map names exactly the fragments.
pub fn owed_settled_is_kept()
    ensures { OwedSettledIsKept }
{}
