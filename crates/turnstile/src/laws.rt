//! Laws about histories that are shared out.
ghost use Rattle.turnstile.specs.Worked.{OneEntryServesOne};

/// A history of three entries is shared out between a pass that added the first and the last, and one that added the second. A
/// history of one entry cannot serve two passes that each claim it.
pub fn an_entry_serves_one_pass()
    ensures { OneEntryServesOne }
{}
