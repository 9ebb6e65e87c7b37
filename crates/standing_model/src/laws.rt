// What stands is one set of messages.
ghost use Rattle.standing_model.specs.Laws.{StandingIsOneSet};

/// Two lists of what stands have the same messages.
pub fn standing_is_one_set()
    ensures { StandingIsOneSet }
{}
