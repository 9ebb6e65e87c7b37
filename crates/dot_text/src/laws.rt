// Laws over the definitions of lines and texts, each a function that does nothing.
ghost use Rattle.dot_text.specs.Laws.{LinesAreOne, LinesAreAll, TextsAreOne, BegunHasNoText, RoundTrips, DotsAreOne};
ghost use Rattle.dot_text.specs.Worked.{Received, Sent};

/// However the octets came, the same takes off them give the same lines and leave the same rest.
pub fn lines_are_one()
    ensures { LinesAreOne }
{}

/// Where nothing was skipped and no whole line is left, the lines are those of the octets, and all of them.
pub fn lines_are_all()
    ensures { LinesAreAll }
{}

/// Octets begin with one text at most.
pub fn texts_are_one()
    ensures { TextsAreOne }
{}

/// Octets of a text that has not ended begin with no whole text.
pub fn begun_texts_have_no_end()
    ensures { BegunHasNoText }
{}

/// What `dot_into` makes of a text, with anything after it, is read back as the text: just its octets
/// are used.
pub fn texts_are_read_back()
    ensures { RoundTrips }
{}

/// What `dot_into` makes of a text is determined by the text.
pub fn texts_are_sent_in_one_way()
    ensures { DotsAreOne }
{}

/// The definition of a text that is received holds where it was worked by hand.
pub fn worked_as_received()
    ensures { Received }
{}

/// The definition of a text that is sent holds where it was worked by hand.
pub fn worked_as_sent()
    ensures { Sent }
{}
