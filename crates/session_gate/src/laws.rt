//! A law about replies that are written late.
ghost use Rattle.session_gate.specs.Late.{LateRepliesAreRefused};

/// Where two calls were answered and only the greeting is written, the first reply was not written in time.
pub fn late_replies_are_refused()
    ensures { LateRepliesAreRefused }
{}
