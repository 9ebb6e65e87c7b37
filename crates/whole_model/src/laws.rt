// The laws of a whole cluster.
ghost use Rattle.whole_model.specs.Laws.{MovesKeepSound, MessagesLeadMaps, FallsLeadMaps, HearsOfMessages, MembershipIsAct, MembershipLeadsMaps, PromisesAreSeen};

/// Whatever moves are made, the invariant of messages and that of membership and maps stay.
pub fn moves_keep_sound()
    ensures { MovesKeepSound }
{}

/// What a node does for messages leads its maps along.
pub fn messages_lead_maps()
    ensures { MessagesLeadMaps }
{}

/// A node that goes down in its work leads its maps along.
pub fn falls_lead_maps()
    ensures { FallsLeadMaps }
{}

/// A node that hears a letter of messages appends records of messages alone, and sends letters of messages
/// alone.
pub fn hears_of_messages()
    ensures { HearsOfMessages }
{}

/// What a node does for membership and maps is an act for messages.
pub fn membership_is_act()
    ensures { MembershipIsAct }
{}

/// A rule of membership and maps leads the maps along.
pub fn membership_leads_maps()
    ensures { MembershipLeadsMaps }
{}

/// The record of a promise is what maps see of it.
pub fn promises_are_seen()
    ensures { PromisesAreSeen }
{}
