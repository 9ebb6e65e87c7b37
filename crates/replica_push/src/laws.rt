//! What a replica does follows the rules of the cluster.
ghost use Rattle.replica_push.specs.Rules.{PushesFollow, WideningFollows, AcksFollow, RetiringFollows};

/// Where the disk says what the table holds, `hear_push` does to table, log and disk what a node does that takes a state by
/// the rules, once what it answers is recorded and, where no other node is a target, retired.
pub fn pushes_follow_rules()
    ensures { PushesFollow }
{}

/// What `widen` notes is what a node takes that widens by the rules.
pub fn widening_follows_rules()
    ensures { WideningFollows }
{}

/// `hear_ack` does to the log what a node does that hears PushAck, and answers Emptied exactly where the node records Retired.
pub fn acks_follow_rules()
    ensures { AcksFollow }
{}

/// `hear_retired` does to the log what a node does that hears Retire, and answers true exactly where the node records Retired.
pub fn retiring_follows_rules()
    ensures { RetiringFollows }
{}
