// The laws: functions that do nothing, whose contracts hold of the definitions alone.
ghost use Rattle.cluster_owes.specs.Laws.{ClusterOwes, AnswersFit, NoneWaits};

/// Whatever steps a cluster makes from its opening on, it gives what it owes of its calls.
pub fn cluster_owes()
    ensures { ClusterOwes }
{}

/// Each call that was answered was answered by an answer of its kind.
pub fn answers_fit()
    ensures { AnswersFit }
{}
/// In a plan of one node no call that has begun ever waits.
pub fn none_waits()
    ensures { NoneWaits }
{}
