// What the words ask for.
ghost use Rattle.std.specs.Prelude.{◌≤◌, IfSome};

/// What the world stands behind.
#[derive(Clone, Copy, Debug, PartialEq, Eq)]
pub enum Lock {
    /// A board.
    Board,
    /// A Mutex of the standard library.
    Mutex,
}

/// What a thread does in a round.
#[derive(Clone, Copy, Debug, PartialEq, Eq)]
pub enum Work {
    /// It looks at the life of the node: one turn, and no step.
    Look,
    /// It sends a message and asks for it: two turns, and a step each.
    Send,
}

/// What is to be done.
#[derive(Clone, Copy, Debug, PartialEq, Eq)]
pub struct Job {
    /// The lock.
    pub lock: Lock,
    /// The work.
    pub work: Work,
    /// How many threads do it.
    pub threads: u32,
    /// How many rounds each makes.
    pub rounds: u32,
}

fn lock_of(word: &str) -> Option<Lock> {
    match word {
        "board" => Some(Lock::Board),
        "mutex" => Some(Lock::Mutex),
        _ => None,
    }
}

fn work_of(word: &str) -> Option<Work> {
    match word {
        "look" => Some(Work::Look),
        "send" => Some(Work::Send),
        _ => None,
    }
}

// A number of threads: 1 to 16.
fn threads_of(word: &str) -> Option<u32>
    ensures { IfSome result (λ threads. (1 ≤ threads) × (threads ≤ 16)) }
{
    let threads = word.parse::<u32>().ok()?;
    if threads < 1 || threads > 16 {
        return None;
    }
    Some(threads)
}

/// What these words ask for; nothing where they are others.
pub fn job_of(words: &[String]) -> Option<Job>
    ensures { IfSome result (λ job. (1 ≤ job.threads) × (job.threads ≤ 16)) }
{
    match words {
        [lock, work, threads, rounds] => Some(Job {
            lock: lock_of(lock.as_str())?,
            work: work_of(work.as_str())?,
            threads: threads_of(threads.as_str())?,
            rounds: rounds.parse::<u32>().ok()?,
        }),
        _ => None,
    }
}
