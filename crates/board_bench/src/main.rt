//! board_bench: threads take turns at a world, behind a board or behind a Mutex, so that their time can be taken.
//!
//! `board_bench LOCK WORK THREADS ROUNDS` opens a world of one node over a disk in memory. So many threads, 16 at most, make so
//! many rounds each, and it says how many turns they took. LOCK is `board` or `mutex`. WORK is `look`, a turn that looks at the
//! life of the node and makes no step, or `send`, two turns: a message begins, and is asked for.
//!
//! It takes no time itself, so it always prints the same: `bench/board.py` runs it with both locks in turns, and prints a table.
//! It ends with status 1 where the words are others, where memory runs out, and where a turn does not go as it is to.
#![tactic(auto)]

ghost use Rattle.std.specs.Prelude.{◌≤◌};

mod guarded;
mod shared;
mod words;

use crate::guarded::by_mutex;
use crate::shared::by_board;
use crate::words::{Job, Lock, job_of};
use board_trials::open_plain;
use std::alloc::Global;
use std::process::ExitCode;
use std::sync::Wait;
use std::thread::Threads;
use std::{env, io};

// The words after the program's name.
fn words_of(rt: &HostRuntime) -> io::Result<Vec<String>> {
    let mut words = Vec::new(rt.alloc());
    for word in env::args(rt)?.skip(1) {
        words.push(word)?;
    }
    Ok(words)
}

// How many turns were taken; nothing where one did not go as it is to.
fn done<R: Threads + Wait + Sync>(rt: &R, alloc: Global, job: Job) -> Option<u64>
    requires { 1 ≤ job.threads }
{
    let world = open_plain(alloc)?;
    match job.lock {
        Lock::Board => by_board(rt, alloc, world, job),
        Lock::Mutex => by_mutex(rt, alloc, world, job),
    }
}

fn main(rt: HostRuntime) -> ExitCode {
    let Ok(words) = words_of(&rt) else {
        return ExitCode::FAILURE;
    };
    let Some(job) = job_of(&words) else {
        return ExitCode::FAILURE;
    };
    match done(&rt, rt.alloc(), job) {
        Some(turns) => match println!(rt; "{turns} turns") {
            Ok(()) => ExitCode::SUCCESS,
            Err(_) => ExitCode::FAILURE,
        },
        None => ExitCode::FAILURE,
    }
}
