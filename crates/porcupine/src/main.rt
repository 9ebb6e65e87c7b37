//! porcupine: the program.
//!
//! It reads its words and does what they name. `serve` serves the cluster of a plan file to mail
//! programs, until standard input has the line `stop`. `drive` reads a tape from standard input and
//! writes the transcript to standard output: what a cluster of 1 to 16 nodes, each with a fresh store,
//! says to the sessions of the tape. `storm` writes a tape that is drawn from a number, and `check` says
//! whether a plan file keeps its rules. `main` makes a source and a sink of what the system gives, ends
//! with the status that the call `run` of `porcupine_server` answers, and where the words are of no
//! form tells the forms on standard error. Whatever can be said of the program is said there: nothing
//! stands on a program, so there is nothing here but `main`.
#![tactic(auto)]

use command_words::USAGE;
use io_edge::{ReadSource, WriteSink};
use porcupine_server::run;
use std::env;
use std::io::BufReader;
use std::process::ExitCode;

fn main(rt: HostRuntime) -> ExitCode {
    // A tape and a console are read octet by octet. Without memory for the buffer the status is that of out of memory.
    let Ok(input) = BufReader::new(rt.alloc(), rt.stdin()) else {
        return ExitCode::from(7);
    };
    let mut source = ReadSource::new(input);
    let mut sink = WriteSink::new(rt.stdout());
    let status = run(&rt, env::args(&rt), &mut source, &mut sink);
    if status == 1 {
        // That it could not be told changes nothing.
        let _ = eprint!(rt; "{USAGE}");
    }
    ExitCode::from(status)
}
