// Whole tapes, and a service, over an outside in memory.

mod clocks;
mod cluster_examples;
mod clusters;
mod command_line;
mod crashes;
mod deletions;
mod driving;
mod elsewhere;
mod examples;
mod faults;
mod fresh;
mod logins;
mod losses;
mod maildrops;
mod messages;
mod pieces;
mod plans;
mod prefixes;
mod recipients;
mod regroups;
mod replies;
mod run_lines;
mod serving;
mod settles;
mod store;
mod three_nodes;
mod word_forms;

use io_edge::{MemoryYard, Sink, SliceSource, VecSink, Yard};
use line_source::LineSource;
use node_disk::MemoryDisk;
use porcupine_server::drive_word;
use std::alloc::{AllocError, Global};
use std::process::Abort;
use std::test::Fail;
use store::Journal;

/// A plan of six lines, with the one user alice.
const PLAN: &[u8] = b"nodes 1\ncopies 1 1\nbuckets 1\nuser alice tanstaaf\npostmaster alice\ngo\n";

// The pieces, one after the other.
fn joined(alloc: Global, pieces: &[&[u8]]) -> Result<Vec<u8>, AllocError> {
    let mut octets = Vec::new(alloc);
    for piece in pieces {
        octets.extend_from_slice(piece)?;
    }
    Ok(octets)
}

// This octet so many times.
fn repeated(alloc: Global, octet: u8, count: usize) -> Result<Vec<u8>, AllocError> {
    let mut octets = Vec::new(alloc);
    octets.resize(count, octet)?;
    Ok(octets)
}

// The lines of a text, each with its LF.
fn lines_of<'a>(alloc: Global, text: &'a [u8]) -> Result<Vec<&'a [u8]>, AllocError> {
    let mut lines = Vec::new(alloc);
    for line in text.split_inclusive(|octet| *octet == b'\n') {
        lines.push(line)?;
    }
    Ok(lines)
}

/// What a run of the program left.
#[derive(Drop)]
struct Run {
    status: u8,
    transcript: Vec<u8>,
    /// The disk of node 1 that was given back, and an empty one where none was.
    disk: MemoryDisk,
}

// How many disks a yard of the tests has.
const DISKS: usize = 5;

// A yard of empty disks, of the first of which this call fails; none where it is 0.
fn yard_of(alloc: Global, failing: u64) -> Result<MemoryYard<MemoryDisk>, AllocError> {
    let mut disks = Vec::new(alloc);
    for place in 0..DISKS {
        let mut disk = MemoryDisk::new(alloc);
        if place == 0 {
            disk.fail_at(failing)?;
        }
        disks.push(disk)?;
    }
    Ok(MemoryYard::new(alloc, disks))
}

// What the word `drive` comes to. Whoever calls this sees none of the clauses of that call, which are long, and of which no test
// needs one.
fn answered<S: LineSource, K: Sink, Y: Yard>(
    alloc: Global,
    source: &mut S,
    sink: &mut K,
    yard: &mut Y,
) -> u8 {
    drive_word(alloc, source, sink, yard)
}

// Runs `drive` on the tape over the stores of this yard: the status and the transcript.
fn drive_over(alloc: Global, tape: &[u8], yard: &mut MemoryYard<MemoryDisk>) -> (u8, Vec<u8>) {
    let mut sink = VecSink::new(alloc);
    let status = answered(alloc, &mut SliceSource::new(tape), &mut sink, yard);
    (status, sink.held)
}

// Runs `drive` on the tape, over empty disks, of the first of which this call fails.
fn drive(alloc: Global, tape: &[u8], failing: u64) -> Result<Run, AllocError> {
    let mut yard = yard_of(alloc, failing)?;
    let (status, transcript) = drive_over(alloc, tape, &mut yard);
    let mut disk = MemoryDisk::new(alloc);
    for (_, node, last) in yard.returned {
        if node == 1 {
            disk = last;
        }
    }
    Ok(Run {
        status,
        transcript,
        disk,
    })
}

/// A tape, and what the program has to write for it.
///
/// It is written as lines, of which those that begin with two spaces are the program's.
#[derive(Drop)]
struct Script {
    alloc: Global,
    tape: Vec<u8>,
    wanted: Vec<u8>,
    /// The disk call that fails, the first being 1; none where it is 0.
    failing: u64,
}

impl Script {
    // A tape of these pieces of tables, of which no disk call fails.
    fn new(alloc: Global, pieces: &[&[u8]]) -> Result<Script, AllocError> {
        let mut script = Script {
            alloc,
            tape: Vec::new(alloc),
            wanted: Vec::new(alloc),
            failing: 0,
        };
        for piece in pieces {
            script.add(piece)?;
        }
        Ok(script)
    }

    fn add(&mut self, piece: &[u8]) -> Result<(), AllocError> {
        for line in lines_of(self.alloc, piece)? {
            match line.strip_prefix(b"  ") {
                Some(written) => self.wanted.extend_from_slice(written)?,
                None => self.tape.extend_from_slice(line)?,
            }
        }
        Ok(())
    }

    // Holds what a run left against the script.
    fn agrees(&self, rt: &impl Abort, run: &Run, status: u8) {
        assert_eq!(rt; text_of(&run.transcript), text_of(&self.wanted));
        assert!(rt; run.transcript.as_slice() == self.wanted.as_slice());
        assert_eq!(rt; run.status, status);
    }

    // Runs the tape, and compares.
    fn run(&self, rt: &impl Abort, status: u8) -> Result<Run, Fail> {
        let run = drive(self.alloc, &self.tape, self.failing)?;
        self.agrees(rt, &run, status);
        Ok(run)
    }
}

// The octets where they are text.
fn text_of(octets: &[u8]) -> &str {
    str::from_utf8(octets).unwrap_or("no text")
}

// Runs a tape of these pieces of tables, and compares.
fn runs(rt: &impl Abort, alloc: Global, pieces: &[&[u8]], status: u8) -> Result<(), Fail> {
    let script = Script::new(alloc, pieces)?;
    script.run(rt, status)?;
    Ok(())
}

// Runs such a tape. The disk of node 1 then holds this journal.
fn leaves(
    rt: &impl Abort,
    alloc: Global,
    pieces: &[&[u8]],
    status: u8,
    journal: &Journal,
) -> Result<(), Fail> {
    let script = Script::new(alloc, pieces)?;
    let run = script.run(rt, status)?;
    journal.is_held(rt, run.disk.octets());
    Ok(())
}

// Runs each case of the table after these lines. A case goes through its line `end`, or through a line that begins with `!`.
fn each_case(rt: &impl Abort, alloc: Global, first: &[u8], table: &[u8]) -> Result<(), Fail> {
    let mut script = Script::new(alloc, &[first])?;
    let mut over = true;
    for line in lines_of(alloc, table)? {
        script.add(line)?;
        let refused = line.starts_with(b"  !");
        over = refused || line == b"end\n".as_slice() || line == b"end\r\n".as_slice();
        if over {
            script.run(rt, if refused { 3 } else { 0 })?;
            script = Script::new(alloc, &[first])?;
        }
    }
    assert!(rt; over, "the last case does not end");
    Ok(())
}

// Runs each case of the table after the lines of these pieces.
fn each_behind(rt: &impl Abort, alloc: Global, pieces: &[&[u8]], table: &[u8]) -> Result<(), Fail> {
    each_case(rt, alloc, &joined(alloc, pieces)?, table)
}
