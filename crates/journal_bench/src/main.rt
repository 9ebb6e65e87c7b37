//! journal_bench: appends records to a journal over a file, or opens one, so that its time can be taken.
//!
//! `journal_bench append FILE COUNT` makes a journal on an empty file, appends so many records of 1 KiB, and says how
//! many it appended. `journal_bench open FILE` opens the journal, and says how many records it has.
//!
//! It takes no time itself, so it always prints the same: `bench/journal.py` runs it beside the same calls in C, and
//! prints a table. It ends with status 1 where the words are others, where the file or its journal fails, and where a
//! file that is to be appended to is not empty.
#![tactic(auto)]

use disk_journal::{Journal, JournalFault};
use io_edge::Disk;
use mail_base::NodeNo;
use node_disk::FileDisk;
use std::alloc::Global;
use std::process::ExitCode;
use std::{env, io};

/// The octets of a record's payload.
static PAYLOAD: [u8; 1024] = [b'x'; 1024];

// The words after the program's name.
fn words_of(rt: &HostRuntime) -> io::Result<Vec<String>> {
    let mut words = Vec::new(rt.alloc());
    for word in env::args(rt)?.skip(1) {
        words.push(word)?;
    }
    Ok(words)
}

// Makes a journal in a file that is empty, appends so many records, and says how many they were.
fn append(
    alloc: Global,
    disk: &mut FileDisk,
    node: NodeNo,
    count: u64,
) -> Result<u64, JournalFault> {
    if disk.len()? > 0 {
        return Err(JournalFault::NotAJournal);
    }
    let mut journal = Journal::create(alloc, disk, node)?;
    for _ in 0..count {
        journal.append(alloc, disk, &PAYLOAD, &[])?;
    }
    Ok(count)
}

// Opens a journal, and says how many records it has.
fn open(alloc: Global, disk: &mut FileDisk, node: NodeNo) -> Result<u64, JournalFault> {
    let (_, places) = Journal::open(alloc, disk, node)?;
    Ok(places.len() as u64)
}

// Does what the words say; nothing where they say nothing, or the file or its journal fails.
fn done(rt: &HostRuntime, words: &[String]) -> Option<u64> {
    let node = NodeNo::new(1)?;
    match words {
        [order, path, count] => {
            let count = count.parse::<u64>().ok()?;
            let mut disk = FileDisk::open(rt, path.as_str()).ok()?;
            if order.as_str() != "append" {
                return None;
            }
            append(rt.alloc(), &mut disk, node, count).ok()
        }
        [order, path] => {
            let mut disk = FileDisk::open(rt, path.as_str()).ok()?;
            if order.as_str() != "open" {
                return None;
            }
            open(rt.alloc(), &mut disk, node).ok()
        }
        _ => None,
    }
}

fn main(rt: HostRuntime) -> ExitCode {
    let Ok(words) = words_of(&rt) else {
        return ExitCode::FAILURE;
    };
    match done(&rt, &words) {
        Some(count) => match println!(rt; "{count} records") {
            Ok(()) => ExitCode::SUCCESS,
            Err(_) => ExitCode::FAILURE,
        },
        None => ExitCode::FAILURE,
    }
}
