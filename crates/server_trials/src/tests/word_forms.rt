// The words of the command line: what is written, and the status.

use super::command_line::runs_with;
use io_edge::faulty::FaultySink;
use io_edge::{MemoryYard, NamedFile, PlainDisk, SliceSource, VecSink};
use porcupine_server::porcupine;
use std::alloc::{AllocError, Global};
use std::fs;
use std::process::Abort;
use std::sync::Wait;
use std::test::Fail;
use std::thread::Threads;
use std::time::Clock;

/// Words, the status, and what is written. A bar parts one word from the next; a line may end in an empty word.
const CASES: [(&str, u8, &str); 38] = [
    ("check|plan.toml", 0, "ok\n"),
    ("check|seventeen.toml", 2, "! plan 3\n"),
    ("check|plan", 4, "! read\n"),
    ("check|check", 4, "! read\n"),
    ("drive", 3, "! line 1 BadLine\n"),
    ("drive|now", 1, "! words\n"),
    ("drive|plan.toml", 1, "! words\n"),
    ("Drive", 1, "! words\n"),
    ("-drive", 1, "! words\n"),
    ("-|drive", 1, "! words\n"),
    ("--|drive", 1, "! words\n"),
    ("check", 1, "! words\n"),
    ("check|", 1, "! words\n"),
    ("check|plan.toml|", 1, "! words\n"),
    ("check|plan.toml|plan.toml", 1, "! words\n"),
    ("check|-plan.toml", 1, "! words\n"),
    ("check|--|plan.toml", 1, "! words\n"),
    ("Check|plan.toml", 1, "! words\n"),
    ("plan.toml|check", 1, "! words\n"),
    ("storm", 1, "! words\n"),
    ("storm|1", 1, "! words\n"),
    ("storm|1|", 1, "! words\n"),
    ("storm||1", 1, "! words\n"),
    ("storm|1|1|1", 1, "! words\n"),
    ("storm|1|0", 1, "! words\n"),
    ("storm|1|100001", 1, "! words\n"),
    ("storm|1|0000001", 1, "! words\n"),
    ("storm|18446744073709551616|1", 1, "! words\n"),
    ("storm|000000000000000000001|1", 1, "! words\n"),
    ("storm|-1|1", 1, "! words\n"),
    ("storm|1|-1", 1, "! words\n"),
    ("storm|+1|1", 1, "! words\n"),
    ("serve|plan.toml", 6, "! disk 0 1\n"),
    ("serve|seventeen.toml", 2, "! plan 3\n"),
    ("serve|plan", 4, "! read\n"),
    ("serve", 1, "! words\n"),
    ("serve|", 1, "! words\n"),
    ("serve|plan.toml|plan.toml", 1, "! words\n"),
];

const PLAN_FILE: &str = "nodes = 3
copies = 2
confirm = 2
buckets = 64
postmaster = \"alice\"
folder = \"spool\"
smtp_port = 2525
pop_port = 2110
[[users]]
name = \"alice\"
secret = \"tanstaaf\"
";

/// The tape of the storm of the greatest number, of one round.
const ONE_ROUND: &str = "nodes 5
copies 3 2
buckets 16
user u0 s0
user u1 s1
user u2 s2
user u3 s3
user u4 s4
user u5 s5
user u6 s6
user u7 s7
postmaster u0
go
settle
regroup 1
settle
sum
end
";

// The words of a line.
fn words_of(alloc: Global, line: &str) -> Result<Vec<String>, AllocError> {
    let mut words = Vec::new(alloc);
    for word in line.split('|') {
        words.push(String::from_str(alloc, word)?)?;
    }
    Ok(words)
}

fn named(alloc: Global, name: &str, octets: &str) -> Result<NamedFile, AllocError> {
    Ok(NamedFile {
        name: String::from_str(alloc, name)?,
        octets: Vec::from_slice(alloc, octets.as_bytes())?,
    })
}

// A yard without stores, and with two plan files.
fn yard_of(alloc: Global) -> Result<MemoryYard<PlainDisk>, AllocError> {
    let mut yard = MemoryYard::new(alloc, Vec::new(alloc));
    yard.files.push(named(alloc, "plan.toml", PLAN_FILE)?)?;
    yard.files
        .push(named(alloc, "seventeen.toml", "nodes = 17\n")?)?;
    Ok(yard)
}

// Runs the program with the words of the line, of whose writes this one fails.
fn runs(
    rt: &(impl Threads + Wait + Clock + Sync),
    alloc: Global,
    line: &str,
    write: u64,
) -> Result<(u8, Vec<u8>), AllocError> {
    let words = words_of(alloc, line)?;
    let mut yard = yard_of(alloc)?;
    let mut sink = FaultySink::new(VecSink::new(alloc), write);
    let mut source = SliceSource::new(b"");
    let status = porcupine(rt, alloc, &words, &mut source, &mut sink, &mut yard);
    Ok((status, sink.inner.held))
}

// Runs it, and compares.
fn gives(
    rt: &(impl Abort + Threads + Wait + Clock + Sync),
    alloc: Global,
    line: &str,
    status: u8,
    written: &str,
) -> Result<(), Fail> {
    let answer = runs(rt, alloc, line, 0)?;
    assert_eq!(rt; answer.0, status, "{line}");
    assert!(rt; answer.1.as_slice() == written.as_bytes(), "{line}");
    Ok(())
}

#[test]
fn words_have_a_form(rt: HostRuntime) -> Result<(), Fail> {
    for (line, status, written) in CASES {
        gives(&rt, rt.alloc(), line, status, written)?;
    }
    gives(
        &rt,
        rt.alloc(),
        "storm|18446744073709551615|1",
        0,
        ONE_ROUND,
    )
}

#[test]
fn a_storm_is_the_same_at_each_run(rt: HostRuntime) -> Result<(), Fail> {
    let first = runs(&rt, rt.alloc(), "storm|7|2000", 0)?;
    let again = runs(&rt, rt.alloc(), "storm|07|002000", 0)?;
    assert_eq!(rt; first.0, 0);
    assert_eq!(rt; first.1.len(), 159_218);
    assert!(rt; first.1.as_slice() == again.1.as_slice());
    Ok(())
}

#[test]
fn a_write_that_fails_is_status_5(rt: HostRuntime) -> Result<(), Fail> {
    let alloc = rt.alloc();
    let checked = runs(&rt, alloc, "check|plan.toml", 1)?;
    assert_eq!(rt; checked.0, 5);
    assert!(rt; checked.1.is_empty());
    let stormed = runs(&rt, alloc, "storm|1|10", 3)?;
    assert_eq!(rt; stormed.0, 5);
    assert!(rt; stormed.1.starts_with(b"nodes 5\n"));
    let refused = runs(&rt, alloc, "check", 1)?;
    assert_eq!(rt; refused.0, 1);
    assert!(rt; refused.1.is_empty());
    Ok(())
}

#[test]
fn the_program_reads_a_file_of_the_system(rt: HostRuntime) -> Result<(), Fail> {
    let name = "words-test.toml";
    let words: [&[u8]; 3] = [b"porcupine", b"check", b"words-test.toml"];
    fs::write(&rt, name, PLAN_FILE)?;
    let read = runs_with(&rt, &words, 0);
    fs::remove_file(&rt, name)?;
    let unread = runs_with(&rt, &words, 0);
    assert_eq!(rt; read.0, 0);
    assert!(rt; read.1.as_slice() == b"ok\n".as_slice());
    assert_eq!(rt; unread.0, 4);
    assert!(rt; unread.1.as_slice() == b"! read\n".as_slice());
    Ok(())
}
