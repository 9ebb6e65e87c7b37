// The work of the words `check` and `storm`: what is written, and the status.
use io_edge::faulty::FaultySink;
use io_edge::{MemoryYard, NamedFile, PlainDisk, VecSink};
use std::alloc::{AllocError, Global};
use std::process::Abort;
use std::test::Fail;
use storm_maker::storm_into;
use word_works::{check_plan, write_storm};

/// The lines of a plan file that keeps all rules.
const GOOD: [&str; 10] = [
    "nodes = 3",
    "copies = 2",
    "confirm = 2",
    "buckets = 64",
    "shards = 1",
    "users = [{ name = \"alice\", secret = \"tanstaaf\" }]",
    "postmaster = \"alice\"",
    "folder = \"spool\"",
    "smtp_port = 2525",
    "pop_port = 2110",
];

/// Which line of the good file is another, that line, the status, and what is written.
const CASES: [(usize, &str, u8, &str); 11] = [
    (0, "nodes = 3", 0, "ok\n"),
    (4, "# no shards", 0, "ok\n"),
    (0, "nodes", 2, "! plan 1\n"),
    (0, "node = 3", 2, "! plan 2\n"),
    (0, "nodes = 17", 2, "! plan 3\n"),
    (2, "confirm = 3", 2, "! plan 4\n"),
    (3, "buckets = 0", 2, "! plan 5\n"),
    (4, "shards = 2", 2, "! plan 6\n"),
    (
        5,
        "users = [{ name = \"alice\", secret = \"\" }]",
        2,
        "! plan 7\n",
    ),
    (6, "postmaster = \"bob\"", 2, "! plan 8\n"),
    (9, "pop_port = 2527", 2, "! plan 9\n"),
];

// The good file, of which this line is another.
fn file_with(alloc: Global, place: usize, line: &str) -> Result<Vec<u8>, AllocError> {
    let mut file = Vec::new(alloc);
    for (number, good) in GOOD.iter().enumerate() {
        let text = if number == place { line } else { good };
        file.extend_from_slice(text.as_bytes())?;
        file.push(b'\n')?;
    }
    Ok(file)
}

// Checks the file of this name, of whose writes this one fails, in a yard that has `plan.toml` alone.
fn checks(alloc: Global, file: &[u8], name: &str, write: u64) -> Result<(u8, Vec<u8>), AllocError> {
    let mut yard: MemoryYard<PlainDisk> = MemoryYard::new(alloc, Vec::new(alloc));
    yard.files.push(NamedFile {
        name: String::from_str(alloc, "plan.toml")?,
        octets: Vec::from_slice(alloc, file)?,
    })?;
    let mut sink = FaultySink::new(VecSink::new(alloc), write);
    let status = check_plan(alloc, &mut sink, &mut yard, name);
    Ok((status, sink.inner.held))
}

// Checks such a file, and compares.
fn gives(
    rt: &impl Abort,
    alloc: Global,
    file: &[u8],
    status: u8,
    written: &str,
) -> Result<(), Fail> {
    let answer = checks(alloc, file, "plan.toml", 0)?;
    assert_eq!(rt; answer.0, status);
    assert!(rt; answer.1.as_slice() == written.as_bytes(), "{written}");
    Ok(())
}

#[test]
fn check_names_the_rule(rt: HostRuntime) -> Result<(), Fail> {
    let alloc = rt.alloc();
    for (place, line, status, written) in CASES {
        let file = file_with(alloc, place, line)?;
        gives(&rt, alloc, &file, status, written)?;
    }
    Ok(())
}

#[test]
fn check_takes_a_file_of_the_greatest_size(rt: HostRuntime) -> Result<(), Fail> {
    let alloc = rt.alloc();
    let mut file = file_with(alloc, 4, "# no shards")?;
    file.push(b'#')?;
    file.resize(1_048_576, b'x')?;
    gives(&rt, alloc, &file, 0, "ok\n")?;
    file.push(b'x')?;
    gives(&rt, alloc, &file, 2, "! plan 1\n")
}

#[test]
fn check_of_no_file_and_of_a_write_that_fails(rt: HostRuntime) -> Result<(), Fail> {
    let alloc = rt.alloc();
    let file = file_with(alloc, 0, "nodes = 3")?;
    let unread = checks(alloc, &file, "plan", 0)?;
    assert_eq!(rt; unread.0, 4);
    assert!(rt; unread.1.as_slice() == b"! read\n".as_slice());
    let unwritten = checks(alloc, &file, "plan.toml", 1)?;
    assert_eq!(rt; unwritten.0, 5);
    assert!(rt; unwritten.1.is_empty());
    Ok(())
}

// The status, and what is written of the storm of this number, of whose writes this one fails.
fn storms(alloc: Global, number: u64, size: u32, write: u64) -> (u8, Vec<u8>) {
    let mut sink = FaultySink::new(VecSink::new(alloc), write);
    let status = write_storm(alloc, &mut sink, number, size);
    (status, sink.inner.held)
}

#[test]
fn storm_writes_the_same_tape_at_each_run(rt: HostRuntime) {
    let alloc = rt.alloc();
    let first = storms(alloc, 7, 2000, 0);
    let again = storms(alloc, 7, 2000, 0);
    assert_eq!(rt; first.0, 0);
    assert_eq!(rt; first.1.len(), 159_218);
    assert!(rt; first.1.as_slice() == again.1.as_slice());
    let mut whole = VecSink::new(alloc);
    assert!(rt; storm_into(alloc, &mut whole, 7, 2000).is_ok());
    assert!(rt; first.1.as_slice() == whole.held.as_slice());
}

#[test]
fn storm_stops_at_a_write_that_fails(rt: HostRuntime) {
    let alloc = rt.alloc();
    let whole = storms(alloc, 1, 10, 0);
    let part = storms(alloc, 1, 10, 5);
    assert_eq!(rt; part.0, 5);
    assert!(rt; part.1.len() < whole.1.len() && whole.1.starts_with(&part.1));
}
