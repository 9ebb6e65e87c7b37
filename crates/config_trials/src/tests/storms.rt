// The tapes of storms. The digests are of a program in another language, which was written from the description alone.
use hex::encode;
use io_edge::VecSink;
use io_edge::faulty::FaultySink;
use sha2::{Digest, Sha256};
use std::alloc::{AllocError, Global};
use std::process::Abort;
use std::test::Fail;
use storm_maker::{StormFault, storm_into};

// The number, the rounds, how many octets the tape has, and their SHA-256.
const STORMS: [(u64, u32, usize, &str); 4] = [
    (
        1,
        1,
        272,
        "e82b8db117e292f3df327fcdab8256a574a04a5105fdf143f52c4784da9b0467",
    ),
    (
        1,
        100,
        7332,
        "f870af0a6f05c1fa9644142d925360d7a018de809265ecbbb67866f54b42aea0",
    ),
    (
        u64::MAX,
        1,
        167,
        "fd03fc03a7dcd4eb3ca24e95ed707b8a361938a97c7dc36a31090461ca89048e",
    ),
    (
        7,
        2000,
        159_218,
        "285ae432d43434a5f12c2f33ea92254cfbac45d3cddf21886d85fb0c72599532",
    ),
];

// The tape of this number and so many rounds; nothing where it was not written whole.
fn tape_of(alloc: Global, number: u64, rounds: u32) -> Option<Vec<u8>> {
    let mut sink = VecSink::new(alloc);
    match storm_into(alloc, &mut sink, number, rounds) {
        Ok(()) => Some(sink.held),
        Err(_) => None,
    }
}

fn digest_of(alloc: Global, octets: &[u8]) -> Result<String, AllocError> {
    encode(alloc, Sha256::digest(octets).as_slice())
}

fn agrees(
    rt: &impl Abort,
    alloc: Global,
    number: u64,
    rounds: u32,
    length: usize,
    digest: &str,
) -> Result<(), Fail> {
    let tape = tape_of(alloc, number, rounds).expect(rt, "a whole tape");
    assert_eq!(rt; tape.len(), length);
    let found = digest_of(alloc, &tape)?;
    assert_eq!(rt; found.as_str(), digest);
    Ok(())
}

#[test]
fn writes_the_tapes_of_another_program(rt: HostRuntime) -> Result<(), Fail> {
    for (number, rounds, length, digest) in STORMS {
        agrees(&rt, rt.alloc(), number, rounds, length, digest)?;
    }
    Ok(())
}

#[test]
fn stops_at_a_write_that_fails(rt: HostRuntime) {
    let alloc = rt.alloc();
    let whole = tape_of(alloc, 1, 100).expect(&rt, "a whole tape");
    for failing in 1..=5 {
        let mut sink = FaultySink::new(VecSink::new(alloc), failing);
        let stopped = storm_into(alloc, &mut sink, 1, 100);
        assert_eq!(rt; stopped, Err(StormFault::WriteFault));
        let written = sink.inner.held;
        assert!(rt;
            written.len() < whole.len() && whole.starts_with(&written),
            "write {failing}"
        );
    }
}
