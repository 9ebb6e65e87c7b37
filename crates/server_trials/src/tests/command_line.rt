// What the system hands over as words: the program's name, and then those of the command line.

use io_edge::faulty::FaultySink;
use io_edge::{SliceSource, VecSink};
use porcupine_server::run;
use std::env;
use std::env::{Env, FillError};
use std::fs::File;
use std::net::{Net, TcpListener, TcpStream};
use std::rt::Files;
use std::sync::Wait;
use std::thread::Threads;
use std::time::Clock;

/// A system that hands over these words, and has no environment.
#[derive(Drop)]
struct HandedOver<'a> {
    words: &'a [&'a [u8]],
}

impl<'a> Env for HandedOver<'a> {
    fn arg(&self, i: usize, buf: &mut [u8]) -> Result<usize, FillError> {
        let Some(word) = self.words.get(i) else {
            return Err(FillError::NotPresent);
        };
        if word.len() > buf.len() {
            return Err(FillError::TooLong);
        }
        buf[..word.len()].copy_from_slice(word);
        Ok(word.len())
    }

    fn var(&self, _name: &str, _buf: &mut [u8]) -> Result<usize, FillError> {
        Err(FillError::NotPresent)
    }

    fn var_at(&self, _i: usize, _buf: &mut [u8]) -> Result<usize, FillError> {
        Err(FillError::NotPresent)
    }
}

// The words, which write fails, the status, and what is written.
const CASES: [(&[&[u8]], u64, u8, &[u8]); 11] = [
    (&[b"porcupine", b"drive"], 0, 3, b"! line 1 BadLine\n"),
    (&[b"porcupine", b"\xFF\xFE"], 0, 1, b"! words\n"),
    (&[b"porcupine", b"drive", b"\xC3"], 0, 1, b"! words\n"),
    (&[b"porcupine", b"drive", b"now"], 0, 1, b"! words\n"),
    (&[b"porcupine"], 0, 1, b"! words\n"),
    (&[], 0, 1, b"! words\n"),
    (&[b"porcupine", b""], 0, 1, b"! words\n"),
    (&[b"porcupine", b"Drive"], 0, 1, b"! words\n"),
    (&[b"porcupine", b"drive "], 0, 1, b"! words\n"),
    (&[b"porcupine", b"-h"], 0, 1, b"! words\n"),
    (&[b"porcupine", b"-h"], 1, 1, b""),
];

// Runs the program with these words, of whose writes this one fails.
pub(super) fn runs_with<
    R: Files<File = File>
        + AllocGlobal
        + Eprint
        + Net<Listener = TcpListener, Stream = TcpStream>
        + Clock
        + Threads
        + Wait
        + Sync,
>(rt: &R, words: &[&[u8]], write: u64) -> (u8, Vec<u8>) {
    let alloc = rt.alloc();
    let mut sink = FaultySink::new(VecSink::new(alloc), write);
    let arguments = env::args(&(HandedOver { words }, alloc));
    let status = run(rt, arguments, &mut SliceSource::new(b""), &mut sink);
    (status, sink.inner.held)
}

#[test]
fn other_words_are_refused(rt: HostRuntime) {
    for (words, write, status, written) in CASES {
        let answer = runs_with(&rt, words, write);
        assert_eq!(rt; answer.0, status);
        assert_eq!(rt; answer.1.as_slice(), written);
    }
}
