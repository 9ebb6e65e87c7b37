// The program over any source and sink: all of `main` but what the system itself gives.
ghost use Rattle.std.specs.Prelude.{◌≡◌, ◌⊎◌, ℕ, false, List, Some};
ghost use Rattle.io_edge.specs.Causes.{Rose};
ghost use Rattle.porcupine_server.specs.Words.{IsNotText, RefusesWords, serves_first, words_after_name};
ghost use Rattle.porcupine_server.specs.Tasks.{IsDrive};
ghost use Rattle.porcupine_server.specs.Complete.{IsGoodTape};

use crate::server::porcupine;
use crate::words::{asks_to_serve, words_of};
use io_edge::Sink;
use line_source::LineSource;
use real_yard::{InFolder, InMemory, RealYard};
use std::env::Args;
use std::fs::File;
use std::io;
use std::net::{Net, TcpListener, TcpStream};
use std::rt::Files;
use std::sync::Wait;
use std::thread::Threads;
use std::time::Clock;

/// Does what the words that the system hands over name, and answers the exit status. What is served has its stores in files of the
/// system, and all else in memory.
///
/// The call `porcupine` says which status comes where. A word that is not text is of no form. A store in memory does not fail,
/// so no run ends for the sake of one, unless the first word is `serve`.
pub fn run<
    R: Files<File = File>
        + AllocGlobal
        + Eprint
        + Net<Listener = TcpListener, Stream = TcpStream>
        + Clock
        + Threads
        + Wait
        + Sync,
    S: LineSource,
    K: Sink,
>(system: &R, arguments: io::Result<Args>, source: &mut S, sink: &mut K) -> u8
    ensures refused { IsNotText arguments → (result ≡ 1) × (S.left source.new ≡ S.left source.old) }
    ensures told { IsNotText arguments → RefusesWords (K.contents sink.old) (K.contents sink.new) (K.faults sink.old) (K.faults sink.new) }
    ensures no_store_fault { serves_first (words_after_name arguments) ≡ false → result ≡ 6 → ⊥ }
    ensures complete { IsDrive (words_after_name arguments) → (tape : List ℕ) → S.left source.old ≡ Some tape → IsGoodTape tape
        → (Rose (S.faults source.old) (S.faults source.new) → ⊥) → (Rose (K.faults sink.old) (K.faults sink.new) → ⊥)
        → (result ≡ 0) ⊎ (result ≡ 7) }
{
    let alloc = system.alloc();
    let Ok(words) = words_of(alloc, arguments) else {
        return 7;
    };
    if asks_to_serve(&words) {
        let mut yard = RealYard::new(system, InFolder::new(system));
        return porcupine(system, alloc, &words, source, sink, &mut yard);
    }
    let mut yard = RealYard::new(system, InMemory::new(alloc));
    porcupine(system, alloc, &words, source, sink, &mut yard)
}
