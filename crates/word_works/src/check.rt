// The word `check`.
ghost use Rattle.std.specs.Prelude.{◌≡◌, ◌⊎◌, ℕ, List, Some};
ghost use Rattle.io_edge.specs.Causes.{Rose};
ghost use Rattle.word_works.specs.Checks.{Finds, Tells, ChecksPlan, KeepsRules, NamesRule};

use crate::found::Found;
use io_edge::{Sink, Yard, YardRefusal, write_all};
use std::alloc::Global;

// Reads the file of this name and looks at it.
fn look<Y: Yard>(alloc: Global, yard: &mut Y, file: &str) -> Found
    ensures found { Finds (Y.files yard.old file.now) result }
    ensures unread { result ≡ Found.Unread → Rose (Y.unread yard.old) (Y.unread yard.new) }
    ensures handed { Y.handed yard.new ≡ Y.handed yard.old }
    ensures returned { Y.returned yard.new ≡ Y.returned yard.old }
    ensures faults { Y.faults yard.new ≡ Y.faults yard.old }
    ensures opened { Y.opened yard.new ≡ Y.opened yard.old }
    ensures closed { Y.closed yard.new ≡ Y.closed yard.old }
    ensures unopened { Y.unopened yard.new ≡ Y.unopened yard.old }
{
    match yard.file(file) {
        Ok(octets) => Found::of(alloc, &octets),
        Err(YardRefusal::Failed) => Found::Unread,
        Err(YardRefusal::NoMemory) => Found::NoMemory,
    }
}

// Writes what was found.
fn tell<K: Sink>(alloc: Global, sink: &mut K, found: Found) -> u8
    ensures told { Tells (K.contents sink.old) (K.contents sink.new) found result }
    ensures write_fault { result ≡ 5 → Rose (K.faults sink.old) (K.faults sink.new) }
{
    let Ok(line) = found.line(alloc) else {
        return 7;
    };
    match write_all(sink, line.as_bytes()) {
        Ok(()) => found.status(),
        Err(_) => 5,
    }
}

/// Reads the plan file of this name, writes `ok` or the line that refuses it, and answers the exit status.
///
/// | Status | Comes where | What is written |
/// |---|---|---|
/// | 0 | the file keeps all rules of a plan file | `ok` |
/// | 2 | it breaks rule K, and no rule before it | `! plan K` |
/// | 4 | the yard failed to read it | `! read` |
/// | 5 | the sink failed | a part of the line, never the whole |
/// | 7 | memory ran out | nothing |
///
/// The file is read whole before its size is looked at. No store is taken.
pub fn check_plan<K: Sink, Y: Yard>(alloc: Global, sink: &mut K, yard: &mut Y, file: &str) -> u8
    ensures checks { ChecksPlan (Y.files yard.old file.now) (K.contents sink.old) (K.contents sink.new) result }
    ensures plan_fault { result ≡ 2 → (rule : ℕ) × NamesRule (Y.files yard.old file.now) (K.contents sink.old) (K.contents sink.new) rule }
    ensures read_fault { result ≡ 4 → Rose (Y.unread yard.old) (Y.unread yard.new) }
    ensures write_fault { result ≡ 5 → Rose (K.faults sink.old) (K.faults sink.new) }
    ensures some_status { (result ≡ 0) ⊎ (result ≡ 2) ⊎ (result ≡ 4) ⊎ (result ≡ 5) ⊎ (result ≡ 7) }
    ensures complete { (octets : List ℕ) → Y.files yard.old file.now ≡ Some octets → KeepsRules octets
        → (Rose (Y.unread yard.old) (Y.unread yard.new) → ⊥) → (Rose (K.faults sink.old) (K.faults sink.new) → ⊥) → (result ≡ 0) ⊎ (result ≡ 7) }
    ensures handed { Y.handed yard.new ≡ Y.handed yard.old }
    ensures returned { Y.returned yard.new ≡ Y.returned yard.old }
    ensures faults { Y.faults yard.new ≡ Y.faults yard.old }
    ensures opened { Y.opened yard.new ≡ Y.opened yard.old }
    ensures closed { Y.closed yard.new ≡ Y.closed yard.old }
    ensures unopened { Y.unopened yard.new ≡ Y.unopened yard.old }
{
    let found = look(alloc, yard, file);
    tell(alloc, sink, found)
}
