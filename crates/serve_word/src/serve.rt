// The word `serve`.
ghost use Rattle.std.specs.Prelude.{◌≡◌, ◌⊎◌, ◌≤◌, ℕ, List, Option, Some, length};
ghost use Rattle.std.specs.Io.KnownBytes.{Appends};
ghost use Rattle.io_edge.specs.Causes.{Rose};
ghost use Rattle.node_store.specs.Disks.{view_of};
ghost use Rattle.cluster_world.specs.Opens.{AreEmpty, CanBeOpened};
ghost use Rattle.cluster_config.specs.declared.plan_file.ServePlan.{ServePlan};
ghost use Rattle.word_works.specs.Checks.{KeepsRules, NamesRule};
ghost use Rattle.serve_word.specs.Plans.{ArePartsOf, IsPlanFile, ports_of};
ghost use Rattle.serve_word.specs.Serving.{outside, Serves, ServesPlan, ServesStores};
ghost use Rattle.serve_word.specs.Stores.{NodeStoreFailed, StoreFailed, store_line};
ghost use Rattle.serve_word.specs.Causes.{DoorsFailed, HasStop, HasStopped, IsServeStatus};
ghost use Rattle.mail_service.specs.Consoles.{HasListened};
ghost use Rattle.mail_service.specs.declared.console.ConsoleEnd.TheVariants.{Early};
ghost use Rattle.serve_word.specs.declared.ending.ServeEnd.TheVariants as ends;

use crate::ending::{ServeEnd, finish};
use crate::plan_parts::{PlanParts, read_parts};
use board_service::serve_board;
use cluster_world::World;
use io_edge::{Sink, Source, Yard};
use mail_base::Plan;
use mail_service::Port;
use shard_board::opened_is_sound;
use std::alloc::Global;
use std::sync::Wait;
use std::thread::Threads;
use std::time::Clock;
use yard_stores::{give_back_all, take_stores};

/// So many connections are served at once. A connection that waits for its client takes a thread and no time, so as many clients
/// may be silent before others have to wait.
pub const WORKERS: u16 = 256;

// Opens the cluster over its stores and serves it. The stores come back in whatever state they are.
fn serve_stores<R: Threads + Wait + Clock + Sync, S: Source, K: Sink, Y: Yard>(
    rt: &R,
    alloc: Global,
    plan: Plan,
    names: &Plan,
    ports: &[Port],
    source: &mut S,
    sink: &mut K,
    yard: &mut Y,
    disks: Vec<Y::Store>,
) -> (ServeEnd, Vec<Y::Store>)
    requires fit { CanBeOpened plan }
    requires one_each { length disks.items ≡ plan.nodes }
    requires empty { AreEmpty Y.Store.seen disks.items }
    ensures serves { (file : ServePlan) → plan ≡ file.plan → names.now ≡ file.plan → ports.now ≡ ports_of file
        → ServesStores (view_of Y.Store.seen Y.Store.faults Y.Store.clock) Y.Store.settled Y.Door.left Y.Door.quiets Y.Door.faults file
        (outside (Y.handed yard.old) (Y.handed yard.new) (Y.returned yard.old) (Y.returned yard.new) (Y.opened yard.old) (Y.opened yard.new)
        (Y.closed yard.old) (Y.closed yard.new) (S.left source.old) (S.left source.new) (K.contents sink.old) (K.contents sink.new)) result.0 disks.items (result.1).items }
    ensures few { length (result.1).items ≤ 16 }
    ensures handed { Y.handed yard.new ≡ Y.handed yard.old }
    ensures returned { Y.returned yard.new ≡ Y.returned yard.old }
    ensures faults { Y.faults yard.new ≡ Y.faults yard.old }
    ensures unread { Y.unread yard.new ≡ Y.unread yard.old }
    ensures read_later { S.faults source.old ≤ S.faults source.new }
    ensures write_later { K.faults sink.old ≤ K.faults sink.new }
    ensures unopened_later { Y.unopened yard.old ≤ Y.unopened yard.new }
    ensures read_fault { result.0 ≡ ends.ReadFault → Rose (S.faults source.old) (S.faults source.new) }
    ensures write_fault { result.0 ≡ ends.WriteFault → Rose (K.faults sink.old) (K.faults sink.new) }
    ensures store_fault { (node : ℕ) → result.0 ≡ ends.Store node → NodeStoreFailed Y.Store.seen Y.Store.faults node disks.items (result.1).items }
    ensures door_fault { result.0 ≡ ends.Doors → DoorsFailed Y.Door.left Y.Door.quiets Y.Door.faults (Y.unopened yard.old) (Y.unopened yard.new)
        (Y.opened yard.old) (Y.opened yard.new) (Y.closed yard.old) (Y.closed yard.new) }
    ensures read_plan { result.0 ≡ ends.Unread → ⊥ }
{
    opened_is_sound::<Y::Store>();
    match World::open(alloc, plan, disks) {
        Err((fault, disks)) => (ServeEnd::unopened(&fault), disks),
        Ok(world) => {
            let (end, world) = serve_board(
                rt, alloc, WORKERS, names, ports, world, yard, source, sink,
            );
            (ServeEnd::of(end), world.close())
        }
    }
}

// The plan was read: a store for each of its nodes is taken from the yard, they are served, and given back.
fn serve_parts<R: Threads + Wait + Clock + Sync, S: Source, K: Sink, Y: Yard>(
    rt: &R,
    alloc: Global,
    parts: PlanParts,
    source: &mut S,
    sink: &mut K,
    yard: &mut Y,
) -> ServeEnd
    requires fit { CanBeOpened parts.plan }
    ensures serves { (told : Option (List ℕ)) (file : ServePlan) → IsPlanFile told file → ArePartsOf file parts
        → ServesPlan (view_of Y.Store.seen Y.Store.faults Y.Store.clock) Y.Store.settled Y.Door.left Y.Door.quiets Y.Door.faults told
        (outside (Y.handed yard.old) (Y.handed yard.new) (Y.returned yard.old) (Y.returned yard.new) (Y.opened yard.old) (Y.opened yard.new)
        (Y.closed yard.old) (Y.closed yard.new) (S.left source.old) (S.left source.new) (K.contents sink.old) (K.contents sink.new)) result }
    ensures read_later { S.faults source.old ≤ S.faults source.new }
    ensures write_later { K.faults sink.old ≤ K.faults sink.new }
    ensures read_fault { result ≡ ends.ReadFault → Rose (S.faults source.old) (S.faults source.new) }
    ensures write_fault { result ≡ ends.WriteFault → Rose (K.faults sink.old) (K.faults sink.new) }
    ensures store_fault { (node : ℕ) → result ≡ ends.Store node → StoreFailed Y.Store.seen Y.Store.faults (Y.handed yard.old) (Y.handed yard.new)
        (Y.returned yard.old) (Y.returned yard.new) (Y.faults yard.old) (Y.faults yard.new) node }
    ensures door_fault { result ≡ ends.Doors → DoorsFailed Y.Door.left Y.Door.quiets Y.Door.faults (Y.unopened yard.old) (Y.unopened yard.new)
        (Y.opened yard.old) (Y.opened yard.new) (Y.closed yard.old) (Y.closed yard.new) }
    ensures read_plan { result ≡ ends.Unread → ⊥ }
{
    let PlanParts {
        plan,
        names,
        folder,
        ports,
    } = parts;
    let nodes = plan.nodes;
    let Ok(mut disks) = Vec::with_capacity(alloc, usize::from(nodes)) else {
        return ServeEnd::NoMemory;
    };
    if let Err(fault) = take_stores(yard, folder.as_str(), nodes, &mut disks) {
        give_back_all(yard, disks);
        return ServeEnd::untaken(fault);
    }
    let (end, disks) = serve_stores(rt, alloc, plan, &names, &ports, source, sink, yard, disks);
    give_back_all(yard, disks);
    end
}

// The work of the word, up to its last line.
fn serve_file<R: Threads + Wait + Clock + Sync, S: Source, K: Sink, Y: Yard>(
    rt: &R,
    alloc: Global,
    file: &str,
    source: &mut S,
    sink: &mut K,
    yard: &mut Y,
) -> ServeEnd
    ensures serves { ServesPlan (view_of Y.Store.seen Y.Store.faults Y.Store.clock) Y.Store.settled Y.Door.left Y.Door.quiets Y.Door.faults (Y.files yard.old file.now)
        (outside (Y.handed yard.old) (Y.handed yard.new) (Y.returned yard.old) (Y.returned yard.new) (Y.opened yard.old) (Y.opened yard.new)
        (Y.closed yard.old) (Y.closed yard.new) (S.left source.old) (S.left source.new) (K.contents sink.old) (K.contents sink.new)) result }
    ensures read_later { S.faults source.old ≤ S.faults source.new }
    ensures write_later { K.faults sink.old ≤ K.faults sink.new }
    ensures unread { result ≡ ends.Unread → Rose (Y.unread yard.old) (Y.unread yard.new) }
    ensures read_fault { result ≡ ends.ReadFault → Rose (S.faults source.old) (S.faults source.new) }
    ensures write_fault { result ≡ ends.WriteFault → Rose (K.faults sink.old) (K.faults sink.new) }
    ensures store_fault { (node : ℕ) → result ≡ ends.Store node → StoreFailed Y.Store.seen Y.Store.faults (Y.handed yard.old) (Y.handed yard.new)
        (Y.returned yard.old) (Y.returned yard.new) (Y.faults yard.old) (Y.faults yard.new) node }
    ensures door_fault { result ≡ ends.Doors → DoorsFailed Y.Door.left Y.Door.quiets Y.Door.faults (Y.unopened yard.old) (Y.unopened yard.new)
        (Y.opened yard.old) (Y.opened yard.new) (Y.closed yard.old) (Y.closed yard.new) }
{
    match read_parts(alloc, yard, file) {
        Ok(parts) => serve_parts(rt, alloc, parts, source, sink, yard),
        Err(fault) => ServeEnd::unread(fault),
    }
}

/// Serves the cluster of the plan file of this name, and answers the exit status. The console's lines are read from the source, and
/// answered to the sink. May wait.
///
/// | Status | Comes where | Last line written |
/// |---|---|---|
/// | 0 | the console said `stop`, and each door found nobody before it was given back | none |
/// | 2 | the plan file breaks rule K, and none before it | `! plan K` |
/// | 3 | the console ended in line N, and no line before was `stop` | `! line N BadLine` |
/// | 4 | the yard failed to read the file, or the source failed | `! read` |
/// | 5 | the sink failed | none |
/// | 6 | the yard failed at the store of node N, or that store failed as it was opened or is not empty | `! disk 0 N` |
/// | 7 | memory ran out | none |
/// | 8 | a door could not be opened, or failed | `! doors` |
///
/// The stores are those of shard 0, in order of node, and the doors two for each node, that of SMTP first. What was taken of the yard
/// is given back in any case: the doors first, and then the stores. Where doors and console both ended in a fault, that of the doors
/// is told.
pub fn serve_plan<R: Threads + Wait + Clock + Sync, S: Source, K: Sink, Y: Yard>(
    rt: &R,
    alloc: Global,
    file: &str,
    source: &mut S,
    sink: &mut K,
    yard: &mut Y,
) -> u8
    ensures served { Serves (view_of Y.Store.seen Y.Store.faults Y.Store.clock) Y.Store.settled Y.Door.left Y.Door.quiets Y.Door.faults (Y.files yard.old file.now)
        (outside (Y.handed yard.old) (Y.handed yard.new) (Y.returned yard.old) (Y.returned yard.new) (Y.opened yard.old) (Y.opened yard.new)
        (Y.closed yard.old) (Y.closed yard.new) (S.left source.old) (S.left source.new) (K.contents sink.old) (K.contents sink.new)) result }
    ensures some_status { IsServeStatus result }
    ensures stopped { result ≡ 0 → HasStopped Y.Door.left Y.Door.quiets Y.Door.faults (Y.files yard.old file.now)
        (S.left source.old) (S.left source.new) (Y.opened yard.old) (Y.opened yard.new) (Y.closed yard.old) (Y.closed yard.new) }
    ensures plan_fault { result ≡ 2 → (rule : ℕ) × NamesRule (Y.files yard.old file.now) (K.contents sink.old) (K.contents sink.new) rule }
    ensures early { result ≡ 3 → (line : ℕ) × HasListened (S.left source.old) (S.left source.new) (Early line) }
    ensures read_fault { result ≡ 4 → Rose (Y.unread yard.old) (Y.unread yard.new) ⊎ Rose (S.faults source.old) (S.faults source.new) }
    ensures write_fault { result ≡ 5 → Rose (K.faults sink.old) (K.faults sink.new) }
    ensures store_fault { result ≡ 6 → (node : ℕ) × Appends (K.contents sink.old) (K.contents sink.new) (store_line node)
        × StoreFailed Y.Store.seen Y.Store.faults (Y.handed yard.old) (Y.handed yard.new) (Y.returned yard.old) (Y.returned yard.new) (Y.faults yard.old) (Y.faults yard.new) node }
    ensures door_fault { result ≡ 8 → DoorsFailed Y.Door.left Y.Door.quiets Y.Door.faults (Y.unopened yard.old) (Y.unopened yard.new)
        (Y.opened yard.old) (Y.opened yard.new) (Y.closed yard.old) (Y.closed yard.new) }
    ensures complete { (octets console : List ℕ) → Y.files yard.old file.now ≡ Some octets → KeepsRules octets → S.left source.old ≡ Some console → HasStop console
        → (Rose (Y.unread yard.old) (Y.unread yard.new) → ⊥) → (Rose (S.faults source.old) (S.faults source.new) → ⊥) → (Rose (K.faults sink.old) (K.faults sink.new) → ⊥)
        → ((node : ℕ) → StoreFailed Y.Store.seen Y.Store.faults (Y.handed yard.old) (Y.handed yard.new)
        (Y.returned yard.old) (Y.returned yard.new) (Y.faults yard.old) (Y.faults yard.new) node → ⊥)
        → (DoorsFailed Y.Door.left Y.Door.quiets Y.Door.faults (Y.unopened yard.old) (Y.unopened yard.new)
        (Y.opened yard.old) (Y.opened yard.new) (Y.closed yard.old) (Y.closed yard.new) → ⊥)
        → (result ≡ 0) ⊎ (result ≡ 7) }
{
    let end = serve_file(rt, alloc, file, source, sink, yard);
    finish(alloc, sink, end)
}
