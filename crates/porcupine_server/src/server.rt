// The top call.
ghost use Rattle.std.specs.Prelude.{◌≡◌, ◌⊎◌, ◌≤◌, ◌^◌, ℕ, List, Some, None, length};
ghost use Rattle.std.specs.Io.KnownBytes.{Appends};
ghost use Rattle.io_edge.specs.Causes.{Rose};
ghost use Rattle.node_store.specs.Disks.{view_of};
ghost use Rattle.cluster_world.specs.Opens.{AreEmpty};
ghost use Rattle.drive_tape.specs.Plans.{IsTapePlan};
ghost use Rattle.command_words.specs.Forms.Task.{Storm, Check, Serve};
ghost use Rattle.command_words.specs.Seen.{task_seen};
ghost use Rattle.word_works.specs.Checks.{ChecksPlan, KeepsRules, NamesRule};
ghost use Rattle.word_works.specs.Storms.{WritesStorm};
ghost use Rattle.porcupine_server.specs.Words.{RefusesWords};
ghost use Rattle.porcupine_server.specs.Tasks.{asked, IsDrive, IsServe, IsUntouched, IsAnswered};
ghost use Rattle.mail_service.specs.Consoles.{HasListened};
ghost use Rattle.mail_service.specs.declared.console.ConsoleEnd.TheVariants.{Early};
ghost use Rattle.serve_word.specs.Causes.{HasStop, HasStopped, DoorsFailed};
ghost use Rattle.serve_word.specs.Serving.{outside, Serves};
ghost use Rattle.serve_word.specs.Stores.{NodeStoreFailed, StoreFailed, store_line};
ghost use Rattle.porcupine_server.specs.Works.{ServesStores, Works, TranscriptFollows};
ghost use Rattle.porcupine_server.specs.Complete.{IsGoodTape};
ghost use Rattle.porcupine_server.specs.Promises.{HasKept};
ghost use Rattle.porcupine_server.specs.declared.ending.Ending.TheVariants as endings;

use crate::ending::{Ending, finish};
use cluster_world::World;
use command_words::{Task, read_words};
use drive_tape::{drive, read_drive_head};
use io_edge::{Disk, Sink, Yard, write_all};
use line_source::LineSource;
use mail_base::Plan;
use serve_word::serve_plan;
use std::alloc::Global;
use std::sync::Wait;
use std::thread::Threads;
use std::time::Clock;
use word_works::{check_plan, write_storm};
use yard_stores::{give_back_all, take_stores};

// Opens the cluster and handles the run lines. The disks come back in whatever state they are.
fn serve<S: LineSource, K: Sink, D: Disk + Drop>(
    alloc: Global,
    plan: Plan,
    lines: u64,
    source: &mut S,
    sink: &mut K,
    disks: Vec<D>,
) -> (Ending, Vec<D>)
    requires plan { IsTapePlan plan }
    requires few { lines ≤ 2 ^ 40 }
    requires one_each { length disks.items ≡ plan.nodes }
    requires empty { AreEmpty D.seen disks.items }
    ensures serves { ServesStores (view_of D.seen D.faults D.clock) D.settled
        (record { left0 = S.left source.old; left1 = S.left source.new; held0 = K.contents sink.old; held1 = K.contents sink.new })
        plan lines result.0 disks.items (result.1).items }
    ensures as_many { length (result.1).items ≡ plan.nodes }
    ensures read_later { S.faults source.old ≤ S.faults source.new }
    ensures write_later { K.faults sink.old ≤ K.faults sink.new }
    ensures read_fault { result.0 ≡ endings.Read → Rose (S.faults source.old) (S.faults source.new) }
    ensures write_fault { result.0 ≡ endings.Write → Rose (K.faults sink.old) (K.faults sink.new) }
    ensures store_fault { (node : ℕ) → result.0 ≡ endings.Store node → NodeStoreFailed D.seen D.faults node disks.items (result.1).items }
{
    match World::open(alloc, plan, disks) {
        Err((fault, disks)) => (Ending::unopened(&fault), disks),
        Ok(world) => {
            let (drove, world) = drive(alloc, source, sink, world, lines);
            (Ending::of(drove), world.close())
        }
    }
}

// The work of `drive`: the plan is read, a store for each of its nodes is taken from the yard, they are served, and given
// back.
fn work<S: LineSource, K: Sink, Y: Yard>(
    alloc: Global,
    source: &mut S,
    sink: &mut K,
    yard: &mut Y,
) -> Ending
    ensures works { Works (view_of Y.Store.seen Y.Store.faults Y.Store.clock) Y.Store.settled
        (record { handed0 = Y.handed yard.old; handed1 = Y.handed yard.new; returned0 = Y.returned yard.old; returned1 = Y.returned yard.new })
        (record { left0 = S.left source.old; left1 = S.left source.new; held0 = K.contents sink.old; held1 = K.contents sink.new }) result }
    ensures read_later { S.faults source.old ≤ S.faults source.new }
    ensures write_later { K.faults sink.old ≤ K.faults sink.new }
    ensures read_fault { result ≡ endings.Read → Rose (S.faults source.old) (S.faults source.new) }
    ensures write_fault { result ≡ endings.Write → Rose (K.faults sink.old) (K.faults sink.new) }
    ensures store_fault { (node : ℕ) → result ≡ endings.Store node → StoreFailed Y.Store.seen Y.Store.faults (Y.handed yard.old) (Y.handed yard.new)
        (Y.returned yard.old) (Y.returned yard.new) (Y.faults yard.old) (Y.faults yard.new) node }
    ensures opened { Y.opened yard.new ≡ Y.opened yard.old }
    ensures closed { Y.closed yard.new ≡ Y.closed yard.old }
    ensures unopened { Y.unopened yard.new ≡ Y.unopened yard.old }
{
    let (plan, lines) = match read_drive_head(alloc, source) {
        Ok(head) => head,
        Err(drove) => return Ending::of(drove),
    };
    let nodes = plan.nodes;
    let Ok(mut disks) = Vec::with_capacity(alloc, usize::from(nodes)) else {
        return Ending::NoMemory;
    };
    if let Err(fault) = take_stores(yard, "", nodes, &mut disks) {
        give_back_all(yard, disks);
        return Ending::untaken(fault);
    }
    let (ending, disks) = serve(alloc, plan, lines, source, sink, disks);
    give_back_all(yard, disks);
    ending
}

/// The word `drive`: the work on the tape, and the last line. Answers the exit status. It waits for nobody, so it returns.
pub fn drive_word<S: LineSource, K: Sink, Y: Yard>(
    alloc: Global,
    source: &mut S,
    sink: &mut K,
    yard: &mut Y,
) -> u8
    ensures promises { HasKept Y.Store.seen
        (record { handed0 = Y.handed yard.old; handed1 = Y.handed yard.new; returned0 = Y.returned yard.old; returned1 = Y.returned yard.new })
        (record { left0 = S.left source.old; left1 = S.left source.new; held0 = K.contents sink.old; held1 = K.contents sink.new }) result }
    ensures transcript_follows { TranscriptFollows (view_of Y.Store.seen Y.Store.faults Y.Store.clock) Y.Store.settled
        (record { handed0 = Y.handed yard.old; handed1 = Y.handed yard.new; returned0 = Y.returned yard.old; returned1 = Y.returned yard.new })
        (record { left0 = S.left source.old; left1 = S.left source.new; held0 = K.contents sink.old; held1 = K.contents sink.new }) result }
    ensures not_words { result ≡ 1 → ⊥ }
    ensures not_plan { result ≡ 2 → ⊥ }
    ensures read_fault { result ≡ 4 → Rose (S.faults source.old) (S.faults source.new) }
    ensures write_fault { result ≡ 5 → Rose (K.faults sink.old) (K.faults sink.new) }
    ensures store_fault { result ≡ 6 → (node : ℕ) × Appends (K.contents sink.old) (K.contents sink.new) (store_line node)
        × StoreFailed Y.Store.seen Y.Store.faults (Y.handed yard.old) (Y.handed yard.new) (Y.returned yard.old) (Y.returned yard.new) (Y.faults yard.old) (Y.faults yard.new) node }
    ensures complete { (tape : List ℕ) → S.left source.old ≡ Some tape → IsGoodTape tape
        → (Rose (S.faults source.old) (S.faults source.new) → ⊥) → (Rose (K.faults sink.old) (K.faults sink.new) → ⊥)
        → ((node : ℕ) → StoreFailed Y.Store.seen Y.Store.faults (Y.handed yard.old) (Y.handed yard.new)
        (Y.returned yard.old) (Y.returned yard.new) (Y.faults yard.old) (Y.faults yard.new) node → ⊥)
        → (result ≡ 0) ⊎ (result ≡ 7) }
    ensures opened { Y.opened yard.new ≡ Y.opened yard.old }
    ensures closed { Y.closed yard.new ≡ Y.closed yard.old }
    ensures unopened { Y.unopened yard.new ≡ Y.unopened yard.old }
{
    let ending = work(alloc, source, sink, yard);
    finish(alloc, sink, ending)
}

// Words of no form: the line that refuses them. The status tells it all the same where the line cannot be written.
fn refuse_words<K: Sink>(sink: &mut K) -> u8
    ensures status { result ≡ 1 }
    ensures told { RefusesWords (K.contents sink.old) (K.contents sink.new) (K.faults sink.old) (K.faults sink.new) }
{
    let _ = write_all(sink, b"! words\n");
    1
}

// Does what the words ask for.
fn answer_task<R: Threads + Wait + Clock + Sync, S: LineSource, K: Sink, Y: Yard>(
    rt: &R,
    alloc: Global,
    task: Task<'_>,
    source: &mut S,
    sink: &mut K,
    yard: &mut Y,
) -> u8
    ensures by_task { IsAnswered (view_of Y.Store.seen Y.Store.faults Y.Store.clock) Y.Store.settled Y.Door.left Y.Door.quiets Y.Door.faults
        (record { handed0 = Y.handed yard.old; handed1 = Y.handed yard.new; returned0 = Y.returned yard.old; returned1 = Y.returned yard.new })
        (record { left0 = S.left source.old; left1 = S.left source.new; held0 = K.contents sink.old; held1 = K.contents sink.new })
        (outside (Y.handed yard.old) (Y.handed yard.new) (Y.returned yard.old) (Y.returned yard.new) (Y.opened yard.old) (Y.opened yard.new)
        (Y.closed yard.old) (Y.closed yard.new) (S.left source.old) (S.left source.new) (K.contents sink.old) (K.contents sink.new))
        (record {
          read0 = S.faults source.old;
          read1 = S.faults source.new;
          write0 = K.faults sink.old;
          write1 = K.faults sink.new;
          store0 = Y.faults yard.old;
          store1 = Y.faults yard.new;
          unread0 = Y.unread yard.old;
          unread1 = Y.unread yard.new;
          unopened0 = Y.unopened yard.old;
          unopened1 = Y.unopened yard.new;
        }) (Y.files yard.old) (Some (task_seen task.entry)) result }
    ensures opened { (IsServe (Some (task_seen task.entry)) → ⊥) → Y.opened yard.new ≡ Y.opened yard.old }
    ensures closed { (IsServe (Some (task_seen task.entry)) → ⊥) → Y.closed yard.new ≡ Y.closed yard.old }
    ensures unopened { (IsServe (Some (task_seen task.entry)) → ⊥) → Y.unopened yard.new ≡ Y.unopened yard.old }
{
    match task {
        Task::Drive => drive_word(alloc, source, sink, yard),
        Task::Storm { number, size } => write_storm(alloc, sink, number, size),
        Task::Check { file } => check_plan(alloc, sink, yard, file),
        Task::Serve { file } => serve_plan(rt, alloc, file, source, sink, yard),
    }
}

// What the words ask for.
fn answer_words<R: Threads + Wait + Clock + Sync, S: LineSource, K: Sink, Y: Yard>(
    rt: &R,
    alloc: Global,
    words: &[String],
    source: &mut S,
    sink: &mut K,
    yard: &mut Y,
) -> u8
    ensures by_task { IsAnswered (view_of Y.Store.seen Y.Store.faults Y.Store.clock) Y.Store.settled Y.Door.left Y.Door.quiets Y.Door.faults
        (record { handed0 = Y.handed yard.old; handed1 = Y.handed yard.new; returned0 = Y.returned yard.old; returned1 = Y.returned yard.new })
        (record { left0 = S.left source.old; left1 = S.left source.new; held0 = K.contents sink.old; held1 = K.contents sink.new })
        (outside (Y.handed yard.old) (Y.handed yard.new) (Y.returned yard.old) (Y.returned yard.new) (Y.opened yard.old) (Y.opened yard.new)
        (Y.closed yard.old) (Y.closed yard.new) (S.left source.old) (S.left source.new) (K.contents sink.old) (K.contents sink.new))
        (record {
          read0 = S.faults source.old;
          read1 = S.faults source.new;
          write0 = K.faults sink.old;
          write1 = K.faults sink.new;
          store0 = Y.faults yard.old;
          store1 = Y.faults yard.new;
          unread0 = Y.unread yard.old;
          unread1 = Y.unread yard.new;
          unopened0 = Y.unopened yard.old;
          unopened1 = Y.unopened yard.new;
        }) (Y.files yard.old) (asked words.now) result }
    ensures opened { (IsServe (asked words.now) → ⊥) → Y.opened yard.new ≡ Y.opened yard.old }
    ensures closed { (IsServe (asked words.now) → ⊥) → Y.closed yard.new ≡ Y.closed yard.old }
    ensures unopened { (IsServe (asked words.now) → ⊥) → Y.unopened yard.new ≡ Y.unopened yard.old }
{
    match read_words(alloc, words) {
        Ok(Some(task)) => answer_task(rt, alloc, task, source, sink, yard),
        Ok(None) => refuse_words(sink),
        Err(_) => 7,
    }
}

/// Does all that the program does, and answers its exit status.
///
/// | Words | What is done |
/// |---|---|
/// | `drive` | a tape is read from the source through its line `end`, each node of its plan gets a store of the yard, in order of node, which has to be empty, and the transcript goes to the sink; the stores are given back, in order of node, in whatever state they are |
/// | `storm NUMBER SIZE` | the tape of the storm of this number and so many rounds goes to the sink |
/// | `check FILE` | the plan file of this name is read, and `ok` goes to the sink where it keeps all rules |
/// | `serve FILE` | the plan file of this name is read, each node of its plan gets a store of the yard, which has to be empty, and two doors; connections are served until the console has ended, whose lines are read from the source and answered to the sink; doors and stores are given back |
///
/// NUMBER has 1 to 20 decimal digits and is below 2^64, SIZE has 1 to 6 and is 1 to 100,000, and FILE has at least one octet.
/// A word that begins with `-` is of no form.
///
/// | Status | Comes where | Last line written |
/// |---|---|---|
/// | 0 | the tape was handled through `end`, the storm was written, the plan file keeps all rules, or the console said `stop` and each door found nobody before it was given back | none; `ok` of `check` |
/// | 1 | exactly where the words are of no form | `! words` |
/// | 2 | the plan file breaks rule K, and no rule before it, at `check` and `serve` | `! plan K` |
/// | 3 | line N of the tape has the fault NAME; or the console ended in line N, and no line before was `stop` | `! line N NAME`, of a console `! line N BadLine` |
/// | 4 | the source failed, at `drive` and `serve`; the yard failed to read the file, at `check` and `serve` | `! read` |
/// | 5 | the sink failed | none |
/// | 6 | the yard failed at the store of node N, or that store failed as it was opened or is not empty | `! disk 0 N` |
/// | 7 | memory ran out | none |
/// | 8 | a door could not be opened, or failed, at `serve` | `! doors` |
///
/// What was written before a fault stays. With other words than `drive` and `serve` nothing is read from the source and no store is
/// taken, and with other words than `serve` no door. With words of no form the status is 1 even where the line cannot be written.
///
/// It may wait for the sake of `serve` alone: the work of the other words stands in calls that wait for nobody, as `drive_word`.
pub fn porcupine<R: Threads + Wait + Clock + Sync, S: LineSource, K: Sink, Y: Yard>(
    rt: &R,
    alloc: Global,
    words: &[String],
    source: &mut S,
    sink: &mut K,
    yard: &mut Y,
) -> u8
    ensures promises { IsDrive words.now → HasKept Y.Store.seen
        (record { handed0 = Y.handed yard.old; handed1 = Y.handed yard.new; returned0 = Y.returned yard.old; returned1 = Y.returned yard.new })
        (record { left0 = S.left source.old; left1 = S.left source.new; held0 = K.contents sink.old; held1 = K.contents sink.new }) result }
    ensures transcript_follows { IsDrive words.now → TranscriptFollows (view_of Y.Store.seen Y.Store.faults Y.Store.clock) Y.Store.settled
        (record { handed0 = Y.handed yard.old; handed1 = Y.handed yard.new; returned0 = Y.returned yard.old; returned1 = Y.returned yard.new })
        (record { left0 = S.left source.old; left1 = S.left source.new; held0 = K.contents sink.old; held1 = K.contents sink.new }) result }
    ensures words_refused { asked words.now ≡ None → (result ≡ 1) × IsUntouched (record { handed0 = Y.handed yard.old; handed1 = Y.handed yard.new; returned0 = Y.returned yard.old; returned1 = Y.returned yard.new })
        (record { left0 = S.left source.old; left1 = S.left source.new; held0 = K.contents sink.old; held1 = K.contents sink.new }) }
    ensures words_told { asked words.now ≡ None → RefusesWords (K.contents sink.old) (K.contents sink.new) (K.faults sink.old) (K.faults sink.new) }
    ensures words_taken { result ≡ 1 → asked words.now ≡ None }
    ensures storm { (number size : ℕ) → asked words.now ≡ Some (Storm number size) → WritesStorm (K.contents sink.old) (K.contents sink.new) number size result
        × IsUntouched (record { handed0 = Y.handed yard.old; handed1 = Y.handed yard.new; returned0 = Y.returned yard.old; returned1 = Y.returned yard.new })
        (record { left0 = S.left source.old; left1 = S.left source.new; held0 = K.contents sink.old; held1 = K.contents sink.new }) }
    ensures check { (file : List ℕ) → asked words.now ≡ Some (Check file) → ChecksPlan (Y.files yard.old file) (K.contents sink.old) (K.contents sink.new) result
        × IsUntouched (record { handed0 = Y.handed yard.old; handed1 = Y.handed yard.new; returned0 = Y.returned yard.old; returned1 = Y.returned yard.new })
        (record { left0 = S.left source.old; left1 = S.left source.new; held0 = K.contents sink.old; held1 = K.contents sink.new }) }
    ensures served { (file : List ℕ) → asked words.now ≡ Some (Serve file)
        → Serves (view_of Y.Store.seen Y.Store.faults Y.Store.clock) Y.Store.settled Y.Door.left Y.Door.quiets Y.Door.faults (Y.files yard.old file)
        (outside (Y.handed yard.old) (Y.handed yard.new) (Y.returned yard.old) (Y.returned yard.new) (Y.opened yard.old) (Y.opened yard.new)
        (Y.closed yard.old) (Y.closed yard.new) (S.left source.old) (S.left source.new) (K.contents sink.old) (K.contents sink.new)) result }
    ensures stopped { (file : List ℕ) → asked words.now ≡ Some (Serve file) → result ≡ 0 → HasStopped Y.Door.left Y.Door.quiets Y.Door.faults (Y.files yard.old file)
        (S.left source.old) (S.left source.new) (Y.opened yard.old) (Y.opened yard.new) (Y.closed yard.old) (Y.closed yard.new) }
    ensures ended_early { (file : List ℕ) → asked words.now ≡ Some (Serve file) → result ≡ 3 → (line : ℕ) × HasListened (S.left source.old) (S.left source.new) (Early line) }
    ensures plan_fault { result ≡ 2 → (file : List ℕ) × ((asked words.now ≡ Some (Check file)) ⊎ (asked words.now ≡ Some (Serve file)))
        × ((rule : ℕ) × NamesRule (Y.files yard.old file) (K.contents sink.old) (K.contents sink.new) rule) }
    ensures read_fault { result ≡ 4 → (IsDrive words.now × Rose (S.faults source.old) (S.faults source.new))
        ⊎ ((file : List ℕ) × (asked words.now ≡ Some (Check file)) × Rose (Y.unread yard.old) (Y.unread yard.new))
        ⊎ ((file : List ℕ) × (asked words.now ≡ Some (Serve file)) × (Rose (Y.unread yard.old) (Y.unread yard.new) ⊎ Rose (S.faults source.old) (S.faults source.new))) }
    ensures write_fault { result ≡ 5 → Rose (K.faults sink.old) (K.faults sink.new) }
    ensures store_fault { result ≡ 6 → (IsDrive words.now ⊎ ((file : List ℕ) × (asked words.now ≡ Some (Serve file)))) × ((node : ℕ) × Appends (K.contents sink.old) (K.contents sink.new) (store_line node)
        × StoreFailed Y.Store.seen Y.Store.faults (Y.handed yard.old) (Y.handed yard.new) (Y.returned yard.old) (Y.returned yard.new) (Y.faults yard.old) (Y.faults yard.new) node) }
    ensures door_fault { result ≡ 8 → (file : List ℕ) × (asked words.now ≡ Some (Serve file))
        × DoorsFailed Y.Door.left Y.Door.quiets Y.Door.faults (Y.unopened yard.old) (Y.unopened yard.new) (Y.opened yard.old) (Y.opened yard.new) (Y.closed yard.old) (Y.closed yard.new) }
    ensures complete { IsDrive words.now → (tape : List ℕ) → S.left source.old ≡ Some tape → IsGoodTape tape
        → (Rose (S.faults source.old) (S.faults source.new) → ⊥) → (Rose (K.faults sink.old) (K.faults sink.new) → ⊥)
        → ((node : ℕ) → StoreFailed Y.Store.seen Y.Store.faults (Y.handed yard.old) (Y.handed yard.new)
        (Y.returned yard.old) (Y.returned yard.new) (Y.faults yard.old) (Y.faults yard.new) node → ⊥)
        → (result ≡ 0) ⊎ (result ≡ 7) }
    ensures storm_complete { (number size : ℕ) → asked words.now ≡ Some (Storm number size)
        → (Rose (K.faults sink.old) (K.faults sink.new) → ⊥) → (result ≡ 0) ⊎ (result ≡ 7) }
    ensures check_complete { (file octets : List ℕ) → asked words.now ≡ Some (Check file) → Y.files yard.old file ≡ Some octets → KeepsRules octets
        → (Rose (Y.unread yard.old) (Y.unread yard.new) → ⊥) → (Rose (K.faults sink.old) (K.faults sink.new) → ⊥) → (result ≡ 0) ⊎ (result ≡ 7) }
    ensures serve_complete { (file octets console : List ℕ) → asked words.now ≡ Some (Serve file) → Y.files yard.old file ≡ Some octets → KeepsRules octets
        → S.left source.old ≡ Some console → HasStop console
        → (Rose (Y.unread yard.old) (Y.unread yard.new) → ⊥) → (Rose (S.faults source.old) (S.faults source.new) → ⊥) → (Rose (K.faults sink.old) (K.faults sink.new) → ⊥)
        → ((node : ℕ) → StoreFailed Y.Store.seen Y.Store.faults (Y.handed yard.old) (Y.handed yard.new)
        (Y.returned yard.old) (Y.returned yard.new) (Y.faults yard.old) (Y.faults yard.new) node → ⊥)
        → (DoorsFailed Y.Door.left Y.Door.quiets Y.Door.faults (Y.unopened yard.old) (Y.unopened yard.new) (Y.opened yard.old) (Y.opened yard.new) (Y.closed yard.old) (Y.closed yard.new) → ⊥)
        → (result ≡ 0) ⊎ (result ≡ 7) }
    ensures opened { (IsServe (asked words.now) → ⊥) → Y.opened yard.new ≡ Y.opened yard.old }
    ensures closed { (IsServe (asked words.now) → ⊥) → Y.closed yard.new ≡ Y.closed yard.old }
    ensures unopened { (IsServe (asked words.now) → ⊥) → Y.unopened yard.new ≡ Y.unopened yard.old }
{
    answer_words(rt, alloc, words, source, sink, yard)
}
