//! What a start finds beside the store.
ghost use Rattle.std.specs.Prelude.{◌≡◌, ◌∷◌, ◌++◌, ℕ, List, [], max, nat_eq, if◌then◌else◌, OnOk};
ghost use Rattle.std.specs.BTreeMap as tree;
ghost use Rattle.std.specs.Ordering.{nat_cmp};
ghost use Rattle.mail_model.specs.Record.{Record};
ghost use Rattle.mail_base.specs.Seen.{key_seen};
ghost use Rattle.record_form.specs.Entries.{IsEntryOf};
ghost use Rattle.cluster_model.specs.Claims.{boot_after};
ghost use Rattle.cluster_model.specs.Starts.{greatest_count_on};
ghost use Rattle.whole_model.specs.Whole.{promise_after};
ghost use Rattle.node_store.specs.Recovers.{boot_found, count_found, drawn_found, or_zero, id_of_key, id_named, number_for, promise_found, Recovers};

use mail_base::{EpochId, Key, MsgId, NodeNo};
use record_form::DiskEntry;
use std::alloc::{AllocError, Global};
use std::collections::BTreeMap;

/// Which boots, promises, counts of stamps and numbers of messages the records of a journal name.
#[derive(Drop)]
pub struct Recovered {
    boot: u32,
    promise: EpochId,
    count: u64,
    numbers: BTreeMap<u32, u64>,
}

// The boot, or that of the record where a boot began.
fn boot_with(boot: u32, entry: &DiskEntry) -> u32
    ensures { (one : Record) → IsEntryOf entry.now one → result ≡ boot_after boot (one ∷ []) }
{
    match entry {
        DiskEntry::Boot { boot } => *boot,
        DiskEntry::Promise { .. } => boot,
        DiskEntry::Octets { .. } => boot,
        DiskEntry::State { .. } => boot,
        DiskEntry::Retired { .. } => boot,
    }
}

// The promise, or that of the record.
fn promise_with(promise: EpochId, entry: &DiskEntry) -> EpochId
    ensures { (one : Record) → IsEntryOf entry.now one → result ≡ promise_after promise (one ∷ []) }
{
    match entry {
        DiskEntry::Promise { epoch } => *epoch,
        DiskEntry::Boot { .. } => promise,
        DiskEntry::Octets { .. } => promise,
        DiskEntry::State { .. } => promise,
        DiskEntry::Retired { .. } => promise,
    }
}

// The count, or that of the record's state where it is greater.
fn count_with(count: u64, entry: &DiskEntry) -> u64
    ensures { (one : Record) → IsEntryOf entry.now one → result ≡ greatest_count_on count (one ∷ []) }
{
    match entry {
        DiskEntry::State { state, .. } => count.max(state.stamp.count),
        DiskEntry::Boot { .. } => count,
        DiskEntry::Promise { .. } => count,
        DiskEntry::Octets { .. } => count,
        DiskEntry::Retired { .. } => count,
    }
}

fn id_of_key(key: &Key) -> Option<MsgId>
    ensures { result ≡ id_of_key (key_seen key.now) }
{
    match key {
        Key::Profile(_) => None,
        Key::Message(_, id) => Some(*id),
    }
}

// The id of a message that the record names.
fn id_named(entry: &DiskEntry) -> Option<MsgId>
    ensures { (one : Record) → IsEntryOf entry.now one → result ≡ id_named one }
{
    match entry {
        DiskEntry::Octets { id, .. } => Some(*id),
        DiskEntry::State { key, .. } => id_of_key(key),
        DiskEntry::Retired { key, .. } => id_of_key(key),
        DiskEntry::Boot { .. } => None,
        DiskEntry::Promise { .. } => None,
    }
}

// The number under the boot becomes this one, where it is greater.
fn raise(numbers: &mut BTreeMap<u32, u64>, boot: u32, number: u64) -> Result<(), AllocError>
    ensures { OnOk result ((other : ℕ) → or_zero (tree.get nat_cmp numbers.new other) ≡ max (or_zero (tree.get nat_cmp numbers.old other)) (if nat_eq boot other then number else 0)) }
{
    let greatest = numbers.get(&boot).copied().unwrap_or(0).max(number);
    numbers.insert(boot, greatest)?;
    Ok(())
}

// The id's number counts, where the node drew it.
fn raise_own(
    numbers: &mut BTreeMap<u32, u64>,
    own: NodeNo,
    id: Option<MsgId>,
) -> Result<(), AllocError>
    ensures { OnOk result ((boot : ℕ) → or_zero (tree.get nat_cmp numbers.new boot) ≡ max (or_zero (tree.get nat_cmp numbers.old boot)) (number_for own boot id)) }
{
    match id {
        None => Ok(()),
        Some(id) => {
            if id.node() == own {
                raise(numbers, id.boot(), id.seq())?;
            }
            Ok(())
        }
    }
}

impl Recovered {
    /// What no records name. It takes no memory.
    pub(crate) fn new(alloc: Global) -> Recovered
        ensures { (own : ℕ) → Recovers own [] result }
    {
        Recovered {
            boot: 0,
            promise: EpochId::none(),
            count: 0,
            numbers: BTreeMap::new(alloc),
        }
    }

    /// Heeds what one more record of the node's journal names.
    pub(crate) fn heed(&mut self, own: NodeNo, entry: &DiskEntry) -> Result<(), AllocError>
        ensures { OnOk result ((records : List Record) (one : Record) → IsEntryOf entry.now one → Recovers own records self.old → Recovers own (records ++ one ∷ []) self.new) }
    {
        raise_own(&mut self.numbers, own, id_named(entry))?;
        self.boot = boot_with(self.boot, entry);
        self.promise = promise_with(self.promise, entry);
        self.count = count_with(self.count, entry);
        Ok(())
    }

    /// The last boot that is recorded; 0 where none is.
    pub fn boot(&self) -> u32
        ensures { result ≡ boot_found self.now }
    {
        self.boot
    }

    /// The last epoch that a record promises; that of no epoch where none does.
    pub fn promise(&self) -> EpochId
        ensures { result ≡ promise_found self.now }
    {
        self.promise
    }

    /// The greatest count of a stamp in a state that is recorded; 0 where none is.
    pub fn count(&self) -> u64
        ensures { result ≡ count_found self.now }
    {
        self.count
    }

    /// The greatest number of a message of the own node and this boot that a record names; 0 where none does. It takes time
    /// logarithmic in the number of boots.
    pub fn drawn(&self, boot: u32) -> u64
        ensures { result ≡ drawn_found self.now boot }
    {
        self.numbers.get(&boot).copied().unwrap_or(0)
    }
}
