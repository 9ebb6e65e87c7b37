//! How many entries of each kind the book has.
ghost use Rattle.std.specs.Prelude.{◌≡◌};
ghost use Rattle.session_model.specs.Sums.{sum_of};
ghost use Rattle.cluster_world.specs.Books.{entries_seen};
ghost use Rattle.cluster_world.specs.Sums.{sum_seen, is_acked, is_struck, is_dropped, is_lost, count_of};

use world_book::Entry;

/// How many entries of four kinds a book has.
#[derive(Clone, Copy, Debug, PartialEq, Eq)]
pub struct BookSum {
    /// Copies that were acknowledged.
    pub acked: u64,
    /// Copies that were to be deleted.
    pub struck: u64,
    /// Copies whose deletion was confirmed.
    pub dropped: u64,
    /// Nodes that were lost for good.
    pub lost: u64,
}

fn is_acked(entry: &Entry) -> bool
    ensures { result ≡ is_acked entry.now }
{
    matches!(entry, Entry::Acked { .. })
}

fn is_struck(entry: &Entry) -> bool
    ensures { result ≡ is_struck entry.now }
{
    matches!(entry, Entry::Struck { .. })
}

fn is_dropped(entry: &Entry) -> bool
    ensures { result ≡ is_dropped entry.now }
{
    matches!(entry, Entry::Dropped { .. })
}

fn is_lost(entry: &Entry) -> bool
    ensures { result ≡ is_lost entry.now }
{
    matches!(entry, Entry::Lost { .. })
}

fn acked(entries: &[Entry]) -> usize
    ensures { result ≡ count_of is_acked entries.now }
{
    entries.iter().filter(|entry| is_acked(entry)).count()
}

fn struck(entries: &[Entry]) -> usize
    ensures { result ≡ count_of is_struck entries.now }
{
    entries.iter().filter(|entry| is_struck(entry)).count()
}

fn dropped(entries: &[Entry]) -> usize
    ensures { result ≡ count_of is_dropped entries.now }
{
    entries.iter().filter(|entry| is_dropped(entry)).count()
}

fn lost(entries: &[Entry]) -> usize
    ensures { result ≡ count_of is_lost entries.now }
{
    entries.iter().filter(|entry| is_lost(entry)).count()
}

#[tactic(auto, using(crate::proofs::Sums::counted))]
/// How many of these entries are of each kind.
pub(crate) fn sum(entries: &[Entry]) -> BookSum
    ensures { sum_seen result ≡ sum_of (entries_seen entries.now) }
{
    BookSum {
        acked: acked(entries) as u64,
        struck: struck(entries) as u64,
        dropped: dropped(entries) as u64,
        lost: lost(entries) as u64,
    }
}
