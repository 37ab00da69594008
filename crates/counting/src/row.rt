ghost use Rattle.std.specs.Prelude.{◌≡◌};
ghost use Rattle.counting.specs.Rows.{credited, entering, has_key, raised, replaced, sooner};
ghost use Rattle.std.proofs.Common.{rules};

use crate::count_all::Counting;
use keys::Key;
use order::Order;
use order::least::Ranked;

/// A row of a counting table. Repeats and distances are those credited to a hint set; in a
/// row of another kind of key they stay 0.
#[derive(Clone, Copy, Default)]
pub struct Row<K> {
    pub key: K,
    pub count: u32,
    pub error: u32,
    pub entered: u32,
    pub repeats: u32,
    pub distances: u32,
}

/// The order in which rows give way: the least count, then the earliest entered. Written out,
/// since it costs less than a comparison of pairs.
impl<K> Order for Row<K> {
    ghost before = { sooner };

    ghost ranks = { Prim.search rules };

    fn precedes(&self, other: &Row<K>) -> bool {
        self.count < other.count || (self.count == other.count && self.entered < other.entered)
    }
}

/// Each row is its own rank.
impl<'a, K: Copy> Ranked<Row<K>> for &'a [Row<K>] {
    ghost ranked = { λ rows. rows.now };

    fn many(&self) -> usize {
        self.len()
    }

    fn rank(&self, place: usize) -> Row<K> {
        let rows = *self;
        rows[place]
    }
}

impl<K> Row<K> {
    /// The row of a key that had none, by its first counting. Its count may be too high by the
    /// error.
    pub(crate) fn new(first: Counting<K>, error: u32) -> Row<K>
        ensures { result ≡ entering first.key first.number error }
    {
        Row {
            key: first.key,
            count: error.saturating_add(1),
            error,
            entered: first.number,
            repeats: 0,
            distances: 0,
        }
    }
}

impl<K: Key> Row<K> {
    /// Whether it is the row of a key.
    pub(crate) fn has_key(&self, key: &K) -> bool
        ensures { result ≡ has_key K.meaning key.now self.now }
    {
        self.key.same(key)
    }
}

impl<K: Copy> Row<K> {
    /// The row with one more counting of its key.
    pub(crate) fn raised(self) -> Row<K>
        ensures { result ≡ raised self }
    {
        Row {
            count: self.count.saturating_add(1),
            ..self
        }
    }

    /// The row of a new key in the place of this one.
    pub(crate) fn replaced(self, first: Counting<K>) -> Row<K>
        ensures { result ≡ replaced first.key first.number self }
    {
        Row::new(first, self.count)
    }

    /// The row with one more repeat, at a distance.
    pub(crate) fn credited(self, distance: u32) -> Row<K>
        ensures { result ≡ credited distance self }
    {
        Row {
            repeats: self.repeats.saturating_add(1),
            distances: self.distances.saturating_add(distance),
            ..self
        }
    }
}
