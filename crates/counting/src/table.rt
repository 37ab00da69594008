ghost use Rattle.std.specs.Prelude.{◌≡◌, ◌≤◌, length};
ghost use Rattle.lent.specs.Lent.{SameSlice};

use crate::find::row_of;
use crate::row::Row;
use keys::Key;
use std::fmt;

pub mod counting;
pub mod crediting;

/// A counting table over handed rows: memory is lent, so the rows in use are its first `used`
/// ones. At most 2,048 countings were accepted since it was emptied. It serves whatever the
/// memory holds.
#[derive(Drop)]
pub struct Table<'a, K> {
    rows: &'a mut [Row<K>],
    used: usize,
    counted: u32,
    ghost within: { used ≤ length rows.now },
    ghost few: { counted ≤ 2048 },
}

/// Refusal 4: the table has no rows, or 2,048 countings since it was emptied.
#[derive(Clone, Copy, PartialEq, Eq, Debug)]
pub struct NotCounted;

impl fmt::Display for NotCounted {
    ghost use Rattle.std.specs.Prelude.{Some, codes};

    ghost output = { λ _. Some (codes "the table has no row, or counted 2048 times") };

    fn fmt<W: fmt::Write>(&self, f: &mut fmt::Formatter<W>) -> fmt::Result {
        f.write_str("the table has no row, or counted 2048 times")
    }
}

impl std::error::Error for NotCounted {}

impl<'a, K: Key + Copy> Table<'a, K> {
    ghost use Rattle.counting.specs.Rows.{looked, row_in};
    ghost use Rattle.counting.specs.Tables.{emptied, state_of, used_rows};

    /// An empty table; what the rows hold stays.
    pub fn new(rows: &'a mut [Row<K>]) -> Table<'a, K>
        ensures state { state_of result ≡ emptied rows.old }
        ensures slice { SameSlice rows.entry result.rows }
    {
        Table {
            rows,
            used: 0,
            counted: 0,
        }
    }

    /// Takes all rows out of use.
    pub fn empty(&mut self)
        ensures state { state_of self.new ≡ emptied self.old.rows.now }
        ensures slice { SameSlice self.old.rows self.new.rows }
    {
        self.used = 0;
        self.counted = 0;
    }

    /// How many countings were accepted since it was emptied.
    pub fn counted(&self) -> u32
        ensures { result ≡ (state_of self.now).counted }
    {
        self.counted
    }

    /// The rows in use.
    pub fn used_rows(&self) -> &[Row<K>]
        ensures { result.now ≡ used_rows (state_of self.now) }
    {
        &self.rows[..self.used]
    }

    /// The key's row, if it has one.
    pub fn row_of(&self, key: K) -> Option<Row<K>>
        ensures { result ≡ row_in K.meaning (used_rows (state_of self.now)) key }
    {
        row_of(self.used_rows(), key)
    }

    /// The key's count and its error, if it has a row.
    pub fn lookup(&self, key: K) -> Option<(u32, u32)>
        ensures { result ≡ looked K.meaning (used_rows (state_of self.now)) key }
    {
        self.row_of(key).map(|row| (row.count, row.error))
    }
}
