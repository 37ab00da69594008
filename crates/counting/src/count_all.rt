ghost use Rattle.std.specs.Prelude.{◌≡◌, length};
ghost use Rattle.lent.specs.Lent.{SameSlice};
ghost use Rattle.counting.specs.Tables.{state_of, used_rows};
ghost use Rattle.counting.specs.Laws.{Lawful, Uncredited, after_all, window};

use crate::row::Row;
use crate::table::Table;
use keys::Key;

/// A key that is counted at a request number.
#[derive(Clone, Copy)]
pub struct Counting<K> {
    pub key: K,
    pub number: u32,
}

/// Counts each key in turn in an empty table over the rows; a refused one changes nothing.
pub fn count_all<'a, K: Key + Copy>(
    rows: &'a mut [Row<K>],
    countings: &[Counting<K>],
) -> Table<'a, K>
    ensures state { state_of result ≡ after_all K.meaning rows.old countings.now }
    ensures counted { result.counted ≡ length (window (length rows.old) countings.now) }
    ensures lawful { Lawful K.meaning (length rows.old) (used_rows (state_of result)) (window (length rows.old) countings.now) }
    ensures uncredited { Uncredited (used_rows (state_of result)) }
    ensures slice { SameSlice rows.entry result.rows }
{
    let mut table = Table::new(rows);
    for c in countings {
        let _ = table.count(c.key, c.number);
    }
    table
}
