ghost use Rattle.std.specs.Prelude.{◌≡◌, ◌<◌, ◌≤◌, length};
ghost use Rattle.lent.specs.Lent.{SameSlice};
ghost use Rattle.counting.specs.Rows.{put};
ghost use Rattle.counting.specs.Rule.{counting, refuses};
ghost use Rattle.counting.specs.Tables.{after_count, answer, numbered, state_of};

use crate::count_all::Counting;
use crate::find::find;
use crate::row::Row;
use crate::table::{NotCounted, Table};
use keys::Key;
use order::least::least_place;

/// The most countings before a table has to be emptied.
const MOST_COUNTED: u32 = 2048;

/// The place that a counting writes, and the row that it writes there, where a table with room
/// for so many rows uses these.
fn written<K: Key + Copy>(used: &[Row<K>], room: usize, c: Counting<K>) -> (usize, Row<K>)
    requires some { 0 < room }
    requires fits { length used.now ≤ room }
    ensures rows { put used.now result.0 result.1 ≡ counting K.meaning room used.now c.key c.number }
    ensures next { result.0 ≤ length used.now }
    ensures within { result.0 < room }
{
    if let Some((place, row)) = find(used, c.key) {
        return (place, row.raised());
    }
    if used.len() < room {
        return (used.len(), Row::new(c, 0));
    }
    // The least count gives way, the earliest entered among equals, then the first.
    let Some(place) = least_place(&used) else {
        unreachable()
    };
    (place, used[place].replaced(c))
}

impl<'a, K: Key + Copy> Table<'a, K> {
    fn refuses(&self) -> bool
        ensures { result ≡ refuses (length self.now.rows.now) self.now.counted }
    {
        self.rows.is_empty() || self.counted >= MOST_COUNTED
    }

    /// Counts a key at a request number, or refuses and changes nothing.
    // The two are no `Counting` here: a server has them in an `Entry`, and would make one only for
    // this call.
    pub fn count(&mut self, key: K, number: u32) -> Result<(), NotCounted>
        ensures answer { numbered result ≡ answer (state_of self.old) }
        ensures state { state_of self.new ≡ after_count K.meaning (state_of self.old) key number }
        ensures slice { SameSlice self.old.rows self.new.rows }
    {
        if self.refuses() {
            return Err(NotCounted);
        }
        let (place, row) = written(self.used_rows(), self.rows.len(), Counting { key, number });
        self.rows[place] = row;
        self.used = self.used.max(place + 1);
        self.counted += 1;
        Ok(())
    }
}
