ghost use Rattle.std.specs.Prelude.{◌≡◌, length};
ghost use Rattle.lent.specs.Lent.{SameSlice};
ghost use Rattle.keys.specs.Meanings.{hint_meaning};
ghost use Rattle.counting.specs.Tables.{after_credit, state_of};

use crate::find::find;
use crate::table::Table;
use values::hint_numbers::HintNumbers;

impl<'a> Table<'a, HintNumbers> {
    /// Credits a hint set with a repeat at a distance, if it has a row.
    pub fn credit(&mut self, key: HintNumbers, distance: u32)
        ensures state { state_of self.new ≡ after_credit hint_meaning (state_of self.old) key distance }
        ensures slice { SameSlice self.old.rows self.new.rows }
    {
        if let Some((place, row)) = find(self.used_rows(), key) {
            self.rows[place] = row.credited(distance);
        }
    }
}
