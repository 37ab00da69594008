ghost use Rattle.std.specs.Prelude.{◌≡◌, ◌-◌, ◌<◌, ◌≤◌, length};
ghost use Rattle.std.specs.List.{remove};
ghost use Rattle.lent.specs.Lent.{SameSlice, Untouched};
ghost use Rattle.queue.specs.Held.{held, places};

use crate::ring::Queue;

impl<'a, T: Copy> Queue<'a, T> {
    /// Drops the latest element, where there is one: no element moves.
    #[tactic(auto, using(crate::proofs::Removals::lowering))]
    fn drop_latest(&mut self)
        requires { 0 < self.old.len }
        ensures held { held self.new ≡ remove (held self.old) (self.old.len - 1) }
        ensures rows { Untouched self.old.rows self.new.rows }
    {
        self.len -= 1;
    }

    /// Takes out an element of the rows from the first on: those before it move up by one row,
    /// and the first row moves on.
    #[tactic(auto, using(crate::proofs::Removals::raising))]
    fn raise_earlier(&mut self, place: usize)
        requires some { place < self.old.len }
        requires upper { place < places self.old - self.old.head }
        ensures held { held self.new ≡ remove (held self.old) place }
        ensures rows { SameSlice self.old.rows self.new.rows }
    {
        self.rows
            .copy_within(self.head..self.head + place, self.head + 1);
        self.drop_earliest();
    }

    /// Takes out an element where no later one lies past the last row: those after it move down by
    /// one row.
    #[tactic(auto, using(crate::proofs::Removals::lowering))]
    fn lower_later(&mut self, place: usize)
        requires some { place < self.old.len }
        requires upper { self.old.len ≤ places self.old - self.old.head }
        ensures held { held self.new ≡ remove (held self.old) place }
        ensures rows { SameSlice self.old.rows self.new.rows }
    {
        let row = self.head + place;
        self.rows.copy_within(row + 1..self.head + self.len, row);
        self.len -= 1;
    }

    /// Takes out an element that lies past the last row itself: those after it move down by one row.
    #[tactic(auto, using(crate::proofs::Removals::lowering))]
    fn lower_last(&mut self, place: usize)
        requires some { place < self.old.len }
        requires lower { places self.old - self.old.head ≤ place }
        ensures held { held self.new ≡ remove (held self.old) place }
        ensures rows { SameSlice self.old.rows self.new.rows }
    {
        let upper = self.rows.len() - self.head;
        let row = place - upper;
        self.rows.copy_within(row + 1..self.len - upper, row);
        self.len -= 1;
    }

    /// Takes out an element where some later one lies past the last row: those after it move down
    /// by one row, and that of row 0 to the last row.
    #[tactic(auto, using(crate::proofs::Removals::lowering))]
    fn lower_around(&mut self, place: usize)
        requires upper { place < places self.old - self.old.head }
        requires past { places self.old - self.old.head < self.old.len }
        ensures held { held self.new ≡ remove (held self.old) place }
        ensures rows { SameSlice self.old.rows self.new.rows }
    {
        let many = self.rows.len();
        let row = self.head + place;
        let first = self.rows[0];
        self.rows.copy_within(row + 1..many, row);
        self.rows[many - 1] = first;
        self.rows.copy_within(1..self.len - (many - self.head), 0);
        self.len -= 1;
    }

    /// Takes out an element where there is one. Those before it move by one row where they are not
    /// the more and it lies in the rows from the first on, and else those after it.
    fn close_up(&mut self, place: usize)
        requires { place < self.old.len }
        ensures held { held self.new ≡ remove (held self.old) place }
        ensures rows { SameSlice self.old.rows self.new.rows }
    {
        let upper = self.rows.len() - self.head;
        if place >= upper {
            self.lower_last(place);
        } else if place < self.len - place {
            self.raise_earlier(place);
        } else if self.len <= upper {
            self.lower_later(place);
        } else {
            self.lower_around(place);
        }
    }

    /// Takes out the element at a place in the order of entering; the others keep their order,
    /// and a place past the end changes nothing. Taking out the earliest or the latest moves none.
    #[tactic(auto, using(crate::proofs::Removals::removing))]
    pub fn remove(&mut self, place: usize)
        ensures held { held self.new ≡ remove (held self.old) place }
        ensures past { length (held self.old) ≤ place → self.new.rows.now ≡ self.old.rows.now }
        ensures earliest { place ≡ 0 → self.new.rows.now ≡ self.old.rows.now }
        ensures rows { SameSlice self.old.rows self.new.rows }
    {
        if place >= self.len {
            return;
        }
        if place == 0 {
            self.drop_earliest();
        } else if place == self.len - 1 {
            self.drop_latest();
        } else {
            self.close_up(place);
        }
    }
}
