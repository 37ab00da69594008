ghost use Rattle.std.specs.Prelude.{◌≡◌, ◌<◌, [], ◌∷◌, ◌++◌, drop, slice_set};
ghost use Rattle.queue.specs.Held.{held, next_place, places};
ghost use Rattle.queue.specs.Lists.{entered};
ghost use Rattle.lent.specs.Lent.{SameSlice, Untouched};

use crate::ring::Queue;

impl<'a, T: Copy> Queue<'a, T> {
    /// Drops the earliest element: the first row moves on, and no element does.
    #[tactic(auto, using(crate::proofs::Rings::in_order_drop))]
    pub(crate) fn drop_earliest(&mut self)
        requires { 0 < self.old.len }
        ensures held { held self.new ≡ drop 1 (held self.old) }
        ensures next { next_place self.new ≡ next_place self.old }
        ensures len { self.new.len < self.old.len }
        ensures rows { Untouched self.old.rows self.new.rows }
    {
        self.head = self.row(1);
        self.len -= 1;
    }

    /// Puts an element after the last one, where there is room.
    #[tactic(auto, using(crate::proofs::Rings::in_order_push))]
    fn push(&mut self, x: T)
        requires { self.old.len < places self.old }
        ensures held { held self.new ≡ held self.old ++ x ∷ [] }
        ensures written { self.new.rows.now ≡ slice_set self.old.rows.now (next_place self.old) x }
        ensures rows { SameSlice self.old.rows self.new.rows }
    {
        let place = self.len;
        let row = self.row(place);
        self.rows[row] = x;
        self.len += 1;
    }

    /// Enters an element as the last one. A full queue drops its earliest first, and a queue
    /// with no places stays empty. One row is written, the one after the last element or that of
    /// the dropped one.
    #[tactic(auto, using(crate::proofs::Rings::entering))]
    pub fn enter(&mut self, x: T)
        ensures held { 0 < places self.old → held self.new ≡ entered (places self.old) x (held self.old) }
        ensures none { places self.old ≡ 0 → held self.new ≡ [] }
        ensures written { self.new.rows.now ≡ slice_set self.old.rows.now (next_place self.old) x }
        ensures rows { SameSlice self.old.rows self.new.rows }
    {
        if self.rows.len() == 0 {
            return;
        }
        if self.len == self.rows.len() {
            self.drop_earliest();
        }
        self.push(x);
    }
}
