ghost use Rattle.std.specs.Prelude.{◌≡◌, ◌-◌, ◌<◌, ◌≤◌, Bool, [], length};
ghost use Rattle.std.specs.Fn.{FnReturnsAt};
ghost use Rattle.std.specs.List.{position, slice_get};
ghost use Rattle.lent.specs.Lent.{Untouched};
ghost use Rattle.queue.specs.Rings.{row_of};

pub mod entering;
pub mod removing;

/// A queue over handed rows, as a ring: the earliest element lies in row `head`, the others
/// after it, and past the last row they go on at row 0, so that entering and dropping the
/// earliest move nothing. Both numbers lie within the rows; without rows both are 0. The rows
/// are lent, since no part of a server has a heap.
#[derive(Drop)]
pub struct Queue<'a, T> {
    rows: &'a mut [T],
    head: usize,
    len: usize,
    ghost head_within: { head ≤ length rows.now - 1 },
    ghost len_within: { len ≤ length rows.now },
}

impl<'a, T: Copy> Queue<'a, T> {
    ghost use Rattle.queue.specs.Held.{held, places};

    /// An empty queue with as many places as there are rows; what the rows hold stays.
    #[tactic(auto, unfolding(crate::specs::Rings::in_order))]
    pub fn new(rows: &'a mut [T]) -> Queue<'a, T>
        ensures held { held result ≡ [] }
        ensures rows { Untouched rows.entry result.rows }
    {
        Queue {
            rows,
            head: 0,
            len: 0,
        }
    }

    /// How many elements there are, never more than places.
    #[tactic(auto, using(crate::proofs::Rings::length_in_order))]
    pub fn len(&self) -> usize
        ensures many { result ≡ length (held self.now) }
        ensures within { result ≤ places self.now }
    {
        self.len // no more than rows, by the invariant
    }

    /// The row of the element at a place in the order of entering.
    fn row(&self, place: usize) -> usize
        requires { place ≤ places self.now }
        ensures row { result ≡ row_of (places self.now) self.now.head place }
        ensures within { result ≤ places self.now - 1 }
    {
        let upper = self.rows.len() - self.head;
        if place < upper {
            self.head + place
        } else {
            place - upper
        }
    }

    /// The element at a place in the order of entering, if there is one; place 0 has the
    /// earliest.
    pub fn at(&self, place: usize) -> Option<T>
        ensures { result ≡ slice_get (held self.now) place }
    {
        if place < self.len {
            Some(self.rows[self.row(place)])
        } else {
            None
        }
    }

    /// The place of the first element that passes a test, in the order of entering, if one does.
    pub fn position<F: Fn(&T) -> bool>(&self, test: F) -> Option<usize>
        requires { F.IsAlwaysCallable test }
        ensures { (p : T → Bool) → ((x : T) (b : Bool) → FnReturnsAt F.Fn test x b → b ≡ p x) → result ≡ position p (held self.now) }
    {
        let (low, high) = self.rows.split_at(self.head);
        high.iter().chain(low).take(self.len).position(|x| test(x))
    }

    /// Leaves no element; what the rows hold stays.
    #[tactic(auto, unfolding(crate::specs::Rings::in_order))]
    pub fn empty(&mut self)
        ensures held { held self.new ≡ [] }
        ensures rows { Untouched self.old.rows self.new.rows }
    {
        self.len = 0;
    }
}
