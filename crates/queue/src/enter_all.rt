ghost use Rattle.std.specs.Prelude.{◌≡◌, length};
ghost use Rattle.lent.specs.Lent.{SameSlice};
ghost use Rattle.queue.specs.Held.{held};
ghost use Rattle.queue.specs.Lists.{latest};

use crate::ring::Queue;

/// Enters each element in turn in an empty queue over the rows, which then holds the last of
/// them, in order, as many as there are places.
#[tactic(auto, using(crate::proofs::Enterings::latest_none))]
pub fn enter_all<'a, T: Copy>(rows: &'a mut [T], items: &[T]) -> Queue<'a, T>
    ensures held { held result ≡ latest (length rows.old) items.now }
    ensures rows { SameSlice rows.entry result.rows }
{
    let mut queue = Queue::new(rows);
    for item in items {
        queue.enter(*item);
    }
    queue
}
