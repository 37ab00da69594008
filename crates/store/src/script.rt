//! Calls of a store as plain values, made one after another.

ghost use Rattle.std.specs.Prelude.{◌≡◌, map, length, take};
ghost use Rattle.store.specs.Faults.{numbered};
ghost use Rattle.store.specs.Runs.{answer_to, buffer_after, store_after};
ghost use Rattle.store.specs.Scripts.{fitting, Performed};

use crate::fault::Fault;
use crate::store::Store;

/// What a call does with a page.
#[derive(Clone, Copy, PartialEq, Eq, Debug)]
pub enum Access {
    Read,
    Write,
}

/// A call of a store, with the length of the buffer that it is made with. It is data and no closure, so that a
/// contract can speak of the calls of a script.
#[derive(Clone, Copy, PartialEq, Eq, Debug)]
pub struct Call {
    pub access: Access,
    pub page: u32,
    pub length: usize,
}

impl Call {
    /// Reads the page into the buffer, or writes the buffer to the page.
    fn make<S: Store>(self, store: &mut S, buffer: &mut [u8]) -> Result<(), Fault>
        ensures answer { numbered result ≡ answer_to self.access (S.meaning store.old) self.page (length buffer.old) }
        ensures buffer { buffer.new ≡ buffer_after self.access (S.meaning store.old) self.page buffer.old }
        ensures after { S.meaning store.new ≡ store_after self.access (S.meaning store.old) self.page buffer.old }
    {
        match self.access {
            Access::Read => store.read(self.page, buffer),
            Access::Write => store.write(self.page, buffer),
        }
    }
}

/// Makes the calls of a script in order, as far as there is room, and answers how many it made.
///
/// Each call's buffer is the next part of `memory`, and its answer goes to the next of `outcomes`: both are lent, since
/// a store has no heap.
pub fn perform<S: Store>(
    store: &mut S,
    script: &[Call],
    memory: &mut [u8],
    outcomes: &mut [Result<(), Fault>],
) -> usize
    ensures many { result ≡ fitting script.now (length memory.old) (length outcomes.old) }
    ensures performed { Performed (S.meaning store.old) (S.meaning store.new) (take result script.now) memory.old memory.new (map numbered outcomes.old) (map numbered outcomes.new) }
{
    let mut start = 0;
    for (done, call) in script.iter().enumerate() {
        if done >= outcomes.len() || call.length > memory.len() - start {
            return done;
        }
        let end = start + call.length;
        // by index and range, since what is written through `iter_mut` or `chunks_mut` is unknown afterwards
        outcomes[done] = call.make(store, &mut memory[start..end]);
        start = end;
    }
    script.len()
}
