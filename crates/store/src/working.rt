//! A store whose pages are read and written in place.

ghost use Rattle.std.specs.Prelude.{◌≡◌, length, is_ok, Ok, refl};
ghost use Rattle.lent.specs.Lent.{Untouched};
ghost use Rattle.store.specs.Faults.{numbered};
ghost use Rattle.store.specs.Meaning.{tested, read_answer, read_buffer, read_after, write_answer, write_after};
ghost use Rattle.store.specs.Makes.{working, memory_after};
ghost use Rattle.store.specs.Lawfuls.{working_lawful};
ghost use Rattle.store.specs.Views.{working_of};

use crate::fault::{Fault, FaultNumber, Origin};
use crate::mark::Mark;
use crate::page;
use crate::store::Store;

/// Pages in lent memory, with a mark byte for each: two slices, both lent, since a store has no
/// heap.
#[derive(Drop)]
pub struct WorkingStore<'a, 'm> {
    bytes: &'a mut [u8],
    marks: &'m [u8],
    tally: u32,
}

impl<'a, 'm> WorkingStore<'a, 'm> {
    /// A store of the whole pages in `bytes` that have a mark byte.
    pub fn new(bytes: &'a mut [u8], marks: &'m [u8]) -> Self
        ensures meaning { working_of result ≡ working bytes.old marks.now 0 }
        ensures memory { Untouched bytes.entry result.bytes }
    {
        WorkingStore {
            bytes,
            marks,
            tally: 0,
        }
    }

    /// The mark of a page, once the buffer's length and the page's number have passed.
    fn admit(&self, page: u32, length: usize) -> Result<Mark, Fault>
        ensures { numbered result ≡ tested (working_of self.now).number page length (Ok ((working_of self.now).marks page)) }
    {
        page::test_length(page, length)?;
        // Whether there is any page comes first, as the rule has it, though the next test would tell too.
        let number = self.count();
        if number == 0 {
            return Err(Fault::here(FaultNumber::NoPage, page));
        }
        page::test_number(number, page)?;
        Ok(Mark::from(self.marks[page as usize]))
    }
}

// `read` and `write` repeat the clauses of the trait, since they add to them.
impl<'a, 'm> Store for WorkingStore<'a, 'm> {
    ghost number = { λ s. (working_of s).number };

    ghost tally = { λ s. (working_of s).tally };

    ghost pages = { λ s. (working_of s).pages };

    ghost marks = { λ s. (working_of s).marks };

    ghost origins = { λ s. (working_of s).origins };

    ghost meaning = { working_of };

    ghost parts = { λ _. refl };

    ghost lawful = { λ s. working_lawful s.bytes.now s.marks.now s.tally };

    fn count(&self) -> u32 {
        page::whole_pages(self.bytes).min(self.marks.len()) as u32
    }

    fn tally(&self) -> u32 {
        self.tally
    }

    fn read(&mut self, page: u32, buffer: &mut [u8]) -> Result<(), Fault>
        ensures answer { numbered result ≡ read_answer (working_of self.old) page (length buffer.old) }
        ensures buffer { buffer.new ≡ read_buffer (working_of self.old) page buffer.old }
        ensures after { working_of self.new ≡ read_after (working_of self.old) page (length buffer.old) }
        ensures memory { Untouched self.old.bytes self.new.bytes }
    {
        let mark = self.admit(page, buffer.len())?;
        mark.readable(Origin::here(page))?;
        // Passed on as `&mut`, since a shared borrow of the field would leave it unknown to the proof.
        let memory = &mut *self.bytes;
        page::page_out(memory, page as usize, buffer);
        self.tally = self.tally.wrapping_add(1);
        Ok(())
    }

    #[tactic(auto, using(crate::proofs::Pages::working_put_page))]
    fn write(&mut self, page: u32, bytes: &[u8]) -> Result<(), Fault>
        ensures answer { numbered result ≡ write_answer (working_of self.old) page (length bytes.now) }
        ensures after { working_of self.new ≡ write_after (working_of self.old) page bytes.now }
        ensures memory { self.new.bytes.now ≡ memory_after (is_ok result) self.old.bytes.now page bytes.now }
        ensures lent { self.new.bytes.ghost_name ≡ self.old.bytes.ghost_name }
    {
        let mark = self.admit(page, bytes.len())?;
        mark.writable(Origin::here(page))?;
        page::page_in(self.bytes, page as usize, bytes);
        Ok(())
    }
}
