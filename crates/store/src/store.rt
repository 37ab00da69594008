//! The interface of every store.

ghost use Rattle.std.specs.Prelude.{◌≡◌, ℕ, List, length};
ghost use Rattle.store.specs.declared.fault.Origin.{Origin};
ghost use Rattle.store.specs.declared.mark.Mark.{Mark};
ghost use Rattle.store.specs.Faults.{numbered};
ghost use Rattle.store.specs.Meaning.{Meaning, meaning_of, Lawful, read_answer, read_buffer, read_after, write_answer, write_after};

use crate::fault::Fault;

/// Numbered pages of 256 bytes, which are read and written whole.
///
/// The first five ghost members say what a store holds: the number of its pages, the tally of its reads, and of each page the bytes, the mark
/// and the origin. `meaning` is the five as one value, which the calls speak of, and `lawful` has its bounds.
// Each `impl` gives every member, since neither a default nor an `impl` can name another member.
pub trait Store {
    ghost number: { Self → ℕ };

    ghost tally: { Self → ℕ };

    ghost pages: { Self → ℕ → List ℕ };

    ghost marks: { Self → ℕ → Mark };

    ghost origins: { Self → ℕ → Origin };

    ghost meaning: { Self → Meaning };

    ghost parts: { (s : Self) → meaning s ≡ meaning_of (number s) (tally s) (pages s) (marks s) (origins s) };

    ghost lawful: { (s : Self) → Lawful (meaning s) };

    /// The number of pages.
    fn count(&self) -> u32
        ensures { result ≡ (meaning self.now).number };

    /// The accepted reads so far, modulo 2^32.
    fn tally(&self) -> u32
        ensures { result ≡ (meaning self.now).tally };

    /// Copies a page into the buffer. Refuses, in this order: `Buffer`, `NoPage`, `Dead`.
    fn read(&mut self, page: u32, buffer: &mut [u8]) -> Result<(), Fault>
        ensures answer { numbered result ≡ read_answer (meaning self.old) page (length buffer.old) }
        ensures buffer { buffer.new ≡ read_buffer (meaning self.old) page buffer.old }
        ensures after { meaning self.new ≡ read_after (meaning self.old) page (length buffer.old) };

    /// Replaces a page's bytes by the given ones. Refuses, in this order: `Buffer`, `NoPage`, `Dead`, `Sealed`.
    fn write(&mut self, page: u32, bytes: &[u8]) -> Result<(), Fault>
        ensures answer { numbered result ≡ write_answer (meaning self.old) page (length bytes.now) }
        ensures after { meaning self.new ≡ write_after (meaning self.old) page bytes.now };
}
