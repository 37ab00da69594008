//! Two stores as one.

ghost use Rattle.std.specs.Prelude.{◌≡◌, refl};
ghost use Rattle.store.specs.Makes.{pair};
ghost use Rattle.store.specs.Lawfuls.{pair_lawful};
ghost use Rattle.store.specs.Views.{pair_of};

use crate::fault::Fault;
use crate::page::{self, MOST_PAGES};
use crate::store::Store;

/// Even pages lie in the left store, odd ones in the right.
#[derive(Drop)]
pub struct Pair<L, R> {
    left: L,
    right: R,
}

impl<L: Store, R: Store> Pair<L, R> {
    /// A store of the pages that both sides have.
    pub fn new(left: L, right: R) -> Self
        ensures { pair_of L.meaning R.meaning result ≡ pair (L.meaning left) (R.meaning right) }
    {
        Pair { left, right }
    }
}

// The sides differ in type, so a read and a write each choose theirs: an enum for the side is longer.
impl<L: Store, R: Store> Store for Pair<L, R> {
    ghost number = { λ s. (pair_of L.meaning R.meaning s).number };

    ghost tally = { λ s. (pair_of L.meaning R.meaning s).tally };

    ghost pages = { λ s. (pair_of L.meaning R.meaning s).pages };

    ghost marks = { λ s. (pair_of L.meaning R.meaning s).marks };

    ghost origins = { λ s. (pair_of L.meaning R.meaning s).origins };

    ghost meaning = { pair_of L.meaning R.meaning };

    ghost parts = { λ _. refl };

    ghost lawful = { λ s. pair_lawful (L.lawful s.left) (R.lawful s.right) };

    fn count(&self) -> u32 {
        let pages = 2 * self.left.count().min(self.right.count());
        pages.min(MOST_PAGES as u32)
    }

    fn tally(&self) -> u32 {
        self.left.tally().wrapping_add(self.right.tally())
    }

    fn read(&mut self, page: u32, buffer: &mut [u8]) -> Result<(), Fault> {
        page::test(self.count(), page, buffer.len())?;
        let answer = if page % 2 == 0 {
            self.left.read(page / 2, buffer)
        } else {
            self.right.read((page - 1) / 2, buffer)
        };
        answer.map_err(Fault::deeper)
    }

    fn write(&mut self, page: u32, bytes: &[u8]) -> Result<(), Fault> {
        page::test(self.count(), page, bytes.len())?;
        let answer = if page % 2 == 0 {
            self.left.write(page / 2, bytes)
        } else {
            self.right.write((page - 1) / 2, bytes)
        };
        answer.map_err(Fault::deeper)
    }
}
