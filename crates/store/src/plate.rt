//! A store whose pages are only read.

ghost use Rattle.std.specs.Prelude.{◌≡◌, refl};
ghost use Rattle.store.specs.Makes.{plate};
ghost use Rattle.store.specs.Views.{plate_of};
ghost use Rattle.store.specs.Lawfuls.{plate_lawful};

use crate::fault::{Fault, FaultNumber};
use crate::page;
use crate::store::Store;

/// Sealed pages in lent memory.
#[derive(Drop)]
pub struct PlateStore<'a> {
    bytes: &'a [u8],
    tally: u32,
}

impl<'a> PlateStore<'a> {
    /// A store of the whole pages in `bytes`.
    pub fn new(bytes: &'a [u8]) -> Self
        ensures { plate_of result ≡ plate bytes.now 0 }
    {
        PlateStore { bytes, tally: 0 }
    }
}

impl<'a> Store for PlateStore<'a> {
    ghost number = { λ s. (plate_of s).number };

    ghost tally = { λ s. (plate_of s).tally };

    ghost pages = { λ s. (plate_of s).pages };

    ghost marks = { λ s. (plate_of s).marks };

    ghost origins = { λ s. (plate_of s).origins };

    ghost meaning = { plate_of };

    ghost parts = { λ _. refl };

    ghost lawful = { λ s. plate_lawful s.bytes.now s.tally };

    fn count(&self) -> u32 {
        page::whole_pages(self.bytes) as u32
    }

    fn tally(&self) -> u32 {
        self.tally
    }

    fn read(&mut self, page: u32, buffer: &mut [u8]) -> Result<(), Fault> {
        page::test(self.count(), page, buffer.len())?;
        page::page_out(self.bytes, page as usize, buffer);
        self.tally = self.tally.wrapping_add(1);
        Ok(())
    }

    fn write(&mut self, page: u32, bytes: &[u8]) -> Result<(), Fault> {
        page::test(self.count(), page, bytes.len())?;
        Err(Fault::here(FaultNumber::Sealed, page))
    }
}
