//! A store that is as deep and as full as a store can be.

ghost use Rattle.std.specs.Prelude.{◌≡◌, Err, refl};
ghost use Rattle.store.specs.Faults.{refusal_of};
ghost use Rattle.store.specs.Meaning.{read_answer, write_answer};
ghost use Rattle.store_cases.specs.Buried.{buried, buried_lawful};

use store::fault::{Fault, FaultNumber, Origin};
use store::page::PAGE_BYTES;
use store::store::Store;

/// Two dead pages under 255 pairs, with a tally one below its turn.
#[derive(Drop)]
pub struct Buried;

impl Store for Buried {
    ghost number = { λ _. buried.number };

    ghost tally = { λ _. buried.tally };

    ghost pages = { λ _. buried.pages };

    ghost marks = { λ _. buried.marks };

    ghost origins = { λ _. buried.origins };

    ghost meaning = { λ _. buried };

    ghost parts = { λ _. refl };

    ghost lawful = { λ _. buried_lawful };

    fn count(&self) -> u32 {
        2
    }

    fn tally(&self) -> u32 {
        u32::MAX
    }

    fn read(&mut self, page: u32, buffer: &mut [u8]) -> Result<(), Fault> {
        Err(refusal(page, buffer.len()))
    }

    fn write(&mut self, page: u32, bytes: &[u8]) -> Result<(), Fault> {
        Err(refusal(page, bytes.len()))
    }
}

fn refusal(page: u32, length: usize) -> Fault
    ensures read { Err (refusal_of result) ≡ read_answer buried page length }
    ensures write { Err (refusal_of result) ≡ write_answer buried page length }
{
    let here = Origin { page, depth: 0 };
    let (number, origin) = if length != PAGE_BYTES {
        (FaultNumber::Buffer, here)
    } else if page >= 2 {
        (FaultNumber::NoPage, here)
    } else {
        let deepest = Origin {
            page: 9,
            depth: 255,
        };
        (FaultNumber::Dead, deepest)
    };
    Fault { number, origin }
}
