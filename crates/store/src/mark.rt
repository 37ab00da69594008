//! What may be done with a page.

ghost use Rattle.std.specs.Prelude.{◌≡◌};
ghost use Rattle.store.specs.Faults.{numbered};
ghost use Rattle.store.specs.Meaning.{readable, writable};
ghost use Rattle.store.specs.Makes.{mark_of};

use crate::fault::{Fault, FaultNumber, Origin};

/// An open page is read and written, a sealed one only read, a dead one neither.
#[derive(Clone, Copy, PartialEq, Eq, Debug)]
pub enum Mark {
    Open,
    Sealed,
    Dead,
}

/// The mark that a mark byte stands for.
impl From<u8> for Mark {
    ghost from_gives = { λ byte mark. mark ≡ mark_of byte };

    fn from(byte: u8) -> Mark {
        match byte {
            0 => Mark::Open,
            1 => Mark::Sealed,
            _ => Mark::Dead,
        }
    }
}

impl Mark {
    /// Refuses a read of a dead page.
    pub(crate) fn readable(self, origin: Origin) -> Result<(), Fault>
        ensures { numbered result ≡ readable self origin }
    {
        match self {
            Mark::Open | Mark::Sealed => Ok(()),
            Mark::Dead => Err(Fault {
                number: FaultNumber::Dead,
                origin,
            }),
        }
    }

    /// Refuses a write to a sealed page, and to one that is not read.
    pub(crate) fn writable(self, origin: Origin) -> Result<(), Fault>
        ensures { numbered result ≡ writable self origin }
    {
        match self {
            Mark::Open | Mark::Dead => self.readable(origin),
            Mark::Sealed => Err(Fault {
                number: FaultNumber::Sealed,
                origin,
            }),
        }
    }
}
