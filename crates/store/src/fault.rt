//! Why a store refuses, and where.

ghost use Rattle.std.specs.Prelude.{◌≡◌};
ghost use Rattle.store.specs.Faults.{number_of, here, deeper};

use std::fmt;

/// Where a page lies: its number in the store at the bottom, and how many pairs stand above that.
#[derive(Clone, Copy, PartialEq, Eq, Debug)]
pub struct Origin {
    pub page: u32,
    pub depth: u8,
}

/// The causes of a refusal, each under its number.
#[derive(Clone, Copy, PartialEq, Eq, Debug)]
pub enum FaultNumber {
    Buffer = 3,
    NoPage = 5,
    Dead = 6,
    Sealed = 7,
}

/// What a refused call answers.
#[derive(Clone, Copy, PartialEq, Eq, Debug)]
pub struct Fault {
    pub number: FaultNumber,
    pub origin: Origin,
}

impl Fault {
    /// The number of the refusal.
    pub fn number(self) -> u8
        ensures { result ≡ number_of self.number }
    {
        self.number as u8
    }

    /// A refusal that a store makes for itself.
    pub(crate) fn here(number: FaultNumber, page: u32) -> Fault
        ensures { result ≡ record { number = number; origin = here page } }
    {
        Fault {
            number,
            origin: Origin::here(page),
        }
    }

    /// A side's refusal as its pair passes it on.
    pub(crate) fn deeper(self) -> Fault
        ensures { result ≡ record self { origin = deeper self.origin } }
    {
        Fault {
            origin: self.origin.deeper(),
            ..self
        }
    }
}

impl fmt::Display for Fault {
    ghost use Rattle.std.specs.Prelude.{Some};
    ghost use Rattle.store.specs.Texts.{fault_text};

    ghost output = { λ fault. Some (fault_text fault) };

    fn fmt<W: fmt::Write>(&self, f: &mut fmt::Formatter<W>) -> fmt::Result {
        let number = self.number();
        let page = self.origin.page;
        let depth = self.origin.depth;
        write!(f, "refused {number} at page {page}, depth {depth}")
    }
}

impl std::error::Error for Fault {}

impl Origin {
    /// A page of a store that no pair stands above.
    pub(crate) fn here(page: u32) -> Origin
        ensures { result ≡ here page }
    {
        Origin { page, depth: 0 }
    }

    /// The same page under one more pair.
    fn deeper(self) -> Origin
        ensures { result ≡ deeper self }
    {
        Origin {
            depth: self.depth.saturating_add(1),
            ..self
        }
    }
}
