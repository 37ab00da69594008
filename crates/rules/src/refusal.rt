//! Why the server refuses.

ghost use Rattle.std.specs.Prelude.{◌≡◌};
ghost use Rattle.rules.specs.Refusals.{refusal_of};
ghost use Rattle.rules.specs.declared.refusal.Refusal.TheVariants.{Store};

use std::fmt;
use store::fault::{Fault, Origin};

/// It is shut (2), the buffer is not 256 bytes long (3), the last request number was given (4),
/// or a store refuses, whose fault is passed up whole.
#[derive(Clone, Copy, PartialEq, Eq, Debug)]
pub enum Refusal {
    Shut,
    Buffer,
    Exhausted,
    Store(Fault),
}

/// A store's fault goes up by `?`.
impl From<Fault> for Refusal {
    ghost from_gives = { λ f r. r ≡ Store f };

    fn from(fault: Fault) -> Refusal {
        Refusal::Store(fault)
    }
}

impl Refusal {
    /// The number of the refusal.
    pub fn number(self) -> u8
        ensures { result ≡ (refusal_of self).number }
    {
        match self {
            Refusal::Shut => 2,
            Refusal::Buffer => 3,
            Refusal::Exhausted => 4,
            Refusal::Store(fault) => fault.number(),
        }
    }

    /// Where a store refused, if one did.
    pub fn origin(self) -> Option<Origin>
        ensures { result ≡ (refusal_of self).origin }
    {
        match self {
            Refusal::Store(fault) => Some(fault.origin),
            _ => None,
        }
    }
}

impl fmt::Display for Refusal {
    ghost use Rattle.std.specs.Prelude.{Some};
    ghost use Rattle.rules.specs.Texts.{refusal_text};

    ghost output = { λ refusal. Some (refusal_text refusal) };

    fn fmt<W: fmt::Write>(&self, f: &mut fmt::Formatter<W>) -> fmt::Result {
        match self {
            Refusal::Shut => f.write_str("the server is shut"),
            Refusal::Buffer => f.write_str("the buffer is not 256 bytes long"),
            Refusal::Exhausted => f.write_str("no request number is left"),
            Refusal::Store(fault) => write!(f, "{fault}"),
        }
    }
}

impl std::error::Error for Refusal {}
