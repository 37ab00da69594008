ghost use Rattle.std.specs.Prelude.{IsTrue};
ghost use Rattle.priority.specs.Parts.{within};

use crate::priority_parts::PriorityParts;
use std::fmt;

/// A fraction, as it was made: 4/10 stays 4/10. Its limits keep the products by which two
/// are compared below 2^61.
#[derive(Clone, Copy)]
pub struct Priority {
    parts: PriorityParts,
    ghost in_limits: { IsTrue (within parts) },
}

/// Refusal 9: the numerator is over 4,194,304, or the denominator 0 or over 274,877,906,944.
#[derive(Clone, Copy, PartialEq, Eq, Debug)]
pub struct BadPriority;

impl fmt::Display for BadPriority {
    ghost use Rattle.std.specs.Prelude.{Some, codes};

    ghost output = { λ _. Some (codes "a part of the priority is out of its limits") };

    fn fmt<W: fmt::Write>(&self, f: &mut fmt::Formatter<W>) -> fmt::Result {
        f.write_str("a part of the priority is out of its limits")
    }
}

impl std::error::Error for BadPriority {}

pub mod comparing;
pub mod from_row;
pub mod making;
