ghost use Rattle.std.specs.Prelude.{◌≡◌};
ghost use Rattle.std.specs.Result.{result_map_both};
ghost use Rattle.priority.specs.Priorities.{lowest, parts_of, priority_from, refused};

use crate::priority::{BadPriority, Priority};
use crate::priority_parts::PriorityParts;

const MOST_NUMERATOR: u64 = 4_194_304;

const MOST_DENOMINATOR: u64 = 274_877_906_944;

/// The fraction with these parts, if they are within the limits.
impl TryFrom<PriorityParts> for Priority {
    type Error = BadPriority;

    ghost try_from_gives = { λ parts made. result_map_both parts_of refused made ≡ priority_from parts };

    fn try_from(parts: PriorityParts) -> Result<Priority, BadPriority> {
        if parts.numerator > MOST_NUMERATOR
            || !(1..=MOST_DENOMINATOR).contains(&parts.denominator)
        {
            return Err(BadPriority);
        }
        Ok(Priority { parts })
    }
}

impl Priority {
    /// The lowest priority, 0 over 1: that of a hint set of which nothing is known.
    pub fn lowest() -> Priority
        ensures { parts_of result ≡ lowest }
    {
        Priority {
            parts: PriorityParts::LOWEST,
        }
    }

    /// The plain parts.
    pub fn parts(self) -> PriorityParts
        ensures { result ≡ parts_of self }
    {
        self.parts
    }
}
