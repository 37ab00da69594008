ghost use Rattle.std.specs.Prelude.{◌≡◌, Ok};
ghost use Rattle.std.specs.Result.{result_map_both};
ghost use Rattle.counting.specs.Bounds.{Bounded};
ghost use Rattle.priority.specs.Priorities.{parts_of, priority_from, refused};
ghost use Rattle.priority.specs.Learned.{row_parts};

use crate::priority::{BadPriority, Priority};
use crate::priority_parts::PriorityParts;
use counting::row::Row;
use values::hint_numbers::HintNumbers;

/// The parts that a hint row gives. With n requests, R repeats and distances that sum to T it
/// is R / n by the mean distance T / R: R × R over n × T.
fn row_parts(row: Row<HintNumbers>) -> PriorityParts
    ensures { result ≡ row_parts row }
{
    if row.repeats == 0 {
        return PriorityParts::LOWEST;
    }
    let requests = row.count.saturating_sub(row.error);
    PriorityParts {
        numerator: row.repeats as u64 * row.repeats as u64,
        denominator: requests as u64 * row.distances as u64,
    }
}

impl Priority {
    /// The priority that a hint row gives. Handed memory may hold a row whose parts are out
    /// of the limits, which is refused; a row that a table has counted and credited is not.
    // No `TryFrom`, since a row is no other form of a priority but what it is learned from.
    pub fn from_row(row: Row<HintNumbers>) -> Result<Priority, BadPriority>
        ensures value { result_map_both parts_of refused result ≡ priority_from (row_parts row) }
        ensures made { Bounded 2048 2048 row → result_map_both parts_of refused result ≡ Ok (row_parts row) }
    {
        Priority::try_from(row_parts(row))
    }
}
