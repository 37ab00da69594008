//! What a hint set is worth by the closed rows.
ghost use Rattle.std.specs.Prelude.{◌≡◌};
ghost use Rattle.priority.specs.Priorities.{parts_of};
ghost use Rattle.rules.specs.Priorities.{priority_of, row_priority};

use counting::find::row_of;
use counting::row::Row;
use priority::priority::Priority;
use values::hint_numbers::HintNumbers;

/// The priority that a row gives. Parts out of the limits count as the lowest; a row that a
/// server has closed has none.
fn row_priority(row: Row<HintNumbers>) -> Priority
    ensures { parts_of result ≡ row_priority row }
{
    Priority::from_row(row).unwrap_or(Priority::lowest())
}

/// The priority of a hint set by the closed rows: the lowest where it has no row.
#[tactic(auto, unfolding(rules::specs::Priorities::priority_of))]
pub fn priority_of(closed: &[Row<HintNumbers>], hints: HintNumbers) -> Priority
    ensures { parts_of result ≡ priority_of closed.now hints }
{
    row_of(closed, hints).map_or(Priority::lowest(), row_priority)
}
