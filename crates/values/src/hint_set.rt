ghost use Rattle.std.specs.Prelude.{◌≡◌, ◌≤◌, [], ◌∷◌, drop};
ghost use Rattle.std.specs.List.{All};

use crate::hint_numbers::HintNumbers;
use std::fmt;

/// The most values of a hint set.
pub const MOST_VALUES: usize = 5;

/// What a client says with a request: up to five values. Those past the count are 0, so that
/// hint sets with the same client and values have the same numbers.
#[derive(Clone, Copy, PartialEq, Eq, Debug)]
pub struct HintSet {
    numbers: HintNumbers,
    ghost few: { (numbers.client ≤ 15) × (numbers.count ≤ 5) },
    ghost blank: { All (λ v. v ≡ 0) (drop numbers.count (numbers.first ∷ numbers.second ∷ numbers.third ∷ numbers.fourth ∷ numbers.fifth ∷ [])) },
}

/// Refusal 8: the client is over 15, the count over 5, or a value past the count is not 0.
#[derive(Clone, Copy, PartialEq, Eq, Debug)]
pub struct BadHintSet;

impl fmt::Display for BadHintSet {
    ghost use Rattle.std.specs.Prelude.{Some, codes};

    ghost output = { λ _. Some (codes "no hint set has these numbers") };

    fn fmt<W: fmt::Write>(&self, f: &mut fmt::Formatter<W>) -> fmt::Result {
        f.write_str("no hint set has these numbers")
    }
}

impl std::error::Error for BadHintSet {}

pub mod making;
