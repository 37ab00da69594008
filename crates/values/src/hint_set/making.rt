ghost use Rattle.std.specs.Prelude.{◌≡◌};
ghost use Rattle.std.specs.Result.{result_map_both};

use crate::hint_numbers::{HintNumbers, MOST_CLIENT};
use crate::hint_set::{BadHintSet, HintSet, MOST_VALUES};

impl HintSet {
    ghost use Rattle.values.specs.HintSets.{hints_from, meaning, numbers_of, refused, says};

    /// The hint set of a client with a list of values.
    #[tactic(auto, using(crate::proofs::Padded::lawful_padded, crate::proofs::Padded::says_padded))]
    pub fn new(client: u8, values: &[u16]) -> Result<HintSet, BadHintSet>
        ensures { result_map_both meaning refused result ≡ hints_from client values.now }
    {
        if client > MOST_CLIENT || values.len() > MOST_VALUES {
            return Err(BadHintSet);
        }
        // Padded numbers have 0 past the count, so they need no test.
        Ok(HintSet {
            numbers: HintNumbers::padded(client, values),
        })
    }

    /// The plain numbers, which mean what the hint set means.
    pub fn numbers(self) -> HintNumbers
        ensures value { result ≡ numbers_of self }
        ensures meaning { says result ≡ meaning self }
    {
        self.numbers
    }
}

/// The hint set that plain numbers stand for, if they are those of one.
impl TryFrom<HintNumbers> for HintSet {
    ghost use Rattle.values.specs.HintSets.{Made};

    type Error = BadHintSet;

    ghost try_from_gives = { Made };

    fn try_from(numbers: HintNumbers) -> Result<HintSet, BadHintSet> {
        if !numbers.is_lawful() {
            return Err(BadHintSet);
        }
        Ok(HintSet { numbers })
    }
}
