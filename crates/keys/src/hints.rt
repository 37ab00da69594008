ghost use Rattle.std.specs.Prelude.{◌≡◌, Decides};
ghost use Rattle.keys.specs.Meanings.{hint_meaning};
ghost use Rattle.values.specs.HintSets.{meaning as hint_set_meaning, numbers_of};
ghost use Rattle.std.proofs.Common.{rules};

use crate::Key;
use values::hint_numbers::HintNumbers;
use values::hint_set::HintSet;

/// The plain numbers of a hint set. Handed memory may hold numbers of no hint set, so all
/// seven decide.
impl Key for HintNumbers {
    ghost meaning = { hint_meaning };

    ghost injective = { Prim.search rules };

    fn same(&self, other: &Self) -> bool {
        *self == *other
    }
}

/// Whether two hint sets are the same: exactly when they say the same, and then their keys,
/// which are all their numbers, are the same. It is `==`, which promises neither by itself.
#[tactic(auto, using(std::proofs::lemmas::Bool::Decides::nat_tests, crate::proofs::Says::same_numbers))]
pub fn same_hints(a: HintSet, b: HintSet) -> bool
    ensures decides { Decides result (hint_set_meaning a ≡ hint_set_meaning b) }
    ensures numbers { hint_set_meaning a ≡ hint_set_meaning b → numbers_of a ≡ numbers_of b }
{
    a == b
}
