ghost use Rattle.std.specs.Prelude.{◌≡◌};
ghost use Rattle.rules.specs.Choices.{decision};

use crate::answer::Decision;

/// A decision with the place of the cache that it changes.
#[derive(Clone, Copy)]
pub enum Choice {
    Hit(usize),
    Free,
    Evict(usize),
    Pass,
}

/// What a choice is called in an answer.
impl From<Choice> for Decision {
    ghost from_gives = { λ c d. d ≡ decision c };

    fn from(choice: Choice) -> Decision {
        match choice {
            Choice::Hit(_) => Decision::Hit,
            Choice::Free => Decision::Free,
            Choice::Evict(_) => Decision::Evict,
            Choice::Pass => Decision::Pass,
        }
    }
}
