//! Total orders, and the one choice of the least by any of them.
#![tactic(auto)]

ghost use Rattle.std.specs.Prelude.{◌≡◌, Bool};
ghost use Rattle.std.specs.Cmp.{IsStrictWeakOrder};

pub mod least;

/// A total order, told by which of two values comes before the other. Two values neither of
/// which does are equals; they need not be the same.
pub trait Order {
    ghost before: { Self → Self → Bool };

    fn precedes(&self, other: &Self) -> bool
        ensures { result ≡ before self.now other.now };

    ghost ranks: { IsStrictWeakOrder before };
}
