//! Keys: what the counting table counts.
#![tactic(auto)]

ghost use Rattle.std.specs.Prelude.{◌≡◌, ℕ, List, Decides};

pub mod hints;
pub mod pages;

/// A kind of key. Each key has a meaning, and no two keys have the same one.
// `same` has no default body: one by `==` would need a further law, more than the line that each kind has.
pub trait Key {
    ghost meaning: { Self → List ℕ };

    /// Whether two keys are the same: exactly when their meanings are equal.
    fn same(&self, other: &Self) -> bool
        ensures { Decides result (meaning self.now ≡ meaning other.now) };

    ghost injective: { (x y : Self) → meaning x ≡ meaning y → x ≡ y };
}
