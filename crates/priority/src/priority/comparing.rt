//! The order of fractions by their values. Equal fractions are equal however they were made:
//! 1/2 == 2/4. Written out, since a derive would compare the numerators first.
ghost use Rattle.std.specs.Prelude.{◌≡◌, ◌*◌, ◌^◌, ◌<◌, refl};
ghost use Rattle.std.specs.Cmp.{partial_equiv_from_equiv, partial_order_from_total};
ghost use Rattle.std.specs.Ordering.{as_partial_cmp, eq_by_cmp};
ghost use Rattle.std.proofs.lemmas.Cmp.{eq_by_cmp_equiv};
ghost use Rattle.priority.specs.Priorities.{by_value, less, lower, parts_of};
ghost use Rattle.priority.specs.Fractions.{by_value_total, lower_ranks};

use crate::priority::Priority;
use order::Order;
use std::cmp::Ordering;

impl PartialEq for Priority {
    ghost eq = { eq_by_cmp by_value };

    ghost laws = { partial_equiv_from_equiv (eq_by_cmp_equiv by_value_total) };

    fn eq(&self, other: &Priority) -> bool {
        self.cmp(other).is_eq()
    }
}

impl Eq for Priority {
    ghost laws = { eq_by_cmp_equiv by_value_total };
}

impl PartialOrd for Priority {
    ghost partial_cmp = { as_partial_cmp by_value };

    ghost laws = { partial_order_from_total by_value_total };

    fn partial_cmp(&self, other: &Priority) -> Option<Ordering> {
        Some(self.cmp(other))
    }
}

impl Ord for Priority {
    ghost cmp = { by_value };

    ghost total = { by_value_total };

    ghost matches_partial_cmp = { λ x y. refl };

    ghost matches_eq = { λ x y. refl };

    fn cmp(&self, other: &Priority) -> Ordering {
        self.cross(*other).cmp(&other.cross(*self))
    }
}

/// The same order by its less.
impl Order for Priority {
    ghost before = { lower };

    ghost ranks = { lower_ranks };

    fn precedes(&self, other: &Priority) -> bool {
        self < other
    }
}

impl Priority {
    /// One of the two products by which two fractions are compared.
    fn cross(self, other: Priority) -> u64
        ensures value { result ≡ (parts_of self).numerator * (parts_of other).denominator }
        ensures small { result < 2 ^ 61 }
    {
        self.parts.numerator * other.parts.denominator
    }

    /// Whether it is the greater fraction: `>`, with the promise in the rules' word.
    pub fn greater(self, other: Priority) -> bool
        ensures { result ≡ less (parts_of other) (parts_of self) }
    {
        self > other
    }
}
