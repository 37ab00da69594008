ghost use Rattle.keys.specs.Meanings.{page_meaning};
ghost use Rattle.std.proofs.Common.{rules};

use crate::Key;

/// A page number.
impl Key for u32 {
    ghost meaning = { page_meaning };

    ghost injective = { Prim.search rules };

    fn same(&self, other: &Self) -> bool {
        *self == *other
    }
}
