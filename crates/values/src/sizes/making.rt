ghost use Rattle.std.specs.Prelude.{◌≡◌};
ghost use Rattle.std.specs.Result.{result_map_both};

use crate::size_numbers::SizeNumbers;
use crate::sizes::{BadSize, SizeName, Sizes};

impl SizeName {
    ghost use Rattle.values.specs.Sizes.{limited, most, refused};

    /// The largest that a size may be.
    fn most(self) -> u32
        ensures { result ≡ most self }
    {
        match self {
            SizeName::CachePlaces => 1024,
            SizeName::QueuePlaces => 8192,
            SizeName::HintRows => 256,
            SizeName::PageRows => 256,
            SizeName::Window => 2048,
        }
    }

    /// Refuses a size that is 0 or over its limit.
    fn test(self, size: u32) -> Result<(), BadSize>
        ensures { result_map_both (λ x. x) refused result ≡ limited self size }
    {
        if (1..=self.most()).contains(&size) {
            Ok(())
        } else {
            Err(BadSize(self))
        }
    }
}

/// The first bad size, in the order of the names, is refused.
impl TryFrom<SizeNumbers> for Sizes {
    ghost use Rattle.values.specs.Sizes.{Made};

    type Error = BadSize;

    ghost try_from_gives = { Made };

    // Five lines: a loop would want a table of the names and one of the fields.
    fn try_from(numbers: SizeNumbers) -> Result<Sizes, BadSize> {
        SizeName::CachePlaces.test(numbers.cache_places)?;
        SizeName::QueuePlaces.test(numbers.queue_places)?;
        SizeName::HintRows.test(numbers.hint_rows)?;
        SizeName::PageRows.test(numbers.page_rows)?;
        SizeName::Window.test(numbers.window)?;
        Ok(Sizes { numbers })
    }
}

impl Sizes {
    ghost use Rattle.values.specs.Sizes.{numbers_of};

    /// The plain numbers.
    pub fn numbers(self) -> SizeNumbers
        ensures { result ≡ numbers_of self }
    {
        self.numbers
    }
}
