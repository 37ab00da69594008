ghost use Rattle.std.specs.Prelude.{◌≡◌};
ghost use Rattle.std.specs.Result.{result_map_both};
ghost use Rattle.values.specs.Sizes.{numbers_of};
ghost use Rattle.trace.specs.Lefts.{and_left, left};
ghost use Rattle.trace.specs.Sizes.{in_limits, size_at, size_words};
ghost use Rattle.trace.specs.Words.{refused};

use crate::fault::{Cause, Fault};
use crate::reader::Reader;
use crate::word::Expected;
use values::size_numbers::SizeNumbers;
use values::sizes::{SizeName, Sizes};

impl<'t> Reader<'t> {
    /// The size of that name, and what is left after its word.
    fn size(self, name: SizeName) -> Result<(u32, Reader<'t>), Fault>
        ensures { result_map_both (and_left (λ n. n)) refused result ≡ size_at name (left self.entry) }
    {
        let (word, after) = self.word(Expected::Size(name))?;
        Ok((u32::from(word.value), after))
    }

    /// The numbers of the five size words, and what is left after them.
    // Five lines: a loop would want a table of the names and one of the fields.
    pub(super) fn size_words(self) -> Result<(SizeNumbers, Reader<'t>), Fault>
        ensures { result_map_both (and_left (λ n. n)) refused result ≡ size_words (left self.entry) }
    {
        let (cache_places, rest) = self.size(SizeName::CachePlaces)?;
        let (queue_places, rest) = rest.size(SizeName::QueuePlaces)?;
        let (hint_rows, rest) = rest.size(SizeName::HintRows)?;
        let (page_rows, rest) = rest.size(SizeName::PageRows)?;
        let (window, rest) = rest.size(SizeName::Window)?;
        let numbers = SizeNumbers {
            cache_places,
            queue_places,
            hint_rows,
            page_rows,
            window,
        };
        Ok((numbers, rest))
    }

    /// Sizes of these numbers, whose words start here.
    pub(super) fn limit(self, numbers: SizeNumbers) -> Result<Sizes, Fault>
        ensures { result_map_both numbers_of refused result ≡ in_limits numbers self.entry.place }
    {
        Sizes::try_from(numbers).map_err(|bad| Fault {
            cause: Cause::SizeLimit,
            place: self.place + bad.0 as usize,
        })
    }
}
