ghost use Rattle.std.specs.Prelude.{◌≡◌, IfSome, IfOk};
ghost use Rattle.std.specs.Option.{option_map};
ghost use Rattle.std.specs.Result.{result_map_both};
ghost use Rattle.values.specs.Sizes.{numbers_of};
ghost use Rattle.trace.specs.Items.{Hinted, request};
ghost use Rattle.trace.specs.Lefts.{left};
ghost use Rattle.trace.specs.Reading.{after_item, after_sizes, item_read, sizes_read};
ghost use Rattle.trace.specs.Words.{refused};

use crate::fault::Fault;
use crate::item::Item;
use crate::reader::Reader;
use values::sizes::Sizes;

impl<'t> Reader<'t> {
    /// A reader at the first word of a trace.
    pub fn new(trace: &'t [u8]) -> Reader<'t>
        ensures { left result ≡ record { rest = trace.now; place = 0 } }
    {
        Reader {
            rest: trace,
            place: 0,
        }
    }

    /// The sizes, if five size words come next; a fault leaves the reader where it was.
    pub fn sizes(&mut self) -> Result<Sizes, Fault>
        ensures value { result_map_both numbers_of refused result ≡ sizes_read (left self.old) }
        ensures after { left self.new ≡ after_sizes (left self.old) }
    {
        let (numbers, after) = self.size_words()?;
        let sizes = self.limit(numbers)?;
        *self = after;
        Ok(sizes)
    }

    /// The next item, or none at the end; a fault leaves the reader where it was.
    pub fn next(&mut self) -> Result<Option<Item<'t>>, Fault>
        ensures value { result_map_both (option_map request) refused result ≡ item_read (left self.old) }
        ensures after { left self.new ≡ after_item (left self.old) }
        ensures hinted { IfOk result (λ o. IfSome o (λ i. Hinted (request i))) }
    {
        if self.rest.is_empty() {
            return Ok(None);
        }
        let (item, after) = self.item()?;
        *self = after;
        Ok(Some(item))
    }
}
