ghost use Rattle.std.specs.Prelude.{◌≡◌};
ghost use Rattle.std.specs.Result.{result_map_both};
ghost use Rattle.trace.specs.Items.{call_at, hints_at, item_at, request};
ghost use Rattle.trace.specs.Lefts.{and_left, left};
ghost use Rattle.trace.specs.Words.{refused};

use crate::fault::Fault;
use crate::item::{Call, Item};
use crate::reader::Reader;
use crate::word::Expected;
use crate::word::kind::Kind;

impl<'t> Reader<'t> {
    /// So many hint words, and what is left after them.
    fn hints(self, count: u8) -> Result<(&'t [u8], Reader<'t>), Fault>
        ensures { result_map_both (and_left (λ x. x.now)) refused result ≡ hints_at count (left self.entry) }
    {
        let mut after = self;
        for _ in 0..count {
            (_, after) = after.word(Expected::Hint)?;
        }
        Ok((&self.rest[..4 * count as usize], after))
    }

    /// What an item of that kind asks: a write has its fill word after its hints.
    fn call(self, kind: Kind) -> Result<(Call, Reader<'t>), Fault>
        ensures { result_map_both (and_left (λ x. x)) refused result ≡ call_at kind (left self.entry) }
    {
        if kind == Kind::Read {
            return Ok((Call::Read, self));
        }
        let (fill, after) = self.word(Expected::Fill)?;
        Ok((Call::Write(fill.value as u8), after))
    }

    /// The item that comes next, and what is left after it.
    pub(super) fn item(self) -> Result<(Item<'t>, Reader<'t>), Fault>
        ensures { result_map_both (and_left request) refused result ≡ item_at (left self.entry) }
    {
        let (word, rest) = self.word(Expected::Item)?;
        let (hints, end) = rest.hints(word.count)?;
        let (call, after) = end.call(word.kind)?;
        let item = Item {
            place: self.place,
            call,
            page: word.value,
            client: word.client,
            hints,
        };
        Ok((item, after))
    }
}
