ghost use Rattle.std.specs.Prelude.{◌≡◌, true, IfOk};
ghost use Rattle.std.specs.Option.{option_map};
ghost use Rattle.std.specs.Result.{result_map_both};
ghost use Rattle.trace.specs.Lefts.{and_left, left};
ghost use Rattle.trace.specs.Words.{bits_fit, first_word, number, refused, taken, word_at};

use crate::fault::{Cause, Fault};
use crate::reader::Reader;
use crate::word::{Expected, Word};

impl<'t> Reader<'t> {
    /// The first word, high byte first, and what is left after it.
    fn first_word(self) -> Option<(u32, Reader<'t>)>
        ensures { option_map (and_left (λ n. n)) result ≡ first_word (left self.entry) }
    {
        let [a, b, c, d, rest @ ..] = self.rest else {
            return None;
        };
        let word = u32::from_be_bytes([*a, *b, *c, *d]);
        let after = Reader {
            rest,
            place: self.place + 1,
        };
        Some((word, after))
    }

    /// The first word, if it is such a word, or what is wrong with it.
    fn take(self, expected: Expected) -> Result<(Word, Reader<'t>), Cause>
        ensures { result_map_both (and_left (λ w. w)) number result ≡ taken expected (left self.entry) }
    {
        let (number, after) = self.first_word().ok_or(Cause::Ended)?;
        let word = Word::try_from(number)?;
        expected.test(word)?;
        Ok((word, after))
    }

    /// The word that comes next, if it is such a word, and what is left after it.
    pub(super) fn word(self, expected: Expected) -> Result<(Word, Reader<'t>), Fault>
        ensures value { result_map_both (and_left (λ w. w)) refused result ≡ word_at expected (left self.entry) }
        ensures fits { IfOk result (λ t. bits_fit expected t.0 ≡ true) }
    {
        self.take(expected).map_err(|cause| Fault {
            cause,
            place: self.place,
        })
    }
}
