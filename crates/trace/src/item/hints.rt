ghost use Rattle.std.specs.Prelude.{◌≡◌, ◌<◌, true, is_ok, map, slice_index};
ghost use Rattle.std.specs.List.{range_with_len};
ghost use Rattle.std.specs.Result.{result_map_both};
ghost use Rattle.values.specs.HintSets.{hints_from, meaning, refused};
ghost use Rattle.values.specs.declared.hint_set.TheConstants.{MOST_VALUES};
ghost use Rattle.trace.specs.Hints.{value_at, values_of};
ghost use Rattle.trace.specs.Items.{Hinted, request};

use crate::item::Item;
use std::array;
use values::hint_set::{BadHintSet, HintSet, MOST_VALUES};

/// The value of the hint word at a place, from 0.
fn hint_value(words: &[u8], place: usize) -> u16
    requires { place < MOST_VALUES }
    ensures { result ≡ value_at words.now place }
{
    let byte = |at: usize| words.get(at).copied().unwrap_or(0);
    u16::from_be_bytes([byte(4 * place + 2), byte(4 * place + 3)])
}

/// The values of the first five words, with 0 for each byte past the end.
fn hint_values(words: &[u8]) -> [u16; MOST_VALUES]
    ensures { result ≡ map (value_at words.now) (range_with_len 0 MOST_VALUES) }
{
    array::from_fn(|place| hint_value(words, place))
}

impl<'t> Item<'t> {
    /// The hint set of the item. An item that a reader gave has one.
    pub fn hint_set(&self) -> Result<HintSet, BadHintSet>
        ensures value { result_map_both meaning refused result ≡ hints_from self.now.client (values_of self.now.hints.now) }
        ensures succeeds { Hinted (request self.now) → is_ok result ≡ true }
    {
        let count = self.hints.len() / 4;
        let values = hint_values(self.hints);
        let values = values.get(..count).ok_or(BadHintSet)?;
        HintSet::new(self.client, values)
    }
}
