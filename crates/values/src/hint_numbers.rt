ghost use Rattle.std.specs.Prelude.{◌≡◌, ◌≤◌, length, slice_index};

use crate::hint_set::MOST_VALUES;

pub(crate) const MOST_CLIENT: u8 = 15;

/// The plain numbers of a hint set, for handed memory, which may hold anything.
// Five fields and no array, which a specification sees as a list of any length.
#[derive(Clone, Copy, PartialEq, Eq, Debug, Default)]
pub struct HintNumbers {
    pub client: u8,
    pub count: u8,
    pub first: u16,
    pub second: u16,
    pub third: u16,
    pub fourth: u16,
    pub fifth: u16,
}

/// The value at a place, or 0 past the end.
fn value_at(values: &[u16], place: usize) -> u16
    ensures { result ≡ slice_index values.now place }
{
    values.get(place).copied().unwrap_or(0)
}

impl HintNumbers {
    ghost use Rattle.values.specs.HintSets.{blank, five_values, lawful, padded};

    /// The numbers of a client with a list of values, with 0 past its end.
    pub(crate) fn padded(client: u8, values: &[u16]) -> HintNumbers
        requires { length values.now ≤ 5 }
        ensures { result ≡ padded client values.now }
    {
        HintNumbers {
            client,
            count: values.len() as u8,
            first: value_at(values, 0),
            second: value_at(values, 1),
            third: value_at(values, 2),
            fourth: value_at(values, 3),
            fifth: value_at(values, 4),
        }
    }

    /// The five values, those past the count too.
    pub fn five_values(self) -> [u16; MOST_VALUES]
        ensures { result ≡ five_values self }
    {
        [self.first, self.second, self.third, self.fourth, self.fifth]
    }

    /// Whether each value past the count is 0.
    fn is_blank(self) -> bool
        ensures { result ≡ blank self }
    {
        self.five_values()
            .iter()
            .skip(self.count as usize)
            .all(|&value| value == 0)
    }

    /// Whether they are those of a hint set.
    pub(crate) fn is_lawful(self) -> bool
        ensures { result ≡ lawful self }
    {
        self.client <= MOST_CLIENT && self.count as usize <= MOST_VALUES && self.is_blank()
    }
}
