ghost use Rattle.std.specs.Prelude.{◌≡◌};
ghost use Rattle.std.specs.Result.{result_map_both};
ghost use Rattle.trace.specs.Words.{IsWord, bits_fit, kind_fits, number, tested};

use crate::fault::Cause;
use crate::word::kind::Kind;
use values::hint_set::MOST_VALUES;
use values::sizes::SizeName;

pub mod kind;

/// A word of a trace, taken apart: bits 31 to 28, 27 to 24, 23 to 20, 19 to 16, and 15 to 0.
#[derive(Clone, Copy)]
pub struct Word {
    pub kind: Kind,
    pub client: u8,
    pub count: u8,
    pub zero: u8,
    pub value: u16,
}

impl TryFrom<u32> for Word {
    type Error = Cause;

    ghost try_from_gives = { IsWord };

    fn try_from(word: u32) -> Result<Word, Cause> {
        let kind = Kind::try_from((word >> 28) as u8)?;
        Ok(Word {
            kind,
            client: ((word >> 24) & 15) as u8,
            count: ((word >> 20) & 15) as u8,
            zero: ((word >> 16) & 15) as u8,
            value: (word & 0xffff) as u16,
        })
    }
}

/// What may stand at a place of a trace. An enum and not a test handed over as a closure, since the
/// definitions tell the format by it.
#[derive(Clone, Copy)]
pub enum Expected {
    Size(SizeName),
    Item,
    Hint,
    Fill,
}

impl Expected {
    fn kind_fits(self, kind: Kind) -> bool
        ensures { result ≡ kind_fits self kind }
    {
        match self {
            Expected::Size(_) => kind == Kind::Size,
            Expected::Item => matches!(kind, Kind::Read | Kind::Write),
            Expected::Hint => kind == Kind::Hint,
            Expected::Fill => kind == Kind::Fill,
        }
    }

    fn bits_fit(self, word: Word) -> bool
        ensures { result ≡ bits_fit self word }
    {
        match self {
            Expected::Size(name) => word.client == name as u8 && word.count == 0 && word.zero == 0,
            Expected::Item => word.count as usize <= MOST_VALUES && word.zero == 0,
            Expected::Hint => word.client == 0 && word.count == 0 && word.zero == 0,
            Expected::Fill => word.client == 0
                && word.count == 0
                && word.zero == 0
                && word.value <= 255,
        }
    }

    /// Refuses a word that may not stand here, by its kind before its bits.
    pub fn test(self, word: Word) -> Result<(), Cause>
        ensures { result_map_both (λ x. x) number result ≡ tested self word }
    {
        if !self.kind_fits(word.kind) {
            return Err(Cause::Kind);
        }
        if !self.bits_fit(word) {
            return Err(Cause::Bits);
        }
        Ok(())
    }
}
