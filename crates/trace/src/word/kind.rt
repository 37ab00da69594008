ghost use Rattle.trace.specs.Kinds.{IsKind};

use crate::fault::Cause;

/// What a word is, by the number in its top four bits.
#[derive(Clone, Copy, PartialEq, Eq, Debug)]
pub enum Kind {
    Size,
    Read,
    Write,
    Hint,
    Fill,
}

impl TryFrom<u8> for Kind {
    type Error = Cause;

    ghost try_from_gives = { IsKind };

    fn try_from(number: u8) -> Result<Kind, Cause> {
        match number {
            0 => Ok(Kind::Size),
            1 => Ok(Kind::Read),
            2 => Ok(Kind::Write),
            3 => Ok(Kind::Hint),
            4 => Ok(Kind::Fill),
            _ => Err(Cause::Kind),
        }
    }
}
