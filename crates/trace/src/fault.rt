ghost use Rattle.std.specs.Prelude.{◌≡◌};
ghost use Rattle.trace.specs.Words.{number};

use std::fmt;

/// What is wrong with a trace. The numbers are those of the refusals.
#[derive(Clone, Copy, PartialEq, Eq, Debug)]
pub enum Cause {
    SizeLimit = 1,
    Ended = 10,
    Kind = 11,
    Bits = 12,
}

/// A fault of a trace, and the place of the word that has it.
#[derive(Clone, Copy, PartialEq, Eq, Debug)]
pub struct Fault {
    pub cause: Cause,
    pub place: usize,
}

impl Fault {
    /// The number of the refusal.
    pub fn number(self) -> u8
        ensures { result ≡ number self.cause }
    {
        self.cause as u8
    }
}

impl fmt::Display for Cause {
    ghost use Rattle.std.specs.Prelude.{Some};
    ghost use Rattle.trace.specs.Texts.{cause_text};

    ghost output = { λ cause. Some (cause_text cause) };

    fn fmt<W: fmt::Write>(&self, f: &mut fmt::Formatter<W>) -> fmt::Result {
        f.write_str(match self {
            Cause::SizeLimit => "the size is 0 or over its limit",
            Cause::Ended => "the trace ends too early",
            Cause::Kind => "the word's kind is not allowed here",
            Cause::Bits => "the word's bits are not allowed here",
        })
    }
}

impl fmt::Display for Fault {
    ghost use Rattle.std.specs.Prelude.{Some};
    ghost use Rattle.trace.specs.Texts.{fault_text};

    ghost output = { λ fault. Some (fault_text fault) };

    fn fmt<W: fmt::Write>(&self, f: &mut fmt::Formatter<W>) -> fmt::Result {
        let place = self.place;
        let cause = self.cause;
        write!(f, "word {place}: {cause}")
    }
}

impl std::error::Error for Fault {}
