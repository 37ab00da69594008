ghost use Rattle.std.specs.Prelude.{Some};
ghost use Rattle.values.specs.HintSets.{says};
ghost use Rattle.lines.specs.Parts.{dashed, listed};

use std::fmt;
use values::hint_numbers::HintNumbers;

/// A number, or `-` for none.
#[derive(Clone, Copy)]
pub struct Dash(pub Option<u32>);

impl fmt::Display for Dash {
    ghost output = { λ d. Some (dashed d.0) };

    fn fmt<W: fmt::Write>(&self, f: &mut fmt::Formatter<W>) -> fmt::Result {
        match self.0 {
            Some(n) => write!(f, "{n}"),
            None => write!(f, "-"),
        }
    }
}

/// Numbers with commas between them, or `-` for none.
#[derive(Clone, Copy)]
struct Listed<'a>(&'a [u16]);

impl fmt::Display for Listed<'_> {
    ghost output = { λ l. Some (listed l.0.now) };

    fn fmt<W: fmt::Write>(&self, f: &mut fmt::Formatter<W>) -> fmt::Result {
        let [first, rest @ ..] = self.0 else {
            return write!(f, "-");
        };
        write!(f, "{first}")?;
        for number in rest {
            write!(f, ",{number}")?;
        }
        Ok(())
    }
}

/// The values of a hint set, by its plain numbers, with commas between them, or `-` for none.
#[derive(Clone, Copy)]
pub struct Values(pub HintNumbers);

impl fmt::Display for Values {
    ghost output = { λ v. Some (listed (says v.0).values) };

    fn fmt<W: fmt::Write>(&self, f: &mut fmt::Formatter<W>) -> fmt::Result {
        let values = self.0.five_values();
        let count = (self.0.count as usize).min(values.len());
        write!(f, "{}", Listed(&values[..count]))
    }
}
