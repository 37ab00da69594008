ghost use Rattle.std.specs.Prelude.{◌≡◌, List, ℕ, Some};
ghost use Rattle.std.proofs.Common.{rules};
ghost use Rattle.std.proofs.lemmas.List.{append_assoc};
ghost use Rattle.lines.specs.declared.summary_lines.RowLine.{RowLine};
ghost use Rattle.lines.specs.SummaryLines.{hint_key, hint_row_line, page_key, page_row_line, row_line, window_line};

use crate::parts::Values;
use std::fmt;
use values::hint_numbers::HintNumbers;

/// How many requests the counts that follow are of.
// Not one type with `EndLine` over the word: the word is part of the line, and not a caller's choice.
#[derive(Clone, Copy)]
pub struct WindowLine(pub usize);

impl fmt::Display for WindowLine {
    ghost output = { λ l. Some (window_line l.0) };

    fn fmt<W: fmt::Write>(&self, f: &mut fmt::Formatter<W>) -> fmt::Result {
        write!(f, "window {}", self.0)
    }
}

/// A key with its count, which may be too high by the error.
#[derive(Clone, Copy)]
pub struct RowLine<K> {
    pub key: K,
    pub count: u32,
    pub error: u32,
}

/// A kind of key that rows count.
pub trait RowKey: fmt::Display {
    // What a row of this kind prints.
    ghost line: { RowLine Self → List ℕ };

    // It is what the key prints, then the count and the error.
    ghost begins: { (l : RowLine Self) → row_line (Self.output l.key) l.count l.error ≡ Some (line l) };
}

impl<K: RowKey> fmt::Display for RowLine<K> {
    ghost output = { λ l. Some (K.line l) };

    fn fmt<W: fmt::Write>(&self, f: &mut fmt::Formatter<W>) -> fmt::Result {
        write!(f, "{} {} {}", self.key, self.count, self.error)
    }
}

/// A hint set that is counted, by its plain numbers.
#[derive(Clone, Copy)]
pub struct HintKey(pub HintNumbers);

impl fmt::Display for HintKey {
    ghost output = { λ k. Some (hint_key k.0) };

    fn fmt<W: fmt::Write>(&self, f: &mut fmt::Formatter<W>) -> fmt::Result {
        write!(f, "hints {} {}", self.0.client, Values(self.0))
    }
}

impl RowKey for HintKey {
    ghost line = { hint_row_line };

    ghost begins = { Prim.search (rules, append_assoc) };
}

/// The number of a page that is counted.
#[derive(Clone, Copy)]
pub struct PageKey(pub u32);

impl fmt::Display for PageKey {
    ghost output = { λ k. Some (page_key k.0) };

    fn fmt<W: fmt::Write>(&self, f: &mut fmt::Formatter<W>) -> fmt::Result {
        write!(f, "page {}", self.0)
    }
}

impl RowKey for PageKey {
    ghost line = { page_row_line };

    ghost begins = { Prim.search rules };
}
