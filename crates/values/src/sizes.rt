ghost use Rattle.std.specs.Prelude.{◌≤◌};

use crate::size_numbers::SizeNumbers;
use std::fmt;

/// The sizes of a server, each within its limits.
#[derive(Clone, Copy, PartialEq, Eq, Debug)]
pub struct Sizes {
    numbers: SizeNumbers,
    ghost low: { (1 ≤ numbers.cache_places) × (1 ≤ numbers.queue_places) × (1 ≤ numbers.hint_rows) × (1 ≤ numbers.page_rows) × (1 ≤ numbers.window) },
    ghost high: { (numbers.cache_places ≤ 1024) × (numbers.queue_places ≤ 8192) × (numbers.hint_rows ≤ 256) × (numbers.page_rows ≤ 256) × (numbers.window ≤ 2048) },
}

/// The sizes by name, in the order in which they are tested and stand in a trace.
#[derive(Clone, Copy, PartialEq, Eq, Debug)]
pub enum SizeName {
    CachePlaces,
    QueuePlaces,
    HintRows,
    PageRows,
    Window,
}

/// Refusal 1: the first size that is 0 or over its limit.
#[derive(Clone, Copy, PartialEq, Eq, Debug)]
pub struct BadSize(pub SizeName);

impl fmt::Display for SizeName {
    ghost use Rattle.std.specs.Prelude.{Some};
    ghost use Rattle.values.specs.Texts.{name_text};

    ghost output = { λ name. Some (name_text name) };

    fn fmt<W: fmt::Write>(&self, f: &mut fmt::Formatter<W>) -> fmt::Result {
        f.write_str(match self {
            SizeName::CachePlaces => "cache places",
            SizeName::QueuePlaces => "queue places",
            SizeName::HintRows => "hint rows",
            SizeName::PageRows => "page rows",
            SizeName::Window => "window",
        })
    }
}

impl fmt::Display for BadSize {
    ghost use Rattle.std.specs.Prelude.{Some};
    ghost use Rattle.values.specs.Texts.{bad_size_text};

    ghost output = { λ bad. Some (bad_size_text bad) };

    fn fmt<W: fmt::Write>(&self, f: &mut fmt::Formatter<W>) -> fmt::Result {
        let name = self.0;
        write!(f, "the size {name} is 0 or over its limit")
    }
}

impl std::error::Error for BadSize {}

pub mod making;
