ghost use Rattle.std.specs.Prelude.{◌≡◌, Some, true, is_ok};
ghost use Rattle.std.specs.Result.{result_map_both};
ghost use Rattle.values.specs.HintSets.{refused};
ghost use Rattle.trace.specs.Items.{Hinted, request};
ghost use Rattle.lines.specs.TraceLines.{end_line, fault_line, item_line, line_of, said, size_lines};

use crate::parts::{Dash, Values};
use std::fmt;
use trace::fault::Fault;
use trace::item::{Call, Item};
use values::hint_set::{BadHintSet, HintSet};
use values::size_numbers::SizeNumbers;

/// The five sizes of a trace, a line each.
#[derive(Clone, Copy)]
pub struct SizeLines(pub SizeNumbers);

impl fmt::Display for SizeLines {
    ghost output = { λ l. Some (size_lines l.0) };

    fn fmt<W: fmt::Write>(&self, f: &mut fmt::Formatter<W>) -> fmt::Result {
        let n = self.0;
        write!(
            f,
            "0 C {}\n1 Q {}\n2 k {}\n3 j {}\n4 W {}",
            n.cache_places, n.queue_places, n.hint_rows, n.page_rows, n.window
        )
    }
}

/// What a line says of an item of a trace; the trace itself need not be at hand then.
#[derive(Clone, Copy)]
pub struct ItemLine {
    pub place: usize,
    pub call: Call,
    pub page: u16,
    pub hints: HintSet,
}

/// The line of an item, or the refusal of its hints. An item that a reader gave is not refused.
impl TryFrom<Item<'_>> for ItemLine {
    type Error = BadHintSet;

    ghost try_from_gives = { λ item line. (result_map_both said refused line ≡ line_of item) × (Hinted (request item) → is_ok line ≡ true) };

    fn try_from(item: Item<'_>) -> Result<ItemLine, BadHintSet> {
        Ok(ItemLine {
            place: item.place,
            call: item.call,
            page: item.page,
            hints: item.hint_set()?,
        })
    }
}

impl fmt::Display for ItemLine {
    ghost output = { λ l. Some (item_line l) };

    fn fmt<W: fmt::Write>(&self, f: &mut fmt::Formatter<W>) -> fmt::Result {
        let (letter, fill) = match self.call {
            Call::Read => ("r", None),
            Call::Write(byte) => ("w", Some(byte.into())),
        };
        let hints = self.hints.numbers();
        let values = Values(hints);
        let fill = Dash(fill);
        write!(
            f,
            "{} {letter} {} {} {values} {fill}",
            self.place, self.page, hints.client
        )
    }
}

/// The fault that ends a trace.
#[derive(Clone, Copy)]
pub struct FaultLine(pub Fault);

impl fmt::Display for FaultLine {
    ghost output = { λ l. Some (fault_line l.0) };

    fn fmt<W: fmt::Write>(&self, f: &mut fmt::Formatter<W>) -> fmt::Result {
        write!(f, "fault {} {}", self.0.number(), self.0.place)
    }
}

/// The end of a listing without a fault, with the number of items.
#[derive(Clone, Copy)]
pub struct EndLine(pub usize);

impl fmt::Display for EndLine {
    ghost output = { λ l. Some (end_line l.0) };

    fn fmt<W: fmt::Write>(&self, f: &mut fmt::Formatter<W>) -> fmt::Result {
        write!(f, "end {}", self.0)
    }
}
