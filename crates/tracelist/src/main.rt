//! Lists the trace at standard input: a line for each size and item, how it ends, and what its
//! last window counts.
#![tactic(auto)]

use crate::window::{Window, Windows};
use counting::count_all::count_all;
use counting::row::Row;
use keys::Key;
use lines::summary_lines::{HintKey, PageKey, RowKey, RowLine, WindowLine};
use lines::trace_lines::{EndLine, FaultLine, ItemLine, SizeLines};
use std::io;
use std::io::Read;
use trace::reader::Reader;
use trace::whole::count_items;
use values::size_numbers::SizeNumbers;

#[cfg(test)]
mod tests;
mod window;

/// A longer trace is read by its first part.
const MOST_BYTES: u64 = 32768;

/// An item has at least one word of four bytes.
const MOST_ITEMS: u32 = MOST_BYTES as u32 / 4;

/// Lists the items up to the end or the first fault, and answers their last window.
fn list_items(rt: &HostRuntime, reader: &mut Reader, size: usize) -> io::Result<Windows> {
    let mut windows = Windows::new(rt.alloc(), size);
    // Over a range the number fits its type, which a count in a `while let` would have to prove.
    for number in 1..=MOST_ITEMS {
        let Ok(Some(item)) = reader.next() else {
            break;
        };
        // An item that is read has a hint set.
        let line = ItemLine::try_from(item).unwrap();
        rt.println(line)?;
        windows.note(line, number)?;
    }
    Ok(windows)
}

fn print_end(rt: &HostRuntime, trace: &[u8]) -> io::Result<()> {
    match count_items(trace) {
        Ok(count) => rt.println(EndLine(count)),
        Err(fault) => rt.println(FaultLine(fault)),
    }
}

/// Counts the keys of a window in a table of so many rows, and prints a line for each row in use.
fn print_rows<K: Key + Copy + Default, L: RowKey + Copy, F: Fn(K) -> L>(
    rt: &HostRuntime,
    window: &Window<K>,
    rows: usize,
    shown: F,
) -> io::Result<()>
    requires { F.IsAlwaysCallable shown }
{
    let mut rows = vec![in rt.alloc(); Row::default(); rows]?;
    let table = count_all(&mut rows, window.countings());
    for row in table.used_rows() {
        rt.println(RowLine {
            key: shown(row.key),
            count: row.count,
            error: row.error,
        })?;
    }
    Ok(())
}

fn print_summary(rt: &HostRuntime, windows: &Windows, sizes: SizeNumbers) -> io::Result<()> {
    rt.println(WindowLine(windows.pages.countings().len()))?;
    print_rows(rt, &windows.hints, sizes.hint_rows as usize, HintKey)?;
    print_rows(rt, &windows.pages, sizes.page_rows as usize, PageKey)
}

fn list(rt: &HostRuntime, trace: &[u8]) -> io::Result<()> {
    let mut reader = Reader::new(trace);
    let Ok(sizes) = reader.sizes() else {
        return print_end(rt, trace);
    };
    let sizes = sizes.numbers();
    rt.println(SizeLines(sizes))?;
    let windows = list_items(rt, &mut reader, sizes.window as usize)?;
    print_end(rt, trace)?;
    print_summary(rt, &windows, sizes)
}

fn main(rt: HostRuntime) -> io::Result<()> {
    let mut trace = Vec::new(rt.alloc());
    rt.stdin().take(MOST_BYTES).read_to_end(&mut trace)?;
    list(&rt, &trace)
}
