//! Calls that print what they answered.

use std::fmt;
use store::fault::Fault;
use store::script::{Access, Call};
use store::store::Store;

/// The longest buffer of a case.
const LONGEST: usize = 257;

/// What a buffer holds before a read.
const BLANK: u8 = 238;

/// What a write writes.
const INK: u8 = 99;

/// An answer as a line shows it.
#[derive(Drop)]
struct Answer(Result<(), Fault>);

impl fmt::Display for Answer {
    fn fmt<W: fmt::Write>(&self, f: &mut fmt::Formatter<W>) -> fmt::Result {
        match self.0 {
            Ok(()) => write!(f, "ok"),
            Err(fault) => write!(f, "{fault}"),
        }
    }
}

/// Reads into a blank buffer, and shows the answer and the buffer's first byte.
fn read<S: Store>(rt: &HostRuntime, store: &mut S, page: u32, length: usize) -> anyhow::Result<()> {
    let mut buffer = [BLANK; LONGEST];
    let answer = Answer(store.read(page, &mut buffer[0..length.min(LONGEST)]));
    println!(rt;
        "  read {page} into {length} bytes: {answer}; first byte {}",
        buffer[0]
    )?;
    Ok(())
}

/// Writes a page of ink, and shows the answer.
fn write<S: Store>(
    rt: &HostRuntime,
    store: &mut S,
    page: u32,
    length: usize,
) -> anyhow::Result<()> {
    let bytes = [INK; LONGEST];
    let answer = Answer(store.write(page, &bytes[0..length.min(LONGEST)]));
    println!(rt; "  write {page} from {length} bytes: {answer}")?;
    Ok(())
}

/// Makes calls one after another, and shows the number of pages and the tally at the end. A read
/// and a write show different things, so each call is made here and not by the script.
pub fn calls<S: Store>(
    rt: &HostRuntime,
    title: &str,
    store: &mut S,
    calls: &[Call],
) -> anyhow::Result<()> {
    println!(rt; "{title}")?;
    for call in calls {
        match call.access {
            Access::Read => read(rt, store, call.page, call.length)?,
            Access::Write => write(rt, store, call.page, call.length)?,
        }
    }
    println!(rt; "  {} pages, tally {}", store.count(), store.tally())?;
    Ok(())
}

/// Shows the answers that a script left.
pub fn outcomes(rt: &HostRuntime, outcomes: &[Result<(), Fault>]) -> anyhow::Result<()> {
    for outcome in outcomes {
        println!(rt; "  outcome: {}", Answer(*outcome))?;
    }
    Ok(())
}

/// Shows the first byte of each call's part of a memory.
pub fn buffers(rt: &HostRuntime, calls: &[Call], memory: &[u8]) -> anyhow::Result<()> {
    let mut rest = memory;
    for call in calls {
        let first = rest.first().copied().unwrap_or(0);
        println!(rt; "  a buffer begins with {first}")?;
        rest = rest.get(call.length..).unwrap_or(&[]);
    }
    Ok(())
}
