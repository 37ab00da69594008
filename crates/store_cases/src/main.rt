//! What stores answer at the edges: a line for each call.
#![tactic(auto)]

use crate::buried::Buried;
use std::alloc::Global;
use store::fault::{Fault, FaultNumber, Origin};
use store::page::PAGE_BYTES;
use store::pair::Pair;
use store::plate::PlateStore;
use store::script::{Access, Call, perform};
use store::working::WorkingStore;

mod buried;
mod shown;

/// A read with a buffer of the right length.
fn read(page: u32) -> Call {
    Call {
        access: Access::Read,
        page,
        length: PAGE_BYTES,
    }
}

/// A write of the right length.
fn write(page: u32) -> Call {
    Call {
        access: Access::Write,
        ..read(page)
    }
}

/// The same call with a buffer of another length.
fn with(call: Call, length: usize) -> Call {
    Call { length, ..call }
}

/// Fills each page with its number, from `first` on.
fn number_pages(bytes: &mut [u8], first: usize) {
    for (i, page) in bytes.chunks_mut(PAGE_BYTES).enumerate() {
        page.fill((i.wrapping_add(first) % 256) as u8);
    }
}

/// Buffers of every wrong length beside the right one, and page numbers around the last.
fn lengths_and_numbers(rt: &HostRuntime) -> anyhow::Result<()> {
    let mut bytes = [0; 868];
    number_pages(&mut bytes, 0);
    let mut store = WorkingStore::new(&mut bytes, &[0; 5]);
    let r = read(2);
    let w = write(2);
    let lengths = [
        with(r, 0),
        with(w, 0),
        with(r, 255),
        with(w, 255),
        r,
        w,
        with(r, 257),
        with(w, 257),
        r,
    ];
    shown::calls(
        rt,
        "three pages and a part of one, five marks: lengths",
        &mut store,
        &lengths,
    )?;
    let numbers = [read(3), write(3), read(u32::MAX), write(u32::MAX)];
    shown::calls(
        rt,
        "the same: page numbers past the last",
        &mut store,
        &numbers,
    )?;
    println!(rt; "  the part of a page begins with {}", bytes[768])?;
    Ok(())
}

/// Every mark, where there are fewer marks than pages.
fn marks(rt: &HostRuntime) -> anyhow::Result<()> {
    let mut bytes = [0; 1280];
    number_pages(&mut bytes, 0);
    let mut store = WorkingStore::new(&mut bytes, &[0, 1, 2, 255]);
    let reads = [read(0), read(1), read(2), read(3), read(4)];
    let writes = [
        write(0),
        write(1),
        write(2),
        write(3),
        write(4),
        with(write(2), 255),
    ];
    shown::calls(rt, "five pages, marks 0 1 2 255: reads", &mut store, &reads)?;
    shown::calls(rt, "the same: writes", &mut store, &writes)?;
    shown::calls(
        rt,
        "the same: a page that was written",
        &mut store,
        &[read(0)],
    )
}

/// Stores without a page.
fn no_page(rt: &HostRuntime) -> anyhow::Result<()> {
    let mut part = [0; 255];
    let mut short = WorkingStore::new(&mut part, &[0]);
    shown::calls(
        rt,
        "no whole page",
        &mut short,
        &[read(0), write(0), with(read(0), 0)],
    )?;
    let mut whole = [0; 256];
    let mut bare = WorkingStore::new(&mut whole, &[]);
    shown::calls(rt, "no mark", &mut bare, &[read(0), write(0)])?;
    let mut pair = Pair::new(bare, PlateStore::new(&[]));
    shown::calls(
        rt,
        "a pair of that and an empty plate",
        &mut pair,
        &[read(0), write(1)],
    )
}

/// A pair of three and five pages, and that beside a plate.
fn pairs(rt: &HostRuntime) -> anyhow::Result<()> {
    let mut left = [0; 768];
    number_pages(&mut left, 10);
    let mut right = [0; 1280];
    number_pages(&mut right, 20);
    let mut pair = Pair::new(
        WorkingStore::new(&mut left, &[0, 1, 2]),
        WorkingStore::new(&mut right, &[0, 1, 0, 0, 0]),
    );
    let reads = [
        read(0),
        read(1),
        read(2),
        read(3),
        read(4),
        read(5),
        read(6),
        with(read(1), 257),
    ];
    shown::calls(
        rt,
        "a pair of three pages from 10 and five from 20: reads",
        &mut pair,
        &reads,
    )?;
    let writes = [write(1), write(2), write(3), write(4), read(1)];
    shown::calls(rt, "the same: writes", &mut pair, &writes)?;
    let mut outer = Pair::new(pair, PlateStore::new(&[5; 1280]));
    let both = [
        read(0),
        write(0),
        read(4),
        write(4),
        read(8),
        write(8),
        read(9),
        write(9),
        read(10),
    ];
    shown::calls(
        rt,
        "that pair beside a plate of five pages",
        &mut outer,
        &both,
    )
}

/// The most pages: of a plate, and of a pair.
fn most_pages(rt: &HostRuntime, heap: Global) -> anyhow::Result<()> {
    let bytes = vec![in heap; 3u8; 65537 * 256]?;
    let mut plate = PlateStore::new(&bytes);
    let last = [read(65535), read(65536)];
    shown::calls(rt, "a plate of 65,537 pages", &mut plate, &last)?;
    let mut pair = Pair::new(plate, PlateStore::new(&bytes));
    shown::calls(rt, "a pair of two such", &mut pair, &last)
}

/// A side whose origin is as deep and whose tally as high as can be.
fn deepest(rt: &HostRuntime) -> anyhow::Result<()> {
    let mut pair = Pair::new(Buried, PlateStore::new(&[4; 512]));
    shown::calls(
        rt,
        "a pair of a store 255 deep and a plate: refused",
        &mut pair,
        &[read(0), write(0), write(3)],
    )?;
    shown::calls(rt, "the same: one accepted read", &mut pair, &[read(3)])
}

/// A script: what it reads is what was written last.
fn script(rt: &HostRuntime) -> anyhow::Result<()> {
    let calls = [
        read(1),
        write(1),
        read(1),
        with(write(1), 10),
        write(1),
        read(1),
        read(1),
    ];
    let mut memory = [0; 1300];
    number_pages(&mut memory, 50);
    let unmade = Fault {
        number: FaultNumber::Dead,
        origin: Origin {
            page: 1000,
            depth: 0,
        },
    };
    let mut outcomes = [Err(unmade); 7];
    let mut bytes = [0; 512];
    number_pages(&mut bytes, 0);
    let mut store = WorkingStore::new(&mut bytes, &[0, 0]);
    let made = perform(&mut store, &calls, &mut memory, &mut outcomes);
    println!(rt; "a script of seven calls with room for six: {made} calls were made")?;
    shown::buffers(rt, &calls, &memory)?;
    shown::outcomes(rt, &outcomes)?;
    shown::calls(rt, "the store after it", &mut store, &[])
}

fn main(rt: HostRuntime) -> anyhow::Result<()> {
    lengths_and_numbers(&rt)?;
    marks(&rt)?;
    no_page(&rt)?;
    pairs(&rt)?;
    most_pages(&rt, rt.alloc())?;
    deepest(&rt)?;
    script(&rt)
}
