//! Pages in memory, and the tests that come first in every call.

ghost use Rattle.std.specs.Prelude.{◌≡◌, ◌/◌, min, length, Ok};
ghost use Rattle.store.specs.Faults.{numbered};
ghost use Rattle.store.specs.Meaning.{test_length, test_number, tested};
ghost use Rattle.store.specs.Makes.{page_out, page_in};

use crate::fault::{Fault, FaultNumber};

/// The bytes of a page.
pub const PAGE_BYTES: usize = 256;

/// The most pages that a store has.
pub const MOST_PAGES: usize = 65536;

/// The pages that a memory holds whole, as far as a store may have them.
pub(crate) fn whole_pages(bytes: &[u8]) -> usize
    ensures { result ≡ min (length bytes.now / 256) 65536 }
{
    (bytes.len() / PAGE_BYTES).min(MOST_PAGES)
}

/// Refuses a buffer that is not a page long.
// The length is no array type, which a pair could not pass on to its sides.
pub(crate) fn test_length(page: u32, length: usize) -> Result<(), Fault>
    ensures { numbered result ≡ test_length page length (Ok tt) }
{
    if length != PAGE_BYTES {
        return Err(Fault::here(FaultNumber::Buffer, page));
    }
    Ok(())
}

/// Refuses a page that is not there.
pub(crate) fn test_number(number: u32, page: u32) -> Result<(), Fault>
    ensures { numbered result ≡ test_number number page (Ok tt) }
{
    if page >= number {
        return Err(Fault::here(FaultNumber::NoPage, page));
    }
    Ok(())
}

/// The tests that come first in every call, in their order.
pub(crate) fn test(number: u32, page: u32, length: usize) -> Result<(), Fault>
    ensures { numbered result ≡ tested number page length (Ok tt) }
{
    test_length(page, length)?;
    test_number(number, page)
}

/// Copies the page at a place out of a memory.
///
/// Where the memory has no such page, or the buffer is not a page long, nothing changes.
pub fn page_out(bytes: &[u8], place: usize, buffer: &mut [u8])
    ensures { buffer.new ≡ page_out bytes.now place buffer.old }
{
    if place < bytes.len() / PAGE_BYTES && buffer.len() == PAGE_BYTES {
        // by range, since `nth` of the chunks would walk to the place
        let start = place * PAGE_BYTES;
        buffer.copy_from_slice(&bytes[start..start + PAGE_BYTES]);
    }
}

/// Copies a page into a memory, at a place.
///
/// Where the memory has no such page, or the new one is not a page long, nothing changes.
pub fn page_in(bytes: &mut [u8], place: usize, new: &[u8])
    ensures { bytes.new ≡ page_in bytes.old place new.now }
{
    if place < bytes.len() / PAGE_BYTES && new.len() == PAGE_BYTES {
        let start = place * PAGE_BYTES;
        // by range, since what is written through `as_chunks_mut` is unknown afterwards
        bytes[start..start + PAGE_BYTES].copy_from_slice(new);
    }
}
