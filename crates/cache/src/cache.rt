ghost use Rattle.std.specs.Prelude.{◌≡◌, ◌≤◌, [], length};
ghost use Rattle.std.specs.List.{slice_get};
ghost use Rattle.lent.specs.Lent.{Untouched};
ghost use Rattle.rules.specs.State.{entries as entries_of};
ghost use Rattle.cache.specs.Pages.{room_of};
ghost use Rattle.cache.specs.Changes.{shown, sought, takes};

use rules::entry::Entry;
use store::page::{PAGE_BYTES, page_out};

pub mod changing;

/// The cached pages, in lent rows and lent memory, since no part of a server has a heap: the
/// page of row i is the i-th 256 bytes. The first `used` places are in use, of those that have
/// a row and a whole page.
// A method that may find its place unused tells by a `bool` whether it did what it says: a change
// has no value to give along, and what `copy_out` gives lies in the buffer, of which the rules
// speak.
#[derive(Drop)]
pub struct Cache<'a> {
    rows: &'a mut [Entry],
    bytes: &'a mut [u8],
    used: usize,
    ghost within: { used ≤ room_of rows.now bytes.now },
}

impl<'a> Cache<'a> {
    ghost use Rattle.cache.specs.View.{cached, held, places};

    /// An empty cache; what was lent stays as it is.
    #[tactic(auto, using(crate::proofs::Helds::pages_none))]
    pub fn new(rows: &'a mut [Entry], bytes: &'a mut [u8]) -> Cache<'a>
        ensures empty { cached result ≡ [] }
        ensures rows { Untouched rows.entry result.rows }
        ensures bytes { Untouched bytes.entry result.bytes }
    {
        Cache {
            rows,
            bytes,
            used: 0,
        }
    }

    /// How many places there are, used or not: a place has a row and a whole page.
    pub fn room(&self) -> usize
        ensures { result ≡ places self.now }
    {
        self.rows.len().min(self.bytes.len() / PAGE_BYTES)
    }

    /// How many pages are cached.
    #[tactic(auto, using(crate::proofs::Helds::length_pages))]
    pub fn len(&self) -> usize
        ensures value { result ≡ length (cached self.now) }
        ensures held { result ≡ held self.now }
    {
        self.used
    }

    /// The entries of the cached pages, place by place.
    #[tactic(auto, using(crate::proofs::Helds::entries_pages))]
    pub fn entries(&self) -> &[Entry]
        ensures { result.now ≡ entries_of (cached self.now) }
    {
        &self.rows[..self.len()]
    }

    /// The place of a page, if it is cached.
    pub fn find(&self, page: u32) -> Option<usize>
        ensures { result ≡ sought page (entries_of (cached self.now)) }
    {
        self.entries().iter().position(|entry| entry.page == page)
    }

    /// The entry at a place, if the place is used.
    pub fn entry(&self, place: usize) -> Option<Entry>
        ensures { result ≡ slice_get (entries_of (cached self.now)) place }
    {
        self.entries().get(place).copied()
    }

    /// Fills a buffer with the page at a place, and tells whether it did. It does where the
    /// place is used and the buffer is a page long.
    #[tactic(auto, using(crate::proofs::Helds::shown_page))]
    pub fn copy_out(&self, place: usize, buffer: &mut [u8]) -> bool
        ensures value { result ≡ takes (cached self.now) place (length buffer.old) }
        ensures buffer { buffer.new ≡ shown (cached self.now) place buffer.old }
    {
        if place < self.len() && buffer.len() == PAGE_BYTES {
            page_out(self.bytes, place, buffer);
            return true;
        }
        false
    }
}
