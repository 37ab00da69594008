ghost use Rattle.std.specs.Prelude.{◌≡◌, length, nat_lt};
ghost use Rattle.cache.specs.View.{KeepsLent, cached, places};
ghost use Rattle.cache.specs.Changes.{added, cached_as, has_room, put_at, settled, settles, takes, touched};

use crate::cache::Cache;
use rules::choice::Choice;
use rules::entry::Entry;
use store::page::{PAGE_BYTES, page_in};

// Entry and page are two parameters, since a caller makes the one and lends the other.
impl<'a> Cache<'a> {
    /// Puts a page at a used place, and tells whether it did: not where the place is unused or
    /// the bytes are not a page. A write's hit and an eviction leave the cache so.
    #[tactic(auto, using(crate::proofs::Helds::pages_put))]
    pub fn put(&mut self, place: usize, entry: Entry, page: &[u8]) -> bool
        ensures value { result ≡ takes (cached self.old) place (length page.now) }
        ensures after { cached self.new ≡ put_at (cached self.old) place (cached_as entry page.now) }
        ensures lent { KeepsLent self.old self.new }
    {
        if place < self.len() && page.len() == PAGE_BYTES {
            page_in(self.bytes, place, page);
            self.rows[place] = entry;
            return true;
        }
        false
    }

    /// Puts a page at the first unused place, and tells whether it did: not where the cache is
    /// full or the bytes are not a page.
    #[tactic(auto, using(crate::proofs::Helds::pages_push))]
    pub fn push(&mut self, entry: Entry, page: &[u8]) -> bool
        ensures value { result ≡ has_room (places self.old) (cached self.old) (length page.now) }
        ensures after { cached self.new ≡ added (places self.old) (cached_as entry page.now) (cached self.old) }
        ensures lent { KeepsLent self.old self.new }
    {
        let place = self.len();
        if place < self.room() && page.len() == PAGE_BYTES {
            page_in(self.bytes, place, page);
            self.rows[place] = entry;
            self.used = place + 1;
            return true;
        }
        false
    }

    /// Puts an entry at a used place, where the bytes stay, and tells whether it did: not where
    /// the place is unused. A read's hit leaves the cache so.
    #[tactic(auto, using(crate::proofs::Helds::pages_touch))]
    pub fn touch(&mut self, place: usize, entry: Entry) -> bool
        ensures value { result ≡ nat_lt place (length (cached self.old)) }
        ensures after { cached self.new ≡ touched entry (cached self.old) place }
        ensures lent { KeepsLent self.old self.new }
    {
        if place < self.len() {
            self.rows[place] = entry;
            return true;
        }
        false
    }

    /// Does what was chosen for a page, and tells whether the page is cached now.
    pub fn settle(&mut self, choice: Choice, entry: Entry, page: &[u8]) -> bool
        ensures value { result ≡ settles (places self.old) choice (cached self.old) (length page.now) }
        ensures after { cached self.new ≡ settled (places self.old) choice (cached_as entry page.now) (cached self.old) }
        ensures lent { KeepsLent self.old self.new }
    {
        match choice {
            Choice::Hit(place) | Choice::Evict(place) => self.put(place, entry, page),
            Choice::Free => self.push(entry, page),
            Choice::Pass => false,
        }
    }
}
