//! The cache and the queue together: where pages are.
ghost use Rattle.std.specs.Prelude.{◌≡◌, ◌<◌, true, false, length, slice_index_or};
ghost use Rattle.std.specs.Option.{option_map};
ghost use Rattle.queue.specs.Held.{held, places as queue_places};
ghost use Rattle.cache.specs.View.{cached, places as cache_places};
ghost use Rattle.cache.specs.Changes.{cached_as, sought};
ghost use Rattle.rules.specs.State.{entries};
ghost use Rattle.rules.specs.Pages.{in_cache, in_queue};
ghost use Rattle.rules.specs.Choices.{victim};
ghost use Rattle.rules.specs.Requests.{cached_or};
ghost use Rattle.rules.specs.Placing.{known, place as placed, queue_after, unqueue};
ghost use Rattle.server.specs.Hints.{all_hinted, hinted};
ghost use Rattle.server.specs.Parts.{places_of};
ghost use Rattle.server.specs.Placing.{Suits};

use cache::cache::Cache;
use queue::ring::Queue;
use rules::choice::Choice;
use rules::entry::Entry;

/// The cached pages, and the entries of pages that were turned away or evicted.
#[derive(Drop)]
pub struct Places<'a> {
    pub(crate) cache: Cache<'a>,
    pub(crate) queue: Queue<'a, Entry>,
}

impl<'a> Places<'a> {
    /// The entry of a page, if it is cached.
    #[tactic(auto, using(crate::proofs::Knowns::entry_by))]
    pub(crate) fn cached(&self, page: u32) -> Option<Entry>
        ensures { result ≡ option_map (λ x. x.entry) (in_cache page (cached self.now.cache)) }
    {
        self.cache.entry(self.cache.find(page)?)
    }

    /// Copies a cached page out, and tells whether there is one, as `Cache::copy_out` does.
    #[tactic(auto, using(crate::proofs::Shown::copied_by, crate::proofs::Shown::shown_by))]
    pub(crate) fn show(&self, page: u32, buffer: &mut [u8]) -> bool
        requires { length buffer.old ≡ 256 }
        ensures value { result ≡ cached_or (λ _. true) false (in_cache page (cached self.now.cache)) }
        ensures buffer { buffer.new ≡ cached_or (λ x. x.bytes) buffer.old (in_cache page (cached self.now.cache)) }
        ensures kept { result ≡ false → buffer.new ≡ buffer.old }
    {
        let Some(place) = self.cache.find(page) else {
            return false;
        };
        self.cache.copy_out(place, buffer)
    }

    /// The place of a page's entry in the queue, if it has one.
    fn find_queued(&self, page: u32) -> Option<usize>
        ensures { result ≡ sought page (held self.now.queue) }
    {
        self.queue.position(|entry| entry.page == page)
    }

    /// The entry of a page, if it is queued.
    #[tactic(auto, using(crate::proofs::Knowns::found_by))]
    pub(crate) fn queued(&self, page: u32) -> Option<Entry>
        ensures { result ≡ in_queue page (held self.now.queue) }
    {
        self.queue.at(self.find_queued(page)?)
    }

    /// The entry of a page that is cached or queued.
    pub(crate) fn known(&self, page: u32) -> Option<Entry>
        ensures { result ≡ known page (places_of self.now) }
    {
        // By `or_else` the result is unknown, as its closure captures memory lent as `&mut`.
        match self.cached(page) {
            Some(entry) => Some(entry),
            None => self.queued(page),
        }
    }

    /// The entry at a place of the cache, or the other one where the place is unused.
    #[tactic(auto, using(crate::proofs::Knowns::at_place))]
    fn entry_or(&self, place: usize, other: Entry) -> Entry
        ensures { result ≡ slice_index_or (entries (cached self.now.cache)) place other }
    {
        self.cache.entry(place).unwrap_or(other)
    }

    /// The page that gives way to a new entry by a choice.
    pub(crate) fn victim(&self, choice: Choice, new: Entry) -> Option<u32>
        ensures { result ≡ victim choice new (entries (cached self.now.cache)) }
    {
        match choice {
            Choice::Evict(place) => Some(self.entry_or(place, new).page),
            _ => None,
        }
    }

    /// Takes the entry of a page out of the queue.
    #[tactic(auto, using(crate::proofs::Knowns::removed_by))]
    fn unqueue(&mut self, page: u32)
        ensures queue { held self.new.queue ≡ unqueue page (held self.old.queue) }
        ensures cache { self.new.cache ≡ self.old.cache }
        ensures many { queue_places self.new.queue ≡ queue_places self.old.queue }
    {
        if let Some(place) = self.find_queued(page) {
            self.queue.remove(place);
        }
    }

    /// Enters in the queue what a choice turns away: the victim, or the new entry itself.
    fn enqueue(&mut self, choice: Choice, new: Entry)
        requires { 0 < queue_places self.old.queue }
        ensures queue { held self.new.queue ≡ queue_after (queue_places self.old.queue) choice new (entries (cached self.old.cache)) (held self.old.queue) }
        ensures cache { self.new.cache ≡ self.old.cache }
        ensures many { queue_places self.new.queue ≡ queue_places self.old.queue }
    {
        match choice {
            Choice::Evict(place) => {
                let victim = self.entry_or(place, new);
                self.queue.enter(victim);
            }
            Choice::Pass => self.queue.enter(new),
            _ => {}
        }
    }

    /// Does with a page what was chosen for it. Where the entries have the numbers of hint sets,
    /// and the new one too, they still do.
    pub(crate) fn place(&mut self, choice: Choice, new: Entry, bytes: &[u8])
        requires some { 0 < queue_places self.old.queue }
        requires len { length bytes.now ≡ 256 }
        requires suits { Suits (cache_places self.old.cache) (cached self.old.cache) choice }
        ensures after { places_of self.new ≡ placed (queue_places self.old.queue) choice (cached_as new bytes.now) (places_of self.old) }
        ensures hinted { hinted new ≡ true → all_hinted (places_of self.old) ≡ true → all_hinted (places_of self.new) ≡ true }
        ensures room { cache_places self.new.cache ≡ cache_places self.old.cache }
        ensures many { queue_places self.new.queue ≡ queue_places self.old.queue }
    {
        self.unqueue(new.page);
        self.enqueue(choice, new);
        // Whether the page is cached now is what the choice says already.
        let _ = self.cache.settle(choice, new, bytes);
    }
}
