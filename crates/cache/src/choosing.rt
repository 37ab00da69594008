//! Which cached page gives way, and what is done with a requested one.
ghost use Rattle.std.specs.Prelude.{◌≡◌, ◌<◌, length, IfSome};
ghost use Rattle.order.specs.Least.{least_in};
ghost use Rattle.rules.specs.Priorities.{gives_way};
ghost use Rattle.rules.specs.Choices.{choose, contest};
ghost use Rattle.rules.specs.State.{entries as entries_of};
ghost use Rattle.cache.specs.View.{cached};

use crate::cache::Cache;
use crate::priorities::priority_of;
use counting::row::Row;
use order::least::least_by;
use rules::choice::Choice;
use values::hint_numbers::HintNumbers;

impl<'a> Cache<'a> {
    /// The place of the page that gives way first by the closed rows; an empty cache has none.
    pub fn victim(&self, closed: &[Row<HintNumbers>]) -> Option<usize>
        ensures value { result ≡ least_in (gives_way closed.now) (entries_of (cached self.now)) }
        ensures within { IfSome result (λ place. place < length (cached self.now)) }
    {
        least_by(self.entries(), |entry| {
            (priority_of(closed, entry.hints), entry.number)
        })
    }

    /// What is done with a page against the victim of a full cache.
    fn contest(&self, closed: &[Row<HintNumbers>], hints: HintNumbers) -> Choice
        ensures { result ≡ contest closed.now hints (entries_of (cached self.now)) }
    {
        let worth = |hints| priority_of(closed, hints);
        match self.victim(closed) {
            Some(place) if worth(self.entries()[place].hints) < worth(hints) => {
                Choice::Evict(place)
            }
            _ => Choice::Pass,
        }
    }

    /// What is done with a page that is requested with a hint set, in a cache that may use so
    /// many places.
    #[tactic(auto, using(crate::proofs::Contests::choose_sought))]
    pub fn choose(
        &self,
        room: usize,
        closed: &[Row<HintNumbers>],
        page: u32,
        hints: HintNumbers,
    ) -> Choice
        ensures { result ≡ choose room closed.now (entries_of (cached self.now)) page hints }
    {
        match self.find(page) {
            Some(place) => Choice::Hit(place),
            None if self.len() < room => Choice::Free,
            None => self.contest(closed, hints),
        }
    }
}
