//! The three tables that a server learns by.
ghost use Rattle.std.specs.Prelude.{◌≡◌, length};
ghost use Rattle.counting.specs.Tables.{state_of as table_of};
ghost use Rattle.rules.specs.Learning.{close, count, credit_known, learn, with_live};
ghost use Rattle.server.specs.Parts.{tables_of};
ghost use Rattle.server.specs.Learning.{Countable, Sized};

use counting::row::Row;
use counting::table::Table;
use rules::entry::Entry;
use std::mem;
use values::hint_numbers::HintNumbers;
use values::sizes::Sizes;

/// The live hint rows and the page rows, which count the open window, and the hint rows of the
/// window before.
// `Sized` and `Countable` are no ghost fields, since they speak of the sizes, which a server holds.
#[derive(Drop)]
pub struct Tables<'a> {
    pub(crate) live: Table<'a, HintNumbers>,
    pub(crate) closed: Table<'a, HintNumbers>,
    pub(crate) pages: Table<'a, u32>,
}

impl<'a> Tables<'a> {
    /// The requests of the open window.
    pub(crate) fn requests(&self) -> u32
        ensures { result ≡ (tables_of self.now).requests }
    {
        self.live.counted()
    }

    /// Credits the hint set of a page's earlier request with the distance to it.
    // Two options, as in `credit_known`: a write has an earlier entry and no distance.
    fn credit(&mut self, earlier: Option<Entry>, distance: Option<u32>)
        ensures after { tables_of self.new ≡ with_live (credit_known earlier distance (tables_of self.old).live) (tables_of self.old) }
        ensures len { length (table_of self.new.live).rows ≡ length (table_of self.old.live).rows }
        ensures counted { (table_of self.new.live).counted ≡ (table_of self.old.live).counted }
        ensures others { (self.new.closed ≡ self.old.closed) × (self.new.pages ≡ self.old.pages) }
    {
        if let Some(entry) = earlier
            && let Some(distance) = distance
        {
            self.live.credit(entry.hints, distance);
        }
    }

    /// Counts the hint set and the page of a request.
    // The sizes are for the clauses alone.
    #[tactic(auto, using(counting::proofs::Afters::count_accepted, counting::proofs::Afters::used_after_count), unfolding(rules::specs::Learning::count))]
    fn count(&mut self, sizes: Sizes, new: Entry)
        requires { Countable sizes self.old }
        ensures after { tables_of self.new ≡ count sizes.numbers new.number new.page new.hints (tables_of self.old) }
        ensures sized { Sized sizes self.new }
    {
        // Neither refuses, since an unfinished window has fewer requests than a table can count.
        let _ = self.live.count(new.hints, new.number);
        let _ = self.pages.count(new.page, new.number);
    }

    /// Closes a full window: its hint rows become the closed ones, and counting starts anew.
    #[tactic(auto, unfolding(rules::specs::Learning::close))]
    fn close(&mut self, sizes: Sizes)
        requires { Sized sizes self.old }
        ensures after { tables_of self.new ≡ close sizes.numbers (tables_of self.old) }
        ensures sized { Countable sizes self.new }
    {
        if self.requests() == sizes.numbers().window {
            mem::swap(&mut self.live, &mut self.closed);
            self.live.empty();
            self.pages.empty();
        }
    }

    /// Learns from an accepted request: credits, counts, and closes a full window.
    pub(crate) fn learn(
        &mut self,
        sizes: Sizes,
        new: Entry,
        earlier: Option<Entry>,
        distance: Option<u32>,
    )
        requires { Countable sizes self.old }
        ensures after { tables_of self.new ≡ learn sizes.numbers new.number new.page new.hints earlier distance (tables_of self.old) }
        ensures sized { Countable sizes self.new }
    {
        self.credit(earlier, distance);
        self.count(sizes, new);
        self.close(sizes);
    }
}
