ghost use Rattle.std.specs.Prelude.{◌≡◌, ◌≤◌, true};
ghost use Rattle.cache.specs.View.{places as cache_places};
ghost use Rattle.queue.specs.Held.{places as queue_places};
ghost use Rattle.server.specs.Emptiness.{all_empty};
ghost use Rattle.server.specs.Hints.{all_hinted};
ghost use Rattle.server.specs.Learning.{Countable};
ghost use Rattle.server.specs.Parts.{places_of, tables_of};

use crate::places::Places;
use crate::tables::Tables;
use values::sizes::Sizes;

mod accepting;
mod serving;

/// What an open server holds. Its parts have the memory that its sizes ask for; both counting
/// tables have counted the open window; until a request is accepted everything is empty; and
/// every entry has the numbers of a hint set.
#[derive(Drop)]
pub struct OpenServer<'a> {
    sizes: Sizes,
    number: u32,
    places: Places<'a>,
    tables: Tables<'a>,
    ghost cache_room: { sizes.numbers.cache_places ≤ cache_places places.cache },
    ghost queue_room: { queue_places places.queue ≡ sizes.numbers.queue_places },
    ghost countable: { Countable sizes tables },
    ghost fresh: { (number ≡ 0 → all_empty (places_of places) (tables_of tables) ≡ true) },
    ghost hinted: { all_hinted (places_of places) ≡ true },
}
