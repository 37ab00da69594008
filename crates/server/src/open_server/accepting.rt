//! An accepted request, phase by phase.
ghost use Rattle.std.specs.Prelude.{◌≡◌, ◌<◌, length};
ghost use Rattle.cache.specs.View.{cached, places as cache_places};
ghost use Rattle.rules.specs.Choices.{choose};
ghost use Rattle.rules.specs.Requests.{answer, distance};
ghost use Rattle.rules.specs.State.{entries};
ghost use Rattle.server.specs.Accepting.{accept_with};
ghost use Rattle.server.specs.Placing.{Suits};
ghost use Rattle.server.specs.Requests.{request};
ghost use Rattle.server.specs.View.{open_state};

use crate::open_server::OpenServer;
use rules::answer::{Answer, Decision};
use rules::choice::Choice;
use rules::entry::Entry;
use store::script::Access;
use values::hint_numbers::HintNumbers;
use values::hint_set::HintSet;

/// The longest distance that is reported.
const LONGEST: u32 = 65535;

/// How long ago a page's earlier request was: only a read reports it.
fn distance_of(access: Access, number: u32, earlier: Option<Entry>) -> Option<u32>
    ensures { result ≡ distance access number earlier }
{
    match access {
        Access::Write => None,
        Access::Read => earlier.map(|entry| number.saturating_sub(entry.number).min(LONGEST)),
    }
}

impl<'a> OpenServer<'a> {
    /// What is done with a page that is requested with a hint set.
    #[tactic(auto, using(crate::proofs::Suited::choice_settles))]
    fn choose(&self, page: u32, hints: HintNumbers) -> Choice
        ensures value { result ≡ choose self.now.sizes.numbers.cache_places (open_state self.now).tables.closed (entries (cached self.now.places.cache)) page hints }
        ensures suits { Suits (cache_places self.now.places.cache) (cached self.now.places.cache) result }
    {
        let room = self.sizes.numbers().cache_places as usize;
        let closed = self.tables.closed.used_rows();
        self.places.cache.choose(room, closed, page, hints)
    }

    /// Accepts a request whose page has these bytes from now on. The number rises before any part
    /// changes, since a server whose number is 0 is empty.
    // No `Request`: that holds plain numbers, and a `HintSet` is lawful by its type.
    #[tactic(auto, using(crate::proofs::Hinted::hint_set_lawful))]
    pub(crate) fn accept(
        &mut self,
        access: Access,
        page: u32,
        hints: HintSet,
        bytes: &[u8],
    ) -> Answer
        requires left { self.old.number < 16777215 }
        requires len { length bytes.now ≡ 256 }
        ensures answer { result ≡ answer (open_state self.old) (request access page hints) }
        ensures state { open_state self.new ≡ accept_with (open_state self.old) (request access page hints) bytes.now }
    {
        let new = Entry {
            page,
            number: self.number + 1,
            hints: hints.numbers(),
        };
        let choice = self.choose(page, new.hints);
        let victim = self.places.victim(choice, new);
        let earlier = self.places.known(page);
        let distance = distance_of(access, new.number, earlier);
        self.number = new.number;
        self.tables.learn(self.sizes, new, earlier, distance);
        self.places.place(choice, new, bytes);
        Answer {
            number: new.number,
            decision: Decision::from(choice),
            victim,
            distance,
        }
    }
}
