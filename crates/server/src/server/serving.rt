//! Reads and writes.
ghost use Rattle.std.specs.Prelude.{◌≡◌, if◌then◌else◌, length, Ok, is_ok};
ghost use Rattle.std.specs.Result.{result_and};
ghost use Rattle.rules.specs.Refusals.{numbered};
ghost use Rattle.rules.specs.Requests.{answer};
ghost use Rattle.store.specs.Meaning.{write_after, write_answer};
ghost use Rattle.store.specs.declared.script.Access.TheVariants.{Write};
ghost use Rattle.server.specs.Accepting.{accept_with};
ghost use Rattle.server.specs.Requests.{own_answer, passed, request};
ghost use Rattle.server.specs.View.{state_of};

use crate::server::Server;
use rules::answer::Answer;
use rules::refusal::Refusal;
use store::script::Access;
use store::store::Store;
use values::hint_set::HintSet;

impl<'a> Server<'a> {
    /// Serves a write: the store first, so that where it refuses nothing has changed.
    fn serve_write<S: Store>(
        &mut self,
        store: &mut S,
        page: u32,
        hints: HintSet,
        bytes: &[u8],
    ) -> Result<Answer, Refusal>
        ensures answer { numbered result ≡ result_and (own_answer (state_of self.old) (length bytes.now)) (result_and (passed (write_answer (S.meaning store.old) page (length bytes.now))) (Ok (answer (state_of self.old) (request Write page hints)))) }
        ensures state { state_of self.new ≡ if is_ok result then accept_with (state_of self.old) (request Write page hints) bytes.now else state_of self.old }
        ensures store { S.meaning store.new ≡ if is_ok result then write_after (S.meaning store.old) page bytes.now else S.meaning store.old }
    {
        let Server::Open(open) = self else {
            return Err(Refusal::Shut);
        };
        open.admit(bytes.len())?;
        store.write(page, bytes)?;
        Ok(open.accept(Access::Write, page, hints, bytes))
    }
}
