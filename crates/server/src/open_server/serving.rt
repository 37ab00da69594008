//! Reads and writes of an open server.
ghost use Rattle.std.specs.Prelude.{◌≡◌, ◌<◌, true, false, length, Ok, OnOk};
ghost use Rattle.rules.specs.Refusals.{numbered};
ghost use Rattle.store.specs.Faults.{numbered as store_numbered};
ghost use Rattle.store.specs.Meaning.{read_after, read_answer, read_buffer};
ghost use Rattle.server.specs.Requests.{cached_copy, is_cached, own_answer};
ghost use Rattle.server.specs.View.{open_state};

use crate::open_server::OpenServer;
use rules::refusal::Refusal;
use store::fault::Fault;
use store::page::PAGE_BYTES;
use store::store::Store;

/// The last request number.
const LAST_NUMBER: u32 = 16777215;

impl<'a> OpenServer<'a> {
    /// The refusals of an open server itself, with a buffer of so many bytes.
    // The length goes on as a fact and not as an array type, since stores and the cache take slices.
    pub(crate) fn admit(&self, len: usize) -> Result<(), Refusal>
        ensures answer { numbered result ≡ own_answer (open_state self.now) len }
        ensures left { OnOk result (self.now.number < 16777215) }
        ensures len { OnOk result (len ≡ 256) }
    {
        if len != PAGE_BYTES {
            return Err(Refusal::Buffer);
        }
        if self.number >= LAST_NUMBER {
            return Err(Refusal::Exhausted);
        }
        Ok(())
    }

    /// Fills the buffer with a page: from the cache, or else from the store.
    pub(crate) fn fetch<S: Store>(
        &self,
        store: &mut S,
        page: u32,
        buffer: &mut [u8],
    ) -> Result<(), Fault>
        requires { length buffer.old ≡ 256 }
        ensures hit { is_cached (open_state self.now) page ≡ true → (result ≡ Ok tt) × (S.meaning store.new ≡ S.meaning store.old) × (buffer.new ≡ cached_copy (open_state self.now) page buffer.old) }
        ensures miss { is_cached (open_state self.now) page ≡ false → (store_numbered result ≡ read_answer (S.meaning store.old) page (length buffer.old)) × (S.meaning store.new ≡ read_after (S.meaning store.old) page (length buffer.old)) × (buffer.new ≡ read_buffer (S.meaning store.old) page buffer.old) }
    {
        if self.places.show(page, buffer) {
            return Ok(());
        }
        store.read(page, buffer)
    }
}
