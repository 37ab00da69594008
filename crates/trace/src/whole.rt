ghost use Rattle.std.specs.Prelude.{ℕ, MatchResult};
ghost use Rattle.trace.specs.Words.{refused};
ghost use Rattle.trace.specs.Whole.{AllRead, Encodes, FirstFault};

use crate::fault::Fault;
use crate::reader::Reader;

/// How many items a trace has, or its first fault. A reader that refuses stays where it is, so it is
/// no iterator, which would never end.
pub fn count_items(trace: &[u8]) -> Result<usize, Fault>
    ensures reading { MatchResult result (λ n. AllRead trace.now n) (λ f. FirstFault trace.now (refused f)) }
    ensures format { MatchResult result (λ n. Encodes trace.now n) (λ _. (n : ℕ) → Encodes trace.now n → ⊥) }
{
    let mut reader = Reader::new(trace);
    let _sizes = reader.sizes()?;
    let mut count = 0;
    while let Some(_item) = reader.next()? {
        count += 1;
    }
    Ok(count)
}
