//! The rows of a snapshot, as their owner hands them out.
ghost use Rattle.std.specs.Prelude.{◌≡◌, ◌↔◌, ◌+◌, ◌<◌, ◌≤◌, ◌^◌, ℕ, List, [], length, slice_index_or, IsTrue, IsSome, IfSome};
ghost use Rattle.std.specs.List.{AllByRecursion};
ghost use Rattle.dm_journal.specs.Grammar.{Fits};
ghost use Rattle.dm_ckpt.specs.Area.{body_length, body_limit};

use crate::BODY_LIMIT;
use dm_journal::MAX_PAYLOAD;

/// The payloads of a state's snapshot, by number. None of the calls takes memory, and none looks at the others' rows:
/// a checkpoint asks for each row twice.
pub trait Rows {
    /// The payloads, in their order.
    ghost rows: { Self → List (List ℕ) };

    /// Which lists of payloads stand for this state: those whose fold is this state, say.
    ghost means: { Self → List (List ℕ) → Type 0 };

    fn count(&self) -> u64
        ensures { result ≡ length (rows self.now) };

    /// The length of row k in bytes.
    fn len(&self, k: u64) -> u32
        requires { k < length (rows self.now) }
        ensures { result ≡ length (slice_index_or (rows self.now) k []) };

    /// Writes row k.
    fn fill(&self, k: u64, into: &mut [u8])
        requires below { k < length (rows self.now) }
        requires size { length into.old ≡ length (slice_index_or (rows self.now) k []) }
        ensures { into.new ≡ slice_index_or (rows self.now) k [] };
}

/// The length of the body that the rows make: their lengths, with 4 for each. `None` where a row is longer than a
/// payload of a log may be, or the sum reaches `BODY_LIMIT`.
pub fn measured<T: Rows>(state: &T) -> Option<u64>
    ensures fits { IsSome result ↔ (AllByRecursion Fits (T.rows state.now) × (body_length (T.rows state.now) < body_limit)) }
    ensures sum { IfSome result (λ n. n ≡ body_length (T.rows state.now)) }
{
    let mut sum = 0;
    for k in 0..state.count() {
        let n = state.len(k) as u64;
        if n > MAX_PAYLOAD || n + 4 >= BODY_LIMIT - sum {
            return None;
        }
        sum += n + 4;
    }
    Some(sum)
}
