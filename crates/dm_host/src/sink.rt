//! Where bytes go.
ghost use Rattle.std.specs.Prelude.{◌≡◌, ◌⊎◌, ◌≤◌, List, ℕ, Option, length, IfOk};
ghost use Rattle.dm_host.specs.Count.{HasCause};
ghost use Rattle.dm_host.specs.Stream.{Takes};

use crate::Failed;

/// A stream that is written in pieces, as large as it takes. A call that fails is counted once; a call that doesn't
/// fail leaves the count as it was. (docs/DEFINITIONS.md, "The storage device and faults".)
pub trait Sink {
    /// What it has taken, where the implementation tells it.
    ghost taken: { Self → Option (List ℕ) };

    /// How often it has failed.
    ghost count: { Self → ℕ };

    /// It may take nothing of a piece that isn't empty, which is the end of the sink. A write doesn't make it so.
    ghost ends: { Self → Type 0 };

    /// Takes a front of the bytes, and answers how many. 0 of a piece that isn't empty is the end of the sink.
    /// A write that fails takes nothing.
    fn write(&mut self, bytes: &[u8]) -> Result<usize, Failed>
        ensures within { IfOk result (λ n. n ≤ length bytes.now) }
        ensures takes { Takes (taken self.old) (taken self.new) bytes.now result }
        ensures nothing { result ≡ Ok 0 → (length bytes.now ≡ 0) ⊎ ends self.old }
        ensures still { ends self.new → ends self.old }
        ensures cause { HasCause (count self.old) (count self.new) result };

    /// How often it has failed, up to the last value of a u64.
    fn faults(&self) -> u64
        ensures { result ≡ count self.now };
}
