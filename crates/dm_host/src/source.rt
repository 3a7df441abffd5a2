//! Where bytes come from.
ghost use Rattle.std.specs.Prelude.{◌≡◌, ◌≤◌, List, ℕ, Option, length, IfOk};
ghost use Rattle.dm_host.specs.Count.{HasCause};
ghost use Rattle.dm_host.specs.Stream.{Reads};

use crate::Failed;

/// A stream that is read in pieces, as large as it likes. A call that fails is counted once; a call that doesn't fail
/// leaves the count as it was. (docs/DEFINITIONS.md, "The storage device and faults".)
pub trait Source {
    /// What is left to read, where the implementation tells it.
    ghost left: { Self → Option (List ℕ) };

    /// How often it has failed.
    ghost count: { Self → ℕ };

    /// Reads the next bytes into the front of `into`, and answers how many. Given room for a byte, 0 is the end
    /// of input. A read that fails takes no byte of what is left.
    fn read(&mut self, into: &mut [u8]) -> Result<usize, Failed>
        ensures room { IfOk result (λ n. n ≤ length into.old) }
        ensures reads { Reads (left self.old) (left self.new) (length into.old) into.new result }
        ensures cause { HasCause (count self.old) (count self.new) result };

    /// How often it has failed, up to the last value of a u64.
    fn faults(&self) -> u64
        ensures { result ≡ count self.now };
}
