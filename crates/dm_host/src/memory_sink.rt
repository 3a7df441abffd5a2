//! A sink over memory, whose faults are chosen by the numbers of its calls.
ghost use Rattle.std.specs.Prelude.{◌≡◌, ◌⊎◌, ◌≤◌, Some, length, min, IfOk, IsErr, IsTrue};
ghost use Rattle.dm_host.specs.Count.{HasCause};
ghost use Rattle.dm_host.specs.Faults.{counted, is_numbered};
ghost use Rattle.dm_host.specs.Stream.{Takes};

use crate::{Failed, Sink};

/// Takes what is written, and keeps it. `calls` and `count` stay at their last value.
#[derive(Drop)]
pub struct MemSink {
    /// What was taken.
    pub taken: Vec<u8>,
    /// A call takes at most this many bytes, so 0 is the end of the sink.
    pub piece: usize,
    /// The numbers of the calls that fail. The first call has the number 1.
    pub fail: Vec<u64>,
    /// How many calls there were.
    pub calls: u64,
    /// How many of them failed, those for want of memory too.
    pub count: u64,
}

impl Sink for MemSink {
    ghost taken = { λ m. Some m.taken.items };

    ghost count = { λ m. m.count };

    ghost ends = { λ m. m.piece ≡ 0 };

    fn write(&mut self, bytes: &[u8]) -> Result<usize, Failed>
        ensures within { IfOk result (λ n. n ≤ length bytes.now) }
        ensures takes { Takes (Some self.old.taken.items) (Some self.new.taken.items) bytes.now result }
        ensures nothing { result ≡ Ok 0 → (length bytes.now ≡ 0) ⊎ (self.old.piece ≡ 0) }
        ensures still { self.new.piece ≡ 0 → self.old.piece ≡ 0 }
        ensures cause { HasCause self.old.count self.new.count result }
        ensures piece { IfOk result (λ n. n ≡ min self.old.piece (length bytes.now)) }
        ensures choice { (self.new.piece ≡ self.old.piece) × (self.new.fail.items ≡ self.old.fail.items) }
        ensures calls { self.new.calls ≡ counted self.old.calls }
        ensures fails { IsTrue (is_numbered self.old.fail.items self.new.calls) → IsErr result }
    {
        self.calls = self.calls.saturating_add(1);
        let n = self.piece.min(bytes.len());
        if self.fail.contains(&self.calls) || self.taken.extend_from_slice(&bytes[..n]).is_err() {
            self.count = self.count.saturating_add(1);
            return Err(Failed);
        }
        Ok(n)
    }

    fn faults(&self) -> u64 {
        self.count
    }
}
