//! A source over memory, whose faults are chosen by the numbers of its calls.
ghost use Rattle.std.specs.Prelude.{◌≡◌, ◌↔◌, ◌+◌, ◌-◌, ◌≤◌, Some, ◌++◌, length, take, drop, min, max, IfOk, IsErr, IsTrue};
ghost use Rattle.dm_host.specs.Count.{HasCause};
ghost use Rattle.dm_host.specs.Faults.{counted, is_numbered};
ghost use Rattle.dm_host.specs.Stream.{Reads};

use crate::{Failed, Source};

/// Reads `bytes` from `at` on. `calls` and `count` stay at their last value.
#[derive(Drop)]
pub struct MemSource {
    /// All the bytes, those that were read too.
    pub bytes: Vec<u8>,
    /// How many of them were read.
    pub at: usize,
    /// A call gives at most this many bytes, and at most one where it is 0.
    pub piece: usize,
    /// The numbers of the calls that fail. The first call has the number 1.
    pub fail: Vec<u64>,
    /// How many calls there were.
    pub calls: u64,
    /// How many of them failed.
    pub count: u64,
}

impl Source for MemSource {
    ghost left = { λ m. Some (drop m.at m.bytes.items) };

    ghost count = { λ m. m.count };

    fn read(&mut self, into: &mut [u8]) -> Result<usize, Failed>
        ensures room { IfOk result (λ n. n ≤ length into.old) }
        ensures reads { Reads (Some (drop self.old.at self.old.bytes.items)) (Some (drop self.new.at self.new.bytes.items)) (length into.old) into.new result }
        ensures cause { HasCause self.old.count self.new.count result }
        ensures piece { IfOk result (λ n. n ≡ min (min (max self.old.piece 1) (length self.old.bytes.items - self.old.at)) (length into.old)) }
        ensures kept { self.new.bytes.items ≡ self.old.bytes.items }
        ensures choice { (self.new.piece ≡ self.old.piece) × (self.new.fail.items ≡ self.old.fail.items) }
        ensures calls { self.new.calls ≡ counted self.old.calls }
        ensures fails { IsErr result ↔ IsTrue (is_numbered self.old.fail.items self.new.calls) }
    {
        self.calls = self.calls.saturating_add(1);
        if self.fail.contains(&self.calls) {
            self.count = self.count.saturating_add(1);
            return Err(Failed);
        }
        let n = copy_front(&self.bytes, self.at, self.piece.max(1), into);
        self.at += n;
        Ok(n)
    }

    fn faults(&self) -> u64 {
        self.count
    }
}

// Copies at most `most` of the bytes from `at` on into the front, and answers how many.
fn copy_front(bytes: &[u8], at: usize, most: usize, into: &mut [u8]) -> usize
    ensures count { result ≡ min (min most (length bytes.now - at)) (length into.old) }
    ensures bytes { into.new ≡ take result (drop at bytes.now) ++ drop result into.old }
{
    if at >= bytes.len() {
        return 0;
    }
    let rest = &bytes[at..];
    let n = most.min(rest.len()).min(into.len());
    into[..n].copy_from_slice(&rest[..n]);
    n
}
