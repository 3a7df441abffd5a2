//! The time.
ghost use Rattle.std.specs.Prelude.{List, ℕ, Option};
ghost use Rattle.dm_host.specs.Readings.{Adds};

/// The time, in seconds of the Unix epoch where it is the system's. Nothing is promised of its readings, so nothing may
/// rest on their order.
pub trait Clock {
    /// The readings that it gave, the first of them first, where the implementation tells them. It may stop
    /// telling only when it has given 18,446,744,073,709,551,614 of them.
    ghost readings: { Self → Option (List ℕ) };

    /// The time in seconds. It may be any number, also one below an earlier reading.
    fn now(&mut self) -> u64
        ensures { Adds (readings self.old) (readings self.new) result };
}
