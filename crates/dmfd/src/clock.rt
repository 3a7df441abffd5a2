//! The system's clock.

ghost use Rattle.std.specs.Prelude.{None};

use dm_host::Clock;
use std::rt;
use std::time::{SystemTime, UNIX_EPOCH};

/// Seconds since the beginning of 1970; 0 where the system doesn't tell.
#[derive(Clone, Copy)]
pub struct SystemClock<'a, R> {
    runtime: &'a R,
}

impl<'a, R: rt::Clock> SystemClock<'a, R> {
    pub fn new(runtime: &'a R) -> SystemClock<'a, R> {
        SystemClock { runtime }
    }
}

impl<R: rt::Clock> Clock for SystemClock<'_, R> {
    ghost readings = { λ _. None };

    fn now(&mut self) -> u64 {
        match SystemTime::now(self.runtime) {
            Ok(time) => time
                .duration_since(UNIX_EPOCH)
                .map_or(0, |since| since.as_secs()),
            Err(_) => 0,
        }
    }
}
