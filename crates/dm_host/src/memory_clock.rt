//! A clock over memory.
ghost use Rattle.std.specs.Prelude.{◌≡◌};
ghost use Rattle.dm_host.specs.Faults.{counted};
ghost use Rattle.dm_host.specs.Readings.{Adds, reading_at, told_readings};

use crate::Clock;

/// Answers its readings in order, then the last of them again and again, and 0 where it has none.
#[derive(Drop)]
pub struct MemClock {
    /// What it answers.
    pub readings: Vec<u64>,
    /// How many calls there were, up to the type's last value; from then on the readings aren't told.
    pub at: usize,
}

impl Clock for MemClock {
    ghost readings = { λ m. told_readings m.readings.items m.at };

    fn now(&mut self) -> u64
        ensures adds { Adds (told_readings self.old.readings.items self.old.at) (told_readings self.new.readings.items self.new.at) result }
        ensures reading { result ≡ reading_at self.old.readings.items self.old.at }
        ensures at { self.new.at ≡ counted self.old.at }
        ensures readings { self.new.readings.items ≡ self.old.readings.items }
    {
        let reading = pick(&self.readings, self.at);
        self.at = self.at.saturating_add(1);
        reading
    }
}

// The reading at this place, or the last one.
fn pick(readings: &[u64], at: usize) -> u64
    ensures { result ≡ reading_at readings.now at }
{
    if readings.is_empty() {
        return 0;
    }
    readings[at.min(readings.len() - 1)]
}
