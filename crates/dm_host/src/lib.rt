//! The outside as the rest sees it: streams of bytes, a clock, and a bay of numbered files that a crash may
//! tear. Each is a trait, with an implementation over memory whose faults can be chosen.
//!
//! Each trait but the clock has a count of faults. A call that answers `Failed` adds one to it, up to its last value,
//! and any other call leaves it: so faults are counted exactly. What an object holds is a ghost member, which the
//! implementations over memory tell; one over a file, a socket or a terminal need not.
#![tactic(auto)]

mod bay;
mod change;
mod clock;
mod faults;
mod files;
mod memory_bay;
mod memory_clock;
mod memory_sink;
mod memory_source;
mod rot;
mod sink;
mod source;

pub use bay::{Bay, read_synced, write_synced};
pub use clock::Clock;
pub use memory_bay::MemBay;
pub use memory_clock::MemClock;
pub use memory_sink::MemSink;
pub use memory_source::MemSource;
pub use sink::Sink;
pub use source::Source;

/// The outside failed. The cause is known to the object alone, which counted it once.
#[derive(Clone, Copy, Debug, PartialEq, Eq)]
pub struct Failed;

#[cfg(test)]
mod tests;
