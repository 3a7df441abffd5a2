//! What an event is about, and the entries of a history.
//!
//! A name is what has a state of its own that an event may look at or change. So a history in which each name's entries are
//! all there, in their order, tells what every event about it found. Requests and reservations are no names: a worker
//! carries its recalls, and a copy its put and its reservation.

use crate::answer::Answer;
use crate::call::Event;
use dm_base::{Bfid, GroupId, Listed, Vsn};

/// A part of a group that has a state of its own.
#[derive(Clone, Copy, Debug, PartialEq, Eq)]
pub enum Part {
    /// The library server.
    Itself,
    Volume { vsn: Vsn },
    /// A copy of a bitfile, while its put is open.
    Copy { bfid: Bfid },
    Mount { mount: u64 },
}

/// What an event may be about.
#[derive(Clone, Copy, Debug, PartialEq, Eq)]
pub enum Name {
    Daemon,
    Worker { worker: u32 },
    Side { group: GroupId, part: Part },
}

/// An entry of a history: who did what, what it was answered, and what it was about beside its home. The names can't be
/// computed from the event alone, so the entry carries them.
#[derive(Drop)]
pub struct HistoryEntry {
    pub worker: u32,
    pub event: Event,
    pub answer: Answer,
    pub names: Listed<Name>,
}
