//! The words of the joint machine: what may happen, what it is answered, what each part of the product keeps while the
//! program runs, and what each event does to all of it (docs/DEFINITIONS.md, "The machine, whole").
//!
//! This crate has types and definitions, and no function: everything that is claimed of the product is claimed in these
//! words, and everything that is proved stands on them. What a program does with them stands elsewhere, and nothing here
//! may follow it. In `src/` are the types, a file a subject; in `specs/` the definitions:
//!
//! - `Guards`, `Plan`: tests with their guards, and what a call comes to;
//! - `Files`, `Volumes`: what the daemon and a group tell of themselves;
//! - `DaemonCalls`, `GroupCalls`, `VolumeCalls`: what each call comes to, and what it needs of others;
//! - `DaemonShare`, `GroupShare`, `SideShare`, `Effects`: what is done with it, by each part alone and by all;
//! - `Step`: one event, and runs; `Names`: what an event is about; `Begin`: the state before the first event;
//! - `Project`, `Hashed`: what the laws take of a run.
#![tactic(auto)]

mod answer;
mod call;
mod entry;
mod guard;
mod plan;
mod state;

pub use answer::Answer;
pub use call::{Call, Component, DaemonCall, Event, GroupCall, VolumeCall};
pub use entry::{HistoryEntry, Name, Part};
pub use guard::Guard;
pub use plan::{Ending, Mark, Opening, Payload, Prepared};
pub use state::{
    CopyReservation, CopyState, Daemon, Group, GroupHistory, History, Image, Joint, Label,
    MountState, Mounted, Moving, OpenRequest, Origin, Recall, RequestKind, Reserved, Reusing, Side,
    Worker, WrittenZone,
};
