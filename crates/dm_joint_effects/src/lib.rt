//! What an event does to the joint state, as a program (docs/DEFINITIONS.md, "The machine, whole").
//!
//! A call that was looked at is a `Prepared`: what it spends, journals, leaves behind and makes. Here each of these parts is
//! done, in the order of the definitions. There is a module for each part of a plan: `endings`, `doubts`, `payloads`,
//! `marks`, `openings`; `calls` puts them together for the events, and `stops` is the end of the program. `images`,
//! `copies` and `mounts` are the parts of a group's side that several of them change, and `past` is the history.
//!
//! A state is changed where it stands; where memory is refused in the midst of it nothing is said of it, so who wants to
//! keep it works on a copy. A row of a table is edited where it stands too, by a type for each change whose contract is the
//! definition's own function of a row.
#![tactic(auto)]

mod calls;
mod copies;
mod doubts;
mod endings;
mod images;
mod marks;
mod mounts;
mod openings;
mod past;
mod payloads;
mod sides;
mod stops;
mod tips;

pub use calls::{apply_call, apply_fault, apply_landing};
pub use stops::apply_stop;
