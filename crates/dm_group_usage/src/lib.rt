//! What a group's tables, and what is open of its tokens, say of its volumes: tips, rooms and states; how a bitfile is laid out on them; which of
//! them a merge goes through, which chunk it moves next, and where that may go; which are freed, and which are used again.
//!
//! The definitions are `Volumes` of `dm_durable` and of `dm_model` (docs/DEFINITIONS.md, "The machine, whole"), and these are they as a program. They are
//! over all numbers and texts, and a state of a run has few of either: whether what is looked at is one that can be told is a test
//! of its own (`are_serials`, `are_in_range`), which a caller makes first.
#![tactic(auto)]

mod foremost;
mod layout;
mod listing;
mod reuses;
mod sparse;
mod targets;
mod usage;
mod weights;

pub use foremost::{Live, first_on};
pub use layout::{are_in_range, chunks_of, pieces_of, rooms};
pub use listing::{Listing, all_volumes, are_serials, spaces, volumes_listed};
pub use reuses::{is_freeable, reusable};
pub use sparse::merge_list;
pub use targets::{destination, greatest_room, is_listed, target_spaces};
pub use usage::{epoch_of, is_configured, mount_refusal};
pub use weights::as_word;
