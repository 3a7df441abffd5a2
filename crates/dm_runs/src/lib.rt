//! The laws over whole runs: what holds after each legal run from an opened state.
//!
//! The induction itself knows no event: it takes what each event keeps from the crates below. Each law is the contract of a
//! function that does nothing, and its lemmas stand in `proofs/`.
#![tactic(auto)]

mod laws;

pub use laws::{
    found_there, freed_dead, images_kept, missing_kept, past_stays, payloads_follow, plain_kept,
    reads_right, request_there, sound_kept, sums_tell, young_kept,
};
