//! What holds of the joint state all along a run.
//!
//! The crate has definitions alone, a record for each subject, and lemmas on them. `specs/Kept.antt` puts the subjects
//! together: the invariant that every event keeps. `specs/Sound.antt` is what of it is published of a sound state, made of
//! the same records, so that a fact is written once. Each record takes the tables that it reads and never the state: a
//! subject whose tables an event leaves alone is kept as it is.
//!
//! What each part means, and why soundness alone isn't kept by every event: docs/DEFINITIONS.md, "The invariant".
#![tactic(auto)]
