//! What each call on a volume comes to: the plans of a volume and what they need of the mount (`dm_model`, VolumeCalls), as a
//! program that looks at the joint state (docs/DEFINITIONS.md, "The machine, whole").
#![tactic(auto)]

mod calls;
mod reads;
mod writes;

pub use calls::volume_verdict;
