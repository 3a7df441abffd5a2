//! What each event of a group and on a volume keeps of the joint state: calls, answered or failed, and steps in doubt.
//!
//! A call is proved by the parts of its plan: what it spends, journals and makes, each of which keeps the group's side where the
//! call's guards hold. A reservation and a move are here whole, with the tips that rise and the places behind them. What is
//! proved of whole events is the contract of a function that does nothing, with its lemmas in `proofs/`.
#![tactic(auto)]

mod laws;

pub use laws::{group_keeps, volume_keeps};
