//! What a record that lands does to each subject of the invariant: lemmas, a file for each kind of record and subject.
//!
//! A record lands where it may follow (`dm_durable`) and where what it needs besides holds (`dm_invariant`, Doubts); then
//! each subject is kept. The crate has no function: what stands on it are the laws over runs.
#![tactic(auto)]
