//! What the parts of a plan besides its record do to each subject of the invariant: lemmas, a file for each kind of part.
//!
//! What a call spends, what it makes, what it leaves on a volume, and what a stop leaves, each keeps a group's side where it
//! has what it needs; what that is stands as a record beside the lemma. A step in doubt goes along, since not every call
//! settles it. What is proved of whole events so far is the contract of a function that does nothing.
#![tactic(auto)]

mod laws;

pub use laws::daemon_keeps;
