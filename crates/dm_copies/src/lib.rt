//! What is kept of the copies of open puts, of the contents of bitfiles and of what was done, whatever bytes reads give: so
//! with no premise on sums. What is proved is the contract of functions that do nothing.
#![tactic(auto)]

mod laws;

pub use laws::{copies_are_asked, done_stays_done};
