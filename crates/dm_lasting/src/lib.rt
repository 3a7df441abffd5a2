//! How a copy comes to be stored: by the daemon's own call that says so of an open request, and by nothing else; what a put
//! that begins answers; and that numbers of requests rise. What is proved of steps and events is the contract of a function that does nothing.
#![tactic(auto)]

mod laws;

pub use laws::{numbers_rise, put_begun, stored_by_call};
