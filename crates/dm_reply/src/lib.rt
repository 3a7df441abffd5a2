//! What a reply prints, and its way to a sink.
#![tactic(auto)]

mod fatal;
mod key;
mod line;
mod piece;
mod row;
mod send;
mod text;
mod time;

pub use fatal::Fatal;
pub use send::{SayError, say, say_fatal};

#[cfg(test)]
mod tests;
