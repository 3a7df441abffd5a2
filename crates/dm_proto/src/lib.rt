//! The grammar of commands, and a reader that hears them in whatever pieces the bytes come.
//!
//! What an input means is a definition over the whole input (`specs/`: Words, Grammar, Stream,
//! Session), in which nothing is said of pieces. Crates above cite it and never a body. The reader's
//! clauses are in its words, so the pieces make no difference.
//!
//! The layers, each over those before it: words of a line, what one word says (`argument`), which
//! command a keyword begins (`verb`), a line (`line`), a piece of the input (`step`), the reader.
#![tactic(auto)]

mod argument;
mod heard;
mod laws;
mod line;
mod reader;
mod step;
mod verb;
mod words;

pub use heard::{Heard, InputError};
pub use laws::{
    a_session_is_heard_in_one_way, an_input_is_heard_in_one_way, every_input_is_heard,
    every_session_is_heard, what_was_consumed_is_a_front, what_was_consumed_is_a_sessions_front,
};
pub use reader::Reader;

#[cfg(test)]
mod tests;
