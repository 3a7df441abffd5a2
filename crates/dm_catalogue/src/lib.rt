//! The chunks of a group as the program keeps them: by bitfile and offset, and what of them lies on each volume.
//!
//! The bitfiles lie in the order of their identifiers, each with its chunks by offset, so that the k-th of them is there at
//! once, as a checkpoint wants it, and a chunk is found by two binary searches. Identifiers come in ascending order, so a
//! bitfile that is committed goes to the end and moves nothing.
//!
//! Of each volume that a chunk lies on, or is about to, the number of its chunks and the sum of their lengths are kept. Every
//! change of the bitfiles goes through three private functions, one that takes a bitfile out, one that puts one in and
//! one that moves a chunk; all keep the two, so no caller can leave them behind.
//!
//! Of each volume there is a queue of the places of its chunks too, by which a merge finds the chunk that it moves next
//! with no look at the others.
//!
//! No call but `reserve` and `know` takes memory. What they keep is for one bitfile, and for the chunks that they are told
//! of: whoever reserves for several has room for all of them, and gives back what isn't used (`give_back`, `forget`).
#![tactic(auto)]

mod catalogue;
mod chunks;
mod homes;

pub use catalogue::Catalogue;
pub use chunks::LiveChunk;

#[cfg(test)]
mod tests;
