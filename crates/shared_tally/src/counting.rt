//! What the history of two workers and a counter says.
ghost use Rattle.shared_tally.specs.Counting.{counting, lawful_counting};

use dm_spine::{Note, Parts};

/// The spine's parts: the counters 0 and 1, and the workers 1 and 2.
#[derive(Drop)]
pub struct Counting;

/// What an entry is about.
#[derive(Drop)]
pub enum Name {
    Counter(u32),
    Worker(u32),
}

/// The worker added the amount to the counter.
#[derive(Drop)]
pub struct Added {
    pub worker: u32,
    pub counter: u32,
    pub amount: u16,
}

impl Parts for Counting {
    type Name = Name;

    type Entry = Added;

    ghost meaning = { counting };

    ghost lawful = { lawful_counting };
}

impl Note<Counting> for Added {
    ghost entry = { λ e. e };
}
