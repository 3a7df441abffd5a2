//! What a spine's user says of names and entries.

/// The names and entries of a history. A value is what a spine is begun with, the state that its history begins in.
pub trait Parts: Drop {
    ghost use Rattle.dm_spine.specs.Past.{Meaning, Lawful};

    /// What an entry may be about: a component, a worker, a token.
    type Name: Drop;

    /// What one step of the history says.
    type Entry;

    // What names and entries mean, and that the meaning meets the laws (docs/DEFINITIONS.md, "The shared history").
    ghost meaning: { Meaning Self Self.Name Self.Entry };

    ghost lawful: { Lawful meaning };
}

/// A value that stands for an entry. It is made of references and numbers, so that no entry is built for a draw.
pub trait Note<P: Parts> {
    ghost entry: { Self → P.Entry };
}
