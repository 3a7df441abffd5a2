//! What is proved, as contracts of functions that do nothing.
ghost use Rattle.std.specs.Prelude.{◌≡◌, ℕ, List, ◌⊎◌, ◌↔◌};
ghost use Rattle.dm_history.specs.History.{Begun, NeedsGrow, history};
ghost use Rattle.dm_model.specs.declared.entry.HistoryEntry.{HistoryEntry};
ghost use Rattle.dm_spine.specs.Past.{Agree, In, Lawful, Legal, Rises, union};

/// Between two legal pasts what an entry needs stays true in the larger, where the chains of the entry's own names are the same: the
/// event is legal there with the same answer, and is about the same names (docs/DEFINITIONS.md, "The machine's history"). Nothing is
/// supposed of sums.
pub fn needs_grow()
    ensures grow { NeedsGrow }
{}

/// The machine's names and entries keep every law of a shared history.
pub fn history_lawful()
    ensures lawful { Lawful history }
{}

/// The union of two legal pasts of one beginning that agree is legal, and has what either had (docs/DEFINITIONS.md, "The shared
/// history"). So what two threads have seen is together a legal run.
pub fn union_legal()
    ensures rises { (xs ys : List (ℕ × HistoryEntry)) → Rises 0 xs → Rises 0 ys → Rises 0 (union xs ys) }
    ensures members { (xs ys : List (ℕ × HistoryEntry)) → Rises 0 xs → Rises 0 ys → Agree history xs ys
        → (a : ℕ × HistoryEntry) → In a (union xs ys) ↔ (In a xs ⊎ In a ys) }
    ensures legal { (begun : Begun) (xs ys : List (ℕ × HistoryEntry)) → Rises 0 xs → Rises 0 ys → Agree history xs ys
        → Legal history begun xs → Legal history begun ys → Legal history begun (union xs ys) }
{}
