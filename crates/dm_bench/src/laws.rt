//! What is proved of pasts, as contracts of functions that do nothing.
ghost use Rattle.std.specs.Prelude.{◌≡◌, ℕ, List, ◌⊎◌, ◌↔◌};
ghost use Rattle.dm_bench.specs.Systems.{loaded_by, machine};
ghost use Rattle.dm_bench.specs.declared.system.System.{System};
ghost use Rattle.dm_history.specs.History.{run_of, state_seen};
ghost use Rattle.dm_model.specs.Step.{Run};
ghost use Rattle.dm_model.specs.declared.entry.HistoryEntry.{HistoryEntry};
ghost use Rattle.dm_model.specs.declared.state.Joint.{Joint};
ghost use Rattle.dm_openings.specs.Openings.{IsOpening, openings};
ghost use Rattle.dm_spine.specs.Past.{Agree, In, Legal, Rises, union};

/// What a pass of the product has seen is legal for what was loaded, so that each law of `dm_openings` holds of it: it is a legal run from
/// each opening of what was loaded (docs/DEFINITIONS.md, "How a history begins").
pub fn past_is_run()
    ensures legal { (s : System) (xs : List (ℕ × HistoryEntry)) → Legal machine s xs → Legal openings (loaded_by s) xs }
    ensures run { (s : System) (j : Joint) (xs : List (ℕ × HistoryEntry)) → IsOpening (loaded_by s).state j → Rises 0 xs → Legal machine s xs
        → Run j (run_of xs) (state_seen j xs) }
{}

/// The union of two legal pasts that agree is legal, and has what either had (docs/DEFINITIONS.md, "The shared history").
pub fn union_legal()
    ensures rises { (xs ys : List (ℕ × HistoryEntry)) → Rises 0 xs → Rises 0 ys → Rises 0 (union xs ys) }
    ensures members { (xs ys : List (ℕ × HistoryEntry)) → Rises 0 xs → Rises 0 ys → Agree machine xs ys
        → (a : ℕ × HistoryEntry) → In a (union xs ys) ↔ (In a xs ⊎ In a ys) }
    ensures legal { (s : System) (xs ys : List (ℕ × HistoryEntry)) → Rises 0 xs → Rises 0 ys → Agree machine xs ys
        → Legal machine s xs → Legal machine s ys → Legal machine s (union xs ys) }
{}
