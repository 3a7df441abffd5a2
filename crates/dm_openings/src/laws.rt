//! What is proved, as contracts of functions that do nothing.
ghost use Rattle.std.specs.Prelude.{◌≡◌, ℕ, List};
ghost use Rattle.std.specs.List.{AllByRecursion};
ghost use Rattle.dm_group_effects.specs.OnVolume.{ReadsTellApart};
ghost use Rattle.dm_history.specs.Alike.{Alike};
ghost use Rattle.dm_history.specs.History.{Begun, history, run_of, state_seen};
ghost use Rattle.dm_model.specs.declared.entry.HistoryEntry.{HistoryEntry};
ghost use Rattle.dm_model.specs.declared.entry.Name.{Name};
ghost use Rattle.dm_model.specs.declared.state.Joint.{Joint};
ghost use Rattle.dm_model.specs.Hashed.{NoCollision};
ghost use Rattle.dm_model.specs.Step.{Run};
ghost use Rattle.dm_openings.specs.Openings.{BeginsAs, IsOpening, Loaded, RootedIn, openings};
ghost use Rattle.dm_shown.specs.Along.{GoesOn, KeptAlong};
ghost use Rattle.dm_shown.specs.There.{RequestThere};
ghost use Rattle.dm_spine.specs.Past.{IsPart, Lawful, Legal, Rises, chain};
ghost use Rattle.dm_tables.specs.Rows.{EachRow};

/// What names and entries mean for what was loaded keeps every law of a shared history (docs/DEFINITIONS.md, "How a history
/// begins").
pub fn openings_lawful()
    ensures lawful { Lawful openings }
{}

/// A history begins in each opening of what was loaded, with as many workers; and a past that is legal for what was loaded is legal
/// for each.
pub fn each_opening()
    ensures begins { (l : Loaded) (j : Joint) → IsOpening l.state j → (begun : Begun) × (begun.opened ≡ j) × BeginsAs l begun }
    ensures legal { (l : Loaded) (begun : Begun) (xs : List (ℕ × HistoryEntry)) → BeginsAs l begun → Legal openings l xs
        → Legal history begun xs }
{}

/// So such a past is, by the numbers of its entries, a legal run without a stop from each opening: the same entries, with the same
/// answers.
pub fn past_is_run_of_each()
    ensures run { (l : Loaded) (j : Joint) (xs : List (ℕ × HistoryEntry)) → IsOpening l.state j → Rises 0 xs → Legal openings l xs
        → Run j (run_of xs) (state_seen j xs) }
    ensures goes { (l : Loaded) (j : Joint) (xs : List (ℕ × HistoryEntry)) → IsOpening l.state j → Rises 0 xs → Legal openings l xs
        → AllByRecursion (λ e. GoesOn e.event) (run_of xs) }
{}

/// What the laws take of such a run is that each of its reads tells its bytes from the part of a bitfile that it is of, by their sums or
/// since the volume gives what is known: it is so where no two different byte lists have one sum (`NoCollision`). Then the invariant
/// holds before and after each entry, and at the end the entry of each open request is there, with the bitfile of a recall in each group
/// that was asked.
pub fn openings_kept()
    ensures tell { (l : Loaded) (j : Joint) (xs : List (ℕ × HistoryEntry)) → IsOpening l.state j → Rises 0 xs → Legal openings l xs
        → NoCollision j (run_of xs) → ReadsTellApart j (run_of xs) }
    ensures along { (l : Loaded) (j : Joint) (xs : List (ℕ × HistoryEntry)) → IsOpening l.state j → Rises 0 xs → Legal openings l xs
        → ReadsTellApart j (run_of xs) → KeptAlong j (run_of xs) }
    ensures there { (l : Loaded) (j : Joint) (xs : List (ℕ × HistoryEntry)) → IsOpening l.state j → Rises 0 xs → Legal openings l xs
        → ReadsTellApart j (run_of xs) → EachRow (state_seen j xs).daemon.requests (λ n r. RequestThere (state_seen j xs) r) }
{}

/// Of two such pasts, where one is a part of the other, the states after them are alike at each name that the smaller has as fixed or
/// made, and of which both have the same entries. So what a pass knows of a name that it keeps holds in every larger past.
pub fn openings_alike()
    ensures alike { (l : Loaded) (j : Joint) (xs ys : List (ℕ × HistoryEntry)) (x : Name) → IsOpening l.state j → IsPart openings xs ys
        → Legal openings l xs → Legal openings l ys → RootedIn l x xs → chain openings x xs ≡ chain openings x ys
        → Alike x (state_seen j xs) (state_seen j ys) }
{}
