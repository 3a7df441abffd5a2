//! What is proved, as contracts of functions that do nothing.
ghost use Rattle.std.specs.Prelude.{◌≡◌, ℕ, List, ◌∷◌, ◌++◌};
ghost use Rattle.std.specs.List.{AllByRecursion};
ghost use Rattle.dm_model.specs.declared.answer.Answer.{Answer};
ghost use Rattle.dm_model.specs.declared.call.Event.{Event};
ghost use Rattle.dm_model.specs.declared.entry.HistoryEntry.{HistoryEntry};
ghost use Rattle.dm_model.specs.declared.entry.Name.{Name};
ghost use Rattle.dm_model.specs.declared.state.Joint.{Joint};
ghost use Rattle.dm_model.specs.Hashed.{NoCollision};
ghost use Rattle.dm_model.specs.Names.{home_of, made_by, names_of};
ghost use Rattle.dm_model.specs.Project.{plain_run, run_steps};
ghost use Rattle.dm_model.specs.Step.{Run, Stepped, step};
ghost use Rattle.dm_invariant.specs.Kept.{InvariantHolds};
ghost use Rattle.dm_invariant.specs.Opened.{Opened};
ghost use Rattle.dm_invariant.specs.Sound.{Sound};
ghost use Rattle.dm_invariant.specs.StandsFor.{plain_of, shown_namespace};
ghost use Rattle.dm_shown.specs.Along.{GoesOn, KeptAlong};
ghost use Rattle.dm_shown.specs.There.{RequestThere};
ghost use Rattle.dm_spine.specs.Past.{In, IsPart, Lawful, Legal, Rises, chain};
ghost use Rattle.dm_tables.specs.Rows.{EachRow};
ghost use Rattle.dm_history.specs.Alike.{Alike, SameGroups};
ghost use Rattle.dm_history.specs.History.{Begun, NeedsGrow, Rooted, history, run_of, state_seen};

/// What names and entries mean keeps all laws of a shared history but one: names are told apart; an entry is about its home, about
/// what it ends and about the makers of what it makes; what is made is neither fixed nor a home; and the fixed names are few
/// (docs/DEFINITIONS.md, "The machine's history"). So it is lawful where what an entry needs stays true in a larger past.
pub fn names_lawful()
    ensures lawful { NeedsGrow → Lawful history }
{}

/// An event changes the states of no names but those that it is about and those that it makes, whatever the state is: what
/// another name has stays the same, and of a volume no more is known than before (docs/DEFINITIONS.md, "The machine's
/// history"). A stop is no entry of a history, and is left out.
pub fn names_told()
    ensures stays { (j k : Joint) (w : ℕ) (e : Event) (a : Answer) (x : Name) → GoesOn e → step j w e ≡ Stepped k a
        → (In x (home_of e ∷ names_of j w e ++ made_by e a) → ⊥) → Alike x j k }
{}

/// What an event makes of a name that was there, and what it answers, is decided by what it had and by the names that the event is
/// about: where it is legal in two states with the same groups that are alike at these, the answers are the same and the states after it
/// are alike there too. A name that it makes is set by it: the states after it are alike at that name whatever was there before
/// (docs/DEFINITIONS.md, "The machine's history").
pub fn names_decided()
    ensures alike { (j k after other : Joint) (w : ℕ) (e : Event) (a b : Answer) (x : Name) → SameGroups j k → GoesOn e
        → step j w e ≡ Stepped after a → step k w e ≡ Stepped other b
        → ((y : Name) → In y (home_of e ∷ names_of j w e) → Alike y j k) → Alike x j k → (a ≡ b) × Alike x after other }
    ensures made { (j k after other : Joint) (w : ℕ) (e : Event) (a b : Answer) (x : Name) → SameGroups j k
        → step j w e ≡ Stepped after a → step k w e ≡ Stepped other b
        → ((y : Name) → In y (home_of e ∷ names_of j w e) → Alike y j k) → In x (made_by e a) → Alike x after other }
{}

/// A legal past of a history that begins in an opened state is, by the numbers of its entries, a legal run from there,
/// without a stop, to the state after it (docs/DEFINITIONS.md, "The machine's history"). So every law of runs holds of what any
/// pass has seen.
pub fn past_is_run()
    ensures run { (begun : Begun) (xs : List (ℕ × HistoryEntry)) → Opened begun.opened → Rises 0 xs → Legal history begun xs
        → Run begun.opened (run_of xs) (state_seen begun.opened xs) }
    ensures goes { (begun : Begun) (xs : List (ℕ × HistoryEntry)) → Opened begun.opened → Rises 0 xs → Legal history begun xs
        → AllByRecursion (λ e. GoesOn e.event) (run_of xs) }
{}

/// After each entry of such a past the machine is in a state of the invariant, and so in a sound one; the entry of an open request is there,
/// and the bitfile of an open recall is in each group that was asked; and what users see is what they see after the plain steps of the past. It is supposed that no two different byte lists of one length have one SHA-256, of those that
/// are hashed in the past and the parts of bitfiles that stand in chunks as it begins (docs/DEFINITIONS.md, "The machine's history").
pub fn past_kept()
    ensures along { (begun : Begun) (xs : List (ℕ × HistoryEntry)) → Opened begun.opened → Rises 0 xs → Legal history begun xs
        → NoCollision begun.opened (run_of xs) → KeptAlong begun.opened (run_of xs) }
    ensures kept { (begun : Begun) (xs : List (ℕ × HistoryEntry)) → Opened begun.opened → Rises 0 xs → Legal history begun xs
        → NoCollision begun.opened (run_of xs) → InvariantHolds (state_seen begun.opened xs) }
    ensures sound { (begun : Begun) (xs : List (ℕ × HistoryEntry)) → Opened begun.opened → Rises 0 xs → Legal history begun xs
        → NoCollision begun.opened (run_of xs) → Sound (state_seen begun.opened xs) }
    ensures there { (begun : Begun) (xs : List (ℕ × HistoryEntry)) → Opened begun.opened → Rises 0 xs → Legal history begun xs
        → NoCollision begun.opened (run_of xs)
        → EachRow (state_seen begun.opened xs).daemon.requests (λ n r. RequestThere (state_seen begun.opened xs) r) }
    ensures shown { (begun : Begun) (xs : List (ℕ × HistoryEntry)) → Opened begun.opened → Rises 0 xs → Legal history begun xs
        → NoCollision begun.opened (run_of xs)
        → plain_of (state_seen begun.opened xs) ≡ shown_namespace (plain_run (run_steps begun.opened (run_of xs)) (plain_of begun.opened)) }
{}

/// Of two legal pasts, where one is a part of the other, the states after them are alike at each name that the smaller has as fixed or
/// made, and of which both have the same entries (docs/DEFINITIONS.md, "The machine's history"). So what a pass knows of a name that it
/// keeps holds in every larger past: nobody else draws entries about the name.
pub fn kept_same()
    ensures alike { (begun : Begun) (xs ys : List (ℕ × HistoryEntry)) (x : Name) → Opened begun.opened → IsPart history xs ys
        → Legal history begun xs → Legal history begun ys → Rooted begun x xs → chain history x xs ≡ chain history x ys
        → Alike x (state_seen begun.opened xs) (state_seen begun.opened ys) }
{}
