//! What is proved, as contracts of functions that do nothing.
ghost use Rattle.std.specs.Prelude.{◌≡◌, ℕ, List};
ghost use Rattle.dm_copies.specs.Asked.{CopiesAreAsked};
ghost use Rattle.dm_copies.specs.Done.{StaysDone};
ghost use Rattle.dm_invariant.specs.Opened.{Opened};
ghost use Rattle.dm_model.specs.declared.answer.Answer.{Answer};
ghost use Rattle.dm_model.specs.declared.call.Event.{Event};
ghost use Rattle.dm_model.specs.declared.state.Joint.{Joint};
ghost use Rattle.dm_model.specs.Step.{Run, RunEntry, Stepped, step};

/// After a legal run from an opened state each copy in a group is of a bitfile whose put is open, and whose entry asks the group and
/// isn't being dropped; contents are of bitfiles that were given; and numbers of requests are below the next one. Nothing is supposed of
/// sums (docs/DEFINITIONS.md, "Copies and contents, without sums"). Each legal event keeps this, from whatever state it holds in.
pub fn copies_are_asked()
    ensures runs { (j : Joint) (entries : List RunEntry) (k : Joint) → Opened j → Run j entries k → CopiesAreAsked k }
    ensures events { (j k : Joint) (w : ℕ) (e : Event) (a : Answer) → CopiesAreAsked j → step j w e ≡ Stepped k a → CopiesAreAsked k }
{}

/// What was done at some moment of such a run stays done: the content of a bitfile is its content ever after, what hard deletes took is
/// taken, and what a group committed and was told to delete stays so. Nothing is supposed of sums.
pub fn done_stays_done()
    ensures runs { (j : Joint) (before : List RunEntry) (mid : Joint) (later : List RunEntry) (k : Joint) → Opened j → Run j before mid
        → Run mid later k → StaysDone mid.history k.history }
{}
