//! What is proved, as contracts of functions that do nothing.
ghost use Rattle.std.specs.Prelude.{◌≡◌, ℕ, List, Some};
ghost use Rattle.std.specs.FinMap as map;
ghost use Rattle.dm_invariant.specs.Kept.{InvariantHolds};
ghost use Rattle.dm_model.specs.declared.answer.Answer.{Answer};
ghost use Rattle.dm_model.specs.declared.call.Event.{Event};
ghost use Rattle.dm_model.specs.declared.state.Joint.{Joint};
ghost use Rattle.dm_model.specs.declared.state.OpenRequest.{OpenRequest};
ghost use Rattle.dm_model.specs.Step.{RunEntry, Run, Stepped, step};
ghost use Rattle.dm_model.specs.declared.state.Side.{Side};
ghost use Rattle.dm_ongoing.specs.Spans.{GroupHasSpans, IsUntaken};
ghost use Rattle.dm_ongoing.specs.TokensRise.{TokensRise};
ghost use Rattle.dm_shown.specs.Along.{GoesOn, KeptAlong};

/// As long as no hard delete has taken a bitfile, a group that has it keeps it, in chunks that begin where they began and have as
/// many bytes: a chunk that is moved changes its place and nothing else (docs/DEFINITIONS.md, "Spans of chunks"). Over a run that
/// is so where the bitfile isn't taken at its end; and it isn't where a request of it is open there.
pub fn chunks_stay()
    ensures events { (j k : Joint) (w : ℕ) (e : Event) (a : Answer) (g b : ℕ) (spans : List (ℕ × ℕ)) → InvariantHolds j → IsUntaken j b
        → GroupHasSpans j g b spans → step j w e ≡ Stepped k a → GroupHasSpans k g b spans }
    ensures runs { (j : Joint) (entries : List RunEntry) (k : Joint) (g b : ℕ) (spans : List (ℕ × ℕ)) → KeptAlong j entries → Run j entries k
        → IsUntaken k b → GroupHasSpans j g b spans → GroupHasSpans k g b spans }
    ensures requested { (j : Joint) (n : ℕ) (r : OpenRequest) → InvariantHolds j → map.get j.daemon.requests n ≡ Some r
        → IsUntaken j r.bfid.0 }
{}

/// The numbers of a group's next reservation, mount and move never fall by a legal event but a stop; and each reservation, mount and
/// move that such an event opens has a number that is the next one before it or a later one, and below the next one after it
/// (docs/DEFINITIONS.md, "Numbers that rise"). So none comes again while the program runs.
pub fn tokens_rise()
    ensures { (j k : Joint) (w : ℕ) (e : Event) (a : Answer) (g : ℕ) (s t : Side) → GoesOn e → step j w e ≡ Stepped k a
        → map.get j.sides g ≡ Some s → map.get k.sides g ≡ Some t → TokensRise s.group t.group }
{}
