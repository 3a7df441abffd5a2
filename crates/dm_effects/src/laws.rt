//! What is proved, as contracts of functions that do nothing.
ghost use Rattle.std.specs.Prelude.{◌≡◌, ℕ, List};
ghost use Rattle.std.specs.List.{AllByRecursion};
ghost use Rattle.dm_effects.specs.OfDaemon.{IsOfDaemon};
ghost use Rattle.dm_invariant.specs.Kept.{InvariantHolds};
ghost use Rattle.dm_invariant.specs.Opened.{IsAsConfigured};
ghost use Rattle.dm_invariant.specs.Sound.{Sound};
ghost use Rattle.dm_model.specs.declared.answer.Answer.{Answer};
ghost use Rattle.dm_model.specs.declared.call.Event.{Event};
ghost use Rattle.dm_model.specs.declared.state.Joint.{Joint};
ghost use Rattle.dm_model.specs.Step.{RunEntry, Run, Stepped, step};

/// What is kept of a state is kept by each legal event of the daemon: by each of its calls, answered or failed, by a step in
/// doubt that landed, and by a look (docs/DEFINITIONS.md, "The invariant"). So it is by a run of them, which ends in a sound
/// state that fits its configuration.
pub fn daemon_keeps()
    ensures events { (j k : Joint) (w : ℕ) (e : Event) (a : Answer) → InvariantHolds j → IsOfDaemon e → step j w e ≡ Stepped k a → InvariantHolds k }
    ensures runs { (j : Joint) (entries : List RunEntry) (k : Joint) → InvariantHolds j → AllByRecursion (λ e. IsOfDaemon e.event) entries
        → Run j entries k → InvariantHolds k }
    ensures sound { (j : Joint) (entries : List RunEntry) (k : Joint) → InvariantHolds j → AllByRecursion (λ e. IsOfDaemon e.event) entries
        → Run j entries k → Sound k }
    ensures fits { (j : Joint) (entries : List RunEntry) (k : Joint) → InvariantHolds j → AllByRecursion (λ e. IsOfDaemon e.event) entries
        → Run j entries k → IsAsConfigured k }
{}
