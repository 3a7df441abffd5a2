//! What is proved, as contracts of functions that do nothing.
ghost use Rattle.std.specs.Prelude.{◌≡◌, ℕ, List};
ghost use Rattle.std.specs.List.{AllByRecursion};
ghost use Rattle.dm_group_effects.specs.OfGroup.{IsOfGroup};
ghost use Rattle.dm_group_effects.specs.OnVolume.{IsOnVolume, ReadTellsApart, ReadsTellApart};
ghost use Rattle.dm_invariant.specs.Kept.{InvariantHolds};
ghost use Rattle.dm_invariant.specs.Opened.{IsAsConfigured};
ghost use Rattle.dm_invariant.specs.Sound.{Sound};
ghost use Rattle.dm_model.specs.declared.answer.Answer.{Answer};
ghost use Rattle.dm_model.specs.declared.call.Event.{Event};
ghost use Rattle.dm_model.specs.declared.state.Joint.{Joint};
ghost use Rattle.dm_model.specs.Step.{RunEntry, Run, Stepped, step};

/// What is kept of a state is kept by each legal event of a group: by each call of its library server, answered or failed, by
/// its step in doubt that landed, and by a look (docs/DEFINITIONS.md, "The invariant"). So it is by a run of them, which ends
/// in a sound state that fits its configuration.
pub fn group_keeps()
    ensures events { (j k : Joint) (w : ℕ) (e : Event) (a : Answer) → InvariantHolds j → IsOfGroup e → step j w e ≡ Stepped k a → InvariantHolds k }
    ensures runs { (j : Joint) (entries : List RunEntry) (k : Joint) → InvariantHolds j → AllByRecursion (λ e. IsOfGroup e.event) entries
        → Run j entries k → InvariantHolds k }
    ensures sound { (j : Joint) (entries : List RunEntry) (k : Joint) → InvariantHolds j → AllByRecursion (λ e. IsOfGroup e.event) entries
        → Run j entries k → Sound k }
    ensures fits { (j : Joint) (entries : List RunEntry) (k : Joint) → InvariantHolds j → AllByRecursion (λ e. IsOfGroup e.event) entries
        → Run j entries k → IsAsConfigured k }
{}

/// What is kept of a state is kept by each legal event on a volume: a zone or a label that is written, a chunk that is read,
/// answered or failed (docs/DEFINITIONS.md, "The invariant"). Of a read that counts on a chunk with a sum it is supposed that
/// its bytes and the chunk's part of the bitfile aren't two lists of one length with one SHA-256; of no other event anything.
pub fn volume_keeps()
    ensures events { (j k : Joint) (w : ℕ) (e : Event) (a : Answer) → InvariantHolds j → IsOnVolume e → ReadTellsApart j e → step j w e ≡ Stepped k a
        → InvariantHolds k }
    ensures runs { (j : Joint) (entries : List RunEntry) (k : Joint) → InvariantHolds j → AllByRecursion (λ e. IsOnVolume e.event) entries
        → ReadsTellApart j entries → Run j entries k → InvariantHolds k }
    ensures sound { (j : Joint) (entries : List RunEntry) (k : Joint) → InvariantHolds j → AllByRecursion (λ e. IsOnVolume e.event) entries
        → ReadsTellApart j entries → Run j entries k → Sound k }
    ensures fits { (j : Joint) (entries : List RunEntry) (k : Joint) → InvariantHolds j → AllByRecursion (λ e. IsOnVolume e.event) entries
        → ReadsTellApart j entries → Run j entries k → IsAsConfigured k }
{}
