//! What is proved, as contracts of functions that do nothing.
ghost use Rattle.std.specs.Prelude.{◌≡◌, ℕ, List, Some};
ghost use Rattle.std.specs.List.{AllByRecursion};
ghost use Rattle.dm_base.specs.declared.identifier.Bfid.{Bfid};
ghost use Rattle.dm_base.specs.declared.identifier.GroupId.{GroupId};
ghost use Rattle.dm_base.specs.declared.identifier.Secs.{Secs};
ghost use Rattle.dm_effects.specs.OfDaemon.{IsOfDaemon};
ghost use Rattle.dm_invariant.specs.Kept.{InvariantHolds};
ghost use Rattle.dm_invariant.specs.StandsFor.{plain_of, shown_namespace};
ghost use Rattle.dm_model.specs.declared.answer.Answer.{Answer};
ghost use Rattle.dm_model.specs.declared.answer.Answer.TheVariants as answer;
ghost use Rattle.dm_model.specs.declared.call.Call.TheVariants as call;
ghost use Rattle.dm_model.specs.declared.call.DaemonCall.TheVariants as daemon_call;
ghost use Rattle.dm_model.specs.declared.call.Event.{Event};
ghost use Rattle.dm_model.specs.declared.call.Event.TheVariants as event;
ghost use Rattle.dm_model.specs.declared.state.Joint.{Joint};
ghost use Rattle.dm_model.specs.Project.{event_steps, plain_run, run_steps};
ghost use Rattle.dm_model.specs.Step.{RunEntry, Run, Stepped, step};
ghost use Rattle.dm_plain.specs.Namespace.{Namespace, bytes_of};
ghost use Rattle.dm_shown.specs.Along.{GoesOn, KeptAlong};
ghost use Rattle.dm_shown.specs.Reads.{ChunksRight, ChunksTold, OnlineRight, RecalledRight};
ghost use Rattle.dm_shown.specs.There.{LandedDead, RequestThere, ReusedDead, YoungThere};
ghost use Rattle.dm_tables.specs.Rows.{EachRow};

/// What users see of the namespace that a state stands for goes along with the plain steps of each legal event, and with
/// nothing else: where users see of a namespace what the state stands for, they see of that namespace after the event's
/// plain steps what the next state stands for (docs/DEFINITIONS.md, "What users see"). So it does along a run.
pub fn plain_kept()
    ensures events { (j k : Joint) (w : ℕ) (e : Event) (a : Answer) (ns : Namespace) → InvariantHolds j → InvariantHolds k → step j w e ≡ Stepped k a
        → plain_of j ≡ shown_namespace ns → plain_of k ≡ shown_namespace (plain_run (event_steps j e) ns) }
    ensures of_daemon { (j k : Joint) (w : ℕ) (e : Event) (a : Answer) (ns : Namespace) → InvariantHolds j → IsOfDaemon e → step j w e ≡ Stepped k a
        → plain_of j ≡ shown_namespace ns → plain_of k ≡ shown_namespace (plain_run (event_steps j e) ns) }
    ensures runs { (j : Joint) (entries : List RunEntry) (k : Joint) (ns : Namespace) → KeptAlong j entries → Run j entries k
        → plain_of j ≡ shown_namespace ns → plain_of k ≡ shown_namespace (plain_run (run_steps j entries) ns) }
    ensures runs_of_daemon { (j : Joint) (entries : List RunEntry) (k : Joint) (ns : Namespace) → InvariantHolds j
        → AllByRecursion (λ e. IsOfDaemon e.event) entries → Run j entries k
        → plain_of j ≡ shown_namespace ns → plain_of k ≡ shown_namespace (plain_run (run_steps j entries) ns) }
    ensures seen { (j : Joint) → InvariantHolds j → plain_of j ≡ shown_namespace (plain_of j) }
{}

/// What reads answer in a state of the invariant (docs/DEFINITIONS.md, "What users see"): a file whose bytes are on the disk, and
/// one that was recalled, is answered as the namespace has it that users see. A recall is answered as the namespace has it
/// at the path at which it was begun, whatever was written, moved and freed since. A read of the chunk that a mount
/// was made for gives the chunk's part of the content where reads of the mount are bound, and where the bytes have the chunk's
/// sum; for the latter alone it is supposed that the part and the bytes have different sums where they differ. So each such read
/// gives the part, or bytes without the chunk's sum.
pub fn reads_right()
    ensures online { (j : Joint) (ns : Namespace) → InvariantHolds j → plain_of j ≡ shown_namespace ns → OnlineRight j ns }
    ensures recalled { (j : Joint) (ns : Namespace) → InvariantHolds j → plain_of j ≡ shown_namespace ns → RecalledRight j ns }
    ensures chunks { (j : Joint) → InvariantHolds j → ChunksRight j }
    ensures told { (j : Joint) → InvariantHolds j → ChunksTold j }
    ensures online_after { (j : Joint) (entries : List RunEntry) (k : Joint) (ns : Namespace) → KeptAlong j entries → Run j entries k
        → plain_of j ≡ shown_namespace ns → OnlineRight k (plain_run (run_steps j entries) ns) }
    ensures recalled_after { (j : Joint) (entries : List RunEntry) (k : Joint) (ns : Namespace) → KeptAlong j entries → Run j entries k
        → plain_of j ≡ shown_namespace ns → RecalledRight k (plain_run (run_steps j entries) ns) }
    ensures asked { (j begun k after : Joint) (v w request number len : ℕ) (path : List ℕ) (b : Bfid) (groups : List GroupId)
        (entries : List RunEntry) (bytes given : List ℕ) (now : Secs) (ns : Namespace)
        → step j v (event.Call (call.Daemon (daemon_call.BeginRecall path request))) ≡ Stepped begun (answer.RecallBegun number b len groups)
        → KeptAlong begun entries → AllByRecursion (λ e. GoesOn e.event) entries → Run begun entries k
        → step k w (event.Call (call.Daemon (daemon_call.EndRecall request bytes now))) ≡ Stepped after (answer.Recalled given)
        → plain_of k ≡ shown_namespace ns → bytes_of path ns ≡ Some given }
{}

/// The entry of an open request is there, and isn't being dropped; and the bitfile of an open recall is in each group that was
/// asked (docs/DEFINITIONS.md, "What is there, and what is dead").
pub fn request_there()
    ensures there { (j : Joint) → InvariantHolds j → EachRow j.daemon.requests (λ k r. RequestThere j r) }
{}

/// Each bitfile that a young dump names is in each of its groups, and no hard delete ever took it; so it is after each legal
/// event of the daemon, whatever age was set and whatever was hard-deleted (docs/DEFINITIONS.md, "What is there, and what is dead").
pub fn young_kept()
    ensures there { (j : Joint) → InvariantHolds j → YoungThere j }
    ensures after { (j k : Joint) (w : ℕ) (e : Event) (a : Answer) → InvariantHolds j → IsOfDaemon e → step j w e ≡ Stepped k a → YoungThere k }
{}

/// A volume that is used again was held for the group's hold since it was freed, or is empty; and nothing is on it: no chunk, no
/// zone of a reservation, and no mount but the reuse's own. So it is as a reuse is accepted, and as one in doubt is found
/// to have landed (docs/DEFINITIONS.md, "What is there, and what is dead").
pub fn freed_dead()
    ensures reused { (j : Joint) → InvariantHolds j → ReusedDead j }
    ensures landed { (j : Joint) → InvariantHolds j → LandedDead j }
{}
