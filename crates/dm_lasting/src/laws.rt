//! What is proved, as contracts of functions that do nothing.
ghost use Rattle.std.specs.Prelude.{◌≡◌, ℕ, Option, List};
ghost use Rattle.dm_base.specs.declared.identifier.Bfid.{Bfid};
ghost use Rattle.dm_base.specs.declared.identifier.GroupId.{GroupId};
ghost use Rattle.dm_base.specs.declared.identifier.Secs.{Secs};
ghost use Rattle.dm_durable.specs.declared.daemon.DaemonStep.{DaemonStep};
ghost use Rattle.dm_durable.specs.declared.daemon.DaemonTables.{DaemonTables};
ghost use Rattle.dm_durable.specs.Daemon.{after_step};
ghost use Rattle.dm_model.specs.declared.answer.Answer.{Answer};
ghost use Rattle.dm_model.specs.declared.answer.Answer.TheVariants as answer;
ghost use Rattle.dm_model.specs.declared.call.Call.TheVariants as call;
ghost use Rattle.dm_model.specs.declared.call.DaemonCall.TheVariants as daemon_call;
ghost use Rattle.dm_model.specs.declared.call.Event.{Event};
ghost use Rattle.dm_model.specs.declared.call.Event.TheVariants as event;
ghost use Rattle.dm_model.specs.declared.state.Joint.{Joint};
ghost use Rattle.dm_model.specs.Step.{Stepped, step};
ghost use Rattle.dm_invariant.specs.Kept.{InvariantHolds};
ghost use Rattle.dm_lasting.specs.Begun.{PutBegins};
ghost use Rattle.dm_lasting.specs.Rise.{RequestsRise};
ghost use Rattle.dm_shown.specs.Along.{GoesOn};
ghost use Rattle.dm_lasting.specs.Comes.{IsStoredOf, NotStored, StoredBy, Unstored};

/// A group's copy of a bitfile of which no entry says that it is stored, and no step in doubt, is so after each legal event but the
/// daemon's call, answered or failed, that says of an open request of the bitfile that this group's copy is stored
/// (docs/DEFINITIONS.md, "Copies that aren't stored"). So it is whatever lands, and over a stop; and no other step makes it so.
pub fn stored_by_call()
    ensures steps { (t : DaemonTables) (s : DaemonStep) (b g : ℕ) → (IsStoredOf b g s → ⊥) → NotStored t.entries b g
        → NotStored (after_step t s).entries b g }
    ensures events { (j k : Joint) (w : ℕ) (e : Event) (a : Answer) (b g : ℕ) → Unstored j.daemon b g → (StoredBy j.daemon b g e → ⊥)
        → step j w e ≡ Stepped k a → Unstored k.daemon b g }
{}

/// An accepted call that begins a put answers the bytes of the file at its path, which are the content of the new bitfile in the
/// state after it, and so ever after; the request of its number is the put of the bitfile there, and both are new
/// (docs/DEFINITIONS.md, "Puts that begin").
pub fn put_begun()
    ensures begun { (j k : Joint) (w : ℕ) (path : List ℕ) (asked : List (Option GroupId)) (now : Secs) (m n : ℕ) (b : Bfid) (bytes : List ℕ)
        (change : ℕ) → InvariantHolds j
        → step j w (event.Call (call.Daemon (daemon_call.BeginPut path asked now m))) ≡ Stepped k (answer.PutBegun n b bytes change)
        → PutBegins j k path n b.0 bytes }
{}

/// The number of the daemon's next request never falls by a legal event but a stop; and each request that such an event opens has a
/// number that is the next one before it or a later one, and below the next one after it (docs/DEFINITIONS.md, "Numbers that
/// rise"). So, where each open request has a number below the next one, none comes again while the program runs.
pub fn numbers_rise()
    ensures requests { (j k : Joint) (w : ℕ) (e : Event) (a : Answer) → GoesOn e → step j w e ≡ Stepped k a
        → RequestsRise j.daemon k.daemon }
{}
