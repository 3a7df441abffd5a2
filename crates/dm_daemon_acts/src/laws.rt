//! What is proved, as contracts of functions that do nothing.

ghost use Rattle.std.specs.Prelude.{◌≡◌, ℕ, Bool, true, false};
ghost use Rattle.dm_daemon_acts.specs.Acts.{Did, Does, FailedEarly, IsAnswer, IsFault, Ready, Usable};
ghost use Rattle.dm_durable.specs.DaemonConditions.{MayFollow};
ghost use Rattle.dm_durable.specs.declared.daemon.DaemonRecord.{DaemonRecord};
ghost use Rattle.dm_model.specs.declared.answer.Answer.{Answer};
ghost use Rattle.dm_model.specs.declared.call.Call.TheVariants as of;
ghost use Rattle.dm_model.specs.declared.call.Component.TheVariants as component;
ghost use Rattle.dm_model.specs.declared.call.DaemonCall.{DaemonCall};
ghost use Rattle.dm_model.specs.declared.call.Event.TheVariants as event;
ghost use Rattle.dm_model.specs.declared.plan.Payload.TheVariants as payload;
ghost use Rattle.dm_model.specs.declared.state.Daemon.{Daemon};
ghost use Rattle.dm_model.specs.declared.state.Joint.{Joint};
ghost use Rattle.dm_model.specs.DaemonCalls.{daemon_plan};
ghost use Rattle.dm_model.specs.DaemonShare.{daemon_after_heal};
ghost use Rattle.dm_model.specs.Guards.{AllHold};
ghost use Rattle.dm_model.specs.Plan.{prepared_plan};
ghost use Rattle.dm_model.specs.Step.{Stepped, step};

/// The record that a call journals may follow in the daemon's tables: where the guards of its plan that are of the daemon
/// hold, where it has what it needs of a sound state, and where no refusal comes before. No more of the state is needed, and
/// none of any other component (docs/DEFINITIONS.md, "What a call of the daemon does").
pub fn accepted_may_follow()
    ensures { (d : Daemon) (c : DaemonCall) (r : DaemonRecord) → AllHold (daemon_plan d c).own → Usable d c
        → (prepared_plan (daemon_plan d c)).payload ≡ Some (payload.Daemon r) → MayFollow d.tables r }
{}

/// The same of a call that is ready, whatever became of the step in doubt.
pub fn ready_may_follow()
    ensures { (d : Daemon) (c : DaemonCall) (landed : Bool) (r : DaemonRecord) → Ready d c
        → (prepared_plan (daemon_plan (daemon_after_heal landed d) c)).payload ≡ Some (payload.Daemon r)
        → MayFollow (daemon_after_heal landed d).tables r }
{}

/// What the words say of the daemon is what the joint machine does to it: with a call that is answered, with one that fails
/// behind its heal and its checkpoint, and with one that fails before. Of a state in which a step is in doubt it is the whole
/// call: the step landed first, or it did not and isn't in doubt any more.
pub fn acts_are_events()
    ensures answered { (j k : Joint) (w : ℕ) (c : DaemonCall) (a : Answer) → step j w (event.Call (of.Daemon c)) ≡ Stepped k a
        → Does j.daemon k.daemon c (IsAnswer a) }
    ensures failed { (j k : Joint) (w : ℕ) (c : DaemonCall) (a : Answer) → step j w (event.Fault (of.Daemon c) true true) ≡ Stepped k a
        → Does j.daemon k.daemon c IsFault }
    ensures failed_early { (j k : Joint) (w : ℕ) (c : DaemonCall) (a : Answer) (healed : Bool) → step j w (event.Fault (of.Daemon c) healed false) ≡ Stepped k a
        → FailedEarly j.daemon k.daemon c IsFault }
    ensures settled { (j k : Joint) (w : ℕ) (c : DaemonCall) (a : Answer) → (daemon_plan j.daemon c).heals ≡ true
        → step j w (event.Call (of.Daemon c)) ≡ Stepped k a → Did j.daemon k.daemon false c (IsAnswer a) }
    ensures failed_settled { (j k : Joint) (w : ℕ) (c : DaemonCall) (a : Answer) (r : DaemonRecord)
        → (prepared_plan (daemon_plan j.daemon c)).payload ≡ Some (payload.Daemon r)
        → step j w (event.Fault (of.Daemon c) true true) ≡ Stepped k a → Did j.daemon k.daemon false c IsFault }
    ensures landed { (j m k : Joint) (v w : ℕ) (c : DaemonCall) (a b : Answer) → step j v (event.Landed component.Daemon) ≡ Stepped m b
        → step m w (event.Call (of.Daemon c)) ≡ Stepped k a → Did j.daemon k.daemon true c (IsAnswer a) }
{}
