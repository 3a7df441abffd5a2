//! What is proved, as contracts of functions that do nothing.

ghost use Rattle.dm_daemon.specs.Always.{NeedsNothing};
ghost use Rattle.dm_daemon_acts.specs.Acts.{Ready};
ghost use Rattle.dm_model.specs.declared.call.DaemonCall.{DaemonCall};
ghost use Rattle.dm_model.specs.declared.state.Daemon.{Daemon};

/// A call that takes no request and rests on nothing that a sound state has is ready in every state.
pub fn always_ready()
    ensures { (d : Daemon) (c : DaemonCall) → NeedsNothing c → Ready d c }
{}
