//! What holds of every log: functions that do nothing, whose contracts are theorems.

ghost use Rattle.std.specs.Prelude.{◌≡◌, ◌↔◌, ℕ, List, [], ◌∷◌, ◌++◌};
ghost use Rattle.dm_daemon_replay.specs.Replay.{IsBeginning, IsNext, LogTells};
ghost use Rattle.dm_durable.specs.DaemonJournal.{DaemonState};

/// A log tells of one state.
pub fn one_state()
    ensures { (ps : List (List ℕ)) (s t : DaemonState) → LogTells ps s → LogTells ps t → s ≡ t }
{}

/// A log of one payload tells of what that begins.
pub fn first_payload()
    ensures { (p : List ℕ) (s : DaemonState) → LogTells (p ∷ []) s ↔ IsBeginning p s }
{}

/// A log with one payload more tells of what that leaves, and of nothing where it may not come.
pub fn last_payload()
    ensures { (ps : List (List ℕ)) (s : DaemonState) (p : List ℕ) → LogTells ps s → (u : DaemonState) → LogTells (ps ++ p ∷ []) u ↔ IsNext s p u }
{}
