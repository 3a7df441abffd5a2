//! What is proved, as contracts of functions that do nothing.
ghost use Rattle.std.specs.Prelude.{◌≡◌, ◌≤◌, ℕ, true, Some, List};
ghost use Rattle.std.specs.FinMap as map;
ghost use Rattle.dm_base.specs.declared.conf.DaemonConf.{DaemonConf};
ghost use Rattle.dm_base.specs.declared.conf.GroupConf.{GroupConf};
ghost use Rattle.dm_base.specs.declared.identifier.Secs.{Secs};
ghost use Rattle.dm_durable.specs.declared.daemon.DaemonStep.TheVariants as record_step;
ghost use Rattle.dm_durable.specs.declared.daemon.DaemonTables.{DaemonTables};
ghost use Rattle.dm_durable.specs.Daemon.{after_record};
ghost use Rattle.dm_durable.specs.DaemonConditions.{MayFollow};
ghost use Rattle.dm_durable.specs.Dumps.{is_young};
ghost use Rattle.dm_durable.specs.Inodes.{has_making};
ghost use Rattle.dm_durable.specs.Tables.{ByNumber};
ghost use Rattle.dm_durable.specs.Volumes.{is_sparse_in};
ghost use Rattle.dm_invariant.specs.Files.{DumpsKept, FilesKept};
ghost use Rattle.dm_invariant.specs.Kept.{InvariantHolds};
ghost use Rattle.dm_invariant.specs.Opened.{Opened};
ghost use Rattle.dm_model.specs.declared.answer.Answer.{Answer};
ghost use Rattle.dm_model.specs.declared.call.Event.TheVariants as event;
ghost use Rattle.dm_model.specs.declared.state.Joint.{Joint};
ghost use Rattle.dm_model.specs.Begin.{empty_joint};
ghost use Rattle.dm_model.specs.Step.{Stepped, step};
ghost use Rattle.dm_model.specs.Volumes.{usage_of};
ghost use Rattle.dm_stops.specs.Closed.{Closed};
ghost use Rattle.dm_stops.specs.Example.{dual, dump, dump_name, example, first_side, first_volume, first_vsn, offline, regular, second_side};
ghost use Rattle.dm_stops.specs.FirstConf.{FirstConf};

/// What is kept of a state is kept by a stop and the start after it, which may come at any moment: whatever is open then,
/// and whichever steps are in doubt (docs/DEFINITIONS.md, "The invariant"). Nothing is open after it, and each put has ended.
pub fn stop_keeps()
    ensures kept { (j k : Joint) (w : ℕ) (a : Answer) → InvariantHolds j → step j w event.Stop ≡ Stepped k a → InvariantHolds k }
    ensures closed { (j k : Joint) (w : ℕ) (a : Answer) → step j w event.Stop ≡ Stepped k a → Closed k }
{}

/// The record by which a start ends each put that had not ended may follow, where there is one; and it keeps files and dumps
/// at any time that isn't past.
pub fn restart_lands()
    ensures follows { (t : DaemonTables) → has_making t.inodes ≡ true
        → MayFollow t (record { time = t.time; step = record_step.Restart }) }
    ensures files { (t : DaemonTables) (contents : ByNumber (List ℕ)) (cap : ℕ) (time : Secs) → FilesKept t contents cap → t.time.0 ≤ time.0
        → FilesKept (after_record t (record { time = time; step = record_step.Restart })) contents cap }
    ensures dumps { (t : DaemonTables) (contents : ByNumber (List ℕ)) (cap : ℕ) (time : Secs) → FilesKept t contents cap → t.time.0 ≤ time.0
        → DumpsKept t.time.0 t.entries t.dumps
        → let u = after_record t (record { time = time; step = record_step.Restart }) in DumpsKept time.0 u.entries u.dumps }
{}

/// An opened state, in which a run begins, has all that is kept along a run. The state before the first event is opened, where
/// the configuration fits.
pub fn opened_kept()
    ensures kept { (j : Joint) → Opened j → InvariantHolds j }
    ensures first { (conf : DaemonConf) (groups : List GroupConf) → FirstConf conf groups → Opened (empty_joint conf groups) }
{}

/// There is an opened state with files of each form that a run may begin with, a young dump, two groups, and a volume that is
/// to be merged.
pub fn example_opened()
    ensures opened { Opened example }
    ensures groups { (map.get example.sides 1 ≡ Some first_side) × (map.get example.sides 2 ≡ Some second_side) }
    ensures files { (map.get example.daemon.tables.inodes 1 ≡ Some regular) × (map.get example.daemon.tables.inodes 2 ≡ Some dual)
        × (map.get example.daemon.tables.inodes 3 ≡ Some offline) }
    ensures dumped { (map.get example.daemon.tables.dumps dump_name ≡ Some dump) × (is_young example.daemon.tables.time.0 dump ≡ true) }
    ensures sparse { let x = first_side.group in is_sparse_in (usage_of x) x.conf.sparse x.tables first_vsn.0 first_volume ≡ true }
{}
