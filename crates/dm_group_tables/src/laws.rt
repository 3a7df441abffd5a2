//! What callers need to know of the definitions.

ghost use Rattle.dm_durable.specs.declared.group.GroupStep.{GroupStep};
ghost use Rattle.dm_durable.specs.declared.group.GroupTables.{GroupTables};
ghost use Rattle.dm_durable.specs.GroupConditions.{MayGroupStep};
ghost use Rattle.dm_group_tables.specs.Prepared.{KeepsWhole};

/// A step that may follow keeps each bitfile whole, as `Tables::prepare` wants it (docs/DEFINITIONS.md, "A group's tables
/// in memory").
pub fn steps_that_may_follow_keep_bitfiles_whole()
    ensures { (t : GroupTables) (s : GroupStep) → MayGroupStep t s → KeepsWhole t.bitfiles s }
{}
