//! Steps that are prepared.

ghost use Rattle.std.specs.Prelude.{◌≡◌};
ghost use Rattle.dm_durable.specs.declared.group.GroupStep.TheVariants as step;
ghost use Rattle.dm_group_tables.specs.declared.tables.Tables.{Tables};
ghost use Rattle.dm_group_tables.specs.Prepared.{IsReady, record_of};

use dm_base::{Bfid, Chunk, Secs, Vsn};
use dm_durable::{BitfileRow, VolumeRow};

/// A step that is prepared: it owns all that is needed to do it.
#[derive(Drop)]
pub struct Prepared {
    pub(crate) time: Secs,
    pub(crate) step: Step,
}

// Steps that need no memory. Each is ready for any tables.
impl Prepared {
    /// The bitfile is gone.
    pub fn delete(time: Secs, bfid: Bfid) -> Prepared
        ensures step { record_of result ≡ record { time = time; step = step.Delete bfid } }
        ensures ready { (m : Tables) → IsReady m result }
    {
        Prepared {
            time,
            step: Step::Delete { bfid },
        }
    }

    /// The volume waits to be used anew.
    pub fn free(time: Secs, vsn: Vsn) -> Prepared
        ensures step { record_of result ≡ record { time = time; step = step.Free vsn } }
        ensures ready { (m : Tables) → IsReady m result }
    {
        Prepared {
            time,
            step: Step::Free { vsn },
        }
    }

    /// The volume is empty, labelled with this epoch and version.
    pub fn reuse(time: Secs, vsn: Vsn, epoch: u64, version: u8) -> Prepared
        ensures step { record_of result ≡ record { time = time; step = step.Reuse vsn epoch version } }
        ensures ready { (m : Tables) → IsReady m result }
    {
        Prepared {
            time,
            step: Step::Reuse {
                vsn,
                epoch,
                version,
            },
        }
    }
}

// What a step needs beside its record's fields: rows that are put in as it is applied.
#[derive(Drop)]
pub(crate) enum Step {
    Volume {
        row: Box<(Vsn, VolumeRow)>,
        slot: u8,
        version: u8,
        size: u64,
    },
    Commit {
        row: Box<(u128, BitfileRow)>,
    },
    Delete {
        bfid: Bfid,
    },
    Move {
        bfid: Bfid,
        from: Chunk,
        to: Chunk,
    },
    Free {
        vsn: Vsn,
    },
    Reuse {
        vsn: Vsn,
        epoch: u64,
        version: u8,
    },
}
