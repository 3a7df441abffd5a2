//! Steps that are prepared.

ghost use Rattle.std.specs.Prelude.{◌≡◌};
ghost use Rattle.dm_durable.specs.declared.daemon.DaemonStep.TheVariants as step;
ghost use Rattle.dm_daemon_tables.specs.declared.tables.Tables.{Tables};
ghost use Rattle.dm_daemon_tables.specs.Prepared.{IsReady, record_of};

use crate::short_text::ShortText;
use dm_base::{Bfid, Bytes, DumpName, GroupId, Ino, Listed, Path, Secs};
use dm_dumps::KeptDump;
use dm_durable::{Entry, Inode};

/// A step that is prepared: it owns all that is needed to do it.
#[derive(Drop)]
pub struct Prepared {
    pub(crate) time: Secs,
    pub(crate) step: Step,
}

// Steps that need no memory. Each is ready for any tables.
impl Prepared {
    /// The file is gone.
    pub fn remove(time: Secs, path: &Path, change: u64) -> Prepared
        ensures step { record_of result ≡ record { time = time; step = step.Remove path.now change } }
        ensures ready { (m : Tables) → IsReady m result }
    {
        Prepared {
            time,
            step: Step::Remove {
                path: ShortText::of(path.bytes()),
                change,
            },
        }
    }

    /// The group has stored its copy.
    pub fn stored(time: Secs, bfid: Bfid, group: GroupId) -> Prepared
        ensures step { record_of result ≡ record { time = time; step = step.Stored bfid group } }
        ensures ready { (m : Tables) → IsReady m result }
    {
        Prepared {
            time,
            step: Step::Stored { bfid, group },
        }
    }

    /// The put of the inode ends: with every copy stored, or not.
    pub fn end_put(time: Secs, ino: Ino, bfid: Bfid, dual: bool) -> Prepared
        ensures step { record_of result ≡ record { time = time; step = step.EndPut ino bfid dual } }
        ensures ready { (m : Tables) → IsReady m result }
    {
        Prepared {
            time,
            step: Step::EndPut { ino, bfid, dual },
        }
    }

    /// The bytes of the file leave the disk.
    pub fn release(time: Secs, path: &Path) -> Prepared
        ensures step { record_of result ≡ record { time = time; step = step.Release path.now } }
        ensures ready { (m : Tables) → IsReady m result }
    {
        Prepared {
            time,
            step: Step::Release {
                path: ShortText::of(path.bytes()),
            },
        }
    }

    /// The bytes of the inode were recalled.
    pub fn taken(time: Secs, ino: Ino, bytes: Bytes) -> Prepared
        ensures step { record_of result ≡ record { time = time; step = step.Taken ino bytes } }
        ensures ready { (m : Tables) → IsReady m result }
    {
        Prepared {
            time,
            step: Step::Taken { ino, bytes },
        }
    }

    /// The dump is gone.
    pub fn undump(time: Secs, name: &DumpName) -> Prepared
        ensures step { record_of result ≡ record { time = time; step = step.Undump name.now } }
        ensures ready { (m : Tables) → IsReady m result }
    {
        Prepared {
            time,
            step: Step::Undump {
                name: ShortText::of(name.bytes()),
            },
        }
    }

    /// The copies of these bitfiles are being deleted from now on.
    pub fn hard_delete(time: Secs, bfids: Listed<Bfid>) -> Prepared
        ensures step { record_of result ≡ record { time = time; step = step.HardDelete bfids } }
        ensures ready { (m : Tables) → IsReady m result }
    {
        Prepared {
            time,
            step: Step::HardDelete { bfids },
        }
    }

    /// The copies of the bitfile are deleted: its entry is gone.
    pub fn dropped(time: Secs, bfid: Bfid) -> Prepared
        ensures step { record_of result ≡ record { time = time; step = step.Dropped bfid } }
        ensures ready { (m : Tables) → IsReady m result }
    {
        Prepared {
            time,
            step: Step::Dropped { bfid },
        }
    }

    /// The age in force is this.
    pub fn age(time: Secs, age: u64) -> Prepared
        ensures step { record_of result ≡ record { time = time; step = step.Age age } }
        ensures ready { (m : Tables) → IsReady m result }
    {
        Prepared {
            time,
            step: Step::Age { age },
        }
    }

    /// The program begins anew.
    pub fn restart(time: Secs) -> Prepared
        ensures step { record_of result ≡ record { time = time; step = step.Restart } }
        ensures ready { (m : Tables) → IsReady m result }
    {
        Prepared {
            time,
            step: Step::Restart,
        }
    }
}

// What a step needs beside its record's fields: rows that are filled as it is applied.
#[derive(Drop)]
pub(crate) enum Step {
    Write {
        name: Box<(Path, Ino)>,
        change: u64,
        bytes: Bytes,
        inode: Box<(u128, Inode)>,
    },
    Remove {
        path: ShortText,
        change: u64,
    },
    BeginPut {
        path: ShortText,
        bfid: Bfid,
        groups: Listed<GroupId>,
        entry: Box<(u128, Entry)>,
        count: Box<(u128, u64)>,
    },
    Stored {
        bfid: Bfid,
        group: GroupId,
    },
    EndPut {
        ino: Ino,
        bfid: Bfid,
        dual: bool,
    },
    Release {
        path: ShortText,
    },
    Taken {
        ino: Ino,
        bytes: Bytes,
    },
    // The dump is made already, of the files as they are.
    Dump {
        row: Box<(DumpName, KeptDump)>,
    },
    Undump {
        name: ShortText,
    },
    // The inode, where the dump has such a file.
    Restore {
        name: ShortText,
        path: ShortText,
        target: Box<(Path, Ino)>,
        change: u64,
        inode: Option<Box<(u128, Inode)>>,
        count: Box<(u128, u64)>,
    },
    HardDelete {
        bfids: Listed<Bfid>,
    },
    Dropped {
        bfid: Bfid,
    },
    Restart,
    Age {
        age: u64,
    },
}
