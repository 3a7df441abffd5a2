//! What is done to a plain namespace.

use dm_base::{Bytes, DumpName, Path, Secs};

/// A change of the files, of the dumps, of the age or of the time. One whose file or dump isn't there changes
/// nothing.
#[derive(Drop)]
pub enum PlainStep {
    /// Makes the file, or replaces all its bytes.
    Write {
        path: Path,
        bytes: Bytes,
    },
    /// Replaces the range of the file that begins at `offset`. The file grows where the range ends
    /// past its end, and zeros fill what gap there is in front of the range.
    Patch {
        path: Path,
        offset: u64,
        bytes: Bytes,
    },
    /// Takes the file out.
    Remove {
        path: Path,
    },
    /// Keeps a copy of all files, made now under the age in force, in place of a dump that has the name.
    Dump {
        name: DumpName,
    },
    /// Drops the dump.
    Undump {
        name: DumpName,
    },
    /// Copies the dump's file of `path` to `target`, in place of a file that is there.
    Restore {
        name: DumpName,
        path: Path,
        target: Path,
    },
    /// Sets the age in force, in seconds, and lowers to it the least age of each dump where that is greater.
    Age {
        age: u64,
    },
    /// Sets the time.
    Time {
        now: Secs,
    },
}
