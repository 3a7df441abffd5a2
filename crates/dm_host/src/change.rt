//! The log of a bay over memory: what each call changed.
ghost use Rattle.std.specs.Prelude.{◌≡◌, ◌+◌, ◌<◌, ◌≤◌, ◌^◌, ◌↔◌, ◌∷◌, ℕ, Bool, length, take, reverse, vec_len, vec_capacity, OnOk, OnErr, IsTrue};
ghost use Rattle.dm_host.specs.Disk.{Torn, Written};
ghost use Rattle.dm_host.specs.Past.{contents, disk_from, Puts};
ghost use Rattle.dm_host.specs.Works.{Works, File, Follows};

use crate::Failed;
use crate::files::{bytes_of, copy_range, grow_to, write_into};
use std::alloc::{AllocError, Global};

// The greatest end of a write.
const LIMIT: u64 = 1 << 62;

#[derive(Drop)]
pub enum Change {
    /// A write of `len` bytes at a place: the length of the file before, and the bytes that were overwritten.
    Wrote {
        file: u32,
        place: u64,
        len: u64,
        end: u64,
        before: Vec<u8>,
    },
    Synced {
        file: u32,
    },
}

// Notes a change, for which there is room.
pub fn note(log: &mut Vec<Change>, change: Change)
    requires { vec_len log.old < vec_capacity log.old }
    ensures { reverse log.new.items ≡ change ∷ reverse log.old.items }
{
    let _ = log.push(change);
}

// Writes the bytes, and notes what they overwrote. Where memory is refused, all stays.
fn put(
    alloc: Global,
    files: &mut Vec<Vec<u8>>,
    log: &mut Vec<Change>,
    file: u32,
    place: u64,
    bytes: &[u8],
) -> Result<(), AllocError>
    requires { place + length bytes.now ≤ 2 ^ 62 }
    ensures ok { OnOk result (Puts file place bytes.now (reverse log.old.items) (contents files.old.items) (reverse log.new.items) (contents files.new.items)) }
    ensures files { OnErr result (contents files.new.items ≡ contents files.old.items) }
    ensures log { OnErr result (log.new.items ≡ log.old.items) }
{
    let number = file as usize;
    let at = place as usize;
    let old = bytes_of(files, number);
    let end = old.len() as u64;
    let before = copy_range(alloc, old, at, bytes.len())?;
    log.reserve(1)?;
    grow_to(alloc, files, number)?;
    write_into(files, number, at, bytes)?;
    let len = bytes.len() as u64;
    note(
        log,
        Change::Wrote {
            file,
            place,
            len,
            end,
            before,
        },
    );
    Ok(())
}

fn ends_within(place: u64, n: usize) -> bool
    ensures { IsTrue result ↔ place + n ≤ 2 ^ 62 }
{
    place <= LIMIT && n as u64 <= LIMIT - place
}

// Writes the first n of the bytes, if all of them end within the limit.
pub fn put_front(
    alloc: Global,
    files: &mut Vec<Vec<u8>>,
    log: &mut Vec<Change>,
    file: u32,
    place: u64,
    bytes: &[u8],
    n: usize,
) -> Result<(), Failed>
    requires { n ≤ length bytes.now }
    ensures written { OnOk result (Written place (take n bytes.now) (contents files.old.items file) (contents files.new.items file)) }
    ensures files { OnErr result (contents files.new.items ≡ contents files.old.items) }
    ensures log { OnErr result (log.new.items ≡ log.old.items) }
    ensures torn { Torn place (length bytes.now) (contents files.old.items file) (contents files.new.items file) }
    ensures limit { OnOk result (place + length bytes.now ≤ 2 ^ 62) }
    ensures bounded { ((g : ℕ) → length (contents files.old.items g) ≤ 2 ^ 62) → (g : ℕ) → length (contents files.new.items g) ≤ 2 ^ 62 }
    ensures works { (told : ℕ → Bool) → Works (File file) (disk_from told (reverse log.old.items) (contents files.old.items)) (disk_from told (reverse log.new.items) (contents files.new.items))
        (Follows (Torn place (length bytes.now)) file (disk_from told (reverse log.old.items) (contents files.old.items))) }
{
    if !ends_within(place, bytes.len()) {
        return Err(Failed);
    }
    match put(alloc, files, log, file, place, &bytes[..n]) {
        Ok(()) => Ok(()),
        Err(_) => Err(Failed),
    }
}
