//! Numbered files, empty at first, and the disk that a crash may tear.
//!
//! Between two syncs of a file each written range, and the part past the old end, may hold any bytes; other
//! bytes stay. After a sync that succeeded a crash leaves what a read gives. The files are independent: a crash
//! may leave an image exactly where it may leave each file of it by itself, and a call on one file says that
//! nothing happened to the others.
//!
//! **What the disk tells is told by file.** A clause under `Tells` speaks of the file that the call is on, and only
//! where the device tells what that holds. A device may so keep the disk model for one file and not for another: a
//! file that isn't told may change by itself, and a crash may leave it as anything. Whether a file is told never
//! changes in a call. (docs/DEFINITIONS.md, "The storage device and faults".)
ghost use Rattle.std.specs.Prelude.{◌≡◌, ◌⊎◌, ◌+◌, ◌<◌, ◌≤◌, ◌^◌, ℕ, length, slice_index, IfOk, OnOk};
ghost use Rattle.dm_host.specs.Count.{HasCause};
ghost use Rattle.dm_host.specs.Disk.{Disk, Image, MayLeave, Only, Same, Tells, Torn, Written, part};
ghost use Rattle.dm_host.specs.Works.{Works, File, Follows};

use crate::Failed;

/// A storage device: files with the numbers 0 to 255. Each call but `faults` may fail, and is then counted once; a
/// call that doesn't fail leaves the count as it was.
pub trait Bay {
    /// What its files hold, and what a crash may leave of them.
    ghost disk: { Self → Disk };

    /// How often it has failed.
    ghost count: { Self → ℕ };

    /// The length of a file in bytes, at most 2^62. Where it fails nothing is changed.
    fn len(&mut self, file: u32) -> Result<u64, Failed>
        requires { file < 256 }
        ensures len { Tells (disk self.old) file → IfOk result (λ n. n ≡ length ((disk self.old).seen file)) }
        ensures limit { IfOk result (λ n. n ≤ 2 ^ 62) }
        ensures same { (disk self.new).seen file ≡ (disk self.old).seen file }
        ensures works { Works (File file) (disk self.old) (disk self.new) (Follows Same file (disk self.old)) }
        ensures cause { HasCause (count self.old) (count self.new) result };

    /// Fills `into` with the bytes from a place on, zeros past the end of the file. Where it fails `into` may hold any
    /// bytes.
    fn read(&mut self, file: u32, place: u64, into: &mut [u8]) -> Result<(), Failed>
        requires file { file < 256 }
        requires range { place + length into.old ≤ 2 ^ 63 }
        ensures bytes { Tells (disk self.old) file → OnOk result (into.new ≡ part ((disk self.old).seen file) place (length into.old)) }
        ensures same { (disk self.new).seen file ≡ (disk self.old).seen file }
        ensures works { Works (File file) (disk self.old) (disk self.new) (Follows Same file (disk self.old)) }
        ensures cause { HasCause (count self.old) (count self.new) result };

    /// Writes the bytes at a place. Where that is past the end, the gap may hold any bytes. A write that fails
    /// may have left any bytes in its range; one that would end past 2^62 fails. On a told file a write may begin
    /// past the end only where it ends within the first 67,108,864 bytes.
    fn write(&mut self, file: u32, place: u64, bytes: &[u8]) -> Result<(), Failed>
        requires file { file < 256 }
        requires reach { Tells (disk self.old) file → (place + length bytes.now ≤ 67108864) ⊎ (place ≤ length ((disk self.old).seen file)) }
        ensures written { Tells (disk self.old) file → OnOk result (Written place bytes.now ((disk self.old).seen file) ((disk self.new).seen file)) }
        ensures torn { Tells (disk self.old) file → Torn place (length bytes.now) ((disk self.old).seen file) ((disk self.new).seen file) }
        ensures limit { OnOk result (place + length bytes.now ≤ 2 ^ 62) }
        ensures works { Works (File file) (disk self.old) (disk self.new) (Follows (Torn place (length bytes.now)) file (disk self.old)) }
        ensures cause { HasCause (count self.old) (count self.new) result };

    /// Brings what was written to a file onto the disk: after it a crash leaves what a read gives. Where it fails,
    /// any part of what was written may be there.
    fn sync(&mut self, file: u32) -> Result<(), Failed>
        requires { file < 256 }
        ensures durable { Tells (disk self.old) file → OnOk result (Only ((disk self.old).seen file) ((disk self.new).may_leave file)) }
        ensures same { (disk self.new).seen file ≡ (disk self.old).seen file }
        ensures works { Works (File file) (disk self.old) (disk self.new) (Follows Same file (disk self.old)) }
        ensures cause { HasCause (count self.old) (count self.new) result };

    /// How often it has failed, up to the last value of a u64.
    fn faults(&self) -> u64
        ensures { result ≡ count self.now };

    /// This moment is one of those since an earlier one.
    ghost counts_now: { (bay : Self) (t : ℕ) (x : Image) → t ≤ (disk bay).moment → MayLeave (disk bay) x → (disk bay).left_since t x };

    /// Since this moment there is no other.
    ghost only_now: { (bay : Self) (x : Image) → (disk bay).left_since (disk bay).moment x → MayLeave (disk bay) x };

    /// A crash may leave each file as it is seen. So some image may always be left, and no device meets what is said
    /// of crashes by leaving nothing.
    ghost seen_may_stay: { (bay : Self) (g : ℕ) → (disk bay).may_leave g ((disk bay).seen g) };

    /// No told file is longer than 2^62 bytes.
    ghost bounded: { (bay : Self) (g : ℕ) → Tells (disk bay) g → length ((disk bay).seen g) ≤ 2 ^ 62 };
}

/// Writes the bytes at a place and syncs the file. At `Ok` they are on the disk; a failure of either call is the
/// answer, and the range may then hold any bytes.
pub fn write_synced<B: Bay>(bay: &mut B, file: u32, place: u64, bytes: &[u8]) -> Result<(), Failed>
    requires file { file < 256 }
    requires reach { Tells (B.disk bay.old) file → (place + length bytes.now ≤ 67108864) ⊎ (place ≤ length ((B.disk bay.old).seen file)) }
    ensures written { Tells (B.disk bay.old) file → OnOk result (Written place bytes.now ((B.disk bay.old).seen file) ((B.disk bay.new).seen file)) }
    ensures torn { Tells (B.disk bay.old) file → Torn place (length bytes.now) ((B.disk bay.old).seen file) ((B.disk bay.new).seen file) }
    ensures durable { Tells (B.disk bay.old) file → OnOk result (Only ((B.disk bay.new).seen file) ((B.disk bay.new).may_leave file)) }
    ensures limit { OnOk result (place + length bytes.now ≤ 2 ^ 62) }
    ensures works { Works (File file) (B.disk bay.old) (B.disk bay.new) (Follows (Torn place (length bytes.now)) file (B.disk bay.old)) }
    ensures cause { HasCause (B.count bay.old) (B.count bay.new) result }
{
    bay.write(file, place, bytes)?;
    bay.sync(file)
}

/// Syncs the file and reads the byte at a place, which is then on the disk; 0 past the end of the file.
pub fn read_synced<B: Bay>(bay: &mut B, file: u32, place: u64) -> Result<u8, Failed>
    requires file { file < 256 }
    requires range { place < 2 ^ 63 }
    ensures byte { Tells (B.disk bay.old) file → IfOk result (λ byte. byte ≡ slice_index ((B.disk bay.old).seen file) place) }
    ensures same { (B.disk bay.new).seen file ≡ (B.disk bay.old).seen file }
    ensures durable { Tells (B.disk bay.old) file → OnOk result (Only ((B.disk bay.new).seen file) ((B.disk bay.new).may_leave file)) }
    ensures works { Works (File file) (B.disk bay.old) (B.disk bay.new) (Follows Same file (B.disk bay.old)) }
    ensures cause { HasCause (B.count bay.old) (B.count bay.new) result }
{
    bay.sync(file)?;
    let mut byte = [0u8];
    bay.read(file, place, &mut byte)?;
    Ok(byte[0])
}
