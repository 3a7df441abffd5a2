//! A bay over memory, whose faults and rotting bytes are chosen by the numbers of its calls.
//!
//! It keeps the files as they are, and a log of its calls: of each write what that overwrote, of each sync the
//! file. What a crash may leave now, or might have left at an earlier moment, follows from the two, for each file
//! that no entry of `rot` names. Those it tells; of the others its own clauses say what they hold (`held`).
ghost use Rattle.std.specs.Prelude.{◌≤◌, ◌^◌, ℕ, length};
ghost use Rattle.dm_host.specs.Past.{contents};

use crate::change::{Change, note, put_front};
use crate::faults::{answer, begin, fails, front_of};
use crate::files::{bytes_of, read_part, set_byte};
use crate::rot::rot_all;
use crate::{Bay, Failed};
use std::alloc::Global;

/// Numbered files in memory. Each call but `faults` has a number, the first 1, and counts up to the last value of
/// a u64. A write that is chosen to fail has written the first half of its bytes, rounded down; any other call
/// that fails does nothing, also one that memory is refused to. (docs/DEFINITIONS.md, "The storage device and
/// faults".)
#[derive(Drop)]
pub struct MemBay {
    /// The numbers of the calls that fail.
    pub fail: Vec<u64>,
    /// After so many calls each call fails.
    pub fuse: Option<u64>,
    /// Number of a call, file, place, byte: before that call, also one that fails, the byte at that place of the
    /// file gets that value, if the file has such a place. A file that is named here isn't told.
    pub rot: Vec<(u64, u32, u64, u8)>,
    alloc: Global,
    files: Vec<Vec<u8>>,
    log: Vec<Change>,
    calls: u64,
    count: u64,
    ghost bounded: { (g : ℕ) → length (contents files.items g) ≤ 2 ^ 62 },
}

impl MemBay {
    ghost use Rattle.std.specs.Prelude.{◌≡◌, ◌≢◌, ◌<◌, [], None, slice_set};
    ghost use Rattle.dm_host.specs.Disk.{Only, Same, Tells};
    ghost use Rattle.dm_host.specs.MemoryBay.{disk_of, held, next_held, Goes, Stands};
    ghost use Rattle.dm_host.specs.Works.{Works, File, Follows, Stays};

    /// A bay of empty files with no fault and no rot to come. It takes no memory.
    pub fn empty(alloc: Global) -> MemBay
        ensures told { (g : ℕ) → Tells (disk_of result) g }
        ensures held { (g : ℕ) → held result g ≡ [] }
        ensures seen { (g : ℕ) → (disk_of result).seen g ≡ [] }
        ensures leaves { (g : ℕ) → Only [] ((disk_of result).may_leave g) }
        ensures count { result.count ≡ 0 }
        ensures calls { result.calls ≡ 0 }
        ensures fail { result.fail.items ≡ [] }
        ensures fuse { result.fuse ≡ None }
        ensures rot { result.rot.items ≡ [] }
    {
        MemBay {
            fail: Vec::new(alloc),
            fuse: None,
            rot: Vec::new(alloc),
            alloc,
            files: Vec::new(alloc),
            log: Vec::new(alloc),
            calls: 0,
            count: 0,
        }
    }

    /// What a file holds, told or not. This is no call of the bay.
    pub fn bytes(&self, file: u32) -> &[u8]
        ensures held { result.now ≡ held self.now file }
        ensures seen { Tells (disk_of self.now) file → result.now ≡ (disk_of self.now).seen file }
    {
        bytes_of(&self.files, file as usize)
    }

    // Counts a call, and lets rot what the entries for it name.
    fn begin_call(&mut self)
        ensures held { held self.new ≡ next_held self.old }
        ensures seen { (disk_of self.new).seen ≡ (disk_of self.old).seen }
        ensures leaves { (g : ℕ) → Stays g (disk_of self.old) (disk_of self.new) }
        ensures works { (file : ℕ) → Works (File file) (disk_of self.old) (disk_of self.new) (Follows Same file (disk_of self.old)) }
        ensures log { self.new.log.items ≡ self.old.log.items }
        ensures count { self.new.count ≡ self.old.count }
        ensures goes { Goes self.old self.new }
    {
        self.calls = self.calls.saturating_add(1);
        rot_all(&mut self.files, &self.rot, self.calls);
    }

    /// Sets a byte, also on the disk. This is no call of the bay: the log of its calls stays, so a crash may leave
    /// what they allow of the file with that byte, and nothing happens to the other files.
    pub fn set(&mut self, file: u32, place: u64, byte: u8)
        requires { place < length (held self.old file) }
        ensures byte { held self.new file ≡ slice_set (held self.old file) place byte }
        ensures others { (g : ℕ) → g ≢ file → held self.new g ≡ held self.old g }
        ensures stays { (g : ℕ) → g ≢ file → Stays g (disk_of self.old) (disk_of self.new) }
        ensures stands { Stands self.old self.new }
    {
        set_byte(&mut self.files, file as usize, place as usize, byte);
    }
}

impl Bay for MemBay {
    ghost use Rattle.std.specs.Prelude.{◌≡◌, ◌⊎◌, ◌↔◌, ◌+◌, ◌/◌, ◌<◌, take, reverse, IfOk, OnErr, OnOk, IsErr, IsTrue};
    ghost use Rattle.dm_host.specs.Count.{HasCause};
    ghost use Rattle.dm_host.specs.Disk.{Only, Same, Tells, Torn, Written, part};
    ghost use Rattle.dm_host.specs.MemoryBay.{disk_of, fails_next, held, next_held, Goes, Untouched};
    ghost use Rattle.dm_host.specs.Past.{now_alone, now_counts, shown_may_stay, shown_bounded};
    ghost use Rattle.dm_host.specs.Rot.{is_unnamed};
    ghost use Rattle.dm_host.specs.Works.{Works, File, Follows};

    ghost disk = { disk_of };

    ghost count = { λ m. m.count };

    ghost counts_now = { λ m t x le now. now_counts (is_unnamed m.rot.items) (reverse m.log.items) (contents m.files.items) t x now };

    ghost only_now = { λ m x left. now_alone (is_unnamed m.rot.items) (reverse m.log.items) (contents m.files.items) x left };

    ghost seen_may_stay = { λ m g. shown_may_stay (is_unnamed m.rot.items) (reverse m.log.items) (contents m.files.items) g };

    ghost bounded = { λ m g told. shown_bounded (is_unnamed m.rot.items) (contents m.files.items) g told (m.bounded g) };

    fn len(&mut self, file: u32) -> Result<u64, Failed>
        requires { file < 256 }
        ensures len { Tells (disk_of self.old) file → IfOk result (λ n. n ≡ length ((disk_of self.old).seen file)) }
        ensures held { IfOk result (λ n. n ≡ length (held self.new file)) }
        ensures limit { IfOk result (λ n. n ≤ 2 ^ 62) }
        ensures same { (disk_of self.new).seen file ≡ (disk_of self.old).seen file }
        ensures works { Works (File file) (disk_of self.old) (disk_of self.new) (Follows Same file (disk_of self.old)) }
        ensures cause { HasCause self.old.count self.new.count result }
        ensures fails { IsErr result ↔ IsTrue (fails_next self.old) }
        ensures untouched { Untouched self.old self.new }
        ensures goes { Goes self.old self.new }
    {
        self.begin_call();
        begin(self.calls, &mut self.count, &self.fail, self.fuse)?;
        Ok(bytes_of(&self.files, file as usize).len() as u64)
    }

    fn read(&mut self, file: u32, place: u64, into: &mut [u8]) -> Result<(), Failed>
        requires file { file < 256 }
        requires range { place + length into.old ≤ 2 ^ 63 }
        ensures bytes { Tells (disk_of self.old) file → OnOk result (into.new ≡ part ((disk_of self.old).seen file) place (length into.old)) }
        ensures held { OnOk result (into.new ≡ part (held self.new file) place (length into.old)) }
        ensures same { (disk_of self.new).seen file ≡ (disk_of self.old).seen file }
        ensures works { Works (File file) (disk_of self.old) (disk_of self.new) (Follows Same file (disk_of self.old)) }
        ensures cause { HasCause self.old.count self.new.count result }
        ensures fails { IsErr result ↔ IsTrue (fails_next self.old) }
        ensures untouched { Untouched self.old self.new }
        ensures goes { Goes self.old self.new }
    {
        self.begin_call();
        begin(self.calls, &mut self.count, &self.fail, self.fuse)?;
        read_part(bytes_of(&self.files, file as usize), place, into);
        Ok(())
    }

    fn write(&mut self, file: u32, place: u64, bytes: &[u8]) -> Result<(), Failed>
        requires file { file < 256 }
        requires reach { Tells (disk_of self.old) file → (place + length bytes.now ≤ 67108864) ⊎ (place ≤ length ((disk_of self.old).seen file)) }
        ensures written { Tells (disk_of self.old) file → OnOk result (Written place bytes.now ((disk_of self.old).seen file) ((disk_of self.new).seen file)) }
        ensures torn { Tells (disk_of self.old) file → Torn place (length bytes.now) ((disk_of self.old).seen file) ((disk_of self.new).seen file) }
        ensures held { OnOk result (Written place bytes.now (next_held self.old file) (held self.new file)) }
        ensures limit { OnOk result (place + length bytes.now ≤ 2 ^ 62) }
        ensures works { Works (File file) (disk_of self.old) (disk_of self.new) (Follows (Torn place (length bytes.now)) file (disk_of self.old)) }
        ensures cause { HasCause self.old.count self.new.count result }
        ensures fails { IsTrue (fails_next self.old) → IsErr result }
        // It has written the first half, or memory was refused to that too, or it would end past the limit.
        ensures half { IsTrue (fails_next self.old)
            → Written place (take (length bytes.now / 2) bytes.now) (next_held self.old file) (held self.new file)
            ⊎ Untouched self.old self.new }
        ensures untouched { OnErr result (IsTrue (fails_next self.old) ⊎ Untouched self.old self.new) }
        ensures goes { Goes self.old self.new }
    {
        self.begin_call();
        let failing = fails(&self.fail, self.fuse, self.calls);
        let n = front_of(failing, bytes.len());
        let put = put_front(
            self.alloc,
            &mut self.files,
            &mut self.log,
            file,
            place,
            bytes,
            n,
        );
        answer(failing, put, &mut self.count)
    }

    fn sync(&mut self, file: u32) -> Result<(), Failed>
        requires { file < 256 }
        ensures durable { Tells (disk_of self.old) file → OnOk result (Only ((disk_of self.old).seen file) ((disk_of self.new).may_leave file)) }
        ensures same { (disk_of self.new).seen file ≡ (disk_of self.old).seen file }
        ensures works { Works (File file) (disk_of self.old) (disk_of self.new) (Follows Same file (disk_of self.old)) }
        ensures cause { HasCause self.old.count self.new.count result }
        ensures fails { IsTrue (fails_next self.old) → IsErr result }
        ensures held { held self.new ≡ next_held self.old }
        ensures untouched { OnErr result (Untouched self.old self.new) }
        ensures goes { Goes self.old self.new }
    {
        self.begin_call();
        begin(self.calls, &mut self.count, &self.fail, self.fuse)?;
        if self.log.reserve(1).is_err() {
            self.count = self.count.saturating_add(1);
            return Err(Failed);
        }
        note(&mut self.log, Change::Synced { file });
        Ok(())
    }

    fn faults(&self) -> u64 {
        self.count
    }
}
