//! The files of a session, and the volume that holds the bytes of the offline ones.
//!
//! The volume is one file of the storage device: a label, and zones from place 64 on. `tip` is where the
//! next zone goes. It moves past a zone whether or not its write succeeded, so that no two zones overlap.

ghost use Rattle.std.specs.Prelude.{◌≡◌, ◌≢◌, ◌+◌, ◌*◌, ◌^◌, ◌≤◌, ◌<◌, ℕ, List, Some, None, [], length, drop, IsTrue, OnOk, OnErr, IfOk, IfErr};
ghost use Rattle.dm_host.specs.Count.{HasCause, Rose};
ghost use Rattle.dm_host.specs.Disk.{part, Tells, Torn, Written};
ghost use Rattle.dm_plain.specs.Namespace.{Namespace, bytes_of};
ghost use Rattle.dm_site.specs.Files.{end_of, file_in};
ghost use Rattle.dm_site.specs.Zones.{IsZone, IsCopy};

use crate::file::{File, Form, set_file, set_form};
use dm_base::{
    Bfid, Bytes, Command, CopyFault, FILE_LIMIT, FileState, GroupId, NUMBER_LIMIT, NoMemory, Path,
    Reply, Vsn,
};
use dm_host::{Bay, Failed, write_synced};
use dm_proto::Heard;
use dm_zone::{encode_zone, label, room};
use std::alloc::Global;
use std::collections::BTreeMap;

// The one volume: its serial number, its group, the device's file of its image, its version, its size and
// the epoch of its label.
const VOLUME: &[u8; 6] = b"AA0001";

const GROUP: GroupId = GroupId(1);

const VOLUME_FILE: u32 = 16;

const VERSION: u8 = 1;

const VOLUME_SIZE: u64 = 424;

const EPOCH: u64 = 1;

/// The number of the site.
const SITE: u64 = 1;

/// The most bytes of a chunk. A zone of one chunk has 80 bytes before the chunk's bytes.
const CHUNK_SIZE: u64 = 1000;

const ZONE_FRONT: u64 = 80;

/// Where zones begin on a volume, behind the label.
const LABEL_END: u64 = 64;

/// The files by path, and the numbers that are given next.
#[derive(Drop)]
pub(crate) struct Archive {
    files: BTreeMap<Path, File>,
    last_change: u64,
    next_counter: u64,
    tip: u64,
    ghost changes: { last_change ≤ 9223372036854775807 },
    ghost counters: { next_counter ≤ 9223372036854775808 },
    ghost after_label: { 64 ≤ tip },
    ghost within: { tip ≤ 424 },
    ghost placed: { (path : List ℕ) → end_of (file_in files path) ≤ 1024 },
}

impl Archive {
    ghost use Rattle.dm_site.specs.declared.file.Form.TheVariants.{Regular};
    ghost use Rattle.dm_site.specs.State.{state_of, beginning, Agrees};
    ghost use Rattle.dm_site.specs.Rules.{Step, Writes, Puts, Reads, MayBePut, CanStore, IsContent};
    ghost use Rattle.dm_site.specs.Session.{Counts, ReadIs, plain_step};

    /// Begins with no file, and writes the volume's label.
    pub(crate) fn open<B: Bay>(alloc: Global, bay: &mut B) -> Result<Archive, Failed>
        ensures ok { IfOk result (λ archive. state_of archive ≡ beginning) }
        ensures told { (B.disk bay.new).told ≡ (B.disk bay.old).told }
        ensures cause { HasCause (B.count bay.old) (B.count bay.new) result }
    {
        let label = label(VOLUME, GROUP, VERSION, EPOCH, VOLUME_SIZE);
        write_synced(bay, VOLUME_FILE, 0, &label)?;
        Ok(Archive {
            files: BTreeMap::new(alloc),
            last_change: 0,
            next_counter: 1,
            tip: LABEL_END,
        })
    }

    /// No file, and numbers that are given next.
    #[cfg(test)]
    pub(crate) fn numbered(alloc: Global, last_change: u64, next_counter: u64) -> Archive
        requires change { last_change ≤ 9223372036854775807 }
        requires counter { next_counter ≤ 9223372036854775808 }
    {
        Archive {
            files: BTreeMap::new(alloc),
            last_change,
            next_counter,
            tip: LABEL_END,
        }
    }

    /// Does what was heard, and answers it.
    pub(crate) fn answer<B: Bay>(&mut self, alloc: Global, bay: &mut B, heard: Heard) -> Reply
        ensures step { (faults : ℕ) × Step (state_of self.old) heard faults result (state_of self.new) × Counts faults (B.count bay.old) (B.count bay.new) }
        ensures told { (B.disk bay.new).told ≡ (B.disk bay.old).told }
        ensures agrees { Tells (B.disk bay.old) 16 → (plain : Namespace) → Agrees plain (state_of self.old) ((B.disk bay.old).seen 16)
            → Agrees (plain_step plain heard result) (state_of self.new) ((B.disk bay.new).seen 16) × ReadIs plain heard result }
    {
        match heard {
            Heard::Command(Command::Write { path, bytes }) => self.write(path, bytes),
            Heard::Command(Command::LongWrite { .. }) => Reply::Limit { limit: FILE_LIMIT },
            Heard::Command(Command::PutRelease { path }) => self.put_release(alloc, bay, &path),
            Heard::Command(Command::Read { path }) => self.read(alloc, bay, &path),
            // What isn't done yet. What a command brings was heard with it, so nothing of it is left to be
            // read as lines.
            Heard::Command(Command::Patch { .. }) => Reply::Syntax,
            Heard::Command(Command::LongPatch { .. }) => Reply::Syntax,
            Heard::Command(Command::Put { .. }) => Reply::Syntax,
            Heard::Command(Command::Get { .. }) => Reply::Syntax,
            Heard::Command(Command::Release { .. }) => Reply::Syntax,
            Heard::Command(Command::Remove { .. }) => Reply::Syntax,
            Heard::Command(Command::List) => Reply::Syntax,
            Heard::Command(Command::Attr { .. }) => Reply::Syntax,
            Heard::Command(Command::Dump { .. }) => Reply::Syntax,
            Heard::Command(Command::Undump { .. }) => Reply::Syntax,
            Heard::Command(Command::Restore { .. }) => Reply::Syntax,
            Heard::Command(Command::HardDelete) => Reply::Syntax,
            Heard::Command(Command::Age { .. }) => Reply::Syntax,
            Heard::Command(Command::Merge { .. }) => Reply::Syntax,
            Heard::Command(Command::Reuse { .. }) => Reply::Syntax,
            Heard::Command(Command::Volumes { .. }) => Reply::Syntax,
            Heard::Command(Command::Space) => Reply::Syntax,
            Heard::Command(Command::Move { .. }) => Reply::Syntax,
            Heard::Command(Command::Snap { .. }) => Reply::Syntax,
            Heard::Command(Command::Unsnap { .. }) => Reply::Syntax,
            Heard::Command(Command::Salvage { .. }) => Reply::Syntax,
            Heard::Command(Command::Audit) => Reply::Syntax,
            Heard::Command(Command::AuditDeep) => Reply::Syntax,
            Heard::Command(Command::Quit) => Reply::Syntax,
            Heard::Command(Command::Shutdown) => Reply::Syntax,
            Heard::Syntax => Reply::Syntax,
        }
    }

    /// Makes the file, or replaces all its bytes. For want of memory everything stays as it was.
    pub(crate) fn write(&mut self, path: Path, bytes: Bytes) -> Reply
        ensures { Writes (state_of self.old) path bytes 0 result (state_of self.new) }
    {
        if self.last_change == NUMBER_LIMIT {
            return Reply::Limit {
                limit: NUMBER_LIMIT,
            };
        }
        let change = self.last_change + 1;
        let form = Form::Regular(bytes);
        match set_file(&mut self.files, path, File { change, form }) {
            Ok(()) => {
                self.last_change = change;
                Reply::Changed { change }
            }
            Err(NoMemory) => Reply::NoMemory,
        }
    }

    /// Stores the file's bytes in a zone at the tip, and releases them.
    pub(crate) fn put_release<B: Bay>(&mut self, alloc: Global, bay: &mut B, path: &Path) -> Reply
        ensures step { (faults : ℕ) × Puts (state_of self.old) path.now faults result (state_of self.new) × Counts faults (B.count bay.old) (B.count bay.new) }
        ensures told { (B.disk bay.new).told ≡ (B.disk bay.old).told }
        ensures agrees { Tells (B.disk bay.old) 16 → (plain : Namespace) → Agrees plain (state_of self.old) ((B.disk bay.old).seen 16)
            → Agrees plain (state_of self.new) ((B.disk bay.new).seen 16) }
    {
        let bytes = match self.regular(path) {
            Ok(bytes) => bytes,
            Err(refusal) => return refusal,
        };
        if self.next_counter > NUMBER_LIMIT {
            return Reply::Limit {
                limit: NUMBER_LIMIT,
            };
        }
        let need = bytes.len() as u64;
        let have = room(VERSION, VOLUME_SIZE, self.tip, CHUNK_SIZE);
        if have < need {
            self.next_counter += 1;
            return Reply::NoRoom { have, need };
        }
        let bfid = Bfid::of(SITE, self.next_counter);
        match zone_of(alloc, bfid, bytes.as_slice()) {
            Ok(zone) => self.store(bay, path, need, bfid, zone.as_slice()),
            Err(NoMemory) => Reply::NoMemory,
        }
    }

    /// The bytes of a file that is regular; else why it isn't put.
    fn regular(&self, path: &Path) -> Result<&Bytes, Reply>
        ensures ok { IfOk result (λ bytes. (change : ℕ) × (file_in self.now.files path.now ≡ Some (record { change = change; form = Regular bytes.now }))) }
        ensures err { IfErr result (λ refusal. Puts (state_of self.now) path.now 0 refusal (state_of self.now)) }
    {
        match self.files.get(path) {
            None => Err(Reply::NoFile),
            Some(file) => match &file.form {
                Form::Regular(bytes) => Ok(bytes),
                Form::Dual { .. } => Err(Reply::WrongState {
                    found: FileState::Dual,
                }),
                Form::Offline { .. } => Err(Reply::WrongState {
                    found: FileState::Offline,
                }),
            },
        }
    }

    /// Writes the zone, if there is one, and makes the file offline.
    fn store<B: Bay>(
        &mut self,
        bay: &mut B,
        path: &Path,
        len: u64,
        bfid: Bfid,
        zone: &[u8],
    ) -> Reply
        requires unused { self.old.next_counter ≤ 9223372036854775807 }
        requires fits { self.old.tip + length zone.now ≤ 424 }
        requires small { len ≤ 424 }
        ensures step { (bytes : List ℕ) (change : ℕ) → MayBePut (state_of self.old) path.now bytes change → CanStore self.old.tip bytes zone.now len bfid self.old.next_counter
            → (faults : ℕ) × Puts (state_of self.old) path.now faults result (state_of self.new) × Counts faults (B.count bay.old) (B.count bay.new) }
        ensures told { (B.disk bay.new).told ≡ (B.disk bay.old).told }
        ensures agrees { (bytes : List ℕ) (change : ℕ) → MayBePut (state_of self.old) path.now bytes change → CanStore self.old.tip bytes zone.now len bfid self.old.next_counter
            → Tells (B.disk bay.old) 16 → (plain : Namespace) → Agrees plain (state_of self.old) ((B.disk bay.old).seen 16)
            → Agrees plain (state_of self.new) ((B.disk bay.new).seen 16) }
    {
        let tip = self.tip;
        self.next_counter += 1;
        self.tip += zone.len() as u64;
        if let Err(Failed) = write_zone(bay, tip, zone) {
            return Reply::GroupFault { group: GROUP };
        }
        let place = tip + ZONE_FRONT;
        set_form(&mut self.files, path, Form::Offline { len, bfid, place });
        Reply::Stored { bfid }
    }

    /// Reads a file's bytes, recalled first where they are on the volume alone.
    pub(crate) fn read<B: Bay>(&mut self, alloc: Global, bay: &mut B, path: &Path) -> Reply
        ensures step { (faults : ℕ) × Reads (state_of self.old) path.now faults result (state_of self.new) × Counts faults (B.count bay.old) (B.count bay.new) }
        ensures told { (B.disk bay.new).told ≡ (B.disk bay.old).told }
        ensures agrees { Tells (B.disk bay.old) 16 → (plain : Namespace) → Agrees plain (state_of self.old) ((B.disk bay.old).seen 16)
            → Agrees plain (state_of self.new) ((B.disk bay.new).seen 16) × IsContent result (bytes_of path.now plain) }
    {
        let (len, bfid, place) = match self.files.get(path) {
            None => return Reply::NoFile,
            Some(file) => match &file.form {
                Form::Regular(bytes) => return content_of(alloc, bytes),
                Form::Dual { bytes, .. } => return content_of(alloc, bytes),
                Form::Offline { len, bfid, place } => (*len, *bfid, *place),
            },
        };
        match recall(alloc, bay, len, place) {
            Ok((bytes, kept)) => {
                let form = Form::Dual {
                    bytes: kept,
                    bfid,
                    place,
                };
                set_form(&mut self.files, path, form);
                Reply::Content { bytes }
            }
            Err(RecallError::NoMemory) => Reply::NoMemory,
            Err(RecallError::Failed) => Reply::AllCopies {
                copies: [
                    Some(CopyFault {
                        group: GROUP,
                        faults: 1,
                        damaged: None,
                    }),
                    None,
                ],
            },
        }
    }
}

/// Why a recall gave no bytes.
#[derive(Drop)]
enum RecallError {
    NoMemory,
    Failed,
}

// The bytes of an online file, copied.
fn content_of(alloc: Global, bytes: &Bytes) -> Reply
    ensures { IsCopy bytes.now result }
{
    match bytes.copied(alloc) {
        Ok(bytes) => Reply::Content { bytes },
        Err(NoMemory) => Reply::NoMemory,
    }
}

// The zone of a bitfile: nothing for one of length 0.
fn zone_of(alloc: Global, bfid: Bfid, bytes: &[u8]) -> Result<Vec<u8>, NoMemory>
    requires { length bytes.now ≤ 424 }
    ensures { IfOk result (λ zone. IsZone zone.items bytes.now) }
{
    if bytes.is_empty() {
        return Ok(Vec::new(alloc));
    }
    encode_zone(
        alloc,
        EPOCH,
        VERSION,
        bfid,
        bytes.len() as u64,
        0,
        bytes,
        CHUNK_SIZE,
    )
}

// Writes a zone to the volume; one without bytes isn't written.
fn write_zone<B: Bay>(bay: &mut B, tip: u64, zone: &[u8]) -> Result<(), Failed>
    requires { tip + length zone.now ≤ 424 }
    ensures none { zone.now ≡ [] → OnOk result ((B.disk bay.new).seen 16 ≡ (B.disk bay.old).seen 16) }
    ensures some { OnErr result (0 < length zone.now) }
    ensures written { 0 < length zone.now → Tells (B.disk bay.old) 16 → OnOk result (Written tip zone.now ((B.disk bay.old).seen 16) ((B.disk bay.new).seen 16)) }
    ensures torn { 0 < length zone.now → Tells (B.disk bay.old) 16 → Torn tip (length zone.now) ((B.disk bay.old).seen 16) ((B.disk bay.new).seen 16) }
    ensures told { (B.disk bay.new).told ≡ (B.disk bay.old).told }
    ensures cause { HasCause (B.count bay.old) (B.count bay.new) result }
{
    if zone.is_empty() {
        return Ok(());
    }
    write_synced(bay, VOLUME_FILE, tip, zone)
}

// Reads the bytes of an offline file, and gives them twice: for the reply and for the file.
fn recall<B: Bay>(
    alloc: Global,
    bay: &mut B,
    len: u64,
    place: u64,
) -> Result<(Bytes, Bytes), RecallError>
    requires { place + len ≤ 1024 }
    ensures ok { IfOk result (λ both. (length both.0 ≡ len) × (both.1 ≡ both.0)) }
    ensures bytes { Tells (B.disk bay.old) 16 → IfOk result (λ both. both.0 ≡ part ((B.disk bay.old).seen 16) place len) }
    ensures failed { result ≡ Err RecallError.Failed → (0 < len) × Rose (B.count bay.old) (B.count bay.new) }
    ensures count { result ≢ Err RecallError.Failed → B.count bay.new ≡ B.count bay.old }
    ensures same { (B.disk bay.new).seen 16 ≡ (B.disk bay.old).seen 16 }
    ensures told { (B.disk bay.new).told ≡ (B.disk bay.old).told }
{
    let Ok(mut bytes) = vec![in alloc; 0u8; len as usize] else {
        return Err(RecallError::NoMemory);
    };
    if len > 0 {
        if let Err(Failed) = bay.read(VOLUME_FILE, place, bytes.as_mut_slice()) {
            return Err(RecallError::Failed);
        }
    }
    let Ok(kept) = Vec::from_slice(alloc, bytes.as_slice()) else {
        return Err(RecallError::NoMemory);
    };
    Ok((Bytes::from_vec(bytes), Bytes::from_vec(kept)))
}
