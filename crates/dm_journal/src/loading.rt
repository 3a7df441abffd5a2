//! The payloads of a file, one at a time.
ghost use Rattle.std.specs.Prelude.{◌≡◌, ◌+◌, ◌<◌, ◌≤◌, ◌^◌, ℕ, List, [], length, vec_capacity, IfOk, IfSome, OnOk, IsErr, IsErrOf, ⊤};
ghost use Rattle.dm_host.specs.Disk.{Only, Same, Tells};
ghost use Rattle.dm_host.specs.Works.{Works, File, Follows};
ghost use Rattle.dm_base.specs.declared.conf.ConfKey.{ConfKey};
ghost use Rattle.dm_base.specs.declared.error.LoadError.TheVariants.{Conf, Damaged, NoMemory};
ghost use Rattle.dm_journal.specs.Load.{LoadAt, Reading, Reopens, opened, loading_at, IsDamage, Finds, Gives, HasLoadCause};
ghost use Rattle.dm_journal.specs.State.{settled_at};

use crate::frame::CAPACITY;
use crate::journal::journal_at;
use crate::reading::{advance, open};
use crate::{Journal, LoadError};
use dm_host::Bay;
use std::alloc::Global;
use std::marker::Model;

/// A journal file that is read from its start to its first closed gate.
#[derive(Drop)]
pub struct Loading {
    file: u32,
    place: u64,
    last: u64,
    end: u64,
    buffer: Vec<u8>,
}

impl Model for Loading {
    ghost use Rattle.std.specs.Prelude.{◌<◌, ◌≤◌, ◌^◌, vec_capacity};
    ghost use Rattle.dm_journal.specs.Grammar.{buffer_room};
    ghost use Rattle.dm_journal.specs.Load.{LoadAt};

    ghost Value = { LoadAt };

    ghost view = { λ j. record { file = j.file; place = j.place; last = j.last; end = j.end } };

    ghost invariant = { λ j. (j.file < 256) × (j.place < j.end) × (j.end ≤ 2 ^ 62) × (buffer_room ≤ vec_capacity j.buffer) };
}

impl Loading {
    ghost use Rattle.std.specs.Borrow.{sem};
    ghost use Rattle.std.specs.Io.BufRead.{Rests};
    ghost use Rattle.dm_journal.specs.contracts.loading.Loading.{the_row};

    /// Syncs the file and stands at its start. A file of at most a byte gets a closed gate first. `Failed` comes where
    /// the device failed, `NoMemory` only once the file was opened and synced, and no other error comes. After an
    /// error the file stands for the payloads that it stood for. The buffer has room for the longest frame; of its
    /// memory only what a payload needs is ever touched.
    pub fn begin<B: Bay>(alloc: Global, bay: &mut B, file: u32) -> Result<Loading, LoadError>
        requires { file < 256 }
        ensures reading { Tells (B.disk bay.old) file → IfOk result (λ loading. Reading (B.disk bay.new) loading []) }
        ensures content { Tells (B.disk bay.old) file → OnOk result ((B.disk bay.new).seen file ≡ opened ((B.disk bay.old).seen file)) }
        ensures refused { Tells (B.disk bay.old) file → IsErrOf result NoMemory
            → ((B.disk bay.new).seen file ≡ opened ((B.disk bay.old).seen file)) × Only ((B.disk bay.new).seen file) ((B.disk bay.new).may_leave file) }
        ensures start { IfOk result (λ loading. (loading.file ≡ file) × (loading.place ≡ 0)) }
        ensures any_moment { Tells (B.disk bay.old) file → Works (File file) (B.disk bay.old) (B.disk bay.new) (Follows Reopens file (B.disk bay.old)) }
        ensures others { Works (File file) (B.disk bay.old) (B.disk bay.new) (λ x. ⊤) }
        ensures damaged { (f p : ℕ) → IsErrOf result (Damaged f p) → ⊥ }
        ensures conf { (key : ConfKey) → IsErrOf result (Conf key) → ⊥ }
        ensures cause { HasLoadCause (B.count bay.old) (B.count bay.new) result }
    {
        let end = open(bay, file).map_err(|_| LoadError::Failed)?;
        let buffer = Vec::with_capacity(alloc, CAPACITY).map_err(|_| LoadError::NoMemory)?;
        Ok(Loading {
            file,
            place: 0,
            last: 0,
            end,
            buffer,
        })
    }

    /// The next payload, and `None` at the first closed gate. After a payload the load stands nearer the end of the
    /// file, which bounds its caller's loop; after an error it stands where it stood. `Failed` comes where the device
    /// failed, and `Damaged` exactly where an open gate stands over a frame that the file doesn't hold whole or that is
    /// too long.
    pub fn next<B: Bay>(&mut self, bay: &mut B) -> Result<Option<&[u8]>, LoadError>
        ensures* after_borrow { sem 𝓛 (Rests the_row self.entry (λ new. Gives self.old result new)) }
        ensures found { (ps : List (List ℕ)) → Reading (B.disk bay.old) self.old ps → IfOk result (λ found. Finds (B.disk bay.new) self.old ps found) }
        ensures damaged { (ps : List (List ℕ)) → Reading (B.disk bay.old) self.old ps
            → (f p : ℕ) → IsErrOf result (Damaged f p) → IsDamage ps ((B.disk bay.old).seen self.old.file) }
        ensures whole { (ps : List (List ℕ)) → Reading (B.disk bay.old) self.old ps → IsDamage ps ((B.disk bay.old).seen self.old.file) → IsErr result }
        ensures place { (f p : ℕ) → IsErrOf result (Damaged f p) → (f ≡ self.old.file) × (p ≡ self.old.place) }
        ensures within { IfOk result (λ found. IfSome found (λ payload. self.old.place + (5 + length payload.now) < self.old.end)) }
        ensures memory { IsErrOf result NoMemory → ⊥ }
        ensures conf { (key : ConfKey) → IsErrOf result (Conf key) → ⊥ }
        ensures same { (B.disk bay.new).seen self.old.file ≡ (B.disk bay.old).seen self.old.file }
        ensures any_moment { Works (File self.old.file) (B.disk bay.old) (B.disk bay.new) (Follows Same self.old.file (B.disk bay.old)) }
        ensures cause { HasLoadCause (B.count bay.old) (B.count bay.new) result }
    {
        match advance(bay, self.file, self.place, self.end, &mut self.buffer)? {
            None => Ok(None),
            Some(n) => {
                self.last = self.place;
                self.place += 5 + n;
                Ok(Some(&self.buffer))
            }
        }
    }

    /// The place of the last payload's gate.
    pub fn place(&self) -> u64
        ensures { result ≡ self.now.last }
    {
        self.last
    }

    /// The journal, once `next` answered `None`.
    pub fn ready(self) -> Journal
        ensures { result ≡ settled_at self.file self.place }
    {
        journal_at(self.file, self.place, self.buffer)
    }
}
