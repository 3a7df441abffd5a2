//! Appends, and what became of one that failed.
ghost use Rattle.std.specs.Prelude.{◌≡◌, ◌↔◌, ◌+◌, ◌<◌, ◌≤◌, ◌^◌, Ok, false, ℕ, List, [], ◌∷◌, ◌++◌, length, vec_capacity, None, Some, IsTrue, IsSome, IfOk, OnOk, OnErr, ⊤};
ghost use Rattle.dm_host.specs.Count.{HasCause};
ghost use Rattle.dm_host.specs.Disk.{Same, Tells};
ghost use Rattle.dm_host.specs.Works.{Works, File, Follows};
ghost use Rattle.dm_journal.specs.Grammar.{Fits, longest, buffer_room, inner, BeforeOrAfter};
ghost use Rattle.dm_journal.specs.State.{At, Keeps, Doubts, settled_at, doubtful_at, with_landed, place_behind};

use crate::frame::{OPEN, put_frame};
use dm_host::{Bay, Failed, read_synced, write_synced};
use std::marker::Model;

// The greatest place of a gate.
const LAST_PLACE: u64 = 1 << 62;

/// The end of a journal file, where the next payload goes.
#[derive(Drop)]
pub struct Journal {
    file: u32,
    place: u64,
    doubt: Option<u64>,
    buffer: Vec<u8>,
}

impl Model for Journal {
    ghost use Rattle.std.specs.Prelude.{◌<◌, ◌≤◌, ◌^◌, vec_capacity};
    ghost use Rattle.std.specs.Option.{ForSome};
    ghost use Rattle.dm_journal.specs.Grammar.{longest, buffer_room};
    ghost use Rattle.dm_journal.specs.State.{At};

    ghost Value = { At };

    ghost view = { λ j. record { file = j.file; place = j.place; doubt = j.doubt } };

    ghost invariant = { λ j. (j.file < 256) × (j.place ≤ 2 ^ 62) × (buffer_room ≤ vec_capacity j.buffer) × ForSome j.doubt (λ n. n ≤ longest) };
}

/// Writes the bytes of a frame behind the gate that stands at a place, syncs, opens the gate and syncs. The bytes
/// are those of `put_frame`.
pub fn add<B: Bay>(bay: &mut B, file: u32, place: u64, bytes: &[u8]) -> Result<(), Failed>
    requires file { file < 256 }
    requires place { place ≤ 2 ^ 62 }
    requires kept { Tells (B.disk bay.old) file → (ps : List (List ℕ)) × Keeps (B.disk bay.old) (settled_at file place) ps }
    ensures ok { (ps : List (List ℕ)) (payload : List ℕ) → Keeps (B.disk bay.old) (settled_at file place) ps → Fits payload → bytes.now ≡ inner payload ++ 0 ∷ []
        → OnOk result (Keeps (B.disk bay.new) (settled_at file (place + (5 + length payload))) (ps ++ payload ∷ [])) }
    ensures err { (ps : List (List ℕ)) (payload : List ℕ) → Keeps (B.disk bay.old) (settled_at file place) ps → Fits payload → bytes.now ≡ inner payload ++ 0 ∷ []
        → OnErr result (Doubts (B.disk bay.new) (doubtful_at file place (length payload)) ps payload) }
    ensures any_moment { (ps : List (List ℕ)) (payload : List ℕ) → Keeps (B.disk bay.old) (settled_at file place) ps → Fits payload → bytes.now ≡ inner payload ++ 0 ∷ []
        → Works (File file) (B.disk bay.old) (B.disk bay.new) (λ x. BeforeOrAfter ps payload (x file)) }
    ensures others { Works (File file) (B.disk bay.old) (B.disk bay.new) (λ x. ⊤) }
    ensures limit { OnOk result (place + 1 + length bytes.now ≤ 2 ^ 62) }
    ensures cause { HasCause (B.count bay.old) (B.count bay.new) result }
{
    write_synced(bay, file, place + 1, bytes)?;
    write_synced(bay, file, place, &[OPEN])
}

/// Whether the append of a payload of n bytes at this place landed, as the disk has it.
pub fn look<B: Bay>(bay: &mut B, file: u32, place: u64, n: u64) -> Result<bool, Failed>
    requires file { file < 256 }
    requires place { place ≤ 2 ^ 62 }
    requires size { n ≤ longest }
    ensures ok { (ps : List (List ℕ)) (payload : List ℕ) → Doubts (B.disk bay.old) (doubtful_at file place n) ps payload
        → IfOk result (λ landed. Keeps (B.disk bay.new) (settled_at file (place_behind landed place n)) (with_landed landed ps payload)) }
    ensures err { (ps : List (List ℕ)) (payload : List ℕ) → Doubts (B.disk bay.old) (doubtful_at file place n) ps payload
        → OnErr result (Doubts (B.disk bay.new) (doubtful_at file place n) ps payload) }
    ensures works { Works (File file) (B.disk bay.old) (B.disk bay.new) (Follows Same file (B.disk bay.old)) }
    ensures limit { IfOk result (λ landed. place_behind landed place n ≤ 2 ^ 62) }
    ensures cause { HasCause (B.count bay.old) (B.count bay.new) result }
{
    let gate = read_synced(bay, file, place)?;
    Ok(gate == OPEN && n + 6 <= LAST_PLACE - place)
}

/// The place of the gate behind a frame of n bytes, which landed or not.
pub fn behind(landed: bool, place: u64, n: u64) -> u64
    requires { place_behind landed place n ≤ 2 ^ 62 }
    ensures { result ≡ place_behind landed place n }
{
    if landed { place + (5 + n) } else { place }
}

impl Journal {
    /// Adds a payload of at most `MAX_PAYLOAD` bytes behind the others. At `Ok` a crash leaves it. After `Failed` it is in
    /// doubt whether the payload is there, until a `heal` finds out. (docs/FORMATS.md, "A journal".)
    pub fn append<B: Bay>(&mut self, bay: &mut B, payload: &[u8]) -> Result<(), Failed>
        requires settled { self.old.doubt ≡ None }
        requires size { Fits payload.now }
        requires kept { Tells (B.disk bay.old) self.old.file → (ps : List (List ℕ)) × Keeps (B.disk bay.old) self.old ps }
        ensures ok { (ps : List (List ℕ)) → Keeps (B.disk bay.old) self.old ps → OnOk result (Keeps (B.disk bay.new) self.new (ps ++ payload.now ∷ [])) }
        ensures err { (ps : List (List ℕ)) → Keeps (B.disk bay.old) self.old ps → OnErr result (Doubts (B.disk bay.new) self.new ps payload.now) }
        ensures any_moment { (ps : List (List ℕ)) → Keeps (B.disk bay.old) self.old ps
            → Works (File self.old.file) (B.disk bay.old) (B.disk bay.new) (λ x. BeforeOrAfter ps payload.now (x self.old.file)) }
        ensures others { Works (File self.old.file) (B.disk bay.old) (B.disk bay.new) (λ x. ⊤) }
        ensures moved { OnOk result (self.new ≡ settled_at self.old.file (self.old.place + (5 + length payload.now))) }
        ensures stays { OnErr result (self.new ≡ doubtful_at self.old.file self.old.place (length payload.now)) }
        ensures cause { HasCause (B.count bay.old) (B.count bay.new) result }
    {
        put_frame(&mut self.buffer, payload);
        self.doubt = Some(payload.len() as u64);
        add(bay, self.file, self.place, &self.buffer)?;
        self.place += 5 + payload.len() as u64;
        self.doubt = None;
        Ok(())
    }

    /// The last append failed, and it isn't known yet what became of its payload.
    pub fn in_doubt(&self) -> bool
        ensures { IsTrue result ↔ IsSome self.now.doubt }
    {
        self.doubt.is_some()
    }

    /// The place of the gate behind the last payload.
    pub fn place(&self) -> u64
        ensures { result ≡ self.now.place }
    {
        self.place
    }

    /// Finds out whether the payload in doubt landed, which it answers. Out of doubt it makes no call of the device and
    /// answers false. Where it fails the journal is in doubt as before.
    pub fn heal<B: Bay>(&mut self, bay: &mut B) -> Result<bool, Failed>
        ensures ok { (ps : List (List ℕ)) (payload : List ℕ) → Doubts (B.disk bay.old) self.old ps payload
            → IfOk result (λ landed. Keeps (B.disk bay.new) self.new (with_landed landed ps payload)) }
        ensures err { (ps : List (List ℕ)) (payload : List ℕ) → Doubts (B.disk bay.old) self.old ps payload
            → OnErr result (Doubts (B.disk bay.new) self.new ps payload) }
        ensures any_moment { (ps : List (List ℕ)) (payload : List ℕ) → Doubts (B.disk bay.old) self.old ps payload
            → Works (File self.old.file) (B.disk bay.old) (B.disk bay.new) (λ x. BeforeOrAfter ps payload (x self.old.file)) }
        ensures same { Works (File self.old.file) (B.disk bay.old) (B.disk bay.new) (Follows Same self.old.file (B.disk bay.old)) }
        ensures moved { (n : ℕ) → self.old.doubt ≡ Some n → IfOk result (λ landed. self.new ≡ settled_at self.old.file (place_behind landed self.old.place n)) }
        ensures idle { self.old.doubt ≡ None → (result ≡ Ok false) × (self.new ≡ self.old) × (bay.new ≡ bay.old) }
        ensures told { (B.disk bay.new).told ≡ (B.disk bay.old).told }
        ensures stays { OnErr result (self.new ≡ self.old) }
        ensures cause { HasCause (B.count bay.old) (B.count bay.new) result }
    {
        let Some(n) = self.doubt else {
            return Ok(false);
        };
        let landed = look(bay, self.file, self.place, n)?;
        self.place = behind(landed, self.place, n);
        self.doubt = None;
        Ok(landed)
    }
}

// A journal whose gate stands at this place. The buffer has room for the longest frame.
pub(crate) fn journal_at(file: u32, place: u64, buffer: Vec<u8>) -> Journal
    requires file { file < 256 }
    requires place { place ≤ 2 ^ 62 }
    requires room { buffer_room ≤ vec_capacity buffer }
    ensures { result ≡ settled_at file place }
{
    Journal {
        file,
        place,
        doubt: None,
        buffer,
    }
}
