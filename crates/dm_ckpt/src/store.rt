//! The store: appends, checkpoints, and what became of one that failed.
//!
//! What is known of the list stands in `Keeps` (it is this list), `Doubts` (this list, perhaps with one payload more) and
//! `Turns` (this list or that one). `Stands` is what the calls need of the logs whatever the disk tells; a caller
//! carries it from call to call, and no call asks for more.
//! (docs/DEFINITIONS.md, "The checkpointed store"; docs/FORMATS.md, "The four files of a component".)
ghost use Rattle.std.specs.Prelude.{◌≡◌, ◌≢◌, ◌⊎◌, ◌↔◌, ◌+◌, ◌<◌, ◌≤◌, ◌^◌, Ok, false, ℕ, Bool, List, [], ◌∷◌, ◌++◌, length, vec_capacity, IsTrue, IfOk, OnOk, OnErr, IsErr, IsErrOf, ⊤};
ghost use Rattle.std.specs.List.{AllByRecursion};
ghost use Rattle.dm_host.specs.Count.{HasCause};
ghost use Rattle.dm_host.specs.Disk.{Same};
ghost use Rattle.dm_host.specs.Works.{Works, File, Here, Follows};
ghost use Rattle.dm_journal.specs.Grammar.{Fits, longest, buffer_room, inner};
ghost use Rattle.dm_journal.specs.State.{place_behind, with_landed};
ghost use Rattle.dm_base.specs.declared.conf.ConfKey.{ConfKey};
ghost use Rattle.dm_base.specs.declared.error.LoadError.TheVariants.{Conf, Damaged, NoMemory};
ghost use Rattle.dm_journal.specs.Load.{HasLoadCause};
ghost use Rattle.dm_ckpt.specs.Load.{Reading, Retells, IsDamagedArea, LoadStands};
ghost use Rattle.dm_ckpt.specs.Meaning.{StandsForState, KeepsState, TurnsState};
ghost use Rattle.dm_ckpt.specs.Opening.{Means};
ghost use Rattle.dm_ckpt.specs.declared.doubt.Doubt.TheVariants.{Sure, Payload, Closing, Turning};
ghost use Rattle.dm_ckpt.specs.Area.{body_length, body_limit};
ghost use Rattle.dm_ckpt.specs.Files.{area_file, log_file, opposite, Mine, TellsMine, Unchanged};
ghost use Rattle.dm_ckpt.specs.State.{at, StandsFor, Either, Keeps, Doubts, Closes, Replaces, Turns, Between, LogAt, LogDoubtful, Stands, turned, list_turned, checkpointed, with_doubt, last_generation, IsDue, due_place, last_place_behind, behind_append};

use crate::checkpoint::{empty_other, fill_other};
use crate::doubt::Doubt;
use crate::files::{Index, area_number, log_number, opposite_of};
use crate::loading::open;
use crate::rows::measured;
use crate::survey::is_open;
use crate::{DUE_PLACE, LoadError, Rows, StoreLoading};
use dm_host::{Bay, Failed};
use dm_journal::steps::{add, behind, look, put_frame};
use std::alloc::Global;
use std::marker::Model;

/// The list of payloads of a component, at its end, where the next one goes.
#[derive(Drop)]
pub struct Store {
    component: u8,
    index: Index,
    generation: u64,
    place: u64,
    doubt: Doubt,
    buffer: Vec<u8>,
}

impl Model for Store {
    ghost use Rattle.std.specs.Prelude.{◌+◌, ◌<◌, ◌≤◌, ◌^◌, vec_capacity};
    ghost use Rattle.dm_journal.specs.Grammar.{longest, buffer_room};
    ghost use Rattle.dm_ckpt.specs.State.{At, length_doubted, generations_doubted};

    ghost Value = { At };

    ghost view = { λ s. record { component = s.component; index = s.index; generation = s.generation; place = s.place; doubt = s.doubt } };

    ghost invariant = { λ s. (s.component < 5) × (s.place ≤ 2 ^ 62) × (buffer_room ≤ vec_capacity s.buffer)
        × (length_doubted s.doubt ≤ longest) × (s.generation + generations_doubted s.doubt < 2 ^ 64) };
}

// Appends a frame to the log of this index.
fn append_to<B: Bay>(
    bay: &mut B,
    component: u8,
    index: Index,
    place: u64,
    bytes: &[u8],
) -> Result<(), Failed>
    requires component { component < 5 }
    requires place { place ≤ 2 ^ 62 }
    requires stands { LogAt (B.disk bay.old) component index place }
    ensures ok { (g : ℕ) (ps : List (List ℕ)) (payload : List ℕ) → Keeps (B.disk bay.old) (at component index g place Sure) ps → Fits payload → bytes.now ≡ inner payload ++ 0 ∷ []
        → OnOk result (Keeps (B.disk bay.new) (at component index g (place + (5 + length payload)) Sure) (ps ++ payload ∷ [])) }
    ensures err { (g : ℕ) (ps : List (List ℕ)) (payload : List ℕ) → Keeps (B.disk bay.old) (at component index g place Sure) ps → Fits payload → bytes.now ≡ inner payload ++ 0 ∷ []
        → OnErr result (Doubts (B.disk bay.new) (at component index g place (Payload (length payload))) ps payload) }
    ensures any_moment { (g : ℕ) (ps : List (List ℕ)) (payload : List ℕ) → Keeps (B.disk bay.old) (at component index g place Sure) ps → Fits payload → bytes.now ≡ inner payload ++ 0 ∷ []
        → Works (Mine component) (B.disk bay.old) (B.disk bay.new) (Either component ps (ps ++ payload ∷ [])) }
    ensures others { Works (File (log_file component index)) (B.disk bay.old) (B.disk bay.new) (λ x. ⊤) }
    ensures stands { (payload : List ℕ) → Fits payload → bytes.now ≡ inner payload ++ 0 ∷ [] → OnOk result (LogAt (B.disk bay.new) component index (place + (5 + length payload))) }
    ensures doubts { (payload : List ℕ) → Fits payload → bytes.now ≡ inner payload ++ 0 ∷ [] → OnErr result (LogDoubtful (B.disk bay.new) component index place (length payload)) }
    ensures limit { OnOk result (place + 1 + length bytes.now ≤ 2 ^ 62) }
    ensures cause { HasCause (B.count bay.old) (B.count bay.new) result }
{
    add(bay, log_number(component, index), place, bytes)
}

// Whether the append of a payload of n bytes landed in the log of this index.
fn landed_in<B: Bay>(
    bay: &mut B,
    component: u8,
    index: Index,
    place: u64,
    n: u64,
) -> Result<bool, Failed>
    requires component { component < 5 }
    requires place { place ≤ 2 ^ 62 }
    requires size { n ≤ longest }
    ensures ok { (g : ℕ) (ps : List (List ℕ)) (payload : List ℕ) → Doubts (B.disk bay.old) (at component index g place (Payload n)) ps payload
        → IfOk result (λ landed. Keeps (B.disk bay.new) (at component index g (place_behind landed place n) Sure) (with_landed landed ps payload)) }
    ensures err { (g : ℕ) (ps : List (List ℕ)) (payload : List ℕ) → Doubts (B.disk bay.old) (at component index g place (Payload n)) ps payload
        → OnErr result (Doubts (B.disk bay.new) (at component index g place (Payload n)) ps payload) }
    ensures works { Works (File (log_file component index)) (B.disk bay.old) (B.disk bay.new) (Follows Same (log_file component index) (B.disk bay.old)) }
    ensures stands { LogDoubtful (B.disk bay.old) component index place n → IfOk result (λ landed. LogAt (B.disk bay.new) component index (place_behind landed place n)) }
    ensures doubts { LogDoubtful (B.disk bay.old) component index place n → OnErr result (LogDoubtful (B.disk bay.new) component index place n) }
    ensures limit { IfOk result (λ landed. place_behind landed place n ≤ 2 ^ 62) }
    ensures cause { HasCause (B.count bay.old) (B.count bay.new) result }
{
    look(bay, log_number(component, index), place, n)
}

// After a checkpoint that failed early: brings the other area onto the disk as it is.
fn settle_closing<B: Bay>(bay: &mut B, component: u8, index: Index) -> Result<(), Failed>
    requires { component < 5 }
    ensures ok { (g p : ℕ) (ps : List (List ℕ)) → Closes (B.disk bay.old) (at component index g p Closing) ps
        → OnOk result (Keeps (B.disk bay.new) (at component index g p Sure) ps) }
    ensures err { (g p : ℕ) (ps : List (List ℕ)) → Closes (B.disk bay.old) (at component index g p Closing) ps
        → OnErr result (Closes (B.disk bay.new) (at component index g p Closing) ps) }
    ensures unchanged { Unchanged component (B.disk bay.old) (B.disk bay.new) }
    ensures cause { HasCause (B.count bay.old) (B.count bay.new) result }
{
    bay.sync(area_number(component, opposite_of(index)))
}

// After a checkpoint that failed later: whether the other area is the one in use.
fn settle_turning<B: Bay>(
    bay: &mut B,
    component: u8,
    index: Index,
    generation: u64,
) -> Result<bool, Failed>
    requires component { component < 5 }
    requires more { generation < last_generation }
    ensures ok { (p : ℕ) (ps qs : List (List ℕ)) → Replaces (B.disk bay.old) (at component index generation p Turning) ps qs
        → IfOk result (λ is. Keeps (B.disk bay.new) (turned is (at component index generation p Turning)) (list_turned is ps qs)) }
    ensures err { (p : ℕ) (ps qs : List (List ℕ)) → Replaces (B.disk bay.old) (at component index generation p Turning) ps qs
        → OnErr result (Replaces (B.disk bay.new) (at component index generation p Turning) ps qs) }
    ensures unchanged { Unchanged component (B.disk bay.old) (B.disk bay.new) }
    ensures cause { HasCause (B.count bay.old) (B.count bay.new) result }
{
    is_open(
        bay,
        area_number(component, opposite_of(index)),
        generation + 1,
    )
}

impl Store {
    /// Syncs the four files of a component, 0 to 4, and stands before its first payload. A log of at most a byte gets a
    /// closed gate. `Damaged` comes exactly where an area is open and outside the grammar, or both are open with one
    /// generation; it is told before memory is asked for. After an error the files stand for what they stood for.
    pub fn open<B: Bay>(
        alloc: Global,
        bay: &mut B,
        component: u8,
    ) -> Result<StoreLoading, LoadError>
        requires { component < 5 }
        ensures reading { TellsMine (B.disk bay.old) component → IfOk result (λ l. Reading (B.disk bay.new) l []) }
        ensures means { TellsMine (B.disk bay.old) component → OnOk result (Means component (B.disk bay.old).seen (B.disk bay.new).seen) }
        ensures component { IfOk result (λ l. l.component ≡ component) }
        ensures any_moment { TellsMine (B.disk bay.old) component → Works (Mine component) (B.disk bay.old) (B.disk bay.new) (Retells component (B.disk bay.old)) }
        ensures others { Works (Mine component) (B.disk bay.old) (B.disk bay.new) (λ x. ⊤) }
        ensures damaged { TellsMine (B.disk bay.old) component → (f p : ℕ) → IsErrOf result (Damaged f p) → (p ≡ 0) × IsDamagedArea component f (B.disk bay.old).seen }
        ensures whole { TellsMine (B.disk bay.old) component → (f : ℕ) → IsDamagedArea component f (B.disk bay.old).seen → IsErr result × (IsErrOf result NoMemory → ⊥) }
        ensures conf { (key : ConfKey) → IsErrOf result (Conf key) → ⊥ }
        ensures stands { IfOk result (λ l. LoadStands (B.disk bay.new) l) }
        ensures cause { HasLoadCause (B.count bay.old) (B.count bay.new) result }
    {
        open(alloc, bay, component)
    }

    /// Adds a payload behind the others. Where it fails it is in doubt whether the payload is there. Takes no memory.
    pub fn append<B: Bay>(&mut self, bay: &mut B, payload: &[u8]) -> Result<(), Failed>
        requires settled { self.old.doubt ≡ Sure }
        requires size { Fits payload.now }
        requires stands { Stands (B.disk bay.old) self.old }
        ensures ok { (ps : List (List ℕ)) → Keeps (B.disk bay.old) self.old ps → OnOk result (Keeps (B.disk bay.new) self.new (ps ++ payload.now ∷ [])) }
        ensures err { (ps : List (List ℕ)) → Keeps (B.disk bay.old) self.old ps → OnErr result (Doubts (B.disk bay.new) self.new ps payload.now) }
        ensures any_moment { (ps : List (List ℕ)) → Keeps (B.disk bay.old) self.old ps
            → Works (Mine self.old.component) (B.disk bay.old) (B.disk bay.new) (Either self.old.component ps (ps ++ payload.now ∷ [])) }
        ensures others { Works (Mine self.old.component) (B.disk bay.old) (B.disk bay.new) (λ x. ⊤) }
        ensures moved { OnOk result (self.new ≡ behind_append self.old (length payload.now)) }
        ensures stays { OnErr result (self.new ≡ with_doubt self.old (Payload (length payload.now))) }
        ensures stands { Stands (B.disk bay.new) self.new }
        ensures bound { self.old.place < due_place → OnOk result (self.new.place ≤ last_place_behind) }
        ensures cause { HasCause (B.count bay.old) (B.count bay.new) result }
    {
        put_frame(&mut self.buffer, payload);
        self.doubt = Doubt::Payload(payload.len() as u64);
        append_to(bay, self.component, self.index, self.place, &self.buffer)?;
        self.place += 5 + payload.len() as u64;
        self.doubt = Doubt::Sure;
        Ok(())
    }

    /// The last append or checkpoint failed, and it isn't known yet what became of it.
    pub fn in_doubt(&self) -> bool
        ensures { IsTrue result ↔ self.now.doubt ≢ Sure }
    {
        self.doubt != Doubt::Sure
    }

    /// The place of the gate of the log in use.
    pub fn log_gate(&self) -> u64
        ensures { result ≡ self.now.place }
    {
        self.place
    }

    /// Whether a checkpoint to this state's rows is due: the gate of the log stands at `DUE_PLACE` or beyond, the
    /// generation isn't the last, no row is longer than a payload may be, and their body is shorter than `BODY_LIMIT`.
    /// The rows are looked at only where the log is that long.
    pub fn is_due<T: Rows>(&self, state: &T) -> bool
        ensures { IsTrue result ↔ IsDue self.now (T.rows state.now) }
    {
        if self.place < DUE_PLACE || self.generation == u64::MAX {
            return false;
        }
        measured(state).is_some()
    }

    /// Finds out what became of the append or the checkpoint in doubt. Answers whether a payload landed, so false for a
    /// checkpoint, whose list is then in use or not. Out of doubt it does nothing and answers false. Takes no memory.
    pub fn heal<B: Bay>(&mut self, bay: &mut B) -> Result<bool, Failed>
        ensures payload { (ps : List (List ℕ)) (payload : List ℕ) → Doubts (B.disk bay.old) self.old ps payload
            → IfOk result (λ landed. Keeps (B.disk bay.new) self.new (with_landed landed ps payload)) }
        ensures turned { (ps qs : List (List ℕ)) → Turns (B.disk bay.old) self.old ps qs
            → IfOk result (λ landed. (landed ≡ false) × (Keeps (B.disk bay.new) self.new ps ⊎ Keeps (B.disk bay.new) self.new qs)) }
        ensures payload_err { (ps : List (List ℕ)) (payload : List ℕ) → Doubts (B.disk bay.old) self.old ps payload → OnErr result (Doubts (B.disk bay.new) self.new ps payload) }
        ensures turned_err { (ps qs : List (List ℕ)) → Turns (B.disk bay.old) self.old ps qs → OnErr result (Turns (B.disk bay.new) self.new ps qs) }
        ensures idle { self.old.doubt ≡ Sure → (result ≡ Ok false) × (self.new ≡ self.old) × (bay.new ≡ bay.old) }
        ensures any_moment { Works (Mine self.old.component) (B.disk bay.old) (B.disk bay.new) (Here (Mine self.old.component) (B.disk bay.old)) }
        ensures settled { OnOk result ((self.new.doubt ≡ Sure) × (self.new.component ≡ self.old.component)) }
        ensures stays { OnErr result (self.new ≡ self.old) }
        ensures stands { Stands (B.disk bay.old) self.old → Stands (B.disk bay.new) self.new }
        ensures cause { HasCause (B.count bay.old) (B.count bay.new) result }
    {
        match self.doubt {
            Doubt::Sure => Ok(false),
            Doubt::Payload(n) => {
                let landed = landed_in(bay, self.component, self.index, self.place, n)?;
                self.place = behind(landed, self.place, n);
                self.doubt = Doubt::Sure;
                Ok(landed)
            }
            Doubt::Closing => {
                settle_closing(bay, self.component, self.index)?;
                self.doubt = Doubt::Sure;
                Ok(false)
            }
            Doubt::Turning => {
                if settle_turning(bay, self.component, self.index, self.generation)? {
                    self.go_over();
                }
                self.doubt = Doubt::Sure;
                Ok(false)
            }
        }
    }

    // Goes on with the other index, whose log is empty.
    fn go_over(&mut self)
        requires { self.old.generation < last_generation }
        ensures { self.new ≡ checkpointed self.old }
    {
        self.index = opposite_of(self.index);
        self.generation += 1;
        self.place = 0;
        self.doubt = Doubt::Sure;
    }

    /// Puts the state's rows in the place of the list, and begins an empty log. Where it fails it is in doubt which of the
    /// two lists is there. Where the generation stands at its last value nothing is done. Takes no memory.
    ///
    /// The caller sees to it that both lists stand for the state (`means`). A crash at any moment, and the store itself
    /// however the call ends, then has a list that does.
    pub fn checkpoint<B: Bay, T: Rows>(&mut self, bay: &mut B, state: &T) -> Result<(), Failed>
        requires settled { self.old.doubt ≡ Sure }
        requires stands { Stands (B.disk bay.old) self.old }
        requires fits { AllByRecursion Fits (T.rows state.now) }
        requires small { body_length (T.rows state.now) < body_limit }
        ensures ok { (ps : List (List ℕ)) → Keeps (B.disk bay.old) self.old ps → self.old.generation < last_generation
            → OnOk result (Keeps (B.disk bay.new) self.new (T.rows state.now)) }
        ensures err { (ps : List (List ℕ)) → Keeps (B.disk bay.old) self.old ps → OnErr result (Turns (B.disk bay.new) self.new ps (T.rows state.now)) }
        ensures any_moment { (ps : List (List ℕ)) → Keeps (B.disk bay.old) self.old ps
            → Works (Mine self.old.component) (B.disk bay.old) (B.disk bay.new) (Either self.old.component ps (T.rows state.now)) }
        // The same for a caller to whom lists are a state that they stand for.
        ensures settled { T.means state.now (T.rows state.now) → KeepsState (B.disk bay.old) self.old (T.means state.now)
            → Works (Mine self.old.component) (B.disk bay.old) (B.disk bay.new) (StandsForState self.old.component (T.means state.now)) }
        ensures settled_ok { T.means state.now (T.rows state.now) → KeepsState (B.disk bay.old) self.old (T.means state.now) → OnOk result (KeepsState (B.disk bay.new) self.new (T.means state.now)) }
        ensures settled_err { T.means state.now (T.rows state.now) → KeepsState (B.disk bay.old) self.old (T.means state.now) → OnErr result (TurnsState (B.disk bay.new) self.new (T.means state.now)) }
        ensures used_up { self.old.generation ≡ last_generation → (result ≡ Ok tt) × (self.new ≡ self.old) × (bay.new ≡ bay.old) }
        ensures others { Works (Mine self.old.component) (B.disk bay.old) (B.disk bay.new) (λ x. ⊤) }
        ensures moved { self.old.generation < last_generation → OnOk result (self.new ≡ checkpointed self.old) }
        ensures sure { OnOk result (self.new.doubt ≡ Sure) }
        ensures component { self.new.component ≡ self.old.component }
        ensures stays { OnErr result ((self.new ≡ with_doubt self.old Closing) ⊎ (self.new ≡ with_doubt self.old Turning)) }
        ensures stands { Stands (B.disk bay.new) self.new }
        ensures cause { HasCause (B.count bay.old) (B.count bay.new) result }
    {
        if self.generation == u64::MAX {
            return Ok(());
        }
        let Some(size) = measured(state) else {
            unreachable!()
        };
        self.doubt = Doubt::Closing;
        empty_other(bay, self.component, self.index)?;
        self.doubt = Doubt::Turning;
        fill_other(
            bay,
            self.component,
            self.index,
            self.generation,
            size,
            state,
            &mut self.buffer,
        )?;
        self.go_over();
        Ok(())
    }
}

// A store whose log's gate stands at this place. The buffer has room for the longest frame.
pub(crate) fn store_at(
    component: u8,
    index: Index,
    generation: u64,
    place: u64,
    buffer: Vec<u8>,
) -> Store
    requires component { component < 5 }
    requires place { place ≤ 2 ^ 62 }
    requires room { buffer_room ≤ vec_capacity buffer }
    ensures { result ≡ at component index generation place Sure }
{
    Store {
        component,
        index,
        generation,
        place,
        doubt: Doubt::Sure,
        buffer,
    }
}
