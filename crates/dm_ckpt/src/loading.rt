//! A load: the rows of the area in use, then the payloads of its log, one at a time through one buffer.
ghost use Rattle.std.specs.Prelude.{◌≡◌, ◌+◌, ◌<◌, ◌≤◌, ◌^◌, ℕ, List, [], ◌∷◌, ◌++◌, length, vec_len, vec_capacity, Bool, IsTrue, IfOk, OnOk, OnErr, IfErr, IfSome, IsSome, IsErr, IsErrOf, ⊤};
ghost use Rattle.dm_host.specs.Count.{HasCause};
ghost use Rattle.dm_host.specs.Disk.{Disk, Same, Tells, part};
ghost use Rattle.dm_host.specs.Works.{Works, File, Here, Follows};
ghost use Rattle.dm_base.specs.declared.conf.ConfKey.{ConfKey};
ghost use Rattle.dm_base.specs.declared.error.LoadError.TheVariants.{Conf, Damaged, NoMemory};
ghost use Rattle.dm_journal.specs.Grammar.{longest, buffer_room};
ghost use Rattle.dm_journal.specs.Load.{HasLoadCause};
ghost use Rattle.dm_ckpt.specs.Files.{Mine, TellsMine, Unchanged, area_file, log_file};
ghost use Rattle.dm_ckpt.specs.Load.{LoadAt, RowsAt, FirstRow, Reading, Finds, Gives, Retells, IsDamagedArea, IsDamagedLog, Steps, StepStands, FindStands, LoadStands, loading, moved, ready_at};
ghost use Rattle.dm_ckpt.specs.Meaning.{AreAll};
ghost use Rattle.dm_ckpt.specs.Opening.{Means, load_at};
ghost use Rattle.dm_ckpt.specs.State.{StandsFor};

use crate::Store;
use crate::files::{Index, area_number, log_number};
use crate::opening::{Origin, Start, begin};
use crate::store::store_at;
use crate::survey::{BODY_PLACE, row_len};
use dm_base::LoadError;
use dm_host::{Bay, Failed};
use dm_journal::steps::{CAPACITY, advance};
use std::alloc::Global;
use std::marker::Model;

// Makes the buffer as long as that. It has room.
fn set_len(buffer: &mut Vec<u8>, n: usize)
    requires { n ≤ vec_capacity buffer.old }
    ensures len { vec_len buffer.new ≡ n }
    ensures room { vec_capacity buffer.old ≤ vec_capacity buffer.new }
{
    let _ = buffer.resize(n, 0);
}

// Reads n bytes into the buffer, which then holds nothing else.
fn fetch<B: Bay>(
    bay: &mut B,
    file: u32,
    place: u64,
    n: usize,
    buffer: &mut Vec<u8>,
) -> Result<(), Failed>
    requires file { file < 256 }
    requires range { place + n ≤ 2 ^ 63 }
    requires room { n ≤ vec_capacity buffer.old }
    ensures bytes { Tells (B.disk bay.old) file → OnOk result (buffer.new.items ≡ part ((B.disk bay.old).seen file) place n) }
    ensures len { vec_len buffer.new ≡ n }
    ensures room { vec_capacity buffer.old ≤ vec_capacity buffer.new }
    ensures same { (B.disk bay.new).seen file ≡ (B.disk bay.old).seen file }
    ensures works { Works (File file) (B.disk bay.old) (B.disk bay.new) (Follows Same file (B.disk bay.old)) }
    ensures cause { HasCause (B.count bay.old) (B.count bay.new) result }
{
    set_len(buffer, n);
    bay.read(file, place, buffer)
}

// Reads the row at a place before the end of a body into the buffer, and answers its length. `None` where there is no
// row that a log could take.
fn find_row<B: Bay>(
    bay: &mut B,
    file: u32,
    place: u64,
    end: u64,
    buffer: &mut Vec<u8>,
) -> Result<Option<u64>, Failed>
    requires file { file < 256 }
    requires within { place < end }
    requires limit { end ≤ 2 ^ 62 }
    requires room { buffer_room ≤ vec_capacity buffer.old }
    ensures found { (rows : List (List ℕ)) (junk : List ℕ) → Tells (B.disk bay.old) file → RowsAt rows junk place end ((B.disk bay.old).seen file)
        → IfOk result (λ found. FirstRow rows buffer.new.items found) }
    ensures range { IfOk result (λ found. IfSome found (λ n. place + (4 + n) ≤ end)) }
    ensures len { IfOk result (λ found. IfSome found (λ n. n ≡ vec_len buffer.new)) }
    ensures room { buffer_room ≤ vec_capacity buffer.new }
    ensures same { (B.disk bay.new).seen file ≡ (B.disk bay.old).seen file }
    ensures works { Works (File file) (B.disk bay.old) (B.disk bay.new) (Follows Same file (B.disk bay.old)) }
    ensures cause { HasCause (B.count bay.old) (B.count bay.new) result }
{
    let Some(n) = row_len(bay, file, place, end)? else {
        return Ok(None);
    };
    fetch(bay, file, place + 4, n as usize, buffer)?;
    Ok(Some(n))
}

// The same, with what isn't a row as damage of the area.
fn read_row<B: Bay>(
    bay: &mut B,
    file: u32,
    place: u64,
    end: u64,
    buffer: &mut Vec<u8>,
) -> Result<Option<u64>, LoadError>
    requires file { file < 256 }
    requires within { place < end }
    requires limit { end ≤ 2 ^ 62 }
    requires room { buffer_room ≤ vec_capacity buffer.old }
    ensures found { (rows : List (List ℕ)) (junk : List ℕ) → Tells (B.disk bay.old) file → RowsAt rows junk place end ((B.disk bay.old).seen file)
        → IfOk result (λ found. FirstRow rows buffer.new.items found) }
    ensures sound { (rows : List (List ℕ)) (junk : List ℕ) → Tells (B.disk bay.old) file → RowsAt rows junk place end ((B.disk bay.old).seen file)
        → (f p : ℕ) → IsErrOf result (Damaged f p) → ⊥ }
    ensures place { (f p : ℕ) → IsErrOf result (Damaged f p) → (f ≡ file) × (p ≡ 0) }
    ensures memory { IsErrOf result NoMemory → ⊥ }
    ensures conf { (key : ConfKey) → IsErrOf result (Conf key) → ⊥ }
    ensures range { IfOk result (λ found. IfSome found (λ n. place + (4 + n) ≤ end)) }
    ensures some { IfOk result (λ found. IsSome found) }
    ensures len { IfOk result (λ found. IfSome found (λ n. n ≡ vec_len buffer.new)) }
    ensures room { buffer_room ≤ vec_capacity buffer.new }
    ensures same { (B.disk bay.new).seen file ≡ (B.disk bay.old).seen file }
    ensures works { Works (File file) (B.disk bay.old) (B.disk bay.new) (Follows Same file (B.disk bay.old)) }
    ensures cause { HasLoadCause (B.count bay.old) (B.count bay.new) result }
{
    match find_row(bay, file, place, end, buffer) {
        Err(_) => Err(LoadError::Failed),
        Ok(None) => Err(LoadError::Damaged { file, place: 0 }),
        Ok(Some(n)) => Ok(Some(n)),
    }
}

// Reads the next payload, a row or one of the log, into the buffer, and answers its length. `None` where there is none.
fn step<B: Bay>(
    bay: &mut B,
    component: u8,
    index: Index,
    row: u64,
    row_end: u64,
    place: u64,
    end: u64,
    buffer: &mut Vec<u8>,
) -> Result<Option<u64>, LoadError>
    requires component { component < 5 }
    requires row_limit { row_end ≤ 2 ^ 62 }
    requires within { place < end }
    requires limit { end ≤ 2 ^ 62 }
    requires room { buffer_room ≤ vec_capacity buffer.old }
    ensures found { (h : Bool) (g f p : ℕ) (ps : List (List ℕ)) → Reading (B.disk bay.old) (loading component index h g row row_end place end f p) ps
        → IfOk result (λ found. Steps (B.disk bay.new) (loading component index h g row row_end place end f p) ps buffer.new.items found) }
    ensures damaged { (h : Bool) (g f p : ℕ) (ps : List (List ℕ)) → Reading (B.disk bay.old) (loading component index h g row row_end place end f p) ps
        → (x y : ℕ) → IsErrOf result (Damaged x y) → (row_end ≤ row) × IsDamagedLog (loading component index h g row row_end place end f p) (B.disk bay.old).seen }
    ensures whole { (h : Bool) (g f p : ℕ) (ps : List (List ℕ)) → Reading (B.disk bay.old) (loading component index h g row row_end place end f p) ps
        → row_end ≤ row → IsDamagedLog (loading component index h g row row_end place end f p) (B.disk bay.old).seen → IsErr result }
    ensures row_place { row < row_end → (x y : ℕ) → IsErrOf result (Damaged x y) → (x ≡ area_file component index) × (y ≡ 0) }
    ensures log_place { row_end ≤ row → (x y : ℕ) → IsErrOf result (Damaged x y) → (x ≡ log_file component index) × (y ≡ place) }
    ensures memory { IsErrOf result NoMemory → ⊥ }
    ensures conf { (key : ConfKey) → IsErrOf result (Conf key) → ⊥ }
    ensures row_range { row < row_end → IfOk result (λ found. IfSome found (λ n. row + (4 + n) ≤ row_end)) }
    ensures log_range { row_end ≤ row → IfOk result (λ found. IfSome found (λ n. place + (n + 6) ≤ end)) }
    ensures len { IfOk result (λ found. IfSome found (λ n. n ≡ vec_len buffer.new)) }
    ensures room { buffer_room ≤ vec_capacity buffer.new }
    ensures unchanged { Unchanged component (B.disk bay.old) (B.disk bay.new) }
    ensures stands { (h : Bool) (g f p : ℕ) → LoadStands (B.disk bay.old) (loading component index h g row row_end place end f p)
        → IfOk result (λ found. StepStands (B.disk bay.new) (loading component index h g row row_end place end f p) found) }
    ensures cause { HasLoadCause (B.count bay.old) (B.count bay.new) result }
{
    if row < row_end {
        return read_row(bay, area_number(component, index), row, row_end, buffer);
    }
    advance(bay, log_number(component, index), place, end, buffer)
}

// Where a load stands behind a payload.
#[derive(Clone, Copy)]
pub struct Spot {
    row: u64,
    place: u64,
    file: u32,
    last: u64,
}

fn spot_behind(component: u8, index: Index, row: u64, row_end: u64, place: u64, n: u64) -> Spot
    requires component { component < 5 }
    requires row { row < row_end → row + (4 + n) < 2 ^ 64 }
    requires place { row_end ≤ row → place + (5 + n) < 2 ^ 64 }
    ensures behind { (h : Bool) (g e f p : ℕ) → moved (loading component index h g row row_end place e f p) n ≡ loading component index h g result.row row_end result.place e result.file result.last }
    ensures row_case { row < row_end → result.place ≡ place }
    ensures log_case { row_end ≤ row → result.place ≡ place + (5 + n) }
{
    if row < row_end {
        return Spot {
            row: row + (4 + n),
            place,
            file: area_number(component, index),
            last: 0,
        };
    }
    Spot {
        row,
        place: place + (5 + n),
        file: log_number(component, index),
        last: place,
    }
}

/// A component's payloads, from the first one on.
#[derive(Drop)]
pub struct StoreLoading {
    component: u8,
    index: Index,
    has_area: bool,
    generation: u64,
    row: u64,
    row_end: u64,
    place: u64,
    end: u64,
    file: u32,
    last: u64,
    buffer: Vec<u8>,
}

impl Model for StoreLoading {
    ghost use Rattle.std.specs.Prelude.{◌<◌, ◌≤◌, ◌^◌, vec_capacity};
    ghost use Rattle.dm_journal.specs.Grammar.{buffer_room};
    ghost use Rattle.dm_ckpt.specs.Load.{LoadAt};

    ghost Value = { LoadAt };

    ghost view = { λ l. record { component = l.component; index = l.index; has_area = l.has_area; generation = l.generation; row = l.row; row_end = l.row_end; place = l.place; log_end = l.end; file = l.file; last = l.last } };

    ghost invariant = { λ l. (l.component < 5) × (l.row_end ≤ 2 ^ 62) × (l.place < l.end) × (l.end ≤ 2 ^ 62) × (buffer_room ≤ vec_capacity l.buffer) };
}

// A load that begins, with its buffer.
fn loading_from(
    alloc: Global,
    component: u8,
    origin: Origin,
    end: u64,
) -> Result<StoreLoading, LoadError>
    requires component { component < 5 }
    requires rows { 17 + origin.size ≤ 2 ^ 62 }
    requires within { 0 < end }
    requires limit { end ≤ 2 ^ 62 }
    ensures ok { IfOk result (λ l. l ≡ load_at component origin end) }
    ensures err { IfErr result (λ e. e ≡ NoMemory) }
{
    match Vec::with_capacity(alloc, CAPACITY) {
        Err(_) => Err(LoadError::NoMemory),
        Ok(buffer) => Ok(StoreLoading {
            component,
            index: origin.index,
            has_area: origin.has_area,
            generation: origin.generation,
            row: BODY_PLACE,
            row_end: BODY_PLACE + origin.size,
            place: 0,
            end,
            file: area_number(component, origin.index),
            last: 0,
            buffer,
        }),
    }
}

/// Begins to load a component's payloads; see `Store::open`.
pub(crate) fn open<B: Bay>(
    alloc: Global,
    bay: &mut B,
    component: u8,
) -> Result<StoreLoading, LoadError>
    requires { component < 5 }
    ensures reading { TellsMine (B.disk bay.old) component → IfOk result (λ l. Reading (B.disk bay.new) l []) }
    ensures means { TellsMine (B.disk bay.old) component → OnOk result (Means component (B.disk bay.old).seen (B.disk bay.new).seen) }
    ensures component { IfOk result (λ l. l.component ≡ component) }
    ensures any_moment { TellsMine (B.disk bay.old) component → Works (Mine component) (B.disk bay.old) (B.disk bay.new) (Retells component (B.disk bay.old)) }
    ensures others { Works (Mine component) (B.disk bay.old) (B.disk bay.new) (λ x. ⊤) }
    ensures damaged { TellsMine (B.disk bay.old) component → (f p : ℕ) → IsErrOf result (Damaged f p) → (p ≡ 0) × IsDamagedArea component f (B.disk bay.old).seen }
    ensures whole { TellsMine (B.disk bay.old) component → (f : ℕ) → IsDamagedArea component f (B.disk bay.old).seen → IsErr result × (IsErrOf result NoMemory → ⊥) }
    ensures conf { (key : ConfKey) → IsErrOf result (Conf key) → ⊥ }
    ensures stands { IfOk result (λ l. LoadStands (B.disk bay.new) l) }
    ensures cause { HasLoadCause (B.count bay.old) (B.count bay.new) result }
{
    match begin(bay, component) {
        Err(_) => Err(LoadError::Failed),
        Ok(Start::Refused(index)) => Err(LoadError::Damaged {
            file: area_number(component, index),
            place: 0,
        }),
        Ok(Start::Begun { origin, end }) => loading_from(alloc, component, origin, end),
    }
}

impl StoreLoading {
    ghost use Rattle.std.specs.Borrow.{sem};
    ghost use Rattle.std.specs.Io.BufRead.{Rests};
    ghost use Rattle.dm_ckpt.specs.contracts.loading.StoreLoading.{the_row};

    /// The next payload: the rows of the area in use, then the payloads of its log, and `None` behind them: then those
    /// handed out are all that the files stood for. After an error the load stands where it stood. Takes no memory.
    pub fn next<B: Bay>(&mut self, bay: &mut B) -> Result<Option<&[u8]>, LoadError>
        ensures* after_borrow { sem 𝓛 (Rests the_row self.entry (λ new. Gives self.old result new)) }
        ensures found { (ps : List (List ℕ)) → Reading (B.disk bay.old) self.old ps → IfOk result (λ found. Finds (B.disk bay.new) self.old ps found) }
        ensures all { (ps qs : List (List ℕ)) → Reading (B.disk bay.old) self.old ps → StandsFor self.old.component qs (B.disk bay.old).seen → IfOk result (λ found. AreAll ps qs found) }
        ensures damaged { (ps : List (List ℕ)) → Reading (B.disk bay.old) self.old ps
            → (x y : ℕ) → IsErrOf result (Damaged x y) → (self.old.row_end ≤ self.old.row) × IsDamagedLog self.old (B.disk bay.old).seen }
        ensures whole { (ps : List (List ℕ)) → Reading (B.disk bay.old) self.old ps → self.old.row_end ≤ self.old.row
            → IsDamagedLog self.old (B.disk bay.old).seen → IsErr result }
        ensures row_place { self.old.row < self.old.row_end → (x y : ℕ) → IsErrOf result (Damaged x y) → (x ≡ area_file self.old.component self.old.index) × (y ≡ 0) }
        ensures log_place { self.old.row_end ≤ self.old.row → (x y : ℕ) → IsErrOf result (Damaged x y) → (x ≡ log_file self.old.component self.old.index) × (y ≡ self.old.place) }
        ensures memory { IsErrOf result NoMemory → ⊥ }
        ensures conf { (key : ConfKey) → IsErrOf result (Conf key) → ⊥ }
        ensures unchanged { Unchanged self.old.component (B.disk bay.old) (B.disk bay.new) }
        ensures stands { LoadStands (B.disk bay.old) self.old → IfOk result (λ found. FindStands (B.disk bay.new) self.old found) }
        ensures cause { HasLoadCause (B.count bay.old) (B.count bay.new) result }
    {
        match step(
            bay,
            self.component,
            self.index,
            self.row,
            self.row_end,
            self.place,
            self.end,
            &mut self.buffer,
        ) {
            Err(error) => Err(error),
            Ok(None) => Ok(None),
            Ok(Some(n)) => {
                let spot = spot_behind(
                    self.component,
                    self.index,
                    self.row,
                    self.row_end,
                    self.place,
                    n,
                );
                self.row = spot.row;
                self.place = spot.place;
                self.file = spot.file;
                self.last = spot.last;
                Ok(Some(&self.buffer))
            }
        }
    }

    /// Whether an area is read, so that a snapshot stands at the front: its rows are then more than none.
    pub fn has_area(&self) -> bool
        ensures { result ≡ self.now.has_area }
    {
        self.has_area
    }

    /// The number of the file in which the last payload stands; before the first one that of the area of the index in
    /// use.
    pub fn file(&self) -> u32
        ensures { result ≡ self.now.file }
    {
        self.file
    }

    /// The place of the last payload's gate in its log, and 0 for a row.
    pub fn place(&self) -> u64
        ensures { result ≡ self.now.last }
    {
        self.last
    }

    /// The store, once `next` answered `None`.
    pub fn ready(self) -> Store
        ensures { result ≡ ready_at self }
    {
        store_at(
            self.component,
            self.index,
            self.generation,
            self.place,
            self.buffer,
        )
    }
}
