//! Writing an area. Its rows are gathered in the store's buffer and written in pieces as long as that, so that many
//! small rows are a few writes.
ghost use Rattle.std.specs.Prelude.{◌≡◌, ◌+◌, ◌<◌, ◌≤◌, ◌^◌, ℕ, List, [], ◌++◌, length, slice_index_or, take, vec_len, vec_capacity, OnOk};
ghost use Rattle.std.specs.List.{AllByRecursion};
ghost use Rattle.dm_host.specs.Count.{HasCause};
ghost use Rattle.dm_host.specs.Disk.{Only};
ghost use Rattle.dm_journal.specs.Grammar.{Fits, longest, buffer_room, inner};
ghost use Rattle.dm_ckpt.specs.Area.{body, body_length, body_limit, header, content, Begins};
ghost use Rattle.dm_host.specs.Disk.{Tells};
ghost use Rattle.dm_ckpt.specs.Writing.{WritesBehind, Gathers};

use crate::Rows;
use dm_host::{Bay, Failed};
use dm_journal::steps::CAPACITY;

// Makes the buffer hold an area's header.
#[tactic(auto, unfolding(crate::specs::Area::header))]
fn put_header(buffer: &mut Vec<u8>, generation: u64, size: u64)
    requires { 16 ≤ vec_capacity buffer.old }
    ensures bytes { buffer.new.items ≡ header generation size }
    ensures room { vec_capacity buffer.old ≤ vec_capacity buffer.new }
{
    buffer.clear();
    let _ = buffer.extend_from_slice(&generation.to_be_bytes());
    let _ = buffer.extend_from_slice(&size.to_be_bytes());
}

// Puts zeros behind what the buffer holds. It has room.
fn put_zeros(buffer: &mut Vec<u8>, n: usize)
    requires { vec_len buffer.old + n ≤ vec_capacity buffer.old }
    ensures len { vec_len buffer.new ≡ vec_len buffer.old + n }
    ensures front { take (vec_len buffer.old) buffer.new.items ≡ buffer.old.items }
    ensures room { vec_capacity buffer.old ≤ vec_capacity buffer.new }
{
    let _ = buffer.resize(buffer.len() + n, 0);
}

// Writes row k into the buffer from a place on, to its end.
fn fill_end<T: Rows>(buffer: &mut Vec<u8>, state: &T, k: u64, start: usize)
    requires below { k < length (T.rows state.now) }
    requires size { vec_len buffer.old ≡ start + length (slice_index_or (T.rows state.now) k []) }
    ensures bytes { buffer.new.items ≡ take start buffer.old.items ++ slice_index_or (T.rows state.now) k [] }
    ensures room { vec_capacity buffer.old ≤ vec_capacity buffer.new }
{
    state.fill(k, &mut buffer[start..]);
}

// Puts the length of a row and the row behind what the buffer holds.
fn put_row<T: Rows>(buffer: &mut Vec<u8>, state: &T, k: u64, n: usize)
    requires below { k < length (T.rows state.now) }
    requires size { n ≡ length (slice_index_or (T.rows state.now) k []) }
    requires small { n < 2 ^ 32 }
    requires room { vec_len buffer.old + (4 + n) ≤ vec_capacity buffer.old }
    ensures bytes { buffer.new.items ≡ buffer.old.items ++ inner (slice_index_or (T.rows state.now) k []) }
    ensures room { vec_capacity buffer.old ≤ vec_capacity buffer.new }
{
    let _ = buffer.extend_from_slice(&(n as u32).to_be_bytes());
    let start = buffer.len();
    put_zeros(buffer, n);
    fill_end(buffer, state, k, start);
}

// Writes what the buffer holds at a place, and empties it. The place moves behind that.
fn flush<B: Bay>(
    bay: &mut B,
    file: u32,
    place: &mut u64,
    buffer: &mut Vec<u8>,
) -> Result<(), Failed>
    requires file { file < 256 }
    requires behind { 1 ≤ place.old }
    requires reach { Tells (B.disk bay.old) file → place.old ≤ length ((B.disk bay.old).seen file) }
    ensures ok { (gate : ℕ) (bytes : List ℕ) → Tells (B.disk bay.old) file → Gathers (B.disk bay.old) file place.old buffer.old.items gate bytes
        → OnOk result (Gathers (B.disk bay.new) file place.new [] gate bytes) }
    ensures empty { OnOk result (vec_len buffer.new ≡ 0) }
    ensures room { vec_capacity buffer.old ≤ vec_capacity buffer.new }
    ensures forward { OnOk result (1 ≤ place.new) }
    ensures behind { WritesBehind file (B.disk bay.old) (B.disk bay.new) }
    ensures cause { HasCause (B.count bay.old) (B.count bay.new) result }
{
    bay.write(file, *place, buffer)?;
    *place += buffer.len() as u64;
    buffer.clear();
    Ok(())
}

// Makes room for n bytes behind what the buffer holds.
fn make_room<B: Bay>(
    bay: &mut B,
    file: u32,
    place: &mut u64,
    buffer: &mut Vec<u8>,
    n: usize,
) -> Result<(), Failed>
    requires file { file < 256 }
    requires behind { 1 ≤ place.old }
    requires reach { Tells (B.disk bay.old) file → place.old ≤ length ((B.disk bay.old).seen file) }
    requires size { n ≤ buffer_room }
    requires room { buffer_room ≤ vec_capacity buffer.old }
    ensures ok { (gate : ℕ) (bytes : List ℕ) → Tells (B.disk bay.old) file → Gathers (B.disk bay.old) file place.old buffer.old.items gate bytes
        → OnOk result (Gathers (B.disk bay.new) file place.new buffer.new.items gate bytes) }
    ensures fits { OnOk result (vec_len buffer.new + n ≤ vec_capacity buffer.new) }
    ensures room { buffer_room ≤ vec_capacity buffer.new }
    ensures forward { OnOk result (1 ≤ place.new) }
    ensures behind { WritesBehind file (B.disk bay.old) (B.disk bay.new) }
    ensures cause { HasCause (B.count bay.old) (B.count bay.new) result }
{
    if buffer.len() <= CAPACITY - n {
        return Ok(());
    }
    flush(bay, file, place, buffer)
}

// Takes one row more.
fn gather<B: Bay, T: Rows>(
    bay: &mut B,
    file: u32,
    place: &mut u64,
    state: &T,
    k: u64,
    buffer: &mut Vec<u8>,
) -> Result<(), Failed>
    requires file { file < 256 }
    requires behind { 1 ≤ place.old }
    requires reach { Tells (B.disk bay.old) file → place.old ≤ length ((B.disk bay.old).seen file) }
    requires below { k < length (T.rows state.now) }
    requires fits { Fits (slice_index_or (T.rows state.now) k []) }
    requires room { buffer_room ≤ vec_capacity buffer.old }
    ensures ok { (gate : ℕ) (bytes : List ℕ) → Tells (B.disk bay.old) file → Gathers (B.disk bay.old) file place.old buffer.old.items gate bytes
        → OnOk result (Gathers (B.disk bay.new) file place.new buffer.new.items gate (bytes ++ inner (slice_index_or (T.rows state.now) k []))) }
    ensures room { buffer_room ≤ vec_capacity buffer.new }
    ensures forward { OnOk result (1 ≤ place.new) }
    ensures behind { WritesBehind file (B.disk bay.old) (B.disk bay.new) }
    ensures cause { HasCause (B.count bay.old) (B.count bay.new) result }
{
    let n = state.len(k) as usize;
    make_room(bay, file, place, buffer, n + 4)?;
    put_row(buffer, state, k, n);
    Ok(())
}

/// Writes generation, length and rows behind the gate of an area, and syncs the file. The length is that of the rows'
/// body. Only bytes behind the gate are written.
pub fn write_rows<B: Bay, T: Rows>(
    bay: &mut B,
    file: u32,
    generation: u64,
    size: u64,
    state: &T,
    buffer: &mut Vec<u8>,
) -> Result<(), Failed>
    requires file { file < 256 }
    requires gate { Tells (B.disk bay.old) file → 0 < length ((B.disk bay.old).seen file) }
    requires fits { AllByRecursion Fits (T.rows state.now) }
    requires size { size ≡ body_length (T.rows state.now) }
    requires room { buffer_room ≤ vec_capacity buffer.old }
    ensures ok { (gate : ℕ) → Tells (B.disk bay.old) file → Begins gate [] ((B.disk bay.old).seen file)
        → OnOk result (Begins gate (content generation (T.rows state.now)) ((B.disk bay.new).seen file)) }
    ensures durable { Tells (B.disk bay.old) file → OnOk result (Only ((B.disk bay.new).seen file) ((B.disk bay.new).may_leave file)) }
    ensures room { buffer_room ≤ vec_capacity buffer.new }
    ensures behind { WritesBehind file (B.disk bay.old) (B.disk bay.new) }
    ensures cause { HasCause (B.count bay.old) (B.count bay.new) result }
{
    put_header(buffer, generation, size);
    let mut place = 1;
    for k in 0..state.count() {
        gather(bay, file, &mut place, state, k, buffer)?;
    }
    flush(bay, file, &mut place, buffer)?;
    bay.sync(file)
}
