//! What stands in an area's file, read without its rows: nothing is kept but numbers, and no memory is taken.
ghost use Rattle.std.specs.Prelude.{◌≡◌, ◌↔◌, ◌+◌, ◌-◌, ◌<◌, ◌≤◌, ◌^◌, ℕ, List, ◌∷◌, length, drop, take, IsTrue, IfOk, OnOk, IfSome};
ghost use Rattle.std.specs.Int.{w32, w64, to_be_bytes};
ghost use Rattle.dm_host.specs.Count.{HasCause};
ghost use Rattle.dm_host.specs.Disk.{Only, Same, part};
ghost use Rattle.dm_host.specs.Works.{Works, File, Follows};
ghost use Rattle.dm_journal.specs.Grammar.{longest};
ghost use Rattle.dm_ckpt.specs.Area.{header, BeginsWithRows};
ghost use Rattle.dm_ckpt.specs.State.{MayHold};
ghost use Rattle.dm_ckpt.specs.Survey.{Says, RowAt, HoldsIf, Surveys, size_found};
ghost use Rattle.dm_host.specs.Disk.{Tells};

use dm_host::{Bay, Failed};
use dm_journal::MAX_PAYLOAD;
use dm_journal::steps::OPEN;

/// The place of an area's body: behind the gate, the generation and the length.
pub const BODY_PLACE: u64 = 17;

// The first 17 bytes of an area's file.
#[derive(Clone, Copy)]
pub struct Header {
    pub gate: u8,
    pub generation: u64,
    pub size: u64,
}

/// An area that is open: its generation, and the length of its body.
#[derive(Clone, Copy)]
pub struct Area {
    pub generation: u64,
    pub size: u64,
}

/// What stands in an area's file.
#[derive(Clone, Copy)]
pub enum Found {
    /// No area, or one that is shut.
    Shut,
    /// An area that is open, and outside the grammar.
    Wrong,
    Open(Area),
}

fn number_of(bytes: [u8; 8]) -> u64
    ensures { to_be_bytes w64 result ≡ bytes }
{
    u64::from_be_bytes(bytes)
}

fn length_of(bytes: [u8; 4]) -> u64
    ensures back { to_be_bytes w32 result ≡ bytes }
    ensures range { result < 2 ^ 32 }
{
    u32::from_be_bytes(bytes) as u64
}

fn header_of(b: &[u8; 17]) -> Header
    ensures { b.now ≡ result.gate ∷ header result.generation result.size }
{
    Header {
        gate: b[0],
        generation: number_of([b[1], b[2], b[3], b[4], b[5], b[6], b[7], b[8]]),
        size: number_of([b[9], b[10], b[11], b[12], b[13], b[14], b[15], b[16]]),
    }
}

// Reads the header of an area's file, zeros past its end.
fn read_header<B: Bay>(bay: &mut B, file: u32) -> Result<Header, Failed>
    requires { file < 256 }
    ensures says { Tells (B.disk bay.old) file → IfOk result (λ h. Says h ((B.disk bay.old).seen file)) }
    ensures same { (B.disk bay.new).seen file ≡ (B.disk bay.old).seen file }
    ensures works { Works (File file) (B.disk bay.old) (B.disk bay.new) (Follows Same file (B.disk bay.old)) }
    ensures cause { HasCause (B.count bay.old) (B.count bay.new) result }
{
    let mut bytes = [0; 17];
    bay.read(file, 0, &mut bytes)?;
    Ok(header_of(&bytes))
}

// Whether an area with this header, which is shut or of that generation, is open. The generation isn't the first.
fn is_of(header: Header, generation: u64) -> bool
    requires { 0 < generation }
    ensures { (rows : List (List ℕ)) (file : List ℕ) → Says header file → MayHold generation rows file → HoldsIf result generation rows file }
{
    if header.gate != OPEN {
        return false;
    }
    if header.generation != generation {
        return false;
    }
    true
}

// Syncs an area's file and reads its header.
fn synced_header<B: Bay>(bay: &mut B, file: u32) -> Result<Header, Failed>
    requires { file < 256 }
    ensures says { Tells (B.disk bay.old) file → IfOk result (λ h. Says h ((B.disk bay.old).seen file)) }
    ensures same { (B.disk bay.new).seen file ≡ (B.disk bay.old).seen file }
    ensures durable { Tells (B.disk bay.old) file → OnOk result (Only ((B.disk bay.new).seen file) ((B.disk bay.new).may_leave file)) }
    ensures works { Works (File file) (B.disk bay.old) (B.disk bay.new) (Follows Same file (B.disk bay.old)) }
    ensures cause { HasCause (B.count bay.old) (B.count bay.new) result }
{
    bay.sync(file)?;
    read_header(bay, file)
}

/// Whether an area that is shut or of this generation is open. The generation isn't the first. The file is synced
/// first.
pub fn is_open<B: Bay>(bay: &mut B, file: u32, generation: u64) -> Result<bool, Failed>
    requires file { file < 256 }
    requires later { 0 < generation }
    ensures ok { (rows : List (List ℕ)) → Tells (B.disk bay.old) file → MayHold generation rows ((B.disk bay.old).seen file)
        → IfOk result (λ is. HoldsIf is generation rows ((B.disk bay.old).seen file)) }
    ensures same { (B.disk bay.new).seen file ≡ (B.disk bay.old).seen file }
    ensures durable { Tells (B.disk bay.old) file → OnOk result (Only ((B.disk bay.new).seen file) ((B.disk bay.new).may_leave file)) }
    ensures works { Works (File file) (B.disk bay.old) (B.disk bay.new) (Follows Same file (B.disk bay.old)) }
    ensures cause { HasCause (B.count bay.old) (B.count bay.new) result }
{
    let header = synced_header(bay, file)?;
    Ok(is_of(header, generation))
}

/// The length of the row at a place before the end of a body. `None` where the row isn't whole, or too long for a log.
pub fn row_len<B: Bay>(bay: &mut B, file: u32, place: u64, end: u64) -> Result<Option<u64>, Failed>
    requires file { file < 256 }
    requires within { place < end }
    requires limit { end ≤ 2 ^ 62 }
    ensures found { Tells (B.disk bay.old) file → end ≤ length ((B.disk bay.old).seen file)
        → IfOk result (λ found. RowAt found (end - place) (drop place ((B.disk bay.old).seen file))) }
    ensures range { IfOk result (λ found. IfSome found (λ n. (n ≤ longest) × (place + (4 + n) ≤ end))) }
    ensures same { (B.disk bay.new).seen file ≡ (B.disk bay.old).seen file }
    ensures works { Works (File file) (B.disk bay.old) (B.disk bay.new) (Follows Same file (B.disk bay.old)) }
    ensures cause { HasCause (B.count bay.old) (B.count bay.new) result }
{
    let mut bytes = [0; 4];
    bay.read(file, place, &mut bytes)?;
    let n = length_of(bytes);
    if n > MAX_PAYLOAD {
        return Ok(None);
    }
    if n + 4 > end - place {
        return Ok(None);
    }
    Ok(Some(n))
}

// Whether what stands between a place and the end is rows.
fn are_rows<B: Bay>(bay: &mut B, file: u32, place: u64, end: u64) -> Result<bool, Failed>
    requires file { file < 256 }
    requires within { place ≤ end }
    requires limit { end ≤ 2 ^ 62 }
    ensures told { Tells (B.disk bay.old) file → end ≤ length ((B.disk bay.old).seen file)
        → IfOk result (λ are. IsTrue are ↔ BeginsWithRows (end - place) (drop place ((B.disk bay.old).seen file))) }
    ensures same { (B.disk bay.new).seen file ≡ (B.disk bay.old).seen file }
    ensures works { Works (File file) (B.disk bay.old) (B.disk bay.new) (Follows Same file (B.disk bay.old)) }
    ensures cause { HasCause (B.count bay.old) (B.count bay.new) result }
{
    let mut next = place;
    while next < end {
        let Some(n) = row_len(bay, file, next, end)? else {
            return Ok(false);
        };
        next += 4 + n;
    }
    Ok(true)
}

// The length of an area's file, and its header.
fn sized_header<B: Bay>(bay: &mut B, file: u32) -> Result<(u64, Header), Failed>
    requires { file < 256 }
    ensures size { Tells (B.disk bay.old) file → IfOk result (λ r. r.0 ≡ length ((B.disk bay.old).seen file)) }
    ensures says { Tells (B.disk bay.old) file → IfOk result (λ r. Says r.1 ((B.disk bay.old).seen file)) }
    ensures limit { IfOk result (λ r. r.0 ≤ 2 ^ 62) }
    ensures same { (B.disk bay.new).seen file ≡ (B.disk bay.old).seen file }
    ensures works { Works (File file) (B.disk bay.old) (B.disk bay.new) (Follows Same file (B.disk bay.old)) }
    ensures cause { HasCause (B.count bay.old) (B.count bay.new) result }
{
    let len = bay.len(file)?;
    let header = read_header(bay, file)?;
    Ok((len, header))
}

// Whether the file has an area that is open.
fn has_area(len: u64, header: Header) -> bool
    ensures { IsTrue result ↔ ((1 < len) × (header.gate ≡ 1)) }
{
    len > 1 && header.gate == OPEN
}

// Whether the file is as long as its header says.
fn has_body(len: u64, header: Header) -> bool
    ensures { IsTrue result ↔ (17 + header.size ≤ len) }
{
    len >= BODY_PLACE && header.size <= len - BODY_PLACE
}

/// What stands in an area's file. `Wrong` comes exactly where it is open and outside the grammar.
pub fn survey<B: Bay>(bay: &mut B, file: u32) -> Result<Found, Failed>
    requires { file < 256 }
    ensures found { Tells (B.disk bay.old) file → IfOk result (λ found. Surveys found ((B.disk bay.old).seen file)) }
    ensures range { IfOk result (λ found. 17 + size_found found ≤ 2 ^ 62) }
    ensures same { (B.disk bay.new).seen file ≡ (B.disk bay.old).seen file }
    ensures works { Works (File file) (B.disk bay.old) (B.disk bay.new) (Follows Same file (B.disk bay.old)) }
    ensures cause { HasCause (B.count bay.old) (B.count bay.new) result }
{
    let (len, header) = sized_header(bay, file)?;
    if !has_area(len, header) {
        return Ok(Found::Shut);
    }
    if !has_body(len, header) {
        return Ok(Found::Wrong);
    }
    if !are_rows(bay, file, BODY_PLACE, BODY_PLACE + header.size)? {
        return Ok(Found::Wrong);
    }
    Ok(Found::Open(Area {
        generation: header.generation,
        size: header.size,
    }))
}
