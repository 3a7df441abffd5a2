//! What stands in a journal file, read over its numbers and a buffer.
ghost use Rattle.std.specs.Prelude.{◌≡◌, ◌+◌, ◌<◌, ◌≤◌, ◌^◌, ℕ, List, [], length, vec_len, vec_capacity, IfOk, OnOk, IfSome, IsErrOf, ⊤};
ghost use Rattle.std.specs.Int.{w32, to_be_bytes};
ghost use Rattle.dm_host.specs.Count.{HasCause};
ghost use Rattle.dm_host.specs.Disk.{Only, Same, Tells, part};
ghost use Rattle.dm_host.specs.Works.{Works, File, Follows};
ghost use Rattle.dm_base.specs.declared.conf.ConfKey.{ConfKey};
ghost use Rattle.dm_base.specs.declared.error.LoadError.TheVariants.{Conf, Damaged, NoMemory};
ghost use Rattle.dm_journal.specs.Grammar.{longest, buffer_room};
ghost use Rattle.dm_journal.specs.Load.{Reading, Reopens, opened, loading_at, IsDamage, Measures, Advances, HasLoadCause};

use crate::frame::OPEN;
use crate::{LoadError, MAX_PAYLOAD};
use dm_host::{Bay, Failed, write_synced};

// Syncs the file, and tells its length.
fn synced_len<B: Bay>(bay: &mut B, file: u32) -> Result<u64, Failed>
    requires { file < 256 }
    ensures len { Tells (B.disk bay.old) file → IfOk result (λ n. n ≡ length ((B.disk bay.old).seen file)) }
    ensures limit { IfOk result (λ n. n ≤ 2 ^ 62) }
    ensures same { (B.disk bay.new).seen file ≡ (B.disk bay.old).seen file }
    ensures durable { Tells (B.disk bay.old) file → OnOk result (Only ((B.disk bay.new).seen file) ((B.disk bay.new).may_leave file)) }
    ensures works { Works (File file) (B.disk bay.old) (B.disk bay.new) (Follows Same file (B.disk bay.old)) }
    ensures cause { HasCause (B.count bay.old) (B.count bay.new) result }
{
    bay.sync(file)?;
    bay.len(file)
}

/// Syncs the file and answers its length. One of at most a byte gets a closed gate first.
pub fn open<B: Bay>(bay: &mut B, file: u32) -> Result<u64, Failed>
    requires { file < 256 }
    ensures content { Tells (B.disk bay.old) file → OnOk result ((B.disk bay.new).seen file ≡ opened ((B.disk bay.old).seen file)) }
    ensures reading { Tells (B.disk bay.old) file → IfOk result (λ end. Reading (B.disk bay.new) (loading_at file 0 0 end) []) }
    ensures range { IfOk result (λ end. (0 < end) × (end ≤ 2 ^ 62)) }
    ensures any_moment { Tells (B.disk bay.old) file → Works (File file) (B.disk bay.old) (B.disk bay.new) (Follows Reopens file (B.disk bay.old)) }
    ensures others { Works (File file) (B.disk bay.old) (B.disk bay.new) (λ x. ⊤) }
    ensures cause { HasCause (B.count bay.old) (B.count bay.new) result }
{
    let len = synced_len(bay, file)?;
    if len > 1 {
        return Ok(len);
    }
    write_synced(bay, file, 0, &[0])?;
    Ok(1)
}

fn number(bytes: [u8; 4]) -> u64
    ensures back { to_be_bytes w32 result ≡ bytes }
    ensures range { result < 2 ^ 32 }
{
    u32::from_be_bytes(bytes) as u64
}

// The length of the payload whose gate stands at this place; `None` where the gate is closed.
fn measure<B: Bay>(bay: &mut B, file: u32, place: u64, end: u64) -> Result<Option<u64>, LoadError>
    requires file { file < 256 }
    requires within { place < end }
    requires limit { end ≤ 2 ^ 62 }
    ensures found { (ps : List (List ℕ)) → Reading (B.disk bay.old) (loading_at file place 0 end) ps
        → IfOk result (λ found. Measures (B.disk bay.new) (loading_at file place 0 end) ps found) }
    ensures damaged { (ps : List (List ℕ)) → Reading (B.disk bay.old) (loading_at file place 0 end) ps
        → (f p : ℕ) → IsErrOf result (Damaged f p) → IsDamage ps ((B.disk bay.old).seen file) }
    ensures place { (f p : ℕ) → IsErrOf result (Damaged f p) → (f ≡ file) × (p ≡ place) }
    ensures memory { IsErrOf result NoMemory → ⊥ }
    ensures conf { (key : ConfKey) → IsErrOf result (Conf key) → ⊥ }
    ensures range { IfOk result (λ found. IfSome found (λ n. (n ≤ longest) × (place + (n + 6) ≤ end))) }
    ensures same { (B.disk bay.new).seen file ≡ (B.disk bay.old).seen file }
    ensures works { Works (File file) (B.disk bay.old) (B.disk bay.new) (Follows Same file (B.disk bay.old)) }
    ensures cause { HasLoadCause (B.count bay.old) (B.count bay.new) result }
{
    let mut header = [0; 5];
    bay.read(file, place, &mut header)
        .map_err(|_| LoadError::Failed)?;
    if header[0] != OPEN {
        return Ok(None);
    }
    let n = number([header[1], header[2], header[3], header[4]]);
    if n > MAX_PAYLOAD {
        return Err(LoadError::Damaged { file, place });
    }
    if n + 6 > end - place {
        return Err(LoadError::Damaged { file, place });
    }
    Ok(Some(n))
}

// Makes the buffer as long as that. It has room.
fn set_len(buffer: &mut Vec<u8>, n: usize)
    requires { n ≤ vec_capacity buffer.old }
    ensures len { vec_len buffer.new ≡ n }
    ensures room { vec_capacity buffer.old ≤ vec_capacity buffer.new }
{
    let _ = buffer.resize(n, 0);
}

// Reads n bytes into the buffer, which then holds nothing else.
fn fetch<B: Bay>(
    bay: &mut B,
    file: u32,
    place: u64,
    n: usize,
    buffer: &mut Vec<u8>,
) -> Result<(), Failed>
    requires file { file < 256 }
    requires range { place + n ≤ 2 ^ 63 }
    requires room { n ≤ vec_capacity buffer.old }
    ensures bytes { Tells (B.disk bay.old) file → OnOk result (buffer.new.items ≡ part ((B.disk bay.old).seen file) place n) }
    ensures len { vec_len buffer.new ≡ n }
    ensures room { vec_capacity buffer.old ≤ vec_capacity buffer.new }
    ensures same { (B.disk bay.new).seen file ≡ (B.disk bay.old).seen file }
    ensures works { Works (File file) (B.disk bay.old) (B.disk bay.new) (Follows Same file (B.disk bay.old)) }
    ensures cause { HasCause (B.count bay.old) (B.count bay.new) result }
{
    set_len(buffer, n);
    bay.read(file, place, buffer)
}

/// Reads the payload whose gate stands at this place, and answers its length; `None` where the gate is closed.
pub fn advance<B: Bay>(
    bay: &mut B,
    file: u32,
    place: u64,
    end: u64,
    buffer: &mut Vec<u8>,
) -> Result<Option<u64>, LoadError>
    requires file { file < 256 }
    requires within { place < end }
    requires limit { end ≤ 2 ^ 62 }
    requires room { buffer_room ≤ vec_capacity buffer.old }
    ensures found { (ps : List (List ℕ)) → Reading (B.disk bay.old) (loading_at file place 0 end) ps
        → IfOk result (λ found. Advances (B.disk bay.new) (loading_at file place 0 end) ps buffer.new.items found) }
    ensures damaged { (ps : List (List ℕ)) → Reading (B.disk bay.old) (loading_at file place 0 end) ps
        → (f p : ℕ) → IsErrOf result (Damaged f p) → IsDamage ps ((B.disk bay.old).seen file) }
    ensures place { (f p : ℕ) → IsErrOf result (Damaged f p) → (f ≡ file) × (p ≡ place) }
    ensures memory { IsErrOf result NoMemory → ⊥ }
    ensures conf { (key : ConfKey) → IsErrOf result (Conf key) → ⊥ }
    ensures range { IfOk result (λ found. IfSome found (λ n. place + (n + 6) ≤ end)) }
    ensures len { IfOk result (λ found. IfSome found (λ n. n ≡ vec_len buffer.new)) }
    ensures room { buffer_room ≤ vec_capacity buffer.new }
    ensures same { (B.disk bay.new).seen file ≡ (B.disk bay.old).seen file }
    ensures works { Works (File file) (B.disk bay.old) (B.disk bay.new) (Follows Same file (B.disk bay.old)) }
    ensures cause { HasLoadCause (B.count bay.old) (B.count bay.new) result }
{
    match measure(bay, file, place, end)? {
        None => Ok(None),
        Some(n) => {
            fetch(bay, file, place + 5, n as usize, buffer).map_err(|_| LoadError::Failed)?;
            Ok(Some(n))
        }
    }
}
