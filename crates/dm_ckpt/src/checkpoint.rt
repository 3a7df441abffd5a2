//! The four steps of a checkpoint, which goes to the index that isn't in use. Each step is on the disk before the next
//! one begins, and none writes to a file of the index in use.
//!
//! 1. The gate of the other area is closed. Until step 4 a crash then leaves that area shut, so the list is the one
//!    before. A gate that is closed already isn't written, since a write over it that is cut short may open it.
//! 2. The other log is emptied, by a closed gate at its start. It was the log of an earlier generation; once the area
//!    is open, what it holds counts.
//! 3. Generation, length and rows are written behind the gate. What a crash leaves of them has no meaning.
//! 4. The gate is opened. From the write on a crash leaves it open or not, so the new list or the one before; behind an
//!    open gate everything stands already.
ghost use Rattle.std.specs.Prelude.{◌≡◌, ◌↔◌, ◌+◌, ◌<◌, ◌≤◌, ◌^◌, ℕ, List, length, slice_index, vec_capacity, IsTrue, IfOk, OnOk, OnErr, ⊤};
ghost use Rattle.std.specs.List.{AllByRecursion};
ghost use Rattle.dm_host.specs.Count.{HasCause};
ghost use Rattle.dm_host.specs.Disk.{Only, Same};
ghost use Rattle.dm_host.specs.Works.{Works, File, Follows};
ghost use Rattle.dm_journal.specs.Grammar.{Fits, buffer_room};
ghost use Rattle.dm_ckpt.specs.declared.doubt.Doubt.TheVariants.{Sure, Closing, Turning};
ghost use Rattle.dm_ckpt.specs.Area.{IsClosed, body_length, body_limit};
ghost use Rattle.dm_ckpt.specs.Files.{opposite, area_file, log_file, Mine, Other};
ghost use Rattle.dm_ckpt.specs.State.{IsBehind, StandsFor, Either, at, Keeps, Closes, Emptied, Replaces, EmptyLog, last_generation};
ghost use Rattle.dm_host.specs.Disk.{Tells};

use crate::Rows;
use crate::area::write_rows;
use crate::files::{Index, area_number, log_number, opposite_of};
use dm_host::{Bay, Failed, write_synced};
use dm_journal::steps::OPEN;

// Whether an area's file has a gate, and that is closed.
fn is_closed<B: Bay>(bay: &mut B, file: u32) -> Result<bool, Failed>
    requires { file < 256 }
    ensures closed { Tells (B.disk bay.old) file → IfOk result (λ closed. IsTrue closed ↔ IsClosed ((B.disk bay.old).seen file)) }
    ensures same { (B.disk bay.new).seen file ≡ (B.disk bay.old).seen file }
    ensures works { Works (File file) (B.disk bay.old) (B.disk bay.new) (Follows Same file (B.disk bay.old)) }
    ensures cause { HasCause (B.count bay.old) (B.count bay.new) result }
{
    let len = bay.len(file)?;
    let mut gate = [0];
    bay.read(file, 0, &mut gate)?;
    if len == 0 {
        return Ok(false);
    }
    Ok(gate[0] != OPEN)
}

// Closes the gate of an area that is open or not there, and syncs.
fn close<B: Bay>(bay: &mut B, file: u32) -> Result<(), Failed>
    requires { file < 256 }
    ensures closed { Tells (B.disk bay.old) file → OnOk result (IsClosed ((B.disk bay.new).seen file)) }
    ensures durable { Tells (B.disk bay.old) file → Only ((B.disk bay.old).seen file) ((B.disk bay.old).may_leave file)
        → OnOk result (Only ((B.disk bay.new).seen file) ((B.disk bay.new).may_leave file)) }
    ensures behind { Tells (B.disk bay.old) file → (g : ℕ) → IsBehind g ((B.disk bay.old).seen file) → IsBehind g ((B.disk bay.new).seen file) }
    ensures any_moment { Tells (B.disk bay.old) file → (g : ℕ) → IsBehind g ((B.disk bay.old).seen file) → Only ((B.disk bay.old).seen file) ((B.disk bay.old).may_leave file)
        → Works (File file) (B.disk bay.old) (B.disk bay.new) (λ x. IsBehind g (x file)) }
    ensures others { Works (File file) (B.disk bay.old) (B.disk bay.new) (λ x. ⊤) }
    ensures cause { HasCause (B.count bay.old) (B.count bay.new) result }
{
    if is_closed(bay, file)? {
        return Ok(());
    }
    write_synced(bay, file, 0, &[0])
}

/// Steps 1 and 2. After them the other area is shut on the disk, and the other log is empty.
pub fn empty_other<B: Bay>(bay: &mut B, component: u8, index: Index) -> Result<(), Failed>
    requires { component < 5 }
    ensures ok { (g p : ℕ) (ps : List (List ℕ)) → Keeps (B.disk bay.old) (at component index g p Sure) ps
        → OnOk result (Emptied (B.disk bay.new) (at component index g p Turning) ps) }
    ensures err { (g p : ℕ) (ps : List (List ℕ)) → Keeps (B.disk bay.old) (at component index g p Sure) ps
        → OnErr result (Closes (B.disk bay.new) (at component index g p Closing) ps) }
    ensures any_moment { (g p : ℕ) (ps : List (List ℕ)) → Keeps (B.disk bay.old) (at component index g p Sure) ps
        → Works (Mine component) (B.disk bay.old) (B.disk bay.new) (StandsFor component ps) }
    ensures others { Works (Other component index) (B.disk bay.old) (B.disk bay.new) (λ x. ⊤) }
    ensures gate { Tells (B.disk bay.old) (area_file component (opposite index)) → OnOk result (0 < length ((B.disk bay.new).seen (area_file component (opposite index)))) }
    ensures spare { OnOk result (EmptyLog (B.disk bay.new) (log_file component (opposite index))) }
    ensures cause { HasCause (B.count bay.old) (B.count bay.new) result }
{
    let other = opposite_of(index);
    close(bay, area_number(component, other))?;
    write_synced(bay, log_number(component, other), 0, &[0])
}

/// Steps 3 and 4. The size is the length of the body that the rows make.
pub fn fill_other<B: Bay, T: Rows>(
    bay: &mut B,
    component: u8,
    index: Index,
    generation: u64,
    size: u64,
    state: &T,
    buffer: &mut Vec<u8>,
) -> Result<(), Failed>
    requires component { component < 5 }
    requires more { generation < last_generation }
    requires fits { AllByRecursion Fits (T.rows state.now) }
    requires size { size ≡ body_length (T.rows state.now) }
    requires small { size < body_limit }
    requires gate { Tells (B.disk bay.old) (area_file component (opposite index)) → 0 < length ((B.disk bay.old).seen (area_file component (opposite index))) }
    requires room { buffer_room ≤ vec_capacity buffer.old }
    ensures ok { (p : ℕ) (ps : List (List ℕ)) → Emptied (B.disk bay.old) (at component index generation p Turning) ps
        → OnOk result (Keeps (B.disk bay.new) (at component (opposite index) (generation + 1) 0 Sure) (T.rows state.now)) }
    ensures err { (p : ℕ) (ps : List (List ℕ)) → Emptied (B.disk bay.old) (at component index generation p Turning) ps
        → OnErr result (Replaces (B.disk bay.new) (at component index generation p Turning) ps (T.rows state.now)) }
    ensures any_moment { (p : ℕ) (ps : List (List ℕ)) → Emptied (B.disk bay.old) (at component index generation p Turning) ps
        → Works (Mine component) (B.disk bay.old) (B.disk bay.new) (Either component ps (T.rows state.now)) }
    ensures others { Works (File (area_file component (opposite index))) (B.disk bay.old) (B.disk bay.new) (λ x. ⊤) }
    ensures room { buffer_room ≤ vec_capacity buffer.new }
    ensures cause { HasCause (B.count bay.old) (B.count bay.new) result }
{
    let area = area_number(component, opposite_of(index));
    write_rows(bay, area, generation + 1, size, state, buffer)?;
    write_synced(bay, area, 0, &[OPEN])
}
