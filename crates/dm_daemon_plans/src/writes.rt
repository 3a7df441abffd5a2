//! What a write, a patch and a removal come to.

ghost use Rattle.std.specs.Prelude.{◌≡◌, ◌+◌, ◌<◌, ◌≤◌, ◌^◌, length, Some, IfOk, OnOk};
ghost use Rattle.std.specs.Option.{option_map};
ghost use Rattle.dm_daemon_plans.specs.Found.{numbered};
ghost use Rattle.dm_model.specs.DaemonCalls.{changes_used as changes_used_test, is_patch_too_long as is_patch_too_long_test, names_used as names_used_test, names_used_if as names_used_if_test, patch as patch_plan, daemon_refusal, remove as remove_plan, write as write_plan};
ghost use Rattle.dm_model.specs.Plan.{no_needs};
ghost use Rattle.dm_rules.specs.Patching.{with_patch as with_patch_of, with_overlay, with_zeros};
ghost use Rattle.dm_verdicts.specs.Verdict.{verdict_on};

use crate::files::{is_away, online, state_of};
use crate::prepared::{first_error, journal_payload, refused_plan, step_plan, too_many};
use crate::sizes::too_full_without;
use dm_base::{Bytes, DaemonError, FILE_LIMIT, FILES_LIMIT, NUMBER_LIMIT, NoMemory, Path, Secs};
use dm_durable::{DaemonStep, Inode};
use dm_model::{Answer, Daemon};
use dm_verdicts::{Verdict, legal};
use std::alloc::{AllocError, Global};

pub(crate) fn write(
    alloc: Global,
    daemon: &Daemon,
    path: &Path,
    bytes: &Bytes,
    now: Secs,
    file: Option<(u64, &Inode)>,
) -> Result<Verdict, NoMemory>
    ensures { IfOk result (λ v. v ≡ verdict_on (write_plan daemon.now path.now bytes.now now.0 (option_map (λ f. numbered f.0 f.1.now) file.entry)) no_needs) }
{
    let refusal = first_error(&[
        (FILE_LIMIT < bytes.len() as u64, too_many(FILE_LIMIT)),
        names_used_if(daemon, file),
        changes_used(daemon),
        too_full_without(daemon, file, bytes.len() as u128),
    ]);
    if let Some(error) = refusal {
        return Ok(legal(refused_plan(error)));
    }
    let change = next_change(daemon);
    let step = DaemonStep::Write {
        path: path.copied(alloc)?,
        change,
        bytes: bytes.copied(alloc)?,
    };
    Ok(legal(step_plan(
        journal_payload(daemon, now, step),
        Answer::Changed { change },
    )))
}

pub(crate) fn patch(
    alloc: Global,
    daemon: &Daemon,
    path: &Path,
    offset: u64,
    bytes: &Bytes,
    now: Secs,
    file: Option<(u64, &Inode)>,
) -> Result<Verdict, NoMemory>
    ensures { IfOk result (λ v. v ≡ verdict_on (patch_plan daemon.now path.now offset bytes.now now.0 (option_map (λ f. numbered f.0 f.1.now) file.entry)) no_needs) }
{
    if let Some((ino, inode)) = file {
        return patch_of(alloc, daemon, path, offset, bytes, now, ino, inode);
    }
    if let Some(error) = first_error(&[is_patch_too_long(offset, bytes.as_slice())]) {
        return Ok(legal(refused_plan(error)));
    }
    Ok(legal(refused_plan(DaemonError::NoFile)))
}

// A patch of the file with this inode. What is journal_payload is the write of the whole bytes.
fn patch_of(
    alloc: Global,
    daemon: &Daemon,
    path: &Path,
    offset: u64,
    bytes: &Bytes,
    now: Secs,
    ino: u64,
    inode: &Inode,
) -> Result<Verdict, NoMemory>
    ensures { IfOk result (λ v. v ≡ verdict_on (patch_plan daemon.now path.now offset bytes.now now.0 (Some (numbered ino inode.now))) no_needs) }
{
    let found = state_of(&daemon.requests, ino, &inode.contents);
    let old = online(&inode.contents);
    let len = patched_len(offset, bytes.as_slice(), old);
    let refusal = first_error(&[
        is_patch_too_long(offset, bytes.as_slice()),
        (is_away(found), DaemonError::WrongState { found }),
        changes_used(daemon),
        too_full_without(daemon, Some((ino, inode)), len),
    ]);
    if let Some(error) = refusal {
        return Ok(legal(refused_plan(error)));
    }
    let change = next_change(daemon);
    let step = DaemonStep::Write {
        path: path.copied(alloc)?,
        change,
        bytes: with_patch(alloc, offset, bytes.as_slice(), old)?,
    };
    Ok(legal(step_plan(
        journal_payload(daemon, now, step),
        Answer::Changed { change },
    )))
}

pub(crate) fn remove(
    alloc: Global,
    daemon: &Daemon,
    path: &Path,
    now: Secs,
    file: Option<(u64, &Inode)>,
) -> Result<Verdict, NoMemory>
    ensures { IfOk result (λ v. v ≡ verdict_on (remove_plan daemon.now path.now now.0 (option_map (λ f. numbered f.0 f.1.now) file.entry)) no_needs) }
{
    if file.is_none() {
        return Ok(legal(refused_plan(DaemonError::NoFile)));
    }
    if let Some(error) = first_error(&[changes_used(daemon)]) {
        return Ok(legal(refused_plan(error)));
    }
    let change = next_change(daemon);
    let step = DaemonStep::Remove {
        path: path.copied(alloc)?,
        change,
    };
    Ok(legal(step_plan(
        journal_payload(daemon, now, step),
        Answer::Changed { change },
    )))
}

/// The change numbers are used up.
pub(crate) fn changes_used(daemon: &Daemon) -> (bool, DaemonError)
    ensures { (result.0, daemon_refusal result.1) ≡ changes_used_test daemon.now }
{
    (NUMBER_LIMIT <= daemon.tables.change, too_many(NUMBER_LIMIT))
}

/// There is no place for a further name.
pub(crate) fn names_used(daemon: &Daemon) -> (bool, DaemonError)
    ensures { (result.0, daemon_refusal result.1) ≡ names_used_test daemon.now }
{
    (
        FILES_LIMIT <= daemon.tables.names.len() as u64,
        too_many(FILES_LIMIT),
    )
}

// A file that isn't there needs a name.
fn names_used_if(daemon: &Daemon, file: Option<(u64, &Inode)>) -> (bool, DaemonError)
    ensures { (result.0, daemon_refusal result.1) ≡ names_used_if_test daemon.now (option_map (λ f. numbered f.0 f.1.now) file.entry) }
{
    match file {
        None => names_used(daemon),
        Some(_) => (false, too_many(FILES_LIMIT)),
    }
}

/// The number of the next change.
pub(crate) fn next_change(daemon: &Daemon) -> u64
    requires { daemon.now.tables.change < 2 ^ 63 }
    ensures { result ≡ daemon.now.tables.change + 1 }
{
    daemon.tables.change + 1
}

// The range of a patch ends behind the longest file.
fn is_patch_too_long(offset: u64, bytes: &[u8]) -> (bool, DaemonError)
    ensures { (result.0, daemon_refusal result.1) ≡ is_patch_too_long_test offset bytes.now }
{
    (
        u128::from(FILE_LIMIT) < u128::from(offset) + bytes.len() as u128,
        too_many(FILE_LIMIT),
    )
}

// The length of bytes with others in the place of a range.
fn patched_len(offset: u64, bytes: &[u8], old: &[u8]) -> u128
    ensures { result ≡ length (with_patch_of offset bytes.now old.now) }
{
    let end = u128::from(offset) + bytes.len() as u128;
    end.max(old.len() as u128)
}

// The bytes with others in the place of a range; a gap is filled with zeros.
fn with_patch(alloc: Global, offset: u64, bytes: &[u8], old: &[u8]) -> Result<Bytes, NoMemory>
    requires { offset + length bytes.now ≤ 16777216 }
    ensures { IfOk result (λ whole. whole ≡ with_patch_of offset bytes.now old.now) }
{
    let mut whole = Vec::from_slice(alloc, old)?;
    write_over(&mut whole, offset as usize, bytes)?;
    Ok(Bytes::from_vec(whole))
}

// Writes a piece over the bytes at a place, which are lengthened with zeros where it ends past their end.
fn write_over(bytes: &mut Vec<u8>, place: usize, piece: &[u8]) -> Result<(), AllocError>
    requires { place + length piece.now ≤ 16777216 }
    ensures { OnOk result (bytes.new.items ≡ with_overlay place piece.now (with_zeros (place + length piece.now) bytes.old.items)) }
{
    lengthen(bytes, place + piece.len())?;
    overlay(bytes, place, piece);
    Ok(())
}

fn lengthen(bytes: &mut Vec<u8>, end: usize) -> Result<(), AllocError>
    ensures { OnOk result (bytes.new.items ≡ with_zeros end bytes.old.items) }
{
    if bytes.len() < end {
        bytes.resize(end, 0)?;
    }
    Ok(())
}

fn overlay(bytes: &mut [u8], place: usize, piece: &[u8])
    requires { place + length piece.now ≤ length bytes.old }
    ensures { bytes.new ≡ with_overlay place piece.now bytes.old }
{
    bytes[place..place + piece.len()].copy_from_slice(piece);
}
