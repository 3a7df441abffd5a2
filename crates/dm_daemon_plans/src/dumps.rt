//! What the calls on dumps come to.

ghost use Rattle.std.specs.Prelude.{◌≡◌, IfOk};
ghost use Rattle.std.specs.FinMap as map;
ghost use Rattle.std.specs.Option.{option_copied};
ghost use Rattle.dm_durable.specs.Dumps.{bytes_kept, file_dumped, file_dumped_if, files_dumped, is_young as is_young_of, length_dumped as length_dumped_of};
ghost use Rattle.dm_model.specs.DaemonCalls.{is_expired as is_expired_test, make_dump as make_dump_plan, daemon_refusal, restore as restore_plan, restore_file as restore_file_plan, set_age as set_age_plan, undump as undump_plan};
ghost use Rattle.dm_model.specs.Plan.{no_needs};
ghost use Rattle.dm_tables.specs.Totals.{total};
ghost use Rattle.dm_verdicts.specs.Verdict.{verdict_on};

use crate::prepared::{first_error, journal_payload, refused_plan, step_plan, time_at, too_many};
use crate::sizes::{too_full, total_of};
use crate::writes::{changes_used, names_used, next_change};
use dm_base::{AGE_LIMIT, DUMPS_LIMIT, DaemonError, DumpName, Ino, NoMemory, Path, Secs};
use dm_durable::{Contents, DaemonStep, Dump, DumpInode, Inode};
use dm_model::{Answer, Daemon};
use dm_tables::{Numbers, Weight};
use dm_verdicts::{Verdict, legal};
use std::alloc::Global;

pub(crate) fn make_dump(
    alloc: Global,
    daemon: &Daemon,
    name: &DumpName,
    now: Secs,
) -> Result<Verdict, NoMemory>
    ensures { IfOk result (λ v. v ≡ verdict_on (make_dump_plan daemon.now name.now now.0) no_needs) }
{
    let dumps = &daemon.tables.dumps;
    let refusal = first_error(&[
        (dumps.contains(name.bytes()), DaemonError::Exists),
        (DUMPS_LIMIT <= dumps.len() as u64, too_many(DUMPS_LIMIT)),
        too_full(daemon, size_of_new(daemon)),
    ]);
    if let Some(error) = refusal {
        return Ok(legal(refused_plan(error)));
    }
    let step = DaemonStep::Dump {
        name: name.copied(alloc)?,
    };
    let files = files_of_new(daemon);
    Ok(legal(step_plan(
        journal_payload(daemon, now, step),
        Answer::DumpMade { files },
    )))
}

// The bytes that a dump of all files would keep.
fn size_of_new(daemon: &Daemon) -> u128
    ensures { result ≡ total bytes_kept (files_dumped daemon.now.tables.names daemon.now.tables.inodes) }
{
    total_of(
        &daemon.tables.names,
        &BytesDumped {
            inodes: &daemon.tables.inodes,
        },
    )
}

// How many files it would have.
fn files_of_new(daemon: &Daemon) -> u64
    ensures { result ≡ map.len (files_dumped daemon.now.tables.names daemon.now.tables.inodes) }
{
    daemon.tables.names.len() as u64
}

// The bytes that a dump would keep of the file that a name leads to.
#[derive(Drop)]
struct BytesDumped<'a> {
    inodes: &'a Numbers<Inode>,
}

impl Weight<Ino> for BytesDumped<'_> {
    ghost weight = { λ it n. bytes_kept (file_dumped_if (map.get it.inodes.now n.0)) };

    fn weigh(&self, number: &Ino) -> u64 {
        match self.inodes.get(u128::from(number.0)) {
            None => 0,
            Some(inode) => bytes_dumped(&inode.contents),
        }
    }
}

// The bytes that a dump keeps of a file that holds this.
fn bytes_dumped(contents: &Contents) -> u64
    ensures { result ≡ bytes_kept (file_dumped contents.now) }
{
    match contents {
        Contents::Regular { bytes } | Contents::Making { bytes, bfid: _ } => bytes.len() as u64,
        Contents::Dual { bytes: _, bfid: _ } | Contents::Offline { len: _, bfid: _ } => 0,
    }
}

pub(crate) fn undump(
    alloc: Global,
    daemon: &Daemon,
    name: &DumpName,
    now: Secs,
) -> Result<Verdict, NoMemory>
    ensures { IfOk result (λ v. v ≡ verdict_on (undump_plan daemon.now name.now now.0) no_needs) }
{
    let there = daemon.tables.dumps.contains(name.bytes());
    if let Some(error) = first_error(&[(!there, DaemonError::NoDump)]) {
        return Ok(legal(refused_plan(error)));
    }
    let step = DaemonStep::Undump {
        name: name.copied(alloc)?,
    };
    Ok(legal(step_plan(journal_payload(daemon, now, step), Answer::Undumped)))
}

pub(crate) fn restore(
    alloc: Global,
    daemon: &Daemon,
    name: &DumpName,
    path: &Path,
    target: &Path,
    now: Secs,
    dump: Option<&Dump>,
) -> Result<Verdict, NoMemory>
    ensures { IfOk result (λ v. v ≡ verdict_on (restore_plan daemon.now name.now path.now target.now now.0 (option_copied dump.entry)) no_needs) }
{
    let Some(dump) = dump else {
        return Ok(legal(refused_plan(DaemonError::NoDump)));
    };
    let file = dump.files.get(path.bytes());
    restore_file(alloc, daemon, name, path, target, now, dump, file)
}

// A restore from a dump that is there, which has this file of the path.
fn restore_file(
    alloc: Global,
    daemon: &Daemon,
    name: &DumpName,
    path: &Path,
    target: &Path,
    now: Secs,
    dump: &Dump,
    file: Option<&DumpInode>,
) -> Result<Verdict, NoMemory>
    ensures { IfOk result (λ v. v ≡ verdict_on (restore_file_plan daemon.now name.now path.now target.now now.0 dump.now (option_copied file.entry)) no_needs) }
{
    let Some(file) = file else {
        return Ok(legal(refused_plan(DaemonError::NoFile)));
    };
    let there = daemon.tables.names.contains(target.bytes());
    let refusal = first_error(&[
        is_expired(time_at(daemon, now), dump),
        (there, DaemonError::Exists),
        names_used(daemon),
        changes_used(daemon),
        too_full(daemon, u128::from(length_dumped(file))),
    ]);
    if let Some(error) = refusal {
        return Ok(legal(refused_plan(error)));
    }
    let change = next_change(daemon);
    let step = DaemonStep::Restore {
        name: name.copied(alloc)?,
        path: path.copied(alloc)?,
        target: target.copied(alloc)?,
        change,
    };
    Ok(legal(step_plan(
        journal_payload(daemon, now, step),
        Answer::Changed { change },
    )))
}

// The dump isn't young at this time.
fn is_expired(now: Secs, dump: &Dump) -> (bool, DaemonError)
    ensures { (result.0, daemon_refusal result.1) ≡ is_expired_test now.0 dump.now }
{
    let error = DaemonError::Expired {
        now,
        made: dump.made,
        age: dump.least,
    };
    (!is_young(now, dump), error)
}

fn is_young(now: Secs, dump: &Dump) -> bool
    ensures { result ≡ is_young_of now.0 dump.now }
{
    now.0.saturating_sub(dump.made.0) < dump.least
}

fn length_dumped(file: &DumpInode) -> u64
    ensures { result ≡ length_dumped_of file.now }
{
    match file {
        DumpInode::Kept { bytes } => bytes.len() as u64,
        DumpInode::Named { len, bfid: _ } => *len,
    }
}

pub(crate) fn set_age(daemon: &Daemon, age: u64, now: Secs) -> Verdict
    ensures { result ≡ verdict_on (set_age_plan daemon.now age now.0) no_needs }
{
    if let Some(error) = first_error(&[(AGE_LIMIT < age, too_many(AGE_LIMIT))]) {
        return legal(refused_plan(error));
    }
    let step = DaemonStep::Age { age };
    legal(step_plan(journal_payload(daemon, now, step), Answer::AgeSet))
}
