//! How many bytes files and dumps have, and whether there is room for more.
//!
//! A sum over all dumps may pass 128 bits; it then stands at their last value, which is beyond every cap.

ghost use Rattle.std.specs.Prelude.{◌≡◌, ◌+◌, ◌-◌, ◌<◌, ◌^◌, ℕ, nat_lt};
ghost use Rattle.std.specs.Option.{option_map};
ghost use Rattle.dm_daemon_plans.specs.Found.{numbered, summed};
ghost use Rattle.dm_durable.specs.Daemon.{size_of as size_of_tables, size_of_dumps as size_of_all_dumps};
ghost use Rattle.dm_durable.specs.Dumps.{bytes_kept as bytes_kept_of, dump_size as dump_size_of};
ghost use Rattle.dm_model.specs.DaemonCalls.{daemon_refusal, size_without as size_without_file, too_full as too_full_test};
ghost use Rattle.dm_model.specs.Files.{length_at as length_at_of};
ghost use Rattle.dm_rules.specs.Numbers.{as_word as word_of};
ghost use Rattle.dm_tables.specs.Totals.{total};

use crate::files::len_of;
use dm_base::DaemonError;
use dm_durable::{DaemonTables, Dump, DumpInode, Inode};
use dm_model::Daemon;
use dm_tables::{Texts, Weight};

// The length of a file.
#[derive(Drop)]
struct FileLength;

impl Weight<Inode> for FileLength {
    ghost use Rattle.dm_durable.specs.Inodes.{length_of};

    ghost weight = { λ _ inode. length_of inode.contents };

    fn weigh(&self, inode: &Inode) -> u64 {
        len_of(&inode.contents)
    }
}

// The bytes that a dump keeps of a file.
#[derive(Drop)]
struct BytesKept;

impl Weight<DumpInode> for BytesKept {
    ghost use Rattle.dm_durable.specs.Dumps.{bytes_kept};

    ghost weight = { λ _ file. bytes_kept file };

    fn weigh(&self, file: &DumpInode) -> u64 {
        bytes_kept(file)
    }
}

fn bytes_kept(file: &DumpInode) -> u64
    ensures { result ≡ bytes_kept_of file.now }
{
    match file {
        DumpInode::Kept { bytes } => bytes.len() as u64,
        DumpInode::Named { len: _, bfid: _ } => 0,
    }
}

/// The sum of what the rows add.
pub(crate) fn total_of<V, W: Weight<V>>(rows: &Texts<V>, weight: &W) -> u128
    ensures { result ≡ total (W.weight weight.now) rows.now }
{
    let mut sum = 0;
    for (_, row) in rows.entries() {
        sum += u128::from(weight.weigh(row));
    }
    sum
}

fn dump_size(dump: &Dump) -> u128
    ensures { result ≡ dump_size_of dump.now }
{
    total_of(&dump.files, &BytesKept)
}

fn size_of_dumps(dumps: &Texts<Dump>) -> u128
    ensures { result ≡ summed (size_of_all_dumps dumps.now) }
{
    let mut sum: u128 = 0;
    for (_, dump) in dumps.entries() {
        sum = sum.saturating_add(dump_size(dump));
    }
    sum
}

// The bytes of all files, and those that are kept in dumps.
fn size_of(tables: &DaemonTables) -> u128
    ensures { result ≡ summed (size_of_tables tables.now) }
{
    let files = tables.inodes.total(&FileLength);
    files.saturating_add(size_of_dumps(&tables.dumps))
}

/// Whether files and dumps would pass the cap with `need` bytes more.
pub(crate) fn too_full(daemon: &Daemon, need: u128) -> (bool, DaemonError)
    ensures { (result.0, daemon_refusal result.1) ≡ too_full_test daemon.now (size_of_tables daemon.now.tables) need }
{
    full(size_of(&daemon.tables), need, daemon.cap)
}

/// The same where the present bytes of this file don't count.
pub(crate) fn too_full_without(
    daemon: &Daemon,
    file: Option<(u64, &Inode)>,
    need: u128,
) -> (bool, DaemonError)
    ensures { (result.0, daemon_refusal result.1) ≡ too_full_test daemon.now (size_without_file daemon.now (option_map (λ f. numbered f.0 f.1.now) file.entry)) need }
{
    let have = size_of(&daemon.tables).saturating_sub(u128::from(length_at(file)));
    full(have, need, daemon.cap)
}

fn full(have: u128, need: u128, cap: u64) -> (bool, DaemonError)
    ensures passes { result.0 ≡ nat_lt cap (have + need) }
    ensures error { result.1 ≡ DaemonError.Full (word_of have) (word_of need) cap }
{
    let error = DaemonError::Full {
        have: as_word(have),
        need: as_word(need),
        cap,
    };
    (passes(have, need, u128::from(cap)), error)
}

// The length of a file, if it is there.
fn length_at(file: Option<(u64, &Inode)>) -> u64
    ensures { result ≡ length_at_of (option_map (λ f. numbered f.0 f.1.now) file.entry) }
{
    match file {
        None => 0,
        Some((_, inode)) => len_of(&inode.contents),
    }
}

// Whether the sum passes the cap.
fn passes(have: u128, need: u128, cap: u128) -> bool
    ensures { result ≡ nat_lt cap (have + need) }
{
    if cap < need {
        return true;
    }
    if cap - need < have {
        return true;
    }
    false
}

// The number as 64 bits hold it.
fn as_word(number: u128) -> u64
    ensures { result ≡ word_of number }
{
    number.min(u128::from(u64::MAX)) as u64
}
