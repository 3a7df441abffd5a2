//! Room for what a step wants.

ghost use Rattle.std.specs.Prelude.{◌≡◌, ◌+◌, ◌&&◌, is_none, nat_le, nat_lt};
ghost use Rattle.dm_base.specs.declared.error.DaemonError.TheVariants.{Full};
ghost use Rattle.dm_base.specs.Limits.{files_limit};
ghost use Rattle.dm_daemon_refusals.specs.Seen.{IsRefusal, without_file as without_file_of};
ghost use Rattle.dm_rules.specs.Numbers.{as_word};

use dm_base::{DaemonError, FILES_LIMIT};

// Whether what is there and what a step wants pass the cap together, and the refusal then.
pub(crate) fn too_full(have: u64, need: u64, cap: u64) -> (bool, DaemonError)
    ensures test { result.0 ≡ nat_lt cap (have + need) }
    ensures error { result.1 ≡ Full (as_word have) (as_word need) cap }
    ensures refusal { IsRefusal result.1 }
{
    let full = u128::from(cap) < u128::from(have) + u128::from(need);
    (full, DaemonError::Full { have, need, cap })
}

// The bytes that are left of all without those of a file, if it is there.
pub(crate) fn without_file(size: u64, len: Option<u64>) -> u64
    ensures { result ≡ without_file_of size len }
{
    match len {
        None => size,
        Some(len) => size.saturating_sub(len),
    }
}

// Whether a file that isn't there finds no place for its name.
pub(crate) fn lacks_name(len: Option<u64>, files: u64) -> bool
    ensures { result ≡ (is_none len && nat_le files_limit files) }
{
    match len {
        None => FILES_LIMIT <= files,
        Some(_) => false,
    }
}
