//! Refusals of calls on files.

ghost use Rattle.std.specs.Prelude.{◌≡◌, ◌≤◌, ◌+◌, ℕ, List, Option, Some, IfSome, length};
ghost use Rattle.std.specs.Option.{option_map};
ghost use Rattle.dm_daemon_refusals.specs.Seen.{IsRefusal, daemon_of, length_if};
ghost use Rattle.dm_daemon_tables.specs.declared.tables.Tables.{Tables as TheTables};
ghost use Rattle.dm_daemon_tables.specs.Tables.{state_of as tables_of};
ghost use Rattle.dm_durable.specs.Inodes.{bytes_online};
ghost use Rattle.dm_requests.specs.declared.requests.Requests.{Requests as TheRequests};
ghost use Rattle.dm_rules.specs.Patching.{with_patch};
ghost use Rattle.dm_durable.specs.Daemon.{size_of};
ghost use Rattle.dm_model.specs.DaemonCalls.{daemon_refusal, patch, put_refusals, release, remove, write};
ghost use Rattle.dm_model.specs.Files.{File};
ghost use Rattle.dm_model.specs.Guards.{first_true};
ghost use Rattle.dm_model.specs.Plan.{refusal_of};

use crate::first::first_error;
use crate::looks::{is_away, is_dual, is_regular, state};
use crate::sizes::{lacks_name, too_full, without_file};
use dm_base::{DaemonError, ENTRIES_LIMIT, FILE_LIMIT, FILES_LIMIT, Ino, NUMBER_LIMIT};
use dm_daemon_tables::Tables;
use dm_durable::Inode;
use dm_inodes::length;
use dm_requests::Requests;

/// Why no put of the file may begin: it is stored or being stored; there is no place for a further entry; the counter is used
/// up.
pub fn put_refusal(
    tables: &Tables,
    requests: &Requests,
    ino: Ino,
    inode: &Inode,
) -> Option<DaemonError>
    ensures first { (cap : ℕ) → option_map daemon_refusal result ≡ first_true (put_refusals (daemon_of tables.now requests.now cap) (record { number = ino.0; inode = inode.now })) }
    ensures refusal { IfSome result IsRefusal }
{
    let found = state(requests, ino, &inode.contents);
    let tests = [
        (!is_regular(found), DaemonError::WrongState { found }),
        (
            ENTRIES_LIMIT <= tables.entries() as u64,
            DaemonError::TooMany {
                limit: ENTRIES_LIMIT,
            },
        ),
        (
            NUMBER_LIMIT < tables.counter(),
            DaemonError::TooMany {
                limit: NUMBER_LIMIT,
            },
        ),
    ];
    first_error(&tests)
}

/// Why the file isn't released: it isn't dual-state.
pub fn release_refusal(requests: &Requests, ino: Ino, inode: &Inode) -> Option<DaemonError>
    ensures first { (tables : TheTables) (cap now : ℕ) (path : List ℕ) → option_map daemon_refusal result ≡ refusal_of (release (daemon_of tables requests.now cap) path now (Some (record { number = ino.0; inode = inode.now }))) }
    ensures refusal { IfSome result IsRefusal }
{
    let found = state(requests, ino, &inode.contents);
    let tests = [(!is_dual(found), DaemonError::WrongState { found })];
    first_error(&tests)
}

/// Why the file isn't removed: the numbers of changes are used up.
pub fn remove_refusal(tables: &Tables) -> Option<DaemonError>
    ensures first { (requests : TheRequests) (cap now : ℕ) (path : List ℕ) (f : File) → option_map daemon_refusal result ≡ refusal_of (remove (daemon_of tables.now requests cap) path now (Some f)) }
    ensures refusal { IfSome result IsRefusal }
{
    let tests = [(
        NUMBER_LIMIT <= tables.change(),
        DaemonError::TooMany {
            limit: NUMBER_LIMIT,
        },
    )];
    first_error(&tests)
}

/// Why the bytes aren't written: they are too many for a file; there is no place for a further name, if there is no file of
/// that path; the numbers of changes are used up; files and dumps would pass the cap. `old` is the length of the file, if it is
/// there.
pub fn write_refusal(tables: &Tables, cap: u64, old: Option<u64>, len: u64) -> Option<DaemonError>
    requires { size_of (tables_of tables.now) ≤ cap }
    ensures first { (requests : TheRequests) (path bytes : List ℕ) (now : ℕ) (o : Option File) → old ≡ length_if o → len ≡ length bytes
        → option_map daemon_refusal result ≡ refusal_of (write (daemon_of tables.now requests cap) path bytes now o) }
    ensures refusal { IfSome result IsRefusal }
{
    let have = without_file(tables.size(), old);
    let tests = [
        (FILE_LIMIT < len, DaemonError::TooMany { limit: FILE_LIMIT }),
        (
            lacks_name(old, tables.files() as u64),
            DaemonError::TooMany { limit: FILES_LIMIT },
        ),
        (
            NUMBER_LIMIT <= tables.change(),
            DaemonError::TooMany {
                limit: NUMBER_LIMIT,
            },
        ),
        too_full(have, len, cap),
    ];
    first_error(&tests)
}

/// Why the file isn't patched: the range ends behind the longest file; the bytes are on volumes alone; the numbers of changes
/// are used up; files and dumps would pass the cap. `end` is where the range ends, and `len` the length of the file then.
pub fn patch_refusal(
    tables: &Tables,
    requests: &Requests,
    cap: u64,
    ino: Ino,
    inode: &Inode,
    end: u64,
    len: u64,
) -> Option<DaemonError>
    requires { size_of (tables_of tables.now) ≤ cap }
    ensures first { (path bytes : List ℕ) (offset now : ℕ) → end ≡ offset + length bytes → len ≡ length (with_patch offset bytes (bytes_online inode.now.contents))
        → option_map daemon_refusal result ≡ refusal_of (patch (daemon_of tables.now requests.now cap) path offset bytes now (Some (record { number = ino.0; inode = inode.now }))) }
    ensures refusal { IfSome result IsRefusal }
{
    let found = state(requests, ino, &inode.contents);
    let have = without_file(tables.size(), Some(length(&inode.contents)));
    let tests = [
        (FILE_LIMIT < end, DaemonError::TooMany { limit: FILE_LIMIT }),
        (is_away(found), DaemonError::WrongState { found }),
        (
            NUMBER_LIMIT <= tables.change(),
            DaemonError::TooMany {
                limit: NUMBER_LIMIT,
            },
        ),
        too_full(have, len, cap),
    ];
    first_error(&tests)
}
