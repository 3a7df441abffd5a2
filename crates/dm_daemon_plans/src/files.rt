//! What the daemon tells of its files.

ghost use Rattle.std.specs.Prelude.{◌≡◌, ◌++◌, Some, IfOk, IsErrOf, OnOk, option_to_list};
ghost use Rattle.std.specs.FinMap as map;
ghost use Rattle.std.specs.List.{AllByRecursion};
ghost use Rattle.std.specs.Option.{option_map};
ghost use Rattle.dm_base.specs.Naming.{IsPath};
ghost use Rattle.dm_daemon_plans.specs.Found.{numbered};
ghost use Rattle.dm_durable.specs.Inodes.{bytes_online, length_of};
ghost use Rattle.dm_model.specs.Files.{all_rows as all_rows_of, bfid_shown as bfid_shown_of, file_at as file_at_of, file_named, has_open_put as has_open_put_of, has_open_recall as has_open_recall_of, is_away as is_away_of, is_dual as is_dual_of, is_put as is_put_of_kind, is_recall as is_recall_of_kind, is_regular as is_regular_of, row_if as row_if_of, row_of as row_of_file, state_of as state_of_contents};

use dm_base::{Bfid, Bytes, FileRow, FileState, Ino, Listed, NoMemory, Path, TextError};
use dm_durable::{Contents, Inode};
use dm_model::{Daemon, OpenRequest, RequestKind};
use dm_tables::{Numbers, Test};
use dm_verdicts::VerdictError;
use std::alloc::Global;

/// The file of a path: the number of its inode, and the inode.
pub(crate) fn file_at<'a>(daemon: &'a Daemon, path: &Path) -> Option<(u64, &'a Inode)>
    ensures { option_map (λ f. numbered f.0 f.1.now) result ≡ file_at_of daemon.now path.now }
{
    let ino = daemon.tables.names.get(path.bytes())?;
    let inode = daemon.tables.inodes.get(u128::from(ino.0))?;
    Some((ino.0, inode))
}

/// The state of a file whose inode has this number and holds this.
pub(crate) fn state_of(
    requests: &Numbers<OpenRequest>,
    number: u64,
    contents: &Contents,
) -> FileState
    ensures { result ≡ state_of_contents requests.now number contents.now }
{
    match contents {
        Contents::Regular { bytes: _ } => FileState::Regular,
        Contents::Making { bytes: _, bfid } => {
            if has_open_put(requests, *bfid) {
                FileState::Migrating
            } else {
                FileState::Regular
            }
        }
        Contents::Dual { bytes: _, bfid: _ } => FileState::Dual,
        Contents::Offline { len: _, bfid: _ } => {
            if has_open_recall(requests, number) {
                FileState::Unmigrating
            } else {
                FileState::Offline
            }
        }
    }
}

fn has_open_put(requests: &Numbers<OpenRequest>, bfid: Bfid) -> bool
    ensures { result ≡ has_open_put_of requests.now bfid.0 }
{
    requests.any(&PutOf { bfid })
}

fn has_open_recall(requests: &Numbers<OpenRequest>, number: u64) -> bool
    ensures { result ≡ has_open_recall_of requests.now number }
{
    requests.any(&RecallOn { number })
}

// Is the request a put of the bitfile?
#[derive(Drop)]
struct PutOf {
    bfid: Bfid,
}

impl Test<OpenRequest> for PutOf {
    ghost use Rattle.dm_model.specs.Files.{is_put_of};

    ghost passes = { λ it request. is_put_of it.bfid.0 request };

    fn test(&self, request: &OpenRequest) -> bool {
        is_put(request.kind) && request.bfid.0 == self.bfid.0
    }
}

// Is the request a recall of the inode?
#[derive(Drop)]
struct RecallOn {
    number: u64,
}

impl Test<OpenRequest> for RecallOn {
    ghost use Rattle.dm_model.specs.Files.{is_recall_on};

    ghost passes = { λ it request. is_recall_on it.number request };

    fn test(&self, request: &OpenRequest) -> bool {
        is_recall(request.kind) && request.ino.0 == self.number
    }
}

pub(crate) fn is_put(kind: RequestKind) -> bool
    ensures { result ≡ is_put_of_kind kind }
{
    matches!(kind, RequestKind::Put)
}

pub(crate) fn is_recall(kind: RequestKind) -> bool
    ensures { result ≡ is_recall_of_kind kind }
{
    matches!(kind, RequestKind::Recall)
}

pub(crate) fn is_regular(state: FileState) -> bool
    ensures { result ≡ is_regular_of state }
{
    matches!(state, FileState::Regular)
}

pub(crate) fn is_dual(state: FileState) -> bool
    ensures { result ≡ is_dual_of state }
{
    matches!(state, FileState::Dual)
}

/// Whether the bytes are on volumes alone.
pub(crate) fn is_away(state: FileState) -> bool
    ensures { result ≡ is_away_of state }
{
    matches!(state, FileState::Offline | FileState::Unmigrating)
}

/// The bytes, or none of them where they aren't on the disk.
pub(crate) fn online(contents: &Contents) -> &[u8]
    ensures { result.now ≡ bytes_online contents.now }
{
    match contents {
        Contents::Regular { bytes }
        | Contents::Making { bytes, bfid: _ }
        | Contents::Dual { bytes, bfid: _ } => bytes.as_slice(),
        Contents::Offline { len: _, bfid: _ } => &[],
    }
}

/// A copy of them.
pub(crate) fn online_copy(alloc: Global, contents: &Contents) -> Result<Bytes, NoMemory>
    ensures { IfOk result (λ bytes. bytes ≡ bytes_online contents.now) }
{
    Ok(Bytes::from_vec(Vec::from_slice(alloc, online(contents))?))
}

/// The length of a file that holds this.
pub(crate) fn len_of(contents: &Contents) -> u64
    ensures { result ≡ length_of contents.now }
{
    match contents {
        Contents::Regular { bytes }
        | Contents::Making { bytes, bfid: _ }
        | Contents::Dual { bytes, bfid: _ } => bytes.len() as u64,
        Contents::Offline { len, bfid: _ } => *len,
    }
}

/// What a user is told of a file.
pub(crate) fn row_of(
    requests: &Numbers<OpenRequest>,
    path: Path,
    number: u64,
    inode: &Inode,
) -> FileRow
    ensures { result ≡ row_of_file requests.now path (numbered number inode.now) }
{
    let state = state_of(requests, number, &inode.contents);
    FileRow {
        path,
        state,
        len: len_of(&inode.contents),
        change: inode.change,
        bfid: bfid_shown(state, &inode.contents),
    }
}

// The bitfile that a user is told of.
fn bfid_shown(state: FileState, contents: &Contents) -> Option<Bfid>
    ensures { result ≡ bfid_shown_of state contents.now }
{
    match contents {
        Contents::Regular { bytes: _ } => None,
        Contents::Making { bytes: _, bfid } => {
            if is_regular(state) { None } else { Some(*bfid) }
        }
        Contents::Dual { bytes: _, bfid } | Contents::Offline { len: _, bfid } => Some(*bfid),
    }
}

/// The rows of all files, by path.
pub(crate) fn all_rows(alloc: Global, daemon: &Daemon) -> Result<Listed<FileRow>, VerdictError>
    ensures rows { IfOk result (λ rows. rows ≡ all_rows_of daemon.now) }
    ensures range { IsErrOf result VerdictError.OutOfRange → AllByRecursion (λ e. IsPath e.0) (map.entries daemon.now.tables.names) → ⊥ }
{
    let mut rows = Vec::new(alloc);
    for (path, ino) in daemon.tables.names.entries() {
        match row_if(alloc, daemon, path, *ino) {
            Ok(row) => put(&mut rows, row)?,
            Err(error) => return Err(error),
        }
    }
    Ok(Listed::from_vec(rows))
}

// Puts the row, if there is one, behind those that are there.
fn put(rows: &mut Vec<FileRow>, row: Option<FileRow>) -> Result<(), NoMemory>
    ensures { OnOk result (rows.new.items ≡ rows.old.items ++ option_to_list row) }
{
    if let Some(row) = row {
        rows.push(row)?;
    }
    Ok(())
}

// The row of the file of that name, if its inode is there.
fn row_if(
    alloc: Global,
    daemon: &Daemon,
    path: &Bytes,
    ino: Ino,
) -> Result<Option<FileRow>, VerdictError>
    ensures row { IfOk result (λ row. option_to_list row ≡ row_if_of daemon.now.requests path.now (file_named daemon.now.tables.inodes (Some ino))) }
    ensures range { IsErrOf result VerdictError.OutOfRange → IsPath path.now → ⊥ }
{
    match daemon.tables.inodes.get(u128::from(ino.0)) {
        None => Ok(None),
        Some(inode) => match path_of(alloc, path.as_slice()) {
            Ok(path) => Ok(Some(row_of(&daemon.requests, path, ino.0, inode))),
            Err(error) => Err(error),
        },
    }
}

// The path of this text, which is out of range where it is none.
fn path_of(alloc: Global, text: &[u8]) -> Result<Path, VerdictError>
    ensures path { IfOk result (λ path. path ≡ text.now) }
    ensures range { IsErrOf result VerdictError.OutOfRange → IsPath text.now → ⊥ }
{
    match Path::of_bytes(alloc, text) {
        Ok(path) => Ok(path),
        Err(TextError::Grammar) => Err(VerdictError::OutOfRange),
        Err(TextError::NoMemory) => Err(VerdictError::NoMemory),
    }
}
