//! The arguments of the calls of the daemon.

ghost use Rattle.dm_model.specs.declared.answer.Answer.TheVariants as answer;
ghost use Rattle.dm_model.specs.declared.call.Call.TheVariants as of;
ghost use Rattle.dm_model.specs.declared.call.DaemonCall.TheVariants as call;
ghost use Rattle.dm_daemon_acts.specs.Acts.{IsAnswer, report_of};
ghost use Rattle.dm_bench.specs.Answers.{put_begun, put_number, recall_begun, recall_ended, recall_ended_call, recall_number};

use crate::note::Arguments;
use dm_base::{
    Bfid, DaemonError, Dropping, DumpName, FileRow, Found, GroupId, Path, PutEnd, PutStart, Secs,
};
use std::snapshot::Snapshot;

/// `begin_put`.
#[derive(Drop)]
pub struct BeginPut<'a> {
    pub path: &'a Path,
    pub asked: [Option<GroupId>; 2],
    pub now: Secs,
}

impl<'a> Arguments for BeginPut<'a> {
    type Returned = Result<PutStart, DaemonError>;

    ghost call = { λ a r. of.Daemon (call.BeginPut a.path.now a.asked a.now (put_number r)) };

    ghost report = { λ _ r. report_of put_begun r };
}

/// `copy_stored`.
#[derive(Drop)]
pub struct CopyStored {
    pub request: u64,
    pub group: GroupId,
    pub now: Secs,
}

impl Arguments for CopyStored {
    type Returned = Result<(), DaemonError>;

    ghost call = { λ a r. of.Daemon (call.CopyStored a.request a.group a.now) };

    ghost report = { λ _ r. report_of (λ _. answer.CopyStored) r };
}

/// `end_put`.
#[derive(Drop)]
pub struct EndPut {
    pub request: u64,
    pub now: Secs,
}

impl Arguments for EndPut {
    type Returned = Result<PutEnd, DaemonError>;

    ghost call = { λ a r. of.Daemon (call.EndPut a.request a.now) };

    ghost report = { λ _ r. report_of (λ end. answer.PutEnded end) r };
}

/// `release`.
#[derive(Drop)]
pub struct Release<'a> {
    pub path: &'a Path,
    pub now: Secs,
}

impl<'a> Arguments for Release<'a> {
    type Returned = Result<(), DaemonError>;

    ghost call = { λ a r. of.Daemon (call.Release a.path.now a.now) };

    ghost report = { λ _ r. report_of (λ _. answer.Released) r };
}

/// `begin_recall`.
#[derive(Drop)]
pub struct BeginRecall<'a> {
    pub path: &'a Path,
}

impl<'a> Arguments for BeginRecall<'a> {
    type Returned = Result<Found, DaemonError>;

    ghost call = { λ a r. of.Daemon (call.BeginRecall a.path.now (recall_number r)) };

    ghost report = { λ _ r. report_of recall_begun r };
}

/// `end_recall`. Where memory is refused the request is spent all the same, and the recall was dropped.
#[derive(Drop)]
pub struct EndRecall {
    pub request: u64,
    pub bytes: Snapshot<Vec<u8>>,
    pub now: Secs,
}

impl Arguments for EndRecall {
    type Returned = Result<Vec<u8>, DaemonError>;

    ghost call = { λ a r. of.Daemon (recall_ended_call a.request a.bytes.value.items a.now r) };

    ghost report = { λ _ r. recall_ended (λ there. there.items) r };
}

/// `drop_recall`.
#[derive(Drop)]
pub struct DropRecall {
    pub request: u64,
}

impl Arguments for DropRecall {
    type Returned = ();

    ghost call = { λ a r. of.Daemon (call.DropRecall a.request) };

    ghost report = { λ _ r. IsAnswer answer.RecallDropped };
}

/// `write`.
#[derive(Drop)]
pub struct Write {
    pub path: Snapshot<Path>,
    pub bytes: Snapshot<Vec<u8>>,
    pub now: Secs,
}

impl Arguments for Write {
    type Returned = Result<u64, DaemonError>;

    ghost call = { λ a r. of.Daemon (call.Write a.path.value a.bytes.value.items a.now) };

    ghost report = { λ _ r. report_of (λ change. answer.Changed change) r };
}

/// `patch`.
#[derive(Drop)]
pub struct Patch<'a> {
    pub path: &'a Path,
    pub offset: u64,
    pub bytes: &'a [u8],
    pub now: Secs,
}

impl<'a> Arguments for Patch<'a> {
    type Returned = Result<u64, DaemonError>;

    ghost call = { λ a r. of.Daemon (call.Patch a.path.now a.offset a.bytes.now a.now) };

    ghost report = { λ _ r. report_of (λ change. answer.Changed change) r };
}

/// `remove`.
#[derive(Drop)]
pub struct Remove<'a> {
    pub path: &'a Path,
    pub now: Secs,
}

impl<'a> Arguments for Remove<'a> {
    type Returned = Result<u64, DaemonError>;

    ghost call = { λ a r. of.Daemon (call.Remove a.path.now a.now) };

    ghost report = { λ _ r. report_of (λ change. answer.Changed change) r };
}

/// `make_dump`.
#[derive(Drop)]
pub struct MakeDump {
    pub name: Snapshot<DumpName>,
    pub now: Secs,
}

impl Arguments for MakeDump {
    type Returned = Result<u64, DaemonError>;

    ghost call = { λ a r. of.Daemon (call.MakeDump a.name.value a.now) };

    ghost report = { λ _ r. report_of (λ files. answer.DumpMade files) r };
}

/// `undump`.
#[derive(Drop)]
pub struct Undump<'a> {
    pub name: &'a DumpName,
    pub now: Secs,
}

impl<'a> Arguments for Undump<'a> {
    type Returned = Result<(), DaemonError>;

    ghost call = { λ a r. of.Daemon (call.Undump a.name.now a.now) };

    ghost report = { λ _ r. report_of (λ _. answer.Undumped) r };
}

/// `restore`.
#[derive(Drop)]
pub struct Restore<'a> {
    pub name: &'a DumpName,
    pub path: &'a Path,
    pub target: Snapshot<Path>,
    pub now: Secs,
}

impl<'a> Arguments for Restore<'a> {
    type Returned = Result<u64, DaemonError>;

    ghost call = { λ a r. of.Daemon (call.Restore a.name.now a.path.now a.target.value a.now) };

    ghost report = { λ _ r. report_of (λ change. answer.Changed change) r };
}

/// `set_age`.
#[derive(Drop)]
pub struct SetAge {
    pub age: u64,
    pub now: Secs,
}

impl Arguments for SetAge {
    type Returned = Result<(), DaemonError>;

    ghost call = { λ a r. of.Daemon (call.SetAge a.age a.now) };

    ghost report = { λ _ r. report_of (λ _. answer.AgeSet) r };
}

/// `hard_delete`.
#[derive(Drop)]
pub struct HardDelete {
    pub now: Secs,
}

impl Arguments for HardDelete {
    type Returned = Result<u64, DaemonError>;

    ghost call = { λ a r. of.Daemon (call.HardDelete a.now) };

    ghost report = { λ _ r. report_of (λ taken. answer.HardDeleted taken) r };
}

/// `next_dropping`.
#[derive(Drop)]
pub struct NextDropping {
    pub after: Option<Bfid>,
}

impl Arguments for NextDropping {
    type Returned = Option<Dropping>;

    ghost call = { λ a r. of.Daemon (call.NextDropping a.after) };

    ghost report = { λ _ r. IsAnswer (answer.NextDropping r) };
}

/// `dropped`.
#[derive(Drop)]
pub struct Dropped {
    pub bfid: Bfid,
    pub now: Secs,
}

impl Arguments for Dropped {
    type Returned = Result<bool, DaemonError>;

    ghost call = { λ a r. of.Daemon (call.Dropped a.bfid a.now) };

    ghost report = { λ _ r. report_of (λ there. answer.Dropped there) r };
}

/// `attr`.
#[derive(Drop)]
pub struct Attributes<'a> {
    pub path: &'a Path,
}

impl<'a> Arguments for Attributes<'a> {
    type Returned = Result<FileRow, DaemonError>;

    ghost call = { λ a r. of.Daemon (call.Attributes a.path.now) };

    ghost report = { λ _ r. report_of (λ row. answer.File row) r };
}

/// `list`.
#[derive(Drop)]
pub struct ListFiles;

impl Arguments for ListFiles {
    type Returned = Result<Vec<FileRow>, DaemonError>;

    ghost call = { λ _ r. of.Daemon call.List };

    ghost report = { λ _ r. report_of (λ rows. answer.Files rows.items) r };
}
