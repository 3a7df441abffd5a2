//! The arguments of the calls of a group.

ghost use Rattle.dm_model.specs.declared.answer.Answer.TheVariants as answer;
ghost use Rattle.dm_model.specs.declared.call.Call.TheVariants as of;
ghost use Rattle.dm_model.specs.declared.call.GroupCall.TheVariants as call;
ghost use Rattle.dm_daemon_acts.specs.Acts.{IsAnswer};
ghost use Rattle.dm_bench.specs.Answers.{chunk_mounted, group_report_of, merge_begun, merge_next_call, mount_number, mounted, next_number, reservation_number, reserved, reuse_begun, reuse_number, sparse_volumes, volume_added, volume_added_call};

use crate::note::Arguments;
use dm_base::{
    Bfid, GroupError, GroupId, GroupRows, Listed, MergeNext, Mount, Next, Reservation, ReuseJob,
    Secs, SparseList, VolRow, Vsn,
};

/// `missing`.
#[derive(Drop)]
pub struct Missing {
    pub group: GroupId,
}

impl Arguments for Missing {
    type Returned = Option<Vsn>;

    ghost call = { λ a r. of.Group a.group call.Missing };

    ghost report = { λ _ r. IsAnswer (answer.Missing r) };
}

/// `mount_new`.
#[derive(Drop)]
pub struct MountNew {
    pub group: GroupId,
    pub vsn: Vsn,
}

impl Arguments for MountNew {
    type Returned = Result<Mount, GroupError>;

    ghost call = { λ a r. of.Group a.group (call.MountNew a.vsn (mount_number r)) };

    ghost report = { λ _ r. group_report_of mounted r };
}

/// `add_volume`. Where memory is refused the volume is unmounted all the same.
#[derive(Drop)]
pub struct AddVolume {
    pub group: GroupId,
    pub mount: u64,
    pub now: Secs,
}

impl Arguments for AddVolume {
    type Returned = Result<(), GroupError>;

    ghost call = { λ a r. of.Group a.group (volume_added_call a.mount a.now r) };

    ghost report = { λ _ r. volume_added r };
}

/// `reserve`.
#[derive(Drop)]
pub struct Reserve {
    pub group: GroupId,
    pub bfid: Bfid,
    pub len: u64,
}

impl Arguments for Reserve {
    type Returned = Result<Reservation, GroupError>;

    ghost call = { λ a r. of.Group a.group (call.Reserve a.bfid a.len (reservation_number r)) };

    ghost report = { λ _ r. group_report_of reserved r };
}

/// `mount_piece`.
#[derive(Drop)]
pub struct MountPiece {
    pub group: GroupId,
    pub reservation: u64,
    pub piece: u64,
}

impl Arguments for MountPiece {
    type Returned = Result<Mount, GroupError>;

    ghost call = { λ a r. of.Group a.group (call.MountPiece a.reservation a.piece (mount_number r)) };

    ghost report = { λ _ r. group_report_of mounted r };
}

/// `mount_chunk`.
#[derive(Drop)]
pub struct MountChunk {
    pub group: GroupId,
    pub bfid: Bfid,
    pub offset: u64,
}

impl Arguments for MountChunk {
    type Returned = Result<Next, GroupError>;

    ghost call = { λ a r. of.Group a.group (call.MountChunk a.bfid a.offset (next_number r)) };

    ghost report = { λ _ r. group_report_of chunk_mounted r };
}

/// `unmount`.
#[derive(Drop)]
pub struct Unmount {
    pub group: GroupId,
    pub mount: u64,
}

impl Arguments for Unmount {
    type Returned = ();

    ghost call = { λ a r. of.Group a.group (call.Unmount a.mount) };

    ghost report = { λ _ r. IsAnswer answer.Unmounted };
}

/// `commit`.
#[derive(Drop)]
pub struct Commit<'a> {
    pub group: GroupId,
    pub reservation: u64,
    pub sums: &'a Listed<[u8; 32]>,
    pub now: Secs,
}

impl<'a> Arguments for Commit<'a> {
    type Returned = Result<(), GroupError>;

    ghost call = { λ a r. of.Group a.group (call.Commit a.reservation a.sums.now a.now) };

    ghost report = { λ _ r. group_report_of (λ _. answer.Committed) r };
}

/// `abort`.
#[derive(Drop)]
pub struct Abort {
    pub group: GroupId,
    pub reservation: u64,
}

impl Arguments for Abort {
    type Returned = ();

    ghost call = { λ a r. of.Group a.group (call.Abort a.reservation) };

    ghost report = { λ _ r. IsAnswer answer.Aborted };
}

/// `delete`.
#[derive(Drop)]
pub struct Delete {
    pub group: GroupId,
    pub bfid: Bfid,
    pub now: Secs,
}

impl Arguments for Delete {
    type Returned = Result<bool, GroupError>;

    ghost call = { λ a r. of.Group a.group (call.Delete a.bfid a.now) };

    ghost report = { λ _ r. group_report_of (λ there. answer.Deleted there) r };
}

/// `merge_list`.
#[derive(Drop)]
pub struct MergeList {
    pub group: GroupId,
}

impl Arguments for MergeList {
    type Returned = Result<SparseList, GroupError>;

    ghost call = { λ a r. of.Group a.group call.MergeList };

    ghost report = { λ _ r. group_report_of sparse_volumes r };
}

/// `merge_next`.
#[derive(Drop)]
pub struct MergeNextVolume<'a> {
    pub group: GroupId,
    pub list: &'a [Vsn],
    pub source: Vsn,
}

impl<'a> Arguments for MergeNextVolume<'a> {
    type Returned = Result<MergeNext, GroupError>;

    ghost call = { λ a r. of.Group a.group (merge_next_call a.list.now a.source r) };

    ghost report = { λ _ r. group_report_of merge_begun r };
}

/// `move_done`.
#[derive(Drop)]
pub struct MoveDone {
    pub group: GroupId,
    pub job: u64,
    pub sum: Option<[u8; 32]>,
    pub now: Secs,
}

impl Arguments for MoveDone {
    type Returned = Result<(), GroupError>;

    ghost call = { λ a r. of.Group a.group (call.MoveDone a.job a.sum a.now) };

    ghost report = { λ _ r. group_report_of (λ _. answer.Moved) r };
}

/// `drop_move`.
#[derive(Drop)]
pub struct DropMove {
    pub group: GroupId,
    pub job: u64,
}

impl Arguments for DropMove {
    type Returned = ();

    ghost call = { λ a r. of.Group a.group (call.DropMove a.job) };

    ghost report = { λ _ r. IsAnswer answer.MoveDropped };
}

/// `free`.
#[derive(Drop)]
pub struct Free {
    pub group: GroupId,
    pub vsn: Vsn,
    pub now: Secs,
}

impl Arguments for Free {
    type Returned = Result<bool, GroupError>;

    ghost call = { λ a r. of.Group a.group (call.Free a.vsn a.now) };

    ghost report = { λ _ r. group_report_of (λ freed. answer.Freed freed) r };
}

/// `reuse_next`.
#[derive(Drop)]
pub struct ReuseNext {
    pub group: GroupId,
    pub now: Secs,
}

impl Arguments for ReuseNext {
    type Returned = Result<Option<ReuseJob>, GroupError>;

    ghost call = { λ a r. of.Group a.group (call.ReuseNext (reuse_number r) a.now) };

    ghost report = { λ _ r. group_report_of reuse_begun r };
}

/// `reuse`.
#[derive(Drop)]
pub struct Reuse {
    pub group: GroupId,
    pub mount: u64,
    pub now: Secs,
}

impl Arguments for Reuse {
    type Returned = Result<(), GroupError>;

    ghost call = { λ a r. of.Group a.group (call.Reuse a.mount a.now) };

    ghost report = { λ _ r. group_report_of (λ _. answer.Reused) r };
}

/// `rows`.
#[derive(Drop)]
pub struct Rows {
    pub group: GroupId,
}

impl Arguments for Rows {
    type Returned = Result<GroupRows, GroupError>;

    ghost call = { λ a r. of.Group a.group call.Rows };

    ghost report = { λ _ r. group_report_of (λ rows. answer.Rows rows) r };
}

/// `list`.
#[derive(Drop)]
pub struct Volumes {
    pub group: GroupId,
}

impl Arguments for Volumes {
    type Returned = Result<Vec<VolRow>, GroupError>;

    ghost call = { λ a r. of.Group a.group call.Volumes };

    ghost report = { λ _ r. group_report_of (λ rows. answer.Volumes rows.items) r };
}
