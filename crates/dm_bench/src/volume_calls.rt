//! The arguments of the calls on a volume.

ghost use Rattle.std.specs.Prelude.{length};
ghost use Rattle.dm_model.specs.declared.answer.Answer.TheVariants as answer;
ghost use Rattle.dm_model.specs.declared.call.Call.TheVariants as of;
ghost use Rattle.dm_model.specs.declared.call.VolumeCall.TheVariants as call;
ghost use Rattle.dm_bench.specs.Answers.{volume_report_of};

use crate::note::Arguments;
use dm_base::{GroupId, Vsn};
use dm_host::Failed;

/// `write_zone`.
#[derive(Drop)]
pub struct WriteZone<'a> {
    pub group: GroupId,
    pub vsn: Vsn,
    pub mount: u64,
    pub place: u64,
    pub zone: &'a [u8],
}

impl<'a> Arguments for WriteZone<'a> {
    type Returned = Result<(), Failed>;

    ghost call = { λ a r. of.Volume a.group a.vsn (call.WriteZone a.mount a.place a.zone.now) };

    ghost report = { λ _ r. volume_report_of answer.ZoneWritten r };
}

/// `read_chunk`. `bytes` are those that it read.
#[derive(Drop)]
pub struct ReadChunk<'a> {
    pub group: GroupId,
    pub vsn: Vsn,
    pub mount: u64,
    pub place: u64,
    pub bytes: &'a [u8],
}

impl<'a> Arguments for ReadChunk<'a> {
    type Returned = Result<(), Failed>;

    ghost call = { λ a r. of.Volume a.group a.vsn (call.ReadChunk a.mount a.place (length a.bytes.now) a.bytes.now) };

    ghost report = { λ a r. volume_report_of (answer.ChunkRead a.bytes.now) r };
}

/// `relabel`.
#[derive(Drop)]
pub struct Relabel {
    pub group: GroupId,
    pub vsn: Vsn,
    pub mount: u64,
    pub epoch: u64,
    pub version: u8,
}

impl Arguments for Relabel {
    type Returned = Result<(), Failed>;

    ghost call = { λ a r. of.Volume a.group a.vsn (call.Relabel a.mount a.epoch a.version) };

    ghost report = { λ _ r. volume_report_of answer.Labelled r };
}
