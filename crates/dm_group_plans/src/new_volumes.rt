//! What the calls on volumes that the group hasn't yet come to.

ghost use Rattle.std.specs.Prelude.{◌≡◌, is_none};
ghost use Rattle.std.specs.FinMap as map;
ghost use Rattle.std.specs.Option.{option_copied};
ghost use Rattle.dm_base.specs.Limits.{volumes_limit};
ghost use Rattle.dm_durable.specs.Volumes.{free_slot as free_slot_of, least_missing as least_missing_of, lower_of as lower};
ghost use Rattle.dm_model.specs.GroupCalls.{add_volume as add_volume_plan, add_volume_needs, is_label as is_label_of, is_labelled_new as is_labelled_new_of, is_new_label as is_new_label_of, missing as missing_plan};
ghost use Rattle.dm_model.specs.Plan.{no_needs};
ghost use Rattle.dm_verdicts.specs.Verdict.{verdict_on};

use crate::prepared::{group_quiet_plan, journal_payload, no_token_with, step_plan};
use dm_base::{GroupId, Secs, Vsn};
use dm_durable::{GroupStep, VolumeRow};
use dm_model::{Answer, Ending, Group, Guard, Label, MountState, Mounted, Origin, Prepared};
use dm_tables::{Test, Texts};
use dm_verdicts::{Verdict, guarded, judge};

// The most volumes of a group.
const VOLUMES_LIMIT: u8 = 16;

pub(crate) fn missing(library: &Group, id: GroupId) -> Verdict
    ensures { result ≡ verdict_on (missing_plan id library.now) no_needs }
{
    let vsn = least_missing(&library.tables.volumes, library.conf.volumes.as_slice());
    let prepared = group_quiet_plan(id, Answer::Missing { vsn });
    judge(&[], &[(false, Guard::DeviceUsed)], prepared)
}

// The least of these volumes that the tables haven't.
fn least_missing(volumes: &Texts<VolumeRow>, vsns: &[Vsn]) -> Option<Vsn>
    ensures { result ≡ least_missing_of volumes.now vsns.now }
{
    match vsns {
        [] => None,
        [first, rest @ ..] => {
            let later = least_missing(volumes, rest);
            if volumes.contains(&first.0) {
                later
            } else {
                Some(lower_of(*first, later))
            }
        }
    }
}

// The lower of two serial numbers.
fn lower_of(first: Vsn, other: Option<Vsn>) -> Vsn
    ensures { result ≡ lower first other }
{
    match other {
        None => first,
        Some(second) => {
            if first.0.as_slice().cmp(second.0.as_slice()).is_le() {
                first
            } else {
                second
            }
        }
    }
}

pub(crate) fn add_volume(
    library: &Group,
    id: GroupId,
    number: u64,
    now: Secs,
    mounted: Option<Mounted>,
    state: Option<&MountState>,
) -> Verdict
    ensures { result ≡ verdict_on (add_volume_plan id library.now number now.0 mounted) (add_volume_needs (option_copied state.entry)) }
{
    let labelled = (is_labelled_new(state), Guard::NewVolumeLabelled);
    let Some(mounted) = mounted else {
        return no_token_with(id, labelled);
    };
    let vsn = mounted.vsn;
    let unlisted = is_unlisted(&library.tables.volumes, vsn);
    let guards = [
        (unlisted, Guard::NewVolumeLabelled),
        (is_settled(library), Guard::NewVolumeLabelled),
        labelled,
    ];
    let step = GroupStep::Volume {
        vsn,
        slot: free_slot(&library.tables.volumes),
        version: library.conf.format,
        size: library.conf.size,
    };
    let payload = journal_payload(library, id, now, step);
    let prepared = Prepared {
        ends: Ending::Mount { group: id, number },
        ..step_plan(id, payload, Answer::VolumeAdded)
    };
    guarded(&guards, prepared)
}

// Whether the tables haven't the volume.
fn is_unlisted(volumes: &Texts<VolumeRow>, vsn: Vsn) -> bool
    ensures { result ≡ is_none (map.get volumes.now vsn.0) }
{
    match volumes.get(&vsn.0) {
        None => true,
        Some(_) => false,
    }
}

// Whether no step of the group is in doubt.
fn is_settled(library: &Group) -> bool
    ensures { result ≡ is_none library.now.doubt }
{
    match &library.doubt {
        None => true,
        Some(_) => false,
    }
}

// The least slot that no volume has; 16 where each slot has one.
fn free_slot(volumes: &Texts<VolumeRow>) -> u8
    ensures { result ≡ free_slot_of volumes.now volumes_limit 0 }
{
    for slot in 0..VOLUMES_LIMIT {
        if !volumes.any(&OnSlot { slot }) {
            return slot;
        }
    }
    VOLUMES_LIMIT
}

// Has the volume this slot?
#[derive(Drop)]
struct OnSlot {
    slot: u8,
}

impl Test<VolumeRow> for OnSlot {
    ghost use Rattle.std.specs.Prelude.{nat_eq};

    ghost passes = { λ it volume. nat_eq volume.slot it.slot };

    fn test(&self, volume: &VolumeRow) -> bool {
        volume.slot == self.slot
    }
}

// Whether the mount is of any volume, and its label was written last with epoch 1 and the group's format.
fn is_labelled_new(state: Option<&MountState>) -> bool
    ensures { result ≡ is_labelled_new_of (option_copied state.entry) }
{
    match state {
        None => false,
        Some(state) => is_new_label(state.origin, state.labelled),
    }
}

fn is_new_label(origin: Origin, label: Option<Label>) -> bool
    ensures { result ≡ is_new_label_of origin label }
{
    match origin {
        Origin::New { format, .. } => is_label(1, format, label),
        Origin::Piece { .. }
        | Origin::Chunk { .. }
        | Origin::Source { .. }
        | Origin::Target { .. }
        | Origin::Reuse { .. } => false,
    }
}

/// Whether the last relabel wrote a label of this epoch and version.
pub(crate) fn is_label(epoch: u64, version: u8, label: Option<Label>) -> bool
    ensures { result ≡ is_label_of epoch version label }
{
    match label {
        None => false,
        Some(label) => label.epoch == epoch && label.version == version,
    }
}
