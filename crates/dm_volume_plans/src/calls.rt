//! All calls on a volume.

ghost use Rattle.std.specs.Prelude.{◌≡◌, ◌∷◌, [], IfOk};
ghost use Rattle.std.specs.Option.{option_copied};
ghost use Rattle.dm_model.specs.GroupCalls.{no_group as no_group_plan, of_tokens};
ghost use Rattle.dm_model.specs.Plan.{prepared_plan};
ghost use Rattle.dm_model.specs.Step.{volume_needs_in, volume_plan_in};
ghost use Rattle.dm_model.specs.VolumeCalls.{mount_in, mounted_needs, mounted_plan, read_chunk as read_chunk_plan, read_chunk_needs, volume_needs, volume_plan};
ghost use Rattle.dm_verdicts.specs.Verdict.{verdict_on};

use crate::reads::{bytes_guards, mount_guard, range_guard, read_mark};
use crate::writes::{label_guard, relabel, write_zone, zone_guard};
use dm_base::{Bytes, GroupId, NoMemory, Vsn};
use dm_model::{Answer, Component, Guard, Image, MountState, Prepared, Side, VolumeCall};
use dm_verdicts::{Verdict, guarded, judge, quiet_plan};
use std::alloc::Global;

/// The verdict on a call on a volume of the group: the lowest guard of it that is false, and what it comes to. The side is the
/// group's, if it is configured. `NoMemory` only where memory is refused (docs/DEFINITIONS.md, "The machine, whole").
pub fn volume_verdict(
    alloc: Global,
    id: GroupId,
    vsn: Vsn,
    side: Option<&Side>,
    call: &VolumeCall,
) -> Result<Verdict, NoMemory>
    ensures { IfOk result (λ v. v ≡ verdict_on (volume_plan_in id vsn call.now (option_copied side.entry)) (volume_needs_in vsn call.now (option_copied side.entry))) }
{
    let Some(side) = side else {
        let configured = (false, Guard::Configured);
        let device = (false, Guard::DeviceUsed);
        return Ok(judge(&[configured], &[configured, device], failing(id)));
    };
    let image = side.images.get(&vsn.0);
    let mount = side.mounts.get(u128::from(mount_number(call)));
    on_volume(alloc, id, vsn, image, mount, call)
}

// A call that comes to nothing.
fn failing(id: GroupId) -> Prepared
    ensures { result ≡ prepared_plan (no_group_plan id) }
{
    quiet_plan(Component::Group { group: id }, Answer::Failed)
}

// The mount that a call is made under.
fn mount_number(call: &VolumeCall) -> u64
    ensures { result ≡ mount_in call.now }
{
    match call {
        VolumeCall::WriteZone { mount, .. }
        | VolumeCall::ReadChunk { mount, .. }
        | VolumeCall::Relabel { mount, .. } => *mount,
    }
}

// The call on this volume under this mount, as far as they are there.
fn on_volume(
    alloc: Global,
    id: GroupId,
    vsn: Vsn,
    image: Option<&Image>,
    mount: Option<&MountState>,
    call: &VolumeCall,
) -> Result<Verdict, NoMemory>
    ensures { IfOk result (λ v. v ≡ verdict_on (volume_plan id vsn (option_copied image.entry) (option_copied mount.entry) call.now) (volume_needs vsn (option_copied mount.entry) call.now)) }
{
    let configured = (false, Guard::Configured);
    let token = (false, Guard::Tokens);
    let device = (false, Guard::DeviceUsed);
    let Some(mount) = mount else {
        return Ok(match image {
            None => judge(
                &[configured, token],
                &[configured, token, device],
                failing(id),
            ),
            Some(_) => guarded(&[token], failing(id)),
        });
    };
    let token = (mount.vsn.0 == vsn.0, Guard::Tokens);
    let need = need_of(mount, call);
    let Some(image) = image else {
        return Ok(judge(
            &[configured, token, need],
            &[configured, token, need, device],
            failing(id),
        ));
    };
    mounted_verdict(alloc, id, vsn, image, mount, token, call)
}

// What a call needs of its mount beside that it is of this volume.
fn need_of(mount: &MountState, call: &VolumeCall) -> (bool, Guard)
    ensures { result ∷ [] ≡ mounted_needs mount.now call.now }
{
    match call {
        VolumeCall::WriteZone {
            mount: _,
            place,
            zone,
        } => zone_guard(*place, zone, mount),
        VolumeCall::ReadChunk {
            mount: _,
            place,
            len: _,
            bytes: _,
        } => mount_guard(*place, mount),
        VolumeCall::Relabel {
            mount: _,
            epoch,
            version,
        } => label_guard(*epoch, *version, mount),
    }
}

// The call on this volume under this mount, which is of the volume if the guard on the token holds.
fn mounted_verdict(
    alloc: Global,
    id: GroupId,
    vsn: Vsn,
    image: &Image,
    mount: &MountState,
    token: (bool, Guard),
    call: &VolumeCall,
) -> Result<Verdict, NoMemory>
    ensures { IfOk result (λ v. v ≡ verdict_on (mounted_plan id vsn image.now mount.now call.now) (of_tokens (token ∷ mounted_needs mount.now call.now))) }
{
    match call {
        VolumeCall::WriteZone {
            mount: number,
            place,
            zone,
        } => {
            let need = zone_guard(*place, zone, mount);
            let prepared = write_zone(alloc, id, vsn, *number, *place, zone, mount)?;
            Ok(guarded(&[token, need], prepared))
        }
        VolumeCall::ReadChunk {
            mount: number,
            place,
            len,
            bytes,
        } => read_chunk(
            alloc,
            id,
            image,
            *number,
            (*place, *len),
            bytes,
            mount,
            token,
        ),
        VolumeCall::Relabel {
            mount: number,
            epoch,
            version,
        } => {
            let need = label_guard(*epoch, *version, mount);
            let prepared = relabel(alloc, id, vsn, image, *number, *epoch, *version)?;
            Ok(guarded(&[token, need], prepared))
        }
    }
}

// The read of this range, from a place on and so long.
fn read_chunk(
    alloc: Global,
    id: GroupId,
    image: &Image,
    number: u64,
    range: (u64, u64),
    bytes: &Bytes,
    mount: &MountState,
    token: (bool, Guard),
) -> Result<Verdict, NoMemory>
    ensures { IfOk result (λ v. v ≡ verdict_on (read_chunk_plan id image.now number range.0 range.1 bytes.now mount.now) (of_tokens (token ∷ read_chunk_needs range.0 mount.now))) }
{
    let (place, len) = range;
    let own = range_guard(image, place, len);
    let need = mount_guard(place, mount);
    let (whole, known) = bytes_guards(image, place, len, bytes.as_slice(), mount.bound);
    let answer = Answer::ChunkRead {
        bytes: bytes.copied(alloc)?,
    };
    let prepared = Prepared {
        mark: read_mark(alloc, id, number, place, len, bytes, mount.origin)?,
        ..quiet_plan(Component::Group { group: id }, answer)
    };
    let call = [own, token, need, whole, known];
    Ok(judge(&call, &[own, token, need], prepared))
}
