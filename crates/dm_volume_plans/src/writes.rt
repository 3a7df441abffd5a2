//! What the writes of zones and of labels come to.

ghost use Rattle.std.specs.Prelude.{◌≡◌, ◌∷◌, [], length, IfOk, OnOk, ◌++◌};
ghost use Rattle.std.specs.Int.{to_be_bytes, w64};
ghost use Rattle.dm_model.specs.Plan.{prepared_plan};
ghost use Rattle.dm_model.specs.VolumeCalls.{is_planned_label as is_planned_label_of, is_zone_place as is_zone_place_of, relabel as relabel_of, relabel_needs, write_zone as write_zone_of, write_zone_needs, zone_mark as zone_mark_of};
ghost use Rattle.dm_rules.specs.Label.{label as label_of};
ghost use Rattle.dm_rules.specs.Version.{chunk_header as header_of};
ghost use Rattle.dm_rules.specs.Zone.{weight as weight_of, zone_length as zone_length_of};

use byteorder::{BigEndian, ByteOrder};
use dm_base::{Bytes, GroupId, NoMemory, Vsn};
use dm_model::{Answer, Component, Guard, Image, Mark, MountState, Origin, Prepared};
use dm_rules::{ZONE_HEADER, has_sum};
use dm_verdicts::quiet_plan;
use std::alloc::Global;

/// What a written zone comes to.
pub(crate) fn write_zone(
    alloc: Global,
    id: GroupId,
    vsn: Vsn,
    number: u64,
    place: u64,
    zone: &Bytes,
    mount: &MountState,
) -> Result<Prepared, NoMemory>
    ensures { IfOk result (λ p. p ≡ prepared_plan (write_zone_of id vsn number place zone.now mount.now)) }
{
    let mark = zone_mark(alloc, id, vsn, number, place, zone, mount)?;
    Ok(Prepared {
        mark,
        ..quiet_plan(Component::Group { group: id }, Answer::ZoneWritten)
    })
}

fn zone_mark(
    alloc: Global,
    id: GroupId,
    vsn: Vsn,
    number: u64,
    place: u64,
    zone: &Bytes,
    mount: &MountState,
) -> Result<Mark, NoMemory>
    ensures { IfOk result (λ m. m ≡ zone_mark_of id vsn number place zone.now mount.now.epoch mount.now.origin) }
{
    match mount.origin {
        Origin::Piece { bfid, index, .. } => Ok(Mark::Zone {
            group: id,
            vsn,
            place,
            zone: zone.copied(alloc)?,
            bfid,
            index,
            epoch: mount.epoch,
        }),
        Origin::Target { .. } => Ok(Mark::Target {
            group: id,
            vsn,
            mount: number,
            place,
            zone: zone.copied(alloc)?,
        }),
        Origin::New { .. } | Origin::Chunk { .. } | Origin::Source { .. } | Origin::Reuse { .. } =>
            Ok(Mark::Nothing),
    }
}

/// What it needs of the mount.
pub(crate) fn zone_guard(place: u64, zone: &Bytes, mount: &MountState) -> (bool, Guard)
    ensures { result ∷ [] ≡ write_zone_needs place zone.now mount.now }
{
    (
        is_zone_place(mount.origin, place, zone.len() as u64),
        Guard::ZonePlace,
    )
}

// Whether a mount is for a zone of this place and length.
fn is_zone_place(origin: Origin, place: u64, n: u64) -> bool
    ensures { result ≡ is_zone_place_of origin place n }
{
    match origin {
        Origin::Piece { piece, chunk, .. } => {
            place == piece.zone && u128::from(n) == zone_length(piece.version, chunk, piece.len)
        }
        Origin::Target { chunk, version, .. } => {
            place == chunk.zone && u128::from(n) == weight(version, chunk.len)
        }
        Origin::New { .. } | Origin::Chunk { .. } | Origin::Source { .. } | Origin::Reuse { .. } =>
            false,
    }
}

// The length of a zone of n bytes.
fn zone_length(version: u8, chunk: u64, n: u64) -> u128
    ensures { result ≡ zone_length_of version chunk n }
{
    let count = if chunk == 0 {
        u64::from(n > 0)
    } else {
        n.div_ceil(chunk)
    };
    let headers = u128::from(header(version)) * u128::from(count);
    u128::from(ZONE_HEADER) + headers + u128::from(n)
}

// The length of a chunk's header.
fn header(version: u8) -> u8
    ensures { result ≡ header_of version }
{
    if has_sum(version) { 80 } else { 48 }
}

// The length of a zone of one chunk of n bytes.
fn weight(version: u8, n: u64) -> u128
    ensures { result ≡ weight_of version n }
{
    u128::from(ZONE_HEADER) + u128::from(header(version)) + u128::from(n)
}

/// What a written label comes to.
pub(crate) fn relabel(
    alloc: Global,
    id: GroupId,
    vsn: Vsn,
    image: &Image,
    number: u64,
    epoch: u64,
    version: u8,
) -> Result<Prepared, NoMemory>
    ensures { IfOk result (λ p. p ≡ prepared_plan (relabel_of id vsn image.now number epoch version)) }
{
    let mark = Mark::Label {
        group: id,
        vsn,
        mount: number,
        epoch,
        version,
        text: label(alloc, vsn, id, version, epoch, image.size)?,
    };
    Ok(Prepared {
        mark,
        ..quiet_plan(Component::Group { group: id }, Answer::Labelled)
    })
}

/// What it needs of the mount.
pub(crate) fn label_guard(epoch: u64, version: u8, mount: &MountState) -> (bool, Guard)
    ensures { result ∷ [] ≡ relabel_needs epoch version mount.now }
{
    (
        is_planned_label(mount.origin, epoch, version),
        Guard::LabelPlanned,
    )
}

// Whether a mount is for a label of this epoch and version.
fn is_planned_label(origin: Origin, epoch: u64, version: u8) -> bool
    ensures { result ≡ is_planned_label_of origin epoch version }
{
    match origin {
        Origin::New { listed, format } => !listed && epoch == 1 && version == format,
        Origin::Reuse {
            next_epoch,
            version: planned,
            ..
        } => epoch == next_epoch && version == planned,
        Origin::Piece { .. }
        | Origin::Chunk { .. }
        | Origin::Source { .. }
        | Origin::Target { .. } => false,
    }
}

// The label of a volume, of any version: whether it is one that is planned is a guard.
#[tactic(auto, unfolding(dm_rules::specs::Label::label))]
fn label(
    alloc: Global,
    vsn: Vsn,
    id: GroupId,
    version: u8,
    epoch: u64,
    size: u64,
) -> Result<Bytes, NoMemory>
    ensures { IfOk result (λ text. text ≡ label_of vsn.0 id.0 version epoch size) }
{
    let mut text = Vec::new(alloc);
    text.extend_from_slice(b"DMVOLIM1")?;
    text.extend_from_slice(&vsn.0)?;
    text.extend_from_slice(&[id.0, version])?;
    text.extend_from_slice(&eight_bytes(epoch))?;
    text.extend_from_slice(&eight_bytes(size))?;
    text.extend_from_slice(&[0; 32])?;
    Ok(Bytes::from_vec(text))
}

fn eight_bytes(n: u64) -> [u8; 8]
    ensures { result ≡ to_be_bytes w64 n }
{
    let mut bytes = [0; 8];
    BigEndian::write_u64(&mut bytes, n);
    bytes
}
