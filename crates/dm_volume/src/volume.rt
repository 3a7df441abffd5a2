//! A volume: what of its image is known after each call.
//!
//! A call is one write with its sync, or one read, of the one file that is the image. What it promises of content it
//! promises where the device tells of that file, whatever it tells of others: an image that may rot is read and written
//! by the same calls, and then only its faults are known. Which ranges of an image have a meaning, and whether a mount is
//! still open, is for the library server to say.
ghost use Rattle.std.specs.Prelude.{◌≡◌, ◌<◌, ◌≤◌, length};
ghost use Rattle.dm_host.specs.Count.{HasCause};
ghost use Rattle.dm_rules.specs.Label.{first_zone};
ghost use Rattle.dm_rules.specs.Version.{IsVersion};
ghost use Rattle.dm_volume.specs.Volume.{IsInZones, IsReadable, Reads, Replaces, label_in};

use crate::image::{fetch, replace};
use dm_base::{GroupId, Mount, Vsn};
use dm_host::{Bay, Failed};
use std::marker::Model;

/// A volume whose image is a file of a bay. Each call takes a mount of the volume. It reads nothing of it: that
/// there is one keeps every call off a volume that isn't mounted.
#[derive(Drop)]
pub struct Volume {
    vsn: Vsn,
    group: GroupId,
    file: u32,
    size: u64,
}

impl Model for Volume {
    ghost use Rattle.std.specs.Prelude.{◌<◌, ◌≤◌};
    ghost use Rattle.dm_volume.specs.Volume.{Descriptor};

    ghost Value = { Descriptor };

    ghost view = { λ v. record { vsn = v.vsn; group = v.group; file = v.file; size = v.size } };

    ghost invariant = { λ v. (v.file < 256) × (256 ≤ v.size) × (v.size ≤ 67108864) };
}

impl Volume {
    /// The volume of this serial number and group, whose image of `size` bytes is this file. It takes no memory.
    pub fn of(vsn: Vsn, group: GroupId, file: u32, size: u64) -> Volume
        requires file { file < 256 }
        requires size { (256 ≤ size) × (size ≤ 67108864) }
        ensures { result ≡ record { vsn = vsn; group = group; file = file; size = size } }
    {
        Volume {
            vsn,
            group,
            file,
            size,
        }
    }

    /// Its serial number, which a mount of it has too.
    pub fn vsn(&self) -> Vsn
        ensures { result ≡ self.now.vsn }
    {
        self.vsn
    }

    /// The size in bytes that its label gives, where the last zone ends at the latest.
    pub fn size(&self) -> u64
        ensures size { result ≡ self.now.size }
        ensures range { (256 ≤ result) × (result ≤ 67108864) }
    {
        self.size
    }

    /// Writes a zone at a place, and syncs the image. After an error the range of the zone may hold any bytes.
    pub fn write_zone<B: Bay>(
        &mut self,
        bay: &mut B,
        mount: &Mount,
        place: u64,
        zone: &[u8],
    ) -> Result<(), Failed>
        requires mount { mount.now.vsn ≡ self.old.vsn }
        requires range { IsInZones self.old.size place (length zone.now) }
        ensures replaces { Replaces self.old.file place zone.now
            (B.disk bay.old) (B.disk bay.new) result }
        ensures volume { self.new ≡ self.old }
        ensures cause { HasCause (B.count bay.old) (B.count bay.new) result }
    {
        replace(bay, self.file, place, zone)
    }

    /// Fills `into` with the bytes from a place on. Bytes past the end of the file read as zeros. After an error
    /// `into` may hold any bytes.
    pub fn read_chunk<B: Bay>(
        &mut self,
        bay: &mut B,
        mount: &Mount,
        place: u64,
        into: &mut [u8],
    ) -> Result<(), Failed>
        requires mount { mount.now.vsn ≡ self.old.vsn }
        requires range { IsReadable self.old.size place (length into.old) }
        ensures reads { Reads self.old.file place (length into.old) into.new
            (B.disk bay.old) (B.disk bay.new) result }
        ensures length { length into.new ≡ length into.old }
        ensures volume { self.new ≡ self.old }
        ensures cause { HasCause (B.count bay.old) (B.count bay.new) result }
    {
        fetch(bay, self.file, place, into)
    }

    /// Writes the label of this epoch and version, the first 64 bytes of the image, and syncs it. After an error these
    /// 64 may hold any bytes.
    pub fn relabel<B: Bay>(
        &mut self,
        bay: &mut B,
        mount: &Mount,
        epoch: u64,
        version: u8,
    ) -> Result<(), Failed>
        requires mount { mount.now.vsn ≡ self.old.vsn }
        requires version { IsVersion version }
        ensures replaces { Replaces self.old.file 0 (label_in self.old version epoch)
            (B.disk bay.old) (B.disk bay.new) result }
        ensures length { length (label_in self.old version epoch) ≡ first_zone }
        ensures volume { self.new ≡ self.old }
        ensures cause { HasCause (B.count bay.old) (B.count bay.new) result }
    {
        let bytes = dm_zone::label(&self.vsn.0, self.group, version, epoch, self.size);
        replace(bay, self.file, 0, &bytes)
    }
}
