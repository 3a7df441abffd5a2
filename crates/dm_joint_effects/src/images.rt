//! What is known of the volumes.

ghost use Rattle.std.specs.Prelude.{◌≡◌, List, ℕ, nat_eq, OnOk};
ghost use Rattle.std.specs.List.{list_any};
ghost use Rattle.dm_model.specs.SideShare.{images_labelled, is_faithful as is_faithful_of};
ghost use Rattle.dm_rules.specs.Known.{known_with_write, known_without_range};

use dm_base::{Bytes, NoMemory, Vsn};
use dm_model::Image;
use dm_rules::FIRST_VERSION;
use dm_tables::{Numbers, Texts, TryEdit};
use std::alloc::Global;

// Whether the file of a slot is faithful.
pub(crate) fn is_faithful(faithful: &[u8], slot: u8) -> bool
    ensures { result ≡ is_faithful_of faithful.now slot }
{
    faithful.iter().any(|file| *file == slot)
}

// The volume was labelled with this version. Of one with version 1 on a file that isn't faithful nothing is known any more.
pub(crate) fn label_image(
    alloc: Global,
    images: &mut Texts<Image>,
    faithful: &[u8],
    version: u8,
    slot: u8,
    vsn: Vsn,
) -> Result<(), NoMemory>
    ensures { OnOk result (images.new ≡ images_labelled faithful.now version slot vsn.0 images.old) }
{
    if version == FIRST_VERSION && !is_faithful(faithful, slot) {
        return images.edit(&vsn.0, &IsUnknown { alloc });
    }
    Ok(())
}

// Bytes were written from a place on.
#[derive(Drop)]
pub(crate) struct IsWritten<'a> {
    pub(crate) place: u64,
    pub(crate) bytes: &'a Bytes,
}

impl TryEdit<Image> for IsWritten<'_> {
    ghost use Rattle.dm_model.specs.SideShare.{known_by};
    ghost use Rattle.dm_rules.specs.Known.{known_with_write};

    ghost edited = { λ it. known_by (known_with_write it.place it.bytes.now) };

    fn try_edit(&self, row: &mut Image) -> Result<(), NoMemory> {
        know(&mut row.known, self.place, self.bytes.as_slice())
    }
}

// It isn't known any more what stands in the places of a range.
#[derive(Drop)]
pub(crate) struct IsForgotten {
    pub(crate) place: u64,
    pub(crate) count: usize,
}

impl TryEdit<Image> for IsForgotten {
    ghost use Rattle.dm_model.specs.SideShare.{known_by};
    ghost use Rattle.dm_rules.specs.Known.{known_without_range};

    ghost edited = { λ it. known_by (known_without_range it.place it.count) };

    fn try_edit(&self, row: &mut Image) -> Result<(), NoMemory> {
        forget(&mut row.known, self.place, self.count);
        Ok(())
    }
}

// Nothing is known of the volume any more.
#[derive(Drop)]
struct IsUnknown {
    alloc: Global,
}

impl TryEdit<Image> for IsUnknown {
    ghost use Rattle.dm_model.specs.SideShare.{without_known};

    ghost edited = { λ _. without_known };

    fn try_edit(&self, row: &mut Image) -> Result<(), NoMemory> {
        row.known = Numbers::empty(self.alloc);
        Ok(())
    }
}

// The bytes are known from the place on.
fn know(known: &mut Numbers<u8>, place: u64, bytes: &[u8]) -> Result<(), NoMemory>
    ensures { OnOk result (known.new ≡ known_with_write place bytes.now known.old) }
{
    let mut left = bytes.len();
    while left > 0 {
        left -= 1;
        known.insert(u128::from(place) + left as u128, bytes[left])?;
    }
    Ok(())
}

// The bytes of a range are known no more.
fn forget(known: &mut Numbers<u8>, place: u64, count: usize)
    ensures { known.new ≡ known_without_range place count known.old }
{
    for offset in 0..count {
        let _ = known.remove(u128::from(place) + offset as u128);
    }
}
