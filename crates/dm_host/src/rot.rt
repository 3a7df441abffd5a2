//! Bytes of a bay over memory that change by themselves.
ghost use Rattle.std.specs.Prelude.{◌↔◌, ◌<◌, ℕ, ◌≡◌, length, IsTrue};
ghost use Rattle.dm_host.specs.Past.{contents};
ghost use Rattle.dm_host.specs.Rot.{rotted, rotted_by};

use crate::files::{bytes_of, set_byte};

/// Before the call of this number, in this file, at this place, comes this byte.
pub type Rot = (u64, u32, u64, u8);

fn has_byte(files: &[Vec<u8>], file: u32, place: u64) -> bool
    ensures { IsTrue result ↔ place < length (contents files.now file) }
{
    place < bytes_of(files, file as usize).len() as u64
}

// Does what one entry asks for before this call.
fn rot_one(files: &mut Vec<Vec<u8>>, entry: Rot, call: u64)
    ensures { (g : ℕ) → contents files.new.items g ≡ rotted_by entry call g (contents files.old.items g) }
{
    let (number, file, place, byte) = entry;
    if number != call || !has_byte(files, file, place) {
        return;
    }
    set_byte(files, file as usize, place as usize, byte);
}

// Does what the entries ask for before this call.
pub fn rot_all(files: &mut Vec<Vec<u8>>, entries: &[Rot], call: u64)
    ensures { (g : ℕ) → contents files.new.items g ≡ rotted entries.now call g (contents files.old.items g) }
{
    for entry in entries {
        rot_one(files, *entry, call);
    }
}
