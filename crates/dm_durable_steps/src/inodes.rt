//! What a file holds, and how it goes from one form to another.

ghost use Rattle.std.specs.Prelude.{◌≡◌, IfOk, option_map};
ghost use Rattle.std.specs.FinMap as map;
ghost use Rattle.dm_durable.specs.Inodes.{bitfile_in, bytes_online as bytes_online_of, is_named as is_named_of};
ghost use Rattle.dm_durable.specs.Inodes.{as_ended as as_ended_of, as_making as as_making_of, as_offline as as_offline_of, as_recalled as as_recalled_of};

use dm_base::{Bfid, Bytes, NoMemory};
use dm_durable::{Contents, Inode};
use dm_inodes::bitfile;
use dm_tables::{Change, Numbers, Test, TryEdit};
use std::alloc::Global;
use std::mem;

/// A copy of the bytes, or of none where they aren't on the disk.
pub fn bytes_online(alloc: Global, contents: &Contents) -> Result<Bytes, NoMemory>
    ensures { IfOk result (λ bytes. bytes ≡ bytes_online_of contents.now) }
{
    match contents {
        Contents::Regular { bytes }
        | Contents::Making { bytes, bfid: _ }
        | Contents::Dual { bytes, bfid: _ } => bytes.copied(alloc),
        Contents::Offline { len: _, bfid: _ } => Ok(Bytes::from_vec(Vec::new(alloc))),
    }
}

// The bytes, or none of them where they aren't on the disk.
fn into_bytes(alloc: Global, contents: Contents) -> Bytes
    ensures { result ≡ bytes_online_of contents }
{
    match contents {
        Contents::Regular { bytes }
        | Contents::Making { bytes, bfid: _ }
        | Contents::Dual { bytes, bfid: _ } => bytes,
        Contents::Offline { len: _, bfid: _ } => Bytes::from_vec(Vec::new(alloc)),
    }
}

fn as_ended(contents: Contents, dual: bool) -> Contents
    ensures { result ≡ as_ended_of dual contents }
{
    match contents {
        Contents::Making { bytes, bfid } => {
            if dual {
                Contents::Dual { bytes, bfid }
            } else {
                Contents::Regular { bytes }
            }
        }
        other => other,
    }
}

fn as_offline(contents: Contents) -> Contents
    ensures { result ≡ as_offline_of contents }
{
    match contents {
        Contents::Dual { bytes, bfid } => Contents::Offline {
            len: bytes.len() as u64,
            bfid,
        },
        other => other,
    }
}

fn as_recalled(contents: Contents, recalled: Bytes) -> Contents
    ensures { result ≡ as_recalled_of recalled contents }
{
    match contents {
        Contents::Offline { len: _, bfid } => Contents::Dual {
            bytes: recalled,
            bfid,
        },
        other => other,
    }
}

// What stands in an inode whose contents were moved out, until others are moved in.
const NOTHING: Contents = Contents::Offline {
    len: 0,
    bfid: Bfid(0),
};

// A put of this bitfile begins.
#[derive(Drop)]
pub(crate) struct BeginsPut {
    pub(crate) alloc: Global,
    pub(crate) bfid: Bfid,
}

impl TryEdit<Inode> for BeginsPut {
    ghost use Rattle.dm_durable.specs.Inodes.{as_making, with_contents};

    ghost edited = { λ it. with_contents (as_making it.bfid) };

    fn try_edit(&self, row: &mut Inode) -> Result<(), NoMemory> {
        let contents = mem::replace(&mut row.contents, NOTHING);
        row.contents = Contents::Making {
            bytes: into_bytes(self.alloc, contents),
            bfid: self.bfid,
        };
        Ok(())
    }
}

// A put ends: with every copy stored, or not.
#[derive(Drop)]
pub(crate) struct EndsPut {
    pub(crate) dual: bool,
}

impl TryEdit<Inode> for EndsPut {
    ghost use Rattle.dm_durable.specs.Inodes.{as_ended, with_contents};

    ghost edited = { λ it. with_contents (as_ended it.dual) };

    fn try_edit(&self, row: &mut Inode) -> Result<(), NoMemory> {
        let contents = mem::replace(&mut row.contents, NOTHING);
        row.contents = as_ended(contents, self.dual);
        Ok(())
    }
}

impl Change<Inode> for EndsPut {
    ghost use Rattle.dm_durable.specs.Inodes.{as_ended, with_contents};

    ghost changed = { λ it. with_contents (as_ended it.dual) };

    fn change(&self, row: Inode) -> Inode {
        Inode {
            change: row.change,
            contents: as_ended(row.contents, self.dual),
        }
    }
}

// The bytes leave the disk.
pub(crate) struct LeavesDisk;

impl TryEdit<Inode> for LeavesDisk {
    ghost use Rattle.dm_durable.specs.Inodes.{as_offline, with_contents};

    ghost edited = { λ _. with_contents as_offline };

    fn try_edit(&self, row: &mut Inode) -> Result<(), NoMemory> {
        let contents = mem::replace(&mut row.contents, NOTHING);
        row.contents = as_offline(contents);
        Ok(())
    }
}

// The bytes were recalled.
#[derive(Drop)]
pub(crate) struct IsRecalled {
    pub(crate) alloc: Global,
    pub(crate) bytes: Bytes,
}

impl TryEdit<Inode> for IsRecalled {
    ghost use Rattle.dm_durable.specs.Inodes.{as_recalled, with_contents};

    ghost edited = { λ it. with_contents (as_recalled it.bytes) };

    fn try_edit(&self, row: &mut Inode) -> Result<(), NoMemory> {
        let bytes = self.bytes.copied(self.alloc)?;
        let contents = mem::replace(&mut row.contents, NOTHING);
        row.contents = as_recalled(contents, bytes);
        Ok(())
    }
}

// The bitfile that the inode of this number names, if it is there.
pub(crate) fn bitfile_at(inodes: &Numbers<Inode>, key: u128) -> Option<Bfid>
    ensures { option_map (λ b. b.0) result ≡ bitfile_in (map.get inodes.now key) }
{
    match inodes.get(key) {
        Some(inode) => bitfile(&inode.contents),
        None => None,
    }
}

// Whether an inode names the bitfile.
pub(crate) fn is_named(inodes: &Numbers<Inode>, bfid: Bfid) -> bool
    ensures { result ≡ is_named_of inodes.now bfid.0 }
{
    inodes.any(&Names { bfid })
}

// Asks whether an inode names the bitfile.
#[derive(Drop)]
struct Names {
    bfid: Bfid,
}

impl Test<Inode> for Names {
    ghost use Rattle.dm_durable.specs.Inodes.{bitfile_of, is_bitfile};

    ghost passes = { λ it i. is_bitfile it.bfid.0 (bitfile_of i.contents) };

    fn test(&self, inode: &Inode) -> bool {
        match bitfile(&inode.contents) {
            Some(bfid) => bfid.0 == self.bfid.0,
            None => false,
        }
    }
}

// Asks whether a put of the inode has not ended.
pub(crate) struct IsMaking;

impl Test<Inode> for IsMaking {
    ghost use Rattle.dm_durable.specs.Inodes.{is_making};

    ghost passes = { λ _ i. is_making i.contents };

    fn test(&self, inode: &Inode) -> bool {
        match &inode.contents {
            Contents::Making { bytes: _, bfid: _ } => true,
            Contents::Regular { bytes: _ }
            | Contents::Dual { bytes: _, bfid: _ }
            | Contents::Offline { len: _, bfid: _ } => false,
        }
    }
}
