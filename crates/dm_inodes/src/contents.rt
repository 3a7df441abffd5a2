//! What a file holds, and how it goes from one form to another.

ghost use Rattle.std.specs.Prelude.{◌≡◌, length as length_of_list, option_map};
ghost use Rattle.dm_durable.specs.Inodes.{bitfile_of, bitfile_made as bitfile_made_of, bytes_online, length_of, with_contents};
ghost use Rattle.dm_durable.specs.Inodes.{as_ended as as_ended_of, as_making as as_making_of, as_offline as as_offline_of, as_recalled as as_recalled_of};

use dm_base::{Bfid, Bytes};
use dm_durable::{Contents, Inode};
use std::alloc::Global;
use std::mem;

/// The bitfile that they name.
pub fn bitfile(contents: &Contents) -> Option<Bfid>
    ensures { option_map (λ b. b.0) result ≡ bitfile_of contents.now }
{
    match contents {
        Contents::Regular { bytes: _ } => None,
        Contents::Making { bytes: _, bfid }
        | Contents::Dual { bytes: _, bfid }
        | Contents::Offline { len: _, bfid } => Some(*bfid),
    }
}

/// The bitfile of a put that has not ended.
pub fn bitfile_made(contents: &Contents) -> Option<Bfid>
    ensures { option_map (λ b. b.0) result ≡ bitfile_made_of contents.now }
{
    match contents {
        Contents::Making { bytes: _, bfid } => Some(*bfid),
        Contents::Regular { bytes: _ }
        | Contents::Dual { bytes: _, bfid: _ }
        | Contents::Offline { len: _, bfid: _ } => None,
    }
}

/// The length of the file.
pub fn length(contents: &Contents) -> u64
    ensures { result ≡ length_of contents.now }
{
    match contents {
        Contents::Regular { bytes }
        | Contents::Making { bytes, bfid: _ }
        | Contents::Dual { bytes, bfid: _ } => bytes.len() as u64,
        Contents::Offline { len, bfid: _ } => *len,
    }
}

/// How many of its bytes are on the disk.
pub fn length_online(contents: &Contents) -> u64
    ensures { result ≡ length_of_list (bytes_online contents.now) }
{
    match contents {
        Contents::Regular { bytes }
        | Contents::Making { bytes, bfid: _ }
        | Contents::Dual { bytes, bfid: _ } => bytes.len() as u64,
        Contents::Offline { len: _, bfid: _ } => 0,
    }
}

// The bytes, or none of them where they aren't on the disk.
fn into_bytes(contents: Contents, alloc: Global) -> Bytes
    ensures { result ≡ bytes_online contents }
{
    match contents {
        Contents::Regular { bytes }
        | Contents::Making { bytes, bfid: _ }
        | Contents::Dual { bytes, bfid: _ } => bytes,
        Contents::Offline { len: _, bfid: _ } => Bytes::from_vec(Vec::new(alloc)),
    }
}

// A put of this bitfile begins.
fn as_making(contents: Contents, alloc: Global, bfid: Bfid) -> Contents
    ensures { result ≡ as_making_of bfid contents }
{
    Contents::Making {
        bytes: into_bytes(contents, alloc),
        bfid,
    }
}

// The put ends: with every copy stored, or not.
fn as_ended(contents: Contents, dual: bool) -> Contents
    ensures { result ≡ as_ended_of dual contents }
{
    match contents {
        Contents::Making { bytes, bfid } => {
            if dual {
                Contents::Dual { bytes, bfid }
            } else {
                Contents::Regular { bytes }
            }
        }
        other => other,
    }
}

// The bytes leave the disk.
fn as_offline(contents: Contents) -> Contents
    ensures { result ≡ as_offline_of contents }
{
    match contents {
        Contents::Dual { bytes, bfid } => Contents::Offline {
            len: bytes.len() as u64,
            bfid,
        },
        other => other,
    }
}

// The bytes were recalled.
fn as_recalled(contents: Contents, recalled: Bytes) -> Contents
    ensures { result ≡ as_recalled_of recalled contents }
{
    match contents {
        Contents::Offline { len: _, bfid } => Contents::Dual {
            bytes: recalled,
            bfid,
        },
        other => other,
    }
}

// The same changes of an inode where it stands; its last change stays.
pub(crate) fn begin(inode: &mut Inode, alloc: Global, bfid: Bfid)
    ensures { inode.new ≡ with_contents (as_making_of bfid) inode.old }
{
    let contents = mem::replace(&mut inode.contents, NOTHING);
    inode.contents = as_making(contents, alloc, bfid);
}

pub(crate) fn end(inode: &mut Inode, dual: bool)
    ensures { inode.new ≡ with_contents (as_ended_of dual) inode.old }
{
    let contents = mem::replace(&mut inode.contents, NOTHING);
    inode.contents = as_ended(contents, dual);
}

pub(crate) fn release(inode: &mut Inode)
    ensures { inode.new ≡ with_contents as_offline_of inode.old }
{
    let contents = mem::replace(&mut inode.contents, NOTHING);
    inode.contents = as_offline(contents);
}

pub(crate) fn recall(inode: &mut Inode, bytes: Bytes)
    ensures { inode.new ≡ with_contents (as_recalled_of bytes) inode.old }
{
    let contents = mem::replace(&mut inode.contents, NOTHING);
    inode.contents = as_recalled(contents, bytes);
}

// What stands in an inode whose contents were moved out, until others are moved in.
const NOTHING: Contents = Contents::Offline {
    len: 0,
    bfid: Bfid(0),
};
