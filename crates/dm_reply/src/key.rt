//! Keys of the configuration, as the user writes them.

ghost use Rattle.std.specs.Prelude.{◌≡◌, ◌+◌, ◌≤◌, ◌++◌, length};
ghost use Rattle.arrayvec.specs.ArrayVec.{array_vec_len};
ghost use Rattle.dm_reply.specs.Fatal.{group_key_text, key_text};

use crate::piece::{Piece, push};
use crate::text::push_words;
use dm_base::{ConfKey, GroupId};

/// Puts a key behind what is there.
pub fn push_key<const N: usize>(piece: &mut Piece<N>, key: ConfKey)
    requires { array_vec_len piece.old + 64 ≤ N }
    ensures value { piece.new.items ≡ piece.old.items ++ key_text key }
    ensures short { array_vec_len piece.new ≤ array_vec_len piece.old + 64 }
{
    match key {
        ConfKey::Length => push(piece, b"length"),
        ConfKey::Toml => push(piece, b"toml"),
        ConfKey::Site => push(piece, b"site"),
        ConfKey::First => push(piece, b"first"),
        ConfKey::Age => push(piece, b"age"),
        ConfKey::Cap => push(piece, b"cap"),
        ConfKey::Sessions => push(piece, b"sessions"),
        ConfKey::Copies => push(piece, b"copies"),
        ConfKey::Group => push(piece, b"group"),
        ConfKey::GroupDrives { group } => push_group_key(piece, group, b"drives"),
        ConfKey::GroupChunk { group } => push_group_key(piece, group, b"chunk"),
        ConfKey::GroupSparse { group } => push_group_key(piece, group, b"sparse"),
        ConfKey::GroupHold { group } => push_group_key(piece, group, b"hold"),
        ConfKey::GroupVolumes { group } => push_group_key(piece, group, b"volumes"),
        ConfKey::GroupSize { group } => push_group_key(piece, group, b"size"),
        ConfKey::GroupFormat { group } => push_group_key(piece, group, b"format"),
        ConfKey::SpaceHigh => push(piece, b"space.high"),
        ConfKey::SpaceLow => push(piece, b"space.low"),
        ConfKey::SpaceAhead => push(piece, b"space.ahead"),
        ConfKey::SpaceAgeWeight => push(piece, b"space.age_weight"),
        ConfKey::SpaceSizeWeight => push(piece, b"space.size_weight"),
        ConfKey::Unknown => push(piece, b"unknown"),
    }
}

fn push_group_key<const N: usize>(piece: &mut Piece<N>, group: GroupId, name: &[u8])
    requires { array_vec_len piece.old + length name.now + 27 ≤ N }
    ensures value { piece.new.items ≡ piece.old.items ++ group_key_text group.0 name.now }
    ensures short { array_vec_len piece.new ≤ array_vec_len piece.old + length name.now + 27 }
{
    push_words(piece, b"group.", u64::from(group.0));
    push(piece, b".");
    push(piece, name);
}
