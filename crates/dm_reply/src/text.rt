//! The words of lines and rows: states, identifiers, groups, volumes. Each function puts one of them behind what is
//! there, and says how many bytes that is at most.

ghost use Rattle.std.specs.Prelude.{◌≡◌, ◌+◌, ◌≤◌, ◌++◌, codes, decimal, length};
ghost use Rattle.arrayvec.specs.ArrayVec.{array_vec_len};
ghost use Rattle.dm_reply.specs.Text.{attributes_text, bfid_or_dash as bfid_or_dash_text, bfid_text, copy_text, held_text, of_bitfile, of_volume, state_text as state_text_of, two_numbers, volume_state_text as volume_state_text_of};

use crate::piece::{Piece, push, push_number};
use crate::time::push_time;
use dm_base::{Bfid, CopyFault, FileRow, FileState, GroupId, VolState, Vsn};

pub fn state_text(state: FileState) -> &'static [u8]
    ensures text { result.now ≡ state_text_of state }
    ensures short { length result.now ≡ 3 }
{
    match state {
        FileState::Regular => b"REG",
        FileState::Migrating => b"MIG",
        FileState::Dual => b"DUL",
        FileState::Offline => b"OFL",
        FileState::Unmigrating => b"UNM",
    }
}

pub fn volume_state_text(state: VolState) -> &'static [u8]
    ensures text { result.now ≡ volume_state_text_of state }
    ensures short { length result.now ≡ 5 }
{
    match state {
        VolState::Empty => b"EMPTY",
        VolState::Filling => b"FILL ",
        VolState::Full => b"FULL ",
        VolState::Held(_) => b"HELD ",
    }
}

/// Words, and a number behind them.
pub fn push_words<const N: usize>(piece: &mut Piece<N>, words: &[u8], number: u64)
    requires { array_vec_len piece.old + length words.now + 20 ≤ N }
    ensures value { piece.new.items ≡ piece.old.items ++ words.now ++ decimal number }
    ensures short { array_vec_len piece.new ≤ array_vec_len piece.old + length words.now + 20 }
{
    push(piece, words);
    push_number(piece, number);
}

/// Two numbers, a space before each.
pub fn push_two<const N: usize>(piece: &mut Piece<N>, a: u64, b: u64)
    requires { array_vec_len piece.old + 42 ≤ N }
    ensures value { piece.new.items ≡ piece.old.items ++ two_numbers a b }
    ensures short { array_vec_len piece.new ≤ array_vec_len piece.old + 42 }
{
    push_words(piece, b" ", a);
    push_words(piece, b" ", b);
}

pub fn push_bfid<const N: usize>(piece: &mut Piece<N>, bfid: Bfid)
    requires { array_vec_len piece.old + 32 ≤ N }
    ensures value { piece.new.items ≡ piece.old.items ++ bfid_text bfid }
    ensures short { array_vec_len piece.new ≡ array_vec_len piece.old + 32 }
{
    push(piece, &bfid.digits());
}

fn push_bfid_or_dash<const N: usize>(piece: &mut Piece<N>, bfid: Option<Bfid>)
    requires { array_vec_len piece.old + 32 ≤ N }
    ensures value { piece.new.items ≡ piece.old.items ++ bfid_or_dash_text bfid }
    ensures short { array_vec_len piece.new ≤ array_vec_len piece.old + 32 }
{
    match bfid {
        Some(bfid) => push_bfid(piece, bfid),
        None => push(piece, b"-"),
    }
}

/// A word, a group and its bitfile.
pub fn push_of_bitfile<const N: usize>(
    piece: &mut Piece<N>,
    word: &[u8],
    group: GroupId,
    bfid: Bfid,
)
    requires { array_vec_len piece.old + length word.now + 54 ≤ N }
    ensures value { piece.new.items ≡ piece.old.items ++ of_bitfile word.now group.0 bfid }
    ensures short { array_vec_len piece.new ≤ array_vec_len piece.old + length word.now + 54 }
{
    push(piece, word);
    push_words(piece, b" ", u64::from(group.0));
    push(piece, b" ");
    push_bfid(piece, bfid);
}

/// A word, a group and its volume.
pub fn push_of_volume<const N: usize>(piece: &mut Piece<N>, word: &[u8], group: GroupId, vsn: Vsn)
    requires { array_vec_len piece.old + length word.now + 28 ≤ N }
    ensures value { piece.new.items ≡ piece.old.items ++ of_volume word.now group.0 vsn }
    ensures short { array_vec_len piece.new ≤ array_vec_len piece.old + length word.now + 28 }
{
    push(piece, word);
    push_words(piece, b" ", u64::from(group.0));
    push(piece, b" ");
    push(piece, &vsn.0);
}

/// What a user is told of one file.
pub fn push_attributes<const N: usize>(piece: &mut Piece<N>, row: &FileRow)
    requires { array_vec_len piece.old + 78 ≤ N }
    ensures value { piece.new.items ≡ piece.old.items ++ attributes_text row.now }
    ensures short { array_vec_len piece.new ≤ array_vec_len piece.old + 78 }
{
    push(piece, state_text(row.state));
    push_two(piece, row.len, row.change);
    push(piece, b" ");
    push_bfid_or_dash(piece, row.bfid);
}

/// Why a copy could not be read.
pub fn push_copy<const N: usize>(piece: &mut Piece<N>, copy: CopyFault)
    requires { array_vec_len piece.old + 41 ≤ N }
    ensures value { piece.new.items ≡ piece.old.items ++ copy_text copy }
    ensures short { array_vec_len piece.new ≤ array_vec_len piece.old + 41 }
{
    push_number(piece, u64::from(copy.group.0));
    match copy.damaged {
        Some(_) => push(piece, b":damaged"),
        None => push_words(piece, b":", copy.faults),
    }
}

/// From when on a volume is held.
pub fn push_held<const N: usize>(piece: &mut Piece<N>, state: VolState)
    requires { array_vec_len piece.old + 128 ≤ N }
    ensures value { piece.new.items ≡ piece.old.items ++ held_text state }
    ensures short { array_vec_len piece.new ≤ array_vec_len piece.old + 128 }
{
    match state {
        VolState::Held(since) => push_time(piece, since.0),
        VolState::Empty | VolState::Filling | VolState::Full => push(piece, b"-"),
    }
}
