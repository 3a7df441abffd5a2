//! Rows: what a reply prints behind its line, a line each.

ghost use Rattle.std.specs.Prelude.{◌≡◌, ◌+◌, ◌≤◌, ◌++◌, ◌∷◌, [], List, ℕ, codes, length};
ghost use Rattle.arrayvec.specs.ArrayVec.{array_vec_len};
ghost use Rattle.dm_reply.specs.Text.{bfid_text, file_text, finding_text, volume_text};

use crate::piece::{Piece, push, push_right};
use crate::text::{
    push_bfid, push_held, push_of_bitfile, push_of_volume, push_two, push_words, state_text,
    volume_state_text,
};
use dm_base::{Bfid, FileRow, Finding, VolRow};

/// The most bytes of a row, its line feed among them: a path has 255, and what stands beside it fewer than 128.
pub const ROW_ROOM: usize = 384;

/// Rows that are to go out: some kilobytes, so that many rows take few writes.
pub type Rows = Piece<4096>;

/// What prints as a row.
pub trait Row {
    ghost text: { Self → List ℕ };

    /// Puts the row behind what is there, without the line feed that ends it.
    fn push(&self, piece: &mut Rows)
        requires { array_vec_len piece.old + 383 ≤ 4096 }
        ensures value { piece.new.items ≡ piece.old.items ++ text self.now }
        ensures short { array_vec_len piece.new ≤ array_vec_len piece.old + 383 };
}

impl Row for FileRow {
    ghost text = { file_text };

    fn push(&self, piece: &mut Rows) {
        push(piece, state_text(self.state));
        push(piece, b" ");
        push_right(piece, b' ', 12, self.len);
        push(piece, b" ");
        push(piece, self.path.bytes());
    }
}

impl Row for VolRow {
    ghost text = { volume_text };

    fn push(&self, piece: &mut Rows) {
        push(piece, &self.vsn.0);
        push(piece, b" ");
        push(piece, volume_state_text(self.state));
        push(piece, b" ");
        push_right(piece, b' ', 10, self.tip);
        push(piece, b" ");
        push_right(piece, b' ', 10, self.live);
        push(piece, b" ");
        push_held(piece, self.state);
    }
}

impl Row for Finding {
    ghost text = { finding_text };

    fn push(&self, piece: &mut Rows) {
        match self {
            Finding::NoCopy { group, bfid } => push_of_bitfile(piece, b"nocopy", *group, *bfid),
            Finding::Stray { group, bfid } => push_of_bitfile(piece, b"stray", *group, *bfid),
            Finding::Short {
                group,
                bfid,
                have,
                need,
            } => {
                push_of_bitfile(piece, b"short", *group, *bfid);
                push_two(piece, *have, *need);
            }
            Finding::Overlap {
                group,
                vsn,
                place,
                other,
            } => {
                push_of_volume(piece, b"overlap", *group, *vsn);
                push_two(piece, *place, *other);
            }
            Finding::Beyond {
                group,
                vsn,
                place,
                tip,
            } => {
                push_of_volume(piece, b"beyond", *group, *vsn);
                push_two(piece, *place, *tip);
            }
            Finding::LiveSum {
                group,
                vsn,
                kept,
                sum,
            } => {
                push_of_volume(piece, b"live", *group, *vsn);
                push_two(piece, *kept, *sum);
            }
            Finding::NoEntry { path, bfid } => push_named(piece, b"noentry ", path.bytes(), *bfid),
            Finding::Gone { path, bfid } => push_named(piece, b"gone ", path.bytes(), *bfid),
            Finding::Lost { name, bfid } => push_named(piece, b"lost ", name.bytes(), *bfid),
            Finding::BadLabel { group, vsn } => push_of_volume(piece, b"label", *group, *vsn),
            Finding::BadChunk { group, vsn, place } => {
                push_of_volume(piece, b"chunk", *group, *vsn);
                push_words(piece, b" ", *place);
            }
        }
    }
}

// A word, a name and a bitfile.
fn push_named(piece: &mut Rows, word: &[u8], name: &[u8], bfid: Bfid)
    requires { array_vec_len piece.old + length word.now + length name.now + 33 ≤ 4096 }
    ensures value { piece.new.items ≡ piece.old.items ++ (word.now ++ name.now ++ codes " " ++ bfid_text bfid) }
    ensures short { array_vec_len piece.new ≤ array_vec_len piece.old + length word.now + length name.now + 33 }
{
    push(piece, word);
    push(piece, name);
    push(piece, b" ");
    push_bfid(piece, bfid);
}
