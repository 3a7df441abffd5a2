//! The line of a reply. Every line is short: only rows and a file's bytes, which follow a line, can be long.

ghost use Rattle.std.specs.Prelude.{◌≡◌, ◌+◌, ◌≤◌, ◌++◌, ◌∷◌, []};
ghost use Rattle.arrayvec.specs.ArrayVec.{array_vec_len};
ghost use Rattle.dm_reply.specs.Text.{copies_text, line_of};

use crate::piece::{Piece, push};
use crate::text::{
    push_attributes, push_bfid, push_copy, push_of_volume, push_two, push_words, state_text,
};
use dm_base::{CopyFault, Reply};

/// The most bytes of a line, its line feed among them.
pub const LINE_ROOM: usize = 128;

/// Puts the line of a reply behind what is there, and the line feed that ends it.
pub fn push_line<const N: usize>(piece: &mut Piece<N>, reply: &Reply)
    requires { array_vec_len piece.old + 128 ≤ N }
    ensures { piece.new.items ≡ piece.old.items ++ line_of reply.now ++ 10 ∷ [] }
{
    push_words_of(piece, reply);
    push(piece, b"\n");
}

fn push_words_of<const N: usize>(piece: &mut Piece<N>, reply: &Reply)
    requires { array_vec_len piece.old + 127 ≤ N }
    ensures value { piece.new.items ≡ piece.old.items ++ line_of reply.now }
    ensures short { array_vec_len piece.new ≤ array_vec_len piece.old + 127 }
{
    match reply {
        Reply::Done => push(piece, b"ok"),
        Reply::Changed { change } => push_words(piece, b"ok ", *change),
        Reply::Stored { bfid } => {
            push(piece, b"ok ");
            push_bfid(piece, *bfid);
        }
        Reply::Content { bytes } => push_words(piece, b"ok ", bytes.len() as u64),
        Reply::Files { rows } => push_words(piece, b"ok ", rows.len() as u64),
        Reply::File { row } => {
            push(piece, b"ok ");
            push_attributes(piece, row);
        }
        Reply::Dumped { files } => push_words(piece, b"ok ", *files),
        Reply::Deleted { entries } => push_words(piece, b"ok ", *entries),
        Reply::Merged { moved, freed } => {
            push(piece, b"ok");
            push_two(piece, *moved, *freed);
        }
        Reply::Queued => push(piece, b"ok queued"),
        Reply::Reused { volumes } => push_words(piece, b"ok ", *volumes),
        Reply::Volumes { rows } => push_words(piece, b"ok ", rows.len() as u64),
        Reply::Findings { rows } => push_words(piece, b"ok ", rows.len() as u64),
        Reply::Spaced {
            released,
            stored,
            skipped,
        } => {
            push(piece, b"ok");
            push_two(piece, *released, *stored);
            push_words(piece, b" ", *skipped);
        }
        Reply::Moved { files, bytes } => {
            push(piece, b"ok");
            push_two(piece, *files, *bytes);
        }
        Reply::Saved { bitfiles } => push_words(piece, b"ok ", *bitfiles),
        Reply::NoFile => push(piece, b"err nofile"),
        Reply::WrongState { found } => {
            push(piece, b"err state ");
            push(piece, state_text(*found));
        }
        Reply::ChangedMeanwhile { was, found } => {
            push(piece, b"err changed");
            push_two(piece, *was, *found);
        }
        Reply::Full { have, need, cap } => {
            push(piece, b"err full");
            push_two(piece, *have, *need);
            push_words(piece, b" ", *cap);
        }
        Reply::NoDump => push(piece, b"err nodump"),
        Reply::Expired { now, made, age } => {
            push(piece, b"err expired");
            push_two(piece, now.0, made.0);
            push_words(piece, b" ", *age);
        }
        Reply::Exists => push(piece, b"err exists"),
        Reply::Limit { limit } => push_words(piece, b"err limit ", *limit),
        Reply::DaemonFault => push(piece, b"err daemon"),
        Reply::NoMemory => push(piece, b"err memory"),
        Reply::NoRoom { have, need } => {
            push(piece, b"err room");
            push_two(piece, *have, *need);
        }
        Reply::GroupFault { group } => push_words(piece, b"err group ", u64::from(group.0)),
        Reply::Damaged { group, vsn, place } => {
            push(piece, b"err ");
            push_of_volume(piece, b"damage", *group, *vsn);
            push_words(piece, b" ", *place);
        }
        Reply::AllCopies { copies } => {
            push(piece, b"err copies");
            push_copies(piece, *copies);
        }
        Reply::NoGroup => push(piece, b"err nogroup"),
        Reply::QueueFull => push(piece, b"err queue 16"),
        Reply::NoSave => push(piece, b"err nosave"),
        Reply::NoBitfile => push(piece, b"err nobitfile"),
        Reply::Rewritten { vsn, was, found } => {
            push(piece, b"err rewritten ");
            push(piece, &vsn.0);
            push_two(piece, *was, *found);
        }
        Reply::Syntax => push(piece, b"err syntax"),
    }
}

// The copies in the order in which they were asked for.
fn push_copies<const N: usize>(piece: &mut Piece<N>, copies: [Option<CopyFault>; 2])
    requires { array_vec_len piece.old + 84 ≤ N }
    ensures value { piece.new.items ≡ piece.old.items ++ copies_text copies }
    ensures short { array_vec_len piece.new ≤ array_vec_len piece.old + 84 }
{
    let [first, second] = copies;
    push_asked(piece, first);
    push_asked(piece, second);
}

fn push_asked<const N: usize>(piece: &mut Piece<N>, copy: Option<CopyFault>)
    requires { array_vec_len piece.old + 42 ≤ N }
    ensures value { piece.new.items ≡ piece.old.items ++ copies_text (copy ∷ []) }
    ensures short { array_vec_len piece.new ≤ array_vec_len piece.old + 42 }
{
    if let Some(copy) = copy {
        push(piece, b" ");
        push_copy(piece, copy);
    }
}
