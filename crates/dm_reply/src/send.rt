//! The way of a reply to a sink.
//!
//! A reply is one write wherever it is short. Rows go out in pieces of some kilobytes, and a file's bytes as they lie in
//! memory, behind their line and before the line feed that ends them. Nothing is allocated, and the array on the stack
//! is as large as what is said can use: the large one, for rows, stands in a function of its own, so that no other reply
//! pays for it.

ghost use Rattle.std.specs.Prelude.{◌≡◌, ◌+◌, ◌≤◌, [], ◌∷◌, ◌++◌, Err, OnErr, OnOk};
ghost use Rattle.arrayvec.specs.ArrayVec.{array_vec_len};
ghost use Rattle.dm_host.specs.Count.{Rose};
ghost use Rattle.dm_reply.specs.Fatal.{fatal_text};
ghost use Rattle.dm_reply.specs.Sends.{Sends, Holds};
ghost use Rattle.dm_reply.specs.Text.{line_of, rows_text, text_of};
ghost use Rattle.dm_reply.specs.Took.{Took, TookPart};

use crate::fatal::Fatal;
use crate::line::{LINE_ROOM, push_line};
use crate::piece::{Piece, push};
use crate::row::{ROW_ROOM, Row, Rows};
use dm_base::Reply;
use dm_host::{Failed, Sink};

/// A line alone.
type Line = Piece<LINE_ROOM>;

/// A line, and the bytes of a short file behind it.
type Short = Piece<512>;

/// Why a reply didn't reach the sink whole.
#[derive(Clone, Copy, Debug, PartialEq, Eq)]
pub enum SayError {
    /// The sink failed.
    Failed,
    /// The sink took nothing of bytes that it was given, which is its end.
    NothingTaken,
}

/// Gives the sink the text of a reply (docs/COMMANDS.md). It takes no memory. After `Ok` the whole text went out, after
/// an error a front of it. The text of a reply without rows that fits 512 bytes is one write, where the sink takes what
/// it is given.
pub fn say<K: Sink>(sink: &mut K, reply: &Reply) -> Result<(), SayError>
    ensures said { OnOk result (Took (K.taken sink.old) (K.taken sink.new) (text_of reply.now)) }
    ensures part { OnErr result (TookPart (K.taken sink.old) (K.taken sink.new) (text_of reply.now)) }
    ensures failed { result ≡ Err SayError.Failed → Rose (K.count sink.old) (K.count sink.new) }
    ensures none { (result ≡ Err SayError.Failed → ⊥) → K.count sink.new ≡ K.count sink.old }
    ensures nothing { result ≡ Err SayError.NothingTaken → K.ends sink.old }
    ensures count { K.count sink.old ≤ K.count sink.new }
    ensures ends { K.ends sink.new → K.ends sink.old }
{
    match reply {
        Reply::Content { bytes } => say_content(sink, reply, bytes.as_slice()),
        Reply::Files { rows } => say_rows(sink, reply, rows.as_slice()),
        Reply::Volumes { rows } => say_rows(sink, reply, rows.as_slice()),
        Reply::Findings { rows } => say_rows(sink, reply, rows.as_slice()),
        _ => say_line(sink, reply),
    }
}

/// Gives the sink the line that says why a site is not opened. What stands after an error is as for `say`.
#[inline(never)]
pub fn say_fatal<K: Sink>(sink: &mut K, fatal: &Fatal) -> Result<(), SayError>
    ensures said { OnOk result (Took (K.taken sink.old) (K.taken sink.new) (fatal_text fatal.now)) }
    ensures part { OnErr result (TookPart (K.taken sink.old) (K.taken sink.new) (fatal_text fatal.now)) }
    ensures failed { result ≡ Err SayError.Failed → Rose (K.count sink.old) (K.count sink.new) }
    ensures none { (result ≡ Err SayError.Failed → ⊥) → K.count sink.new ≡ K.count sink.old }
    ensures nothing { result ≡ Err SayError.NothingTaken → K.ends sink.old }
    ensures count { K.count sink.old ≤ K.count sink.new }
    ensures ends { K.ends sink.new → K.ends sink.old }
{
    let mut line = Rows::new();
    fatal.push_line(&mut line);
    send(sink, line.as_slice())
}

fn say_line<K: Sink>(sink: &mut K, reply: &Reply) -> Result<(), SayError>
    ensures { Sends (line_of reply.now ++ 10 ∷ []) (K.taken sink.old) (K.taken sink.new) (K.count sink.old) (K.count sink.new) (K.ends sink.old) (K.ends sink.new) result }
{
    let mut line = Line::new();
    push_line(&mut line, reply);
    send(sink, line.as_slice())
}

// The line, the bytes behind it and a line feed.
fn say_content<K: Sink>(sink: &mut K, reply: &Reply, bytes: &[u8]) -> Result<(), SayError>
    ensures { Sends (line_of reply.now ++ 10 ∷ (bytes.now ++ 10 ∷ [])) (K.taken sink.old) (K.taken sink.new) (K.count sink.old) (K.count sink.new) (K.ends sink.old) (K.ends sink.new) result }
{
    let mut piece = Short::new();
    push_line(&mut piece, reply);
    if bytes.len() < piece.remaining_capacity() {
        push(&mut piece, bytes);
        push(&mut piece, b"\n");
        return send(sink, piece.as_slice());
    }
    send_long(sink, piece.as_slice(), bytes)
}

fn send_long<K: Sink>(sink: &mut K, line: &[u8], bytes: &[u8]) -> Result<(), SayError>
    ensures { Sends (line.now ++ bytes.now ++ 10 ∷ []) (K.taken sink.old) (K.taken sink.new) (K.count sink.old) (K.count sink.new) (K.ends sink.old) (K.ends sink.new) result }
{
    send(sink, line)?;
    send(sink, bytes)?;
    send(sink, b"\n")
}

// The line and the rows behind it. It is kept out of `say`, which would else pay for its array at each reply.
#[inline(never)]
fn say_rows<K: Sink, R: Row>(sink: &mut K, reply: &Reply, rows: &[R]) -> Result<(), SayError>
    ensures { Sends (line_of reply.now ++ 10 ∷ rows_text R.text rows.now) (K.taken sink.old) (K.taken sink.new) (K.count sink.old) (K.count sink.new) (K.ends sink.old) (K.ends sink.new) result }
{
    let mut piece = Rows::new();
    push_line(&mut piece, reply);
    for row in rows {
        say_row(sink, &mut piece, row)?;
    }
    send(sink, piece.as_slice())
}

fn say_row<K: Sink, R: Row>(sink: &mut K, piece: &mut Rows, row: &R) -> Result<(), SayError>
    ensures { Holds (piece.old.items ++ (R.text row.now ++ 10 ∷ [])) piece.new.items (K.taken sink.old) (K.taken sink.new) (K.count sink.old) (K.count sink.new) (K.ends sink.old) (K.ends sink.new) result }
{
    make_room(sink, piece)?;
    row.push(piece);
    push(piece, b"\n");
    Ok(())
}

// Sends what is there, where it leaves too little room for a row.
fn make_room<K: Sink>(sink: &mut K, piece: &mut Rows) -> Result<(), SayError>
    ensures holds { Holds piece.old.items piece.new.items (K.taken sink.old) (K.taken sink.new) (K.count sink.old) (K.count sink.new) (K.ends sink.old) (K.ends sink.new) result }
    ensures room { OnOk result (array_vec_len piece.new + 384 ≤ 4096) }
{
    if piece.remaining_capacity() >= ROW_ROOM {
        return Ok(());
    }
    send(sink, piece.as_slice())?;
    piece.clear();
    Ok(())
}

// All of the bytes, in as many writes as the sink needs.
fn send<K: Sink>(sink: &mut K, bytes: &[u8]) -> Result<(), SayError>
    ensures { Sends bytes.now (K.taken sink.old) (K.taken sink.new) (K.count sink.old) (K.count sink.new) (K.ends sink.old) (K.ends sink.new) result }
{
    let mut sent = 0;
    while sent < bytes.len() {
        match sink.write(&bytes[sent..]) {
            Ok(0) => return Err(SayError::NothingTaken),
            Ok(taken) => sent += taken,
            Err(Failed) => return Err(SayError::Failed),
        }
    }
    Ok(())
}
