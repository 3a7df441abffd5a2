//! One step of reading: what a piece of the input does to the command that is begun.
//!
//! Each step looks at the bytes of its piece alone, never again at those that came before, so reading
//! costs what comes. A payload is kept where a file may have so many bytes; a longer one is counted and
//! kept nowhere. Memory grows as bytes come, whatever number a line says.

ghost use Rattle.std.specs.Prelude.{◌≡◌, ◌==◌, ◌+◌, ◌<◌, ◌≤◌, ◌++◌, length, position, IfOk, OnOk, IsErrOf};
ghost use Rattle.dm_proto.specs.Words.{IsLine, HasNoEnd, words};
ghost use Rattle.dm_proto.specs.Stream.{IsTooLong};
ghost use Rattle.dm_base.specs.Limits.{line_limit};
ghost use Rattle.dm_proto.specs.Found.{found_in};
ghost use Rattle.dm_proto.specs.Holding.{IsHeld, IsStep, IsEnded, begun_of};

use crate::heard::{Heard, InputError};
use crate::line::{Line, Opening, line_of};
use dm_base::{Bytes, FILE_LIMIT, LINE_LIMIT, NoMemory};
use std::alloc::Global;

/// A payload of which something is missing.
#[derive(Drop)]
pub enum Payload {
    /// Its bytes so far.
    Kept { opening: Opening, bytes: Vec<u8> },
    /// It has more bytes than a file may have. So many are still to be read off.
    Skipped { opening: Opening, left: u64 },
}

/// What a step leaves beside the line's bytes.
#[derive(Drop)]
pub struct Step {
    /// How many bytes of the piece were taken.
    pub taken: usize,
    /// The payload that is begun.
    pub payload: Option<Payload>,
    /// What was ended.
    pub ready: Option<Heard>,
}

/// Takes the front of a piece up to the end of the line or of the payload that is begun, or all of
/// it. An error may leave bytes of the piece in the line.
pub fn hear(
    alloc: Global,
    line: &mut Vec<u8>,
    payload: Option<Payload>,
    bytes: &[u8],
) -> Result<Step, InputError>
    requires { IsHeld line.old.items payload }
    ensures heard { IfOk result (IsStep (begun_of line.old.items payload) bytes.now line.new.items) }
    ensures long { IsErrOf result InputError.LongLine →
        IsTooLong (begun_of line.old.items payload ++ bytes.now) }
    ensures kept { IsLine line.new.items }
{
    match payload {
        None => hear_line(alloc, line, bytes),
        Some(
            Payload::Kept {
                opening,
                bytes: held,
            },
        ) => Ok(hear_kept(line, opening, held, bytes)?),
        Some(Payload::Skipped { opening, left }) => Ok(hear_skipped(line, opening, left, bytes)),
    }
}

// The same for a line.
fn hear_line(alloc: Global, line: &mut Vec<u8>, bytes: &[u8]) -> Result<Step, InputError>
    requires { IsLine line.old.items }
    ensures heard { IfOk result (IsStep line.old.items bytes.now line.new.items) }
    ensures long { IsErrOf result InputError.LongLine → IsTooLong (line.old.items ++ bytes.now) }
    ensures kept { IsLine line.new.items }
{
    let Some(end) = line_end(bytes) else {
        extend_line(line, bytes)?;
        return Ok(Step {
            taken: bytes.len(),
            payload: None,
            ready: None,
        });
    };
    extend_line(line, bytes.split_at(end).0)?;
    let found = line_of(alloc, line.as_slice())?;
    let (payload, ready) = end_line(alloc, line, found);
    Ok(Step {
        taken: end + 1,
        payload,
        ready,
    })
}

// The same for a payload that is kept. The line is that of its command.
fn hear_kept(
    line: &mut Vec<u8>,
    opening: Opening,
    held: Vec<u8>,
    bytes: &[u8],
) -> Result<Step, NoMemory>
    requires { IsHeld line.old.items (Some (Payload.Kept opening held)) }
    ensures heard { IfOk result
        (IsStep (begun_of line.old.items (Some (Payload.Kept opening held))) bytes.now line.new.items) }
    ensures kept { IsLine line.new.items }
{
    let mut held = held;
    let missing = opening.size as usize - held.len();
    if bytes.len() < missing {
        held.extend_from_slice(bytes)?;
        return Ok(Step {
            taken: bytes.len(),
            payload: Some(Payload::Kept {
                opening,
                bytes: held,
            }),
            ready: None,
        });
    }
    held.extend_from_slice(bytes.split_at(missing).0)?;
    line.clear();
    Ok(Step {
        taken: missing,
        payload: None,
        ready: Some(Heard::Command(opening.kept(Bytes::from_vec(held)))),
    })
}

// The same for a payload that is kept nowhere.
fn hear_skipped(line: &mut Vec<u8>, opening: Opening, left: u64, bytes: &[u8]) -> Step
    requires { IsHeld line.old.items (Some (Payload.Skipped opening left)) }
    ensures heard { IsStep (begun_of line.old.items (Some (Payload.Skipped opening left))) bytes.now line.new.items result }
    ensures kept { IsLine line.new.items }
{
    let taken = bytes.len();
    if (taken as u64) < left {
        return Step {
            taken,
            payload: Some(Payload::Skipped {
                opening,
                left: left - taken as u64,
            }),
            ready: None,
        };
    }
    line.clear();
    Step {
        taken: left as usize,
        payload: None,
        ready: Some(Heard::Command(opening.long())),
    }
}

// What is left of a line that has ended and says this. The line's bytes are cleared, but for a
// payload's sake.
fn end_line(alloc: Global, line: &mut Vec<u8>, found: Line) -> (Option<Payload>, Option<Heard>)
    requires line { IsLine line.old.items }
    requires found { found ≡ found_in (words line.old.items) }
    ensures { IsEnded line.old.items line.new.items result.0 result.1 }
{
    match found {
        Line::Payload(opening) => begin_payload(alloc, line, opening),
        Line::Blank => {
            line.clear();
            (None, None)
        }
        Line::Syntax => {
            line.clear();
            (None, Some(Heard::Syntax))
        }
        Line::Command(command) => {
            line.clear();
            (None, Some(Heard::Command(command)))
        }
    }
}

// The same for a line with a payload behind it. A payload of no bytes has come with its line.
fn begin_payload(
    alloc: Global,
    line: &mut Vec<u8>,
    opening: Opening,
) -> (Option<Payload>, Option<Heard>)
    requires line { IsLine line.old.items }
    requires found { found_in (words line.old.items) ≡ Line.Payload opening }
    ensures { IsEnded line.old.items line.new.items result.0 result.1 }
{
    let size = opening.size;
    if size > FILE_LIMIT {
        return (
            Some(Payload::Skipped {
                opening,
                left: size,
            }),
            None,
        );
    }
    let bytes = Vec::new(alloc);
    if size == 0 {
        line.clear();
        let command = opening.kept(Bytes::from_vec(bytes));
        return (None, Some(Heard::Command(command)));
    }
    (Some(Payload::Kept { opening, bytes }), None)
}

// Where the first line feed is.
fn line_end(bytes: &[u8]) -> Option<usize>
    ensures { result ≡ position (λ b. b == 10) bytes.now }
{
    bytes.iter().position(|b| *b == b'\n')
}

// Adds bytes of the line, which have no line feed. Memory is asked only within the limit.
fn extend_line(line: &mut Vec<u8>, bytes: &[u8]) -> Result<(), InputError>
    requires line { IsLine line.old.items }
    requires no_end { HasNoEnd bytes.now }
    ensures ok { OnOk result (line.new.items ≡ line.old.items ++ bytes.now) }
    ensures long { IsErrOf result InputError.LongLine →
        line_limit < length line.old.items + length bytes.now }
    ensures memory { IsErrOf result InputError.NoMemory →
        length line.old.items + length bytes.now ≤ line_limit }
    ensures kept { IsLine line.new.items }
{
    if bytes.len() > LINE_LIMIT - line.len() {
        return Err(InputError::LongLine);
    }
    line.extend_from_slice(bytes)?;
    Ok(())
}
