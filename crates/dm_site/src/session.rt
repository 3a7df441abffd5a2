//! The loop over the input: it reads pieces, hears the commands in them, and does and answers each.

ghost use Rattle.std.specs.Prelude.{◌≡◌, ◌≢◌, ◌⊎◌, ◌<◌, ◌≤◌, ◌++◌, [], length, take, None, IfOk, IfErr, OnOk, OnErr};
ghost use Rattle.dm_host.specs.Count.{Rose, HasCause};
ghost use Rattle.dm_proto.specs.Reading.{MayBegin};
ghost use Rattle.dm_site.specs.State.{state_of, beginning};
ghost use Rattle.dm_site.specs.Talk.{standing_of, Talk, Stopped};
ghost use Rattle.dm_site.specs.Status.{number_of, status_of, EndsReader};
ghost use Rattle.dm_site.specs.Script.{IsScript, TakenFrom, ReadToEnd};

use crate::archive::Archive;
use crate::status::Status;
use dm_host::{Bay, Failed, Sink, Source};
use dm_proto::{InputError, Reader};
use dm_reply::say;
use std::alloc::Global;

/// How many bytes are read at once.
const PIECE: usize = 4096;

/// Why a session ended before its input did.
#[derive(Drop)]
pub(crate) enum Stop {
    /// The sink failed or took nothing.
    ReplyCut,
    /// A command couldn't be read for want of memory.
    OutOfMemory,
    /// A line has more bytes than a line may have.
    LineTooLong,
}

/// Hears the next of a piece, and does and answers it where it is a whole item. The number of bytes that
/// it took.
fn answer_next<K: Sink, B: Bay>(
    alloc: Global,
    archive: &mut Archive,
    reader: &mut Reader,
    sink: &mut K,
    bay: &mut B,
    rest: &[u8],
) -> Result<usize, Stop>
    requires ready { reader.old.ready ≡ None }
    requires some { 0 < length rest.now }
    ensures fits { IfOk result (λ n. n ≤ length rest.now) }
    ensures goes { IfOk result (λ n. 0 < n) }
    ensures talked { IfOk result (λ n. Talk ((B.disk bay.old).told 16) (standing_of archive.old (B.disk bay.old) (K.taken sink.old) (B.count bay.old))
        (standing_of archive.new (B.disk bay.new) (K.taken sink.new) (B.count bay.new)) (reader.old.begun ++ take n rest.now) reader.new.begun []) }
    ensures stopped { IfErr result (Stopped ((B.disk bay.old).told 16) (standing_of archive.old (B.disk bay.old) (K.taken sink.old) (B.count bay.old))
        (standing_of archive.new (B.disk bay.new) (K.taken sink.new) (B.count bay.new)) (reader.old.begun ++ rest.now)) }
    ensures begun { OnOk result (MayBegin reader.new.begun) }
    ensures idle { OnOk result (reader.new.ready ≡ None) }
    ensures told { (B.disk bay.new).told ≡ (B.disk bay.old).told }
    ensures cause { result ≡ Err Stop.ReplyCut → Rose (K.count sink.old) (K.count sink.new) ⊎ K.ends sink.old }
    ensures count { OnOk result (K.count sink.new ≡ K.count sink.old) }
    ensures ends { K.ends sink.new → K.ends sink.old }
{
    let n = match reader.feed(alloc, rest) {
        Ok(n) => n,
        Err(InputError::LongLine) => return Err(Stop::LineTooLong),
        Err(InputError::NoMemory) => return Err(Stop::OutOfMemory),
    };
    let Some(heard) = reader.take() else {
        return Ok(n);
    };
    let reply = archive.answer(alloc, bay, heard);
    match say(sink, &reply) {
        Ok(()) => Ok(n),
        Err(_) => Err(Stop::ReplyCut),
    }
}

/// Does and answers what is heard in a piece of the input.
fn answer_piece<K: Sink, B: Bay>(
    alloc: Global,
    archive: &mut Archive,
    reader: &mut Reader,
    sink: &mut K,
    bay: &mut B,
    piece: &[u8],
) -> Result<(), Stop>
    requires ready { reader.old.ready ≡ None }
    requires begun { MayBegin reader.old.begun }
    ensures talked { OnOk result (Talk ((B.disk bay.old).told 16) (standing_of archive.old (B.disk bay.old) (K.taken sink.old) (B.count bay.old))
        (standing_of archive.new (B.disk bay.new) (K.taken sink.new) (B.count bay.new)) (reader.old.begun ++ piece.now) reader.new.begun []) }
    ensures stopped { IfErr result (Stopped ((B.disk bay.old).told 16) (standing_of archive.old (B.disk bay.old) (K.taken sink.old) (B.count bay.old))
        (standing_of archive.new (B.disk bay.new) (K.taken sink.new) (B.count bay.new)) (reader.old.begun ++ piece.now)) }
    ensures begun { OnOk result (MayBegin reader.new.begun) }
    ensures idle { OnOk result (reader.new.ready ≡ None) }
    ensures told { (B.disk bay.new).told ≡ (B.disk bay.old).told }
    ensures cause { result ≡ Err Stop.ReplyCut → Rose (K.count sink.old) (K.count sink.new) ⊎ K.ends sink.old }
    ensures count { OnOk result (K.count sink.new ≡ K.count sink.old) }
    ensures ends { K.ends sink.new → K.ends sink.old }
{
    let mut taken = 0;
    while taken < piece.len() {
        taken += answer_next(alloc, archive, reader, sink, bay, piece.split_at(taken).1)?;
    }
    Ok(())
}

/// Reads the next bytes into the front of the buffer, at most so many. None is the end of the input.
fn read_piece<S: Source>(source: &mut S, buffer: &mut [u8], most: u64) -> Result<usize, Failed>
    requires room { 0 < length buffer.old }
    requires some { 0 < most }
    ensures fits { IfOk result (λ n. n ≤ length buffer.new) }
    ensures few { IfOk result (λ n. n ≤ most) }
    ensures taken { IfOk result (λ n. TakenFrom (S.left source.old) (S.left source.new) (take n buffer.new)) }
    ensures end { IfOk result (λ n. n ≡ 0 → ReadToEnd (S.left source.new)) }
    ensures err { OnErr result (S.left source.new ≡ S.left source.old) }
    ensures cause { HasCause (S.count source.old) (S.count source.new) result }
{
    let room = buffer.len().min(most as usize);
    source.read(&mut buffer[..room])
}

/// Reads the input to its end, and does and answers what is heard in it.
pub(crate) fn converse<S: Source, K: Sink, B: Bay>(
    alloc: Global,
    archive: &mut Archive,
    source: &mut S,
    sink: &mut K,
    bay: &mut B,
) -> Status
    requires { state_of archive.old ≡ beginning }
    ensures script { IsScript ((B.disk bay.old).told 16) (S.left source.old) (S.left source.new) (K.taken sink.old) (K.taken sink.new)
        (B.count bay.old) (B.count bay.new) ((B.disk bay.new).seen 16) (number_of result) }
    ensures told { (B.disk bay.new).told ≡ (B.disk bay.old).told }
    ensures source_fault { result ≡ Status.SourceFailed → Rose (S.count source.old) (S.count source.new) }
    ensures sink_fault { result ≡ Status.ReplyCut → Rose (K.count sink.old) (K.count sink.new) ⊎ K.ends sink.old }
    ensures opened { result ≢ Status.DeviceFailed }
    ensures ran { result ≢ Status.NoRun }
{
    let mut reader = Reader::new(alloc);
    let mut buffer = [0u8; PIECE];
    let mut more = u64::MAX;
    while more > 0 {
        let n = match read_piece(source, &mut buffer, more) {
            Ok(n) => n,
            Err(Failed) => return Status::SourceFailed,
        };
        if n == 0 {
            return at_end(&reader);
        }
        more -= n as u64;
        match answer_piece(alloc, archive, &mut reader, sink, bay, &buffer[..n]) {
            Ok(()) => {}
            Err(stop) => return stopped(stop),
        }
    }
    Status::BytesUsedUp
}

// The input has ended.
fn at_end(reader: &Reader) -> Status
    ensures { EndsReader reader.now.begun result }
{
    if reader.inside() {
        Status::InputCut
    } else {
        Status::Done
    }
}

fn stopped(stop: Stop) -> Status
    ensures { result ≡ status_of stop }
{
    match stop {
        Stop::ReplyCut => Status::ReplyCut,
        Stop::OutOfMemory => Status::OutOfMemory,
        Stop::LineTooLong => Status::InputCut,
    }
}
