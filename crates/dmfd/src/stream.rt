//! The standard streams as the source and the sink of a session.

ghost use Rattle.std.specs.Prelude.{◌≡◌, None};
ghost use Rattle.std.specs.Io.{ReadsAtMost, WritesAtMost};

use dm_host::{Failed, Sink, Source};
use std::io;
use std::io::{ErrorKind, Read, Write};

/// A reader, with a count of its errors.
#[derive(Drop)]
pub struct StreamSource<R> {
    stream: R,
    count: u64,
}

impl<R: Read + Drop> StreamSource<R> {
    pub fn new(stream: R) -> StreamSource<R>
        ensures { result.count ≡ 0 }
    {
        StreamSource { stream, count: 0 }
    }
}

impl<R: Read + Drop> Source for StreamSource<R> {
    ghost left = { λ _. None };

    ghost count = { λ s. s.count };

    fn read(&mut self, into: &mut [u8]) -> Result<usize, Failed> {
        match read_once(&mut self.stream, into) {
            Ok(n) => Ok(n),
            Err(_) => {
                self.count = self.count.saturating_add(1);
                Err(Failed)
            }
        }
    }

    fn faults(&self) -> u64 {
        self.count
    }
}

/// A writer, with a count of its errors. It may take nothing of a piece.
#[derive(Drop)]
pub struct StreamSink<W> {
    stream: W,
    count: u64,
}

impl<W: Write + Drop> StreamSink<W> {
    pub fn new(stream: W) -> StreamSink<W>
        ensures { result.count ≡ 0 }
    {
        StreamSink { stream, count: 0 }
    }
}

impl<W: Write + Drop> Sink for StreamSink<W> {
    ghost taken = { λ _. None };

    ghost count = { λ s. s.count };

    ghost ends = { λ _. Unit {0} };

    fn write(&mut self, bytes: &[u8]) -> Result<usize, Failed> {
        match write_once(&mut self.stream, bytes) {
            Ok(n) => Ok(n),
            Err(_) => {
                self.count = self.count.saturating_add(1);
                Err(Failed)
            }
        }
    }

    fn faults(&self) -> u64 {
        self.count
    }
}

// One read, made again where a signal interrupts it.
fn read_once<R: Read>(stream: &mut R, into: &mut [u8]) -> io::Result<usize>
    ensures bound { ReadsAtMost result into.new }
{
    for _ in 0..u64::MAX {
        match stream.read(into) {
            Err(error) if error.kind() == ErrorKind::Interrupted => {}
            answer => return answer,
        }
    }
    Err(io::Error::from(ErrorKind::Interrupted))
}

// One write, made again where a signal interrupts it.
fn write_once<W: Write>(stream: &mut W, bytes: &[u8]) -> io::Result<usize>
    ensures bound { WritesAtMost result bytes.now }
{
    for _ in 0..u64::MAX {
        match stream.write(bytes) {
            Err(error) if error.kind() == ErrorKind::Interrupted => {}
            answer => return answer,
        }
    }
    Err(io::Error::from(ErrorKind::Interrupted))
}
