//! `dmfd`, a hierarchical storage manager: the program.
//!
//! All that it does is `dm_site::run_script`. The modules here are the edge to the system: the streams,
//! the clock, and the files that are the storage device. They tell contracts nothing of what a stream or
//! a file holds, and are what is trusted, with the toolchain and the C library.
#![tactic(auto)]

mod clock;
mod device;
mod folder;
mod stream;

use clock::SystemClock;
use device::FileBay;
use dm_host::MemSource;
use dm_site::run_script;
use std::io::ErrorKind;
use std::process::ExitCode;
use std::{env, io};
use stream::{StreamSink, StreamSource};

/// The exit status where the program's own words couldn't be read.
const OUT_OF_MEMORY: u8 = 7;

fn main(rt: HostRuntime) -> ExitCode {
    let status = run(&rt).unwrap_or(OUT_OF_MEMORY);
    if status != 0 {
        let _ = eprintln!(rt; "dmfd: status {status}");
    }
    ExitCode::from(status)
}

// Runs the words of the command line over the system's streams, clock and files.
fn run(rt: &HostRuntime) -> io::Result<u8> {
    let alloc = rt.alloc();
    let words = words_of(rt)?;
    let archive = match words.get(1) {
        Some(archive) => archive.as_str(),
        None => "",
    };
    let mut bay = FileBay::new(alloc, rt, format!(in alloc; "{archive}/bay")?);
    let mut conf = MemSource {
        bytes: Vec::new(alloc),
        at: 0,
        piece: 1,
        fail: Vec::new(alloc),
        calls: 0,
        count: 0,
    };
    let mut source = StreamSource::new(rt.reader());
    let mut sink = StreamSink::new(io::writer(rt));
    let mut clock = SystemClock::new(rt);
    let status = run_script(
        alloc,
        words.as_slice(),
        &mut conf,
        &mut source,
        &mut sink,
        &mut clock,
        &mut bay,
    );
    if let Some(trouble) = bay.first_trouble() {
        let _ = eprintln!(rt; "dmfd: {archive}/bay: {trouble}");
    }
    Ok(status)
}

// The words of the command line without the program's name. Words that aren't text are no valid command line, and
// neither is the empty list that is given for them.
fn words_of(rt: &HostRuntime) -> io::Result<Vec<String>> {
    let mut words = Vec::new(rt.alloc());
    match env::args(rt) {
        Ok(all) => {
            for word in all.skip(1) {
                words.push(word)?;
            }
        }
        Err(error) if error.kind() == ErrorKind::InvalidData => {}
        Err(error) => return Err(error),
    }
    Ok(words)
}
