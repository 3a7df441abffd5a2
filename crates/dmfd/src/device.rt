//! Files of a folder as the storage device.
//!
//! File `n` of the device is the file `nnn` of the folder, three decimal digits. The folder is opened and locked at
//! the first call, so that a command line that is refused makes nothing; each file is kept open from its first call
//! on. A folder that couldn't be opened isn't tried again: each call fails and is counted, and the program ends with
//! the status of a device that failed at its opening.

ghost use Rattle.std.specs.Prelude.{◌≡◌, ◌+◌, ◌≤◌, ◌^◌, length, IfOk, OnOk};
ghost use Rattle.std.proofs.lemmas.Bool.{false≢true};
ghost use Rattle.std.specs.Io.{ReadsAtMost};
ghost use Rattle.dm_host.specs.Count.{Rose};
ghost use Rattle.dm_host.specs.Disk.{untold};

use crate::folder::{Folder, Trouble};
use dm_host::{Bay, Failed};
use std::alloc::Global;
use std::collections::BTreeMap;
use std::fs::File;
use std::io::ErrorKind;
use std::os::unix::fs::FileExt;
use std::rt::Files;
use std::{io, mem};

/// The longest that a file may be.
const LENGTH_LIMIT: u64 = 1 << 62;

/// The storage device, with a count of its errors, and the first of them.
#[derive(Drop)]
pub struct FileBay<'a, R> {
    files: OpenFiles<'a, R>,
    count: u64,
    first: Option<Trouble>,
}

impl<'a, R: Files<File = File>> FileBay<'a, R> {
    /// The device whose files are in this folder. Nothing is opened or made yet.
    pub fn new(alloc: Global, system: &'a R, path: String) -> FileBay<'a, R>
        ensures { result.count ≡ 0 }
    {
        let files = OpenFiles {
            alloc,
            system,
            folder: Opening::Awaited(path),
            open: BTreeMap::new(alloc),
        };
        FileBay {
            files,
            count: 0,
            first: None,
        }
    }

    /// What went wrong first, for a line on standard error.
    pub fn first_trouble(&self) -> Option<&Trouble> {
        self.first.as_ref()
    }
}

impl<R: Files<File = File>> Bay for FileBay<'_, R> {
    ghost disk = { λ _. untold };

    ghost count = { λ b. b.count };

    ghost counts_now = { λ _ _ _ _ _. tt };

    ghost only_now = { λ _ _ _ _. tt };

    ghost seen_may_stay = { λ _ _. tt };

    ghost bounded = { λ _ _ told. absurd (false≢true told) };

    fn len(&mut self, file: u32) -> Result<u64, Failed> {
        match self.files.length(file) {
            Ok(length) => Ok(length),
            Err(trouble) => Err(failed(&mut self.count, &mut self.first, trouble)),
        }
    }

    fn read(&mut self, file: u32, place: u64, into: &mut [u8]) -> Result<(), Failed> {
        match self.files.fill(file, place, into) {
            Ok(()) => Ok(()),
            Err(trouble) => Err(failed(&mut self.count, &mut self.first, trouble)),
        }
    }

    fn write(&mut self, file: u32, place: u64, bytes: &[u8]) -> Result<(), Failed> {
        match self.files.put(file, place, bytes) {
            Ok(()) => Ok(()),
            Err(trouble) => Err(failed(&mut self.count, &mut self.first, trouble)),
        }
    }

    fn sync(&mut self, file: u32) -> Result<(), Failed> {
        match self.files.sync(file) {
            Ok(()) => Ok(()),
            Err(trouble) => Err(failed(&mut self.count, &mut self.first, trouble)),
        }
    }

    fn faults(&self) -> u64 {
        self.count
    }
}

// Counts an error, and keeps it where it is the first.
fn failed(count: &mut u64, first: &mut Option<Trouble>, trouble: Trouble) -> Failed
    ensures kept { count.old ≤ count.new }
    ensures rose { Rose count.old count.new }
{
    if first.is_none() {
        *first = Some(trouble);
    }
    *count = count.saturating_add(1);
    Failed
}

// How far the folder's opening has come.
#[derive(Drop)]
enum Opening {
    // Not begun: the folder's path.
    Awaited(String),
    Done(Folder),
    Refused,
}

// The files of a folder, each of them kept open.
#[derive(Drop)]
struct OpenFiles<'a, R> {
    alloc: Global,
    system: &'a R,
    folder: Opening,
    open: BTreeMap<u32, File>,
}

impl<R: Files<File = File>> OpenFiles<'_, R> {
    // The open file, which is opened or made now if it isn't open.
    fn file(&mut self, number: u32) -> Result<&File, Trouble> {
        if !self.open.contains_key(&number) {
            self.open_folder()?;
            let Opening::Done(folder) = &self.folder else {
                return Err(Trouble::Refused);
            };
            let opened = folder.file(self.alloc, self.system, number)?;
            self.open.insert(number, opened).map_err(io::Error::from)?;
        }
        self.open.get(&number).ok_or(Trouble::Refused)
    }

    // Opens the folder, once.
    fn open_folder(&mut self) -> Result<(), Trouble> {
        match mem::replace(&mut self.folder, Opening::Refused) {
            Opening::Awaited(path) => {
                self.folder = Opening::Done(Folder::open(self.alloc, self.system, path)?);
                Ok(())
            }
            Opening::Done(folder) => {
                self.folder = Opening::Done(folder);
                Ok(())
            }
            Opening::Refused => Err(Trouble::Refused),
        }
    }

    fn length(&mut self, file: u32) -> Result<u64, Trouble>
        ensures { IfOk result (λ n. n ≤ 2 ^ 62) }
    {
        let length = self.file(file)?.metadata()?.len();
        if length > LENGTH_LIMIT {
            return Err(Trouble::System(io::Error::from(ErrorKind::InvalidData)));
        }
        Ok(length)
    }

    fn fill(&mut self, file: u32, place: u64, into: &mut [u8]) -> Result<(), Trouble>
        requires { place + length into.old ≤ 2 ^ 63 }
    {
        read_filled(self.file(file)?, place, into)?;
        Ok(())
    }

    fn put(&mut self, file: u32, place: u64, bytes: &[u8]) -> Result<(), Trouble>
        ensures { OnOk result (place + length bytes.now ≤ 2 ^ 62) }
    {
        let length = bytes.len() as u64;
        if length > LENGTH_LIMIT || place > LENGTH_LIMIT - length {
            return Err(Trouble::System(io::Error::from(ErrorKind::InvalidInput)));
        }
        let file = self.file(file)?;
        file.write_all_at(bytes, place)?;
        Ok(())
    }

    fn sync(&mut self, file: u32) -> Result<(), Trouble> {
        self.file(file)?.sync_all()?;
        Ok(())
    }
}

// Fills the buffer with the bytes from a place on, zeros past the end of the file.
fn read_filled(file: &File, place: u64, into: &mut [u8]) -> io::Result<()>
    requires { place + length into.old ≤ 2 ^ 63 }
{
    let mut filled = 0;
    while filled < into.len() {
        match read_once(file, place + filled as u64, &mut into[filled..])? {
            0 => {
                into[filled..].fill(0);
                return Ok(());
            }
            n => filled += n,
        }
    }
    Ok(())
}

// One read, made again where a signal interrupts it.
fn read_once(file: &File, place: u64, into: &mut [u8]) -> io::Result<usize>
    ensures bound { ReadsAtMost result into.new }
    ensures length { length into.new ≡ length into.old }
{
    for _ in 0..u64::MAX {
        match file.read_at(into, place) {
            Err(error) if error.kind() == ErrorKind::Interrupted => {}
            answer => return answer,
        }
    }
    Err(io::Error::from(ErrorKind::Interrupted))
}
