//! The folder of an archive: how it and its files are opened so that nobody else writes them.
//!
//! Opening takes three steps, before any byte of a file is written. The numbers of the standard streams are
//! taken where the program was started without them, since the system gives the least free number to the next
//! file, and a reply written to number 1 would else land in a volume. Missing folders are made, and each folder
//! that holds a name of ours is synced, so that the names are on the disk. Then `lock` in the folder of the
//! device is locked: a second run on the same folder is refused here.
//!
//! A file is opened only where it is a plain file: a symbolic link could lead to a file that somebody else
//! writes, or to the volume of another archive.

use std::alloc::Global;
use std::fs::{DirBuilder, File, OpenOptions, TryLockError, symlink_metadata};
use std::io::ErrorKind;
use std::os::fd::AsRawFd;
use std::os::unix::fs::{DirBuilderExt, MetadataExt, OpenOptionsExt};
use std::rt::Files;
use std::{fmt, io};

/// Files are the owner's alone, as what they hold may be anybody's.
const FILE_MODE: u32 = 0o600;

/// So are the folders that are made.
const FOLDER_MODE: u32 = 0o700;

/// Why the device failed.
#[derive(Drop)]
pub enum Trouble {
    /// Another run has the folder locked.
    InUse,
    /// What has the name of a file is a symbolic link, a folder or another thing that is no plain file.
    NotPlain,
    /// The folder couldn't be opened earlier in this run.
    Refused,
    /// The system's error.
    System(io::Error),
}

impl From<io::Error> for Trouble {
    fn from(error: io::Error) -> Trouble {
        Trouble::System(error)
    }
}

impl fmt::Display for Trouble {
    fn fmt<W: fmt::Write>(&self, f: &mut fmt::Formatter<W>) -> fmt::Result {
        match self {
            Trouble::InUse => f.write_str("another dmfd is using it"),
            Trouble::NotPlain => f.write_str("it is no plain file"),
            Trouble::Refused => f.write_str("it was not opened"),
            Trouble::System(error) => fmt::Display::fmt(error, f),
        }
    }
}

/// An archive's folder of files, which nobody else has open in a `dmfd`: `bay` in the folder of the archive.
#[derive(Drop)]
pub struct Folder {
    path: String,
    // Kept for what they hold, and never used: the numbers of standard streams that were closed, and the lock.
    _streams: Vec<File>,
    _lock: File,
}

impl Folder {
    /// Makes the folder where it is missing, and locks it. The two names that lead to it are synced also where they
    /// are found, since a run that was killed may have made them.
    pub fn open<R: Files<File = File>>(
        alloc: Global,
        system: &R,
        path: String,
    ) -> Result<Folder, Trouble> {
        let streams = standard_streams(alloc, system)?;
        make_folders(system, path.as_str())?;
        let archive = folder_of(path.as_str());
        sync_folder(system, archive)?;
        sync_folder(system, folder_of(archive))?;
        let name = format!(in alloc; "{path}/lock").map_err(io::Error::from)?;
        let lock = open_plain(system, name.as_str())?;
        match lock.try_lock() {
            Ok(()) => Ok(Folder {
                path,
                _streams: streams,
                _lock: lock,
            }),
            Err(TryLockError::WouldBlock) => Err(Trouble::InUse),
            Err(TryLockError::Error(error)) => Err(Trouble::System(error)),
        }
    }

    /// The file of that number, made where it is missing. Its name is then on the disk.
    pub fn file<R: Files<File = File>>(
        &self,
        alloc: Global,
        system: &R,
        number: u32,
    ) -> Result<File, Trouble> {
        let folder = self.path.as_str();
        let name = format!(in alloc; "{folder}/{number:03}").map_err(io::Error::from)?;
        open_plain(system, name.as_str())
    }
}

// Opens files until none gets the number of a standard stream. What stands for the input can't be read, and
// what stands for an output can't be written, so that a use of either fails, as it would without the file.
fn standard_streams<R: Files<File = File>>(
    alloc: Global,
    system: &R,
) -> Result<Vec<File>, Trouble> {
    let mut held = Vec::new(alloc);
    for _ in 0..3 {
        let readable = File::open(system, "/dev/null")?;
        match readable.as_raw_fd() {
            0 => {
                drop(readable);
                let writable = OpenOptions::new().write(true).open(system, "/dev/null")?;
                held.push(writable).map_err(io::Error::from)?;
            }
            1 | 2 => held.push(readable).map_err(io::Error::from)?,
            _ => break,
        }
    }
    Ok(held)
}

// Makes the folder and those above it. A folder that holds a new name is synced.
fn make_folders(system: &impl Files<File = File>, path: &str) -> Result<(), Trouble> {
    for end in 1..path.len() {
        if let Some((above, rest)) = path.split_at_checked(end)
            && rest.starts_with('/')
        {
            make_folder(system, above)?;
        }
    }
    make_folder(system, path)
}

fn make_folder(system: &impl Files<File = File>, path: &str) -> Result<(), Trouble> {
    match DirBuilder::new().mode(FOLDER_MODE).create(system, path) {
        Ok(()) => sync_folder(system, folder_of(path)),
        Err(error) if error.kind() == ErrorKind::AlreadyExists => Ok(()),
        Err(error) => Err(Trouble::System(error)),
    }
}

// The folder that holds the last name of a path.
fn folder_of(path: &str) -> &str {
    match path.trim_end_matches('/').rsplit_once('/') {
        None => ".",
        Some(("", _)) => "/",
        Some((folder, _)) => folder,
    }
}

// Brings the names in a folder onto the disk.
fn sync_folder(system: &impl Files<File = File>, path: &str) -> Result<(), Trouble> {
    File::open(system, path)?.sync_all()?;
    Ok(())
}

// Opens the plain file of this name, or makes it. Its folder is synced in both cases, since a run that was
// killed may have made the file and not synced its name.
fn open_plain(system: &impl Files<File = File>, path: &str) -> Result<File, Trouble> {
    let made = OpenOptions::new()
        .read(true)
        .write(true)
        .create_new(true)
        .mode(FILE_MODE)
        .open(system, path);
    let opened = match made {
        Ok(made) => made,
        Err(error) if error.kind() == ErrorKind::AlreadyExists => open_found(system, path)?,
        Err(error) => return Err(Trouble::System(error)),
    };
    sync_folder(system, folder_of(path))?;
    Ok(opened)
}

// Opens a file that is there. What was opened must be what had the name before, else the name was exchanged
// for a link meanwhile.
fn open_found(system: &impl Files<File = File>, path: &str) -> Result<File, Trouble> {
    let named = symlink_metadata(system, path)?;
    if !named.is_file() {
        return Err(Trouble::NotPlain);
    }
    let opened = OpenOptions::new()
        .read(true)
        .write(true)
        .open(system, path)?;
    let found = opened.metadata()?;
    if found.dev() == named.dev() && found.ino() == named.ino() {
        Ok(opened)
    } else {
        Err(Trouble::NotPlain)
    }
}
