//! The files, the dumps, the time and the age of a plain namespace.

ghost use Rattle.std.specs.Prelude.{◌≡◌, ◌+◌, ◌≤◌, length, OnErr, OnOk};
ghost use Rattle.std.specs.Option.{option_copied, option_map};
ghost use Rattle.dm_plain.specs.Namespace.{bytes_of, no_files, with_file};
ghost use Rattle.dm_plain.specs.Steps.{namespace_after, bytes_dumped, range_replaced, with_restored_file, with_age, with_dump, without_dump, without_file, EndsInLimit, TakesMemory};

use crate::dump::{Dump, NewAge};
use crate::patch::patch;
use crate::step::PlainStep;
use dm_base::{Bytes, DumpName, NoMemory, Path, Secs};
use dm_rows::TextRows;
use std::alloc::Global;
use std::collections::BTreeMap;
use std::marker::Model;

/// Files by their paths, each with its bytes; dumps by their names, each with the time that it was made and the least
/// age in force since then; a time; and an age. (docs/DEFINITIONS.md, "The plain namespace".)
#[derive(Drop)]
pub struct Plain {
    files: BTreeMap<Path, Bytes>,
    dumps: TextRows<DumpName, Dump>,
    now: Secs,
    age: u64,
}

impl Model for Plain {
    ghost use Rattle.std.specs.FinMap as map;
    ghost use Rattle.dm_plain.specs.Namespace.{Namespace, namespace_code};

    ghost Value = { Namespace };

    ghost coded = { namespace_code };

    ghost view = { λ p. record { files = map.from_entries p.files.entries; dumps = p.dumps.rows; now = p.now.0; age = p.age } };
}

impl Plain {
    /// No file, no dump, the time 0, and this age. It takes no memory.
    pub fn empty(alloc: Global, age: u64) -> Plain
        ensures { result ≡ no_files age }
    {
        Plain {
            files: BTreeMap::new(alloc),
            dumps: TextRows::empty(alloc),
            now: Secs(0),
            age,
        }
    }

    /// Does a step. It copies the bytes and the names that it keeps, and for a dump all files, so memory
    /// may be refused; `Remove`, `Undump`, `Age` and `Time` take none.
    pub fn apply(&mut self, alloc: Global, step: &PlainStep) -> Result<(), NoMemory>
        // The range of a patch ends at most 16,777,216 bytes from the beginning of its file.
        requires { EndsInLimit step.now }
        ensures ok { OnOk result (self.new ≡ namespace_after step.now self.old) }
        ensures err { OnErr result (self.new ≡ self.old) }
        ensures err_by_memory { OnErr result (TakesMemory step.now) }
    {
        match step {
            PlainStep::Write { path, bytes } => {
                self.write(path.copied(alloc)?, bytes.copied(alloc)?)
            }
            PlainStep::Patch {
                path,
                offset,
                bytes,
            } => self.patch(alloc, path, *offset, bytes.as_slice()),
            PlainStep::Remove { path } => {
                self.remove(path);
                Ok(())
            }
            PlainStep::Dump { name } => self.dump(alloc, name.copied(alloc)?),
            PlainStep::Undump { name } => {
                self.undump(name);
                Ok(())
            }
            PlainStep::Restore { name, path, target } => self.restore(alloc, name, path, target),
            PlainStep::Age { age } => {
                self.set_age(*age);
                Ok(())
            }
            PlainStep::Time { now } => {
                self.now = *now;
                Ok(())
            }
        }
    }

    /// The bytes of a file, or none where it isn't there.
    pub fn read(&self, path: &Path) -> Option<&[u8]>
        ensures { option_copied result ≡ bytes_of path.now self.entry.now }
    {
        match self.files.get(path) {
            Some(bytes) => Some(bytes.as_slice()),
            None => None,
        }
    }

    fn write(&mut self, path: Path, bytes: Bytes) -> Result<(), NoMemory>
        ensures ok { OnOk result (self.new ≡ with_file path bytes self.old) }
        ensures err { OnErr result (self.new ≡ self.old) }
    {
        self.files.insert(path, bytes)?;
        Ok(())
    }

    fn patch(
        &mut self,
        alloc: Global,
        path: &Path,
        offset: u64,
        piece: &[u8],
    ) -> Result<(), NoMemory>
        requires { offset + length piece.now ≤ 16777216 }
        ensures ok { OnOk result (self.new ≡ range_replaced path.now offset piece.now self.old) }
        ensures err { OnErr result (self.new ≡ self.old) }
    {
        let Some(bytes) = self.files.get_mut(path) else {
            return Ok(());
        };
        patch(alloc, bytes, offset, piece)
    }

    fn remove(&mut self, path: &Path)
        ensures { self.new ≡ without_file path.now self.old }
    {
        self.files.remove(path);
    }

    fn dump(&mut self, alloc: Global, name: DumpName) -> Result<(), NoMemory>
        ensures ok { OnOk result (self.new ≡ with_dump name self.old) }
        ensures err { OnErr result (self.new ≡ self.old) }
    {
        let dump = Dump::of_files(alloc, self.now, self.age, &self.files)?;
        let row = Box::new(alloc, (name, dump))?;
        self.dumps.reserve(1)?;
        self.dumps.insert_reserved(row);
        Ok(())
    }

    fn undump(&mut self, name: &DumpName)
        ensures { self.new ≡ without_dump name.now self.old }
    {
        self.dumps.remove(name.bytes());
    }

    fn set_age(&mut self, age: u64)
        ensures { self.new ≡ with_age age self.old }
    {
        self.age = age;
        self.dumps.change_all(&NewAge(age));
    }

    fn restore(
        &mut self,
        alloc: Global,
        name: &DumpName,
        path: &Path,
        target: &Path,
    ) -> Result<(), NoMemory>
        ensures ok { OnOk result (self.new ≡ with_restored_file name.now path.now target.now self.old) }
        ensures err { OnErr result (self.new ≡ self.old) }
    {
        match self.dumped(name, path) {
            Some(bytes) => {
                let bytes = bytes.copied(alloc)?;
                self.write(target.copied(alloc)?, bytes)
            }
            None => Ok(()),
        }
    }

    // What a file of a dump holds.
    fn dumped(&self, name: &DumpName, path: &Path) -> Option<&Bytes>
        ensures { option_copied result ≡ bytes_dumped name.now path.now self.entry.now }
    {
        match self.dumps.get(name.bytes()) {
            Some(dump) => dump.bytes_of(path),
            None => None,
        }
    }
}
