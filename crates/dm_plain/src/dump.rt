//! A copy of all files, as they were at a time, with the least age in force since then.

ghost use Rattle.std.specs.Prelude.{◌≡◌, IfOk};
ghost use Rattle.std.specs.Option.{option_copied};
ghost use Rattle.dm_plain.specs.Namespace.{bytes_in, files_in};
ghost use Rattle.dm_plain.specs.Steps.{with_lower_least};

use dm_base::{Bytes, NoMemory, Path, Secs};
use dm_rows::Edit;
use std::alloc::Global;
use std::collections::BTreeMap;
use std::marker::Model;

/// The files that there were, each with the bytes that it had.
#[derive(Drop)]
pub(crate) struct Dump {
    made: Secs,
    least: u64,
    files: BTreeMap<Path, Bytes>,
}

impl Model for Dump {
    ghost use Rattle.std.specs.FinMap as map;
    ghost use Rattle.dm_plain.specs.Namespace.{PlainDump, dumped_code};

    ghost Value = { PlainDump };

    ghost coded = { dumped_code };

    ghost view = { λ d. record { made = d.made.0; least = d.least; files = map.from_entries d.files.entries } };
}

impl Dump {
    /// A dump of these files, made at a time under an age.
    pub(crate) fn of_files(
        alloc: Global,
        made: Secs,
        age: u64,
        files: &BTreeMap<Path, Bytes>,
    ) -> Result<Dump, NoMemory>
        ensures { IfOk result (λ dump. dump ≡ record { made = made.0; least = age; files = files_in files.now }) }
    {
        Ok(Dump {
            made,
            least: age,
            files: copied_files(alloc, files)?,
        })
    }

    // Lowers the least age to this one, where it is greater.
    fn lower(&mut self, age: u64)
        ensures { self.new ≡ with_lower_least age self.old }
    {
        self.least = self.least.min(age);
    }

    /// The bytes of a file, or none where the dump hasn't it.
    pub(crate) fn bytes_of(&self, path: &Path) -> Option<&Bytes>
        ensures { option_copied result ≡ bytes_in path.now self.now }
    {
        self.files.get(path)
    }
}

/// An age that comes into force, as a change of each dump.
#[derive(Drop)]
pub(crate) struct NewAge(pub(crate) u64);

impl Edit<Dump> for NewAge {
    ghost edited = { λ new. with_lower_least new.0 };

    fn edit(&self, row: &mut Dump) {
        row.lower(self.0);
    }
}

fn copied_files(
    alloc: Global,
    files: &BTreeMap<Path, Bytes>,
) -> Result<BTreeMap<Path, Bytes>, NoMemory>
    ensures { IfOk result (λ copy. files_in copy ≡ files_in files.now) }
{
    let mut copy = BTreeMap::new(alloc);
    for (path, bytes) in files {
        copy.insert(path.copied(alloc)?, bytes.copied(alloc)?)?;
    }
    Ok(copy)
}
