//! A file, and where its bytes are.

ghost use Rattle.std.specs.Prelude.{◌≡◌, ◌⊎◌, List, ℕ, Some, OnOk, OnErr};
ghost use Rattle.dm_site.specs.Files.{Sets, HasForm, file_in};

use dm_base::{Bfid, Bytes, NoMemory, Path};
use std::collections::BTreeMap;

/// Where a file's bytes are.
#[derive(Drop)]
pub(crate) enum Form {
    /// Online alone.
    Regular(Bytes),
    /// Online, and at this place of the volume.
    Dual {
        bytes: Bytes,
        bfid: Bfid,
        place: u64,
    },
    /// At this place of the volume alone.
    Offline {
        len: u64,
        bfid: Bfid,
        place: u64,
    },
}

/// A file under its path.
#[derive(Drop)]
pub(crate) struct File {
    /// The number of its last change.
    pub(crate) change: u64,
    pub(crate) form: Form,
}

/// Puts a file under a path, in place of the one that was there. For want of memory the table stays as it was.
pub(crate) fn set_file(
    files: &mut BTreeMap<Path, File>,
    path: Path,
    file: File,
) -> Result<(), NoMemory>
    ensures ok { OnOk result (Sets (file_in files.old) (file_in files.new) path file) }
    ensures err { OnErr result (file_in files.new ≡ file_in files.old) }
{
    files.insert(path, file)?;
    Ok(())
}

/// Gives the file of a path another form.
pub(crate) fn set_form(files: &mut BTreeMap<Path, File>, path: &Path, form: Form)
    ensures sets { (file : File) → file_in files.old path.now ≡ Some file → Sets (file_in files.old) (file_in files.new) path.now (record file { form = form }) }
    ensures others { (other : List ℕ) → (file_in files.new other ≡ file_in files.old other) ⊎ HasForm (file_in files.new other) form }
{
    if let Some(file) = files.get_mut(path) {
        file.form = form;
    }
}
