//! The program begins anew.

ghost use Rattle.std.specs.Prelude.{◌≡◌, true, false, IfOk, OnOk, option_map};
ghost use Rattle.dm_durable.specs.Daemon.{after_restart};
ghost use Rattle.dm_durable_steps.specs.Bitfiles.{HasMore, HasNamed, named_by as named_by_of};

use crate::inodes::EndsPut;
use dm_base::{Bfid, NoMemory, Secs};
use dm_durable::{Contents, DaemonTables, Entry, Inode};
use dm_inodes::{bitfile, bitfile_made};
use dm_tables::{Numbers, TryEditAt};
use std::alloc::Global;

// Each put that has not ended is over: its inode is regular, and its bitfile is let go. Which bitfiles are named is
// gathered once, so that no entry looks at every inode.
pub(crate) fn restart(alloc: Global, mut tables: DaemonTables) -> Result<DaemonTables, NoMemory>
    ensures { IfOk result (λ t. t ≡ after_restart tables) }
{
    let made = bitfiles(alloc, &tables.inodes, true)?;
    tables.inodes = tables.inodes.mapped(alloc, &EndsPut { dual: false })?;
    let named = bitfiles(alloc, &tables.inodes, false)?;
    let time = tables.time;
    let ended = PutsEnded { made, named, time };
    tables.entries = tables.entries.edited(alloc, &ended)?;
    Ok(tables)
}

// The bitfiles that the inodes name: by puts that have not ended alone, or in any way.
fn bitfiles(alloc: Global, inodes: &Numbers<Inode>, making: bool) -> Result<Numbers<()>, NoMemory>
    ensures { IfOk result (λ set. HasNamed making inodes.now set) }
{
    let mut set = Numbers::empty(alloc);
    for (_, inode) in inodes.entries() {
        add(&mut set, named_by(making, &inode.contents))?;
    }
    Ok(set)
}

fn named_by(making: bool, contents: &Contents) -> Option<Bfid>
    ensures { option_map (λ b. b.0) result ≡ named_by_of making contents.now }
{
    if making {
        return bitfile_made(contents);
    }
    bitfile(contents)
}

fn add(set: &mut Numbers<()>, named: Option<Bfid>) -> Result<(), NoMemory>
    ensures { OnOk result (HasMore set.old (option_map (λ b. b.0) named) set.new) }
{
    match named {
        Some(bfid) => set.insert(bfid.0, ()),
        None => Ok(()),
    }
}

// All puts are over: these bitfiles were made, and those are named.
#[derive(Drop)]
struct PutsEnded {
    made: Numbers<()>,
    named: Numbers<()>,
    time: Secs,
}

impl TryEditAt<Entry> for PutsEnded {
    ghost use Rattle.dm_durable_steps.specs.Bitfiles.{entry_after_put};

    ghost edited = { λ it b e. entry_after_put it.made it.named it.time.0 b e };

    fn try_edit_at(&self, key: u128, row: &mut Entry) -> Result<(), NoMemory> {
        if self.made.contains(key) && !self.named.contains(key) {
            row.gone = Some(self.time);
        }
        Ok(())
    }
}
