//! Steps that delete, and the one that begins anew.

ghost use Rattle.std.specs.Prelude.{◌≡◌, false};
ghost use Rattle.std.specs.FinMap as map;
ghost use Rattle.dm_tables.specs.Rows.{map_values};
ghost use Rattle.dm_durable.specs.Inodes.{as_ended, with_contents};
ghost use Rattle.dm_durable.specs.Daemon.{after_ending_puts, after_restart, with_dropping};
ghost use Rattle.dm_daemon_tables.specs.Tables.{state_of};

use crate::entries;
use crate::tables::Tables;
use dm_base::{Bfid, Secs};
use dm_durable::Entry;
use dm_inodes::Inodes;
use dm_rows::NumberRows;

impl Tables {
    // The copies of these bitfiles are being deleted.
    pub(crate) fn hard_delete(&mut self, bfids: &[Bfid])
        ensures { state_of self.new ≡ record (state_of self.old) { entries = with_dropping bfids.now (state_of self.old).entries } }
    {
        entries::drop_all(&mut self.entries, bfids);
    }

    // The entry of the bitfile is gone.
    pub(crate) fn dropped(&mut self, bfid: Bfid)
        ensures { state_of self.new ≡ record (state_of self.old) { entries = map.remove (state_of self.old).entries bfid.0 } }
    {
        let _entry = self.entries.take(bfid.0);
        self.inodes.forget(bfid);
    }

    // Each put that has not ended is over.
    pub(crate) fn restart(&mut self)
        ensures { state_of self.new ≡ after_restart (state_of self.old) }
    {
        end_puts(&mut self.inodes, &mut self.entries, self.time);
    }
}

// Each put that has not ended is over, and its bitfile is let go.
fn end_puts(inodes: &mut Inodes, entries: &mut NumberRows<Entry>, time: Secs)
    ensures inodes { inodes.new.rows.rows ≡ map_values (λ n i. with_contents (as_ended false) i) inodes.old.rows.rows }
    ensures entries { entries.new.rows ≡ after_ending_puts entries.old.rows inodes.old.rows.rows inodes.new.rows.rows time.0 }
{
    for at in 0..inodes.len() {
        let named = inodes.end_put_at(at);
        entries::let_go_if(entries, inodes, time, named);
    }
}
