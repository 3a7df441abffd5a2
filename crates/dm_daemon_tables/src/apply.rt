//! A step that was prepared is done.

ghost use Rattle.std.specs.Prelude.{◌≡◌};
ghost use Rattle.dm_durable.specs.Daemon.{after_record, after_step};
ghost use Rattle.dm_daemon_tables.specs.Prepared.{IsReady, IsReadyFor, record_of, step_of};
ghost use Rattle.dm_daemon_tables.specs.Tables.{state_of};

use crate::prepared::{Prepared, Step};
use crate::tables::Tables;

impl Tables {
    /// Does the step: the tables are those after its record. It takes no memory and can't be refused
    /// (docs/DEFINITIONS.md, "The daemon's tables in memory").
    pub fn apply(&mut self, prepared: Prepared)
        requires { IsReady self.old prepared }
        ensures { state_of self.new ≡ after_record (state_of self.old) (record_of prepared) }
    {
        let Prepared { time, step } = prepared;
        self.time = time;
        self.do_step(step);
    }

    // The step, at the time that the tables have.
    fn do_step(&mut self, step: Step)
        requires { IsReadyFor self.old self.old.time.0 step }
        ensures { state_of self.new ≡ after_step (state_of self.old) (step_of step) }
    {
        match step {
            Step::Write {
                name,
                change,
                bytes,
                inode,
            } => self.write(name, change, bytes, inode),
            Step::Remove { path, change } => self.remove(path.text(), change),
            Step::BeginPut {
                path,
                bfid,
                groups,
                entry,
                count,
            } => self.begin_put(path.text(), bfid, groups.as_slice(), entry, count),
            Step::Stored { bfid, group } => self.stored(bfid, group),
            Step::EndPut { ino, bfid, dual } => self.end_put(ino, bfid, dual),
            Step::Release { path } => self.release(path.text()),
            Step::Taken { ino, bytes } => self.taken(ino, bytes),
            Step::Dump { row } => self.add_dump(row),
            Step::Undump { name } => self.undump(name.text()),
            Step::Restore {
                name,
                path,
                target,
                change,
                inode,
                count,
            } => self.restore(name.text(), path.text(), target, change, inode, count),
            Step::HardDelete { bfids } => self.hard_delete(bfids.as_slice()),
            Step::Dropped { bfid } => self.dropped(bfid),
            Step::Restart => self.restart(),
            Step::Age { age } => self.set_age(age),
        }
    }
}
