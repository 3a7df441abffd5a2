//! A step that was prepared is done.

ghost use Rattle.std.specs.Prelude.{◌≡◌};
ghost use Rattle.dm_durable.specs.Group.{group_after_record, group_after_step};
ghost use Rattle.dm_group_tables.specs.Prepared.{IsReady, IsReadyFor, UsesRoom, record_of, step_of};
ghost use Rattle.dm_group_tables.specs.Tables.{state_of};

use crate::prepared::{Prepared, Step};
use crate::tables::Tables;

impl Tables {
    /// Does the step: the tables are those after its record, and what is kept for other steps is kept still. It takes no
    /// memory and can't be refused (docs/DEFINITIONS.md, "A group's tables in memory").
    pub fn apply(&mut self, prepared: Prepared)
        requires { IsReady self.old prepared }
        ensures state { state_of self.new ≡ group_after_record (state_of self.old) (record_of prepared) }
        ensures room { UsesRoom self.old prepared.step self.new }
    {
        let Prepared { time, step } = prepared;
        self.time = time;
        self.do_step(step);
    }

    // The step, at the time that the tables have.
    fn do_step(&mut self, step: Step)
        requires { IsReadyFor self.old step }
        ensures state { state_of self.new ≡ group_after_step (state_of self.old) (step_of step) }
        ensures room { UsesRoom self.old step self.new }
    {
        match step {
            Step::Volume {
                row,
                slot: _,
                version: _,
                size: _,
            } => self.volumes.add(row),
            Step::Commit { row } => {
                self.volumes.raise_ends(row.1.chunks.as_slice());
                self.catalogue.insert(row);
            }
            Step::Delete { bfid } => self.catalogue.remove(bfid),
            Step::Move { bfid, from: _, to } => {
                self.volumes.raise_end(&to);
                self.catalogue.move_chunk(bfid, to);
            }
            Step::Free { vsn } => self.volumes.hold(vsn, self.time),
            Step::Reuse {
                vsn,
                epoch,
                version,
            } => {
                self.volumes.reuse(vsn, epoch, version);
                self.catalogue.clear(vsn);
            }
        }
    }
}
