//! A step is prepared: its memory is taken, and the tables say what they said.

ghost use Rattle.std.specs.Prelude.{◌≡◌, IfOk, OnErr, [], ◌∷◌};
ghost use Rattle.std.specs.FinMap as map;
ghost use Rattle.dm_catalogue.specs.Sums.{FitsInPlace, chunk_in};
ghost use Rattle.dm_durable.specs.declared.group.GroupStep.TheVariants.{Volume as StepOfVolume, Commit as StepOfCommit, Move as StepOfMove};
ghost use Rattle.dm_durable.specs.GroupConditions.{Joins};
ghost use Rattle.dm_group_tables.specs.Prepared.{GivesBack, IsReady, IsReadyFor, KeepsRoom, KeepsWhole, MakesRoom, record_of, step_of};
ghost use Rattle.dm_group_tables.specs.Tables.{state_of};

use crate::prepared::{Prepared, Step};
use crate::tables::Tables;
use dm_base::{Bfid, Chunk, Listed, NoMemory, Vsn};
use dm_durable::{BitfileRow, GroupRecord, GroupStep};
use dm_volumes::new_volume;

impl Tables {
    /// Prepares the step of a record, which keeps each bitfile whole: takes all the memory that it needs, beside what is
    /// kept for other steps. The tables say what they said, also where memory is refused; the record is spent then.
    pub fn prepare(&mut self, next: GroupRecord) -> Result<Prepared, NoMemory>
        requires { KeepsWhole (state_of self.old).bitfiles next.step }
        ensures same { state_of self.new ≡ state_of self.old }
        ensures step { IfOk result (λ p. record_of p ≡ next) }
        ensures ready { IfOk result (λ p. IsReady self.new p) }
        ensures room { IfOk result (λ p. MakesRoom self.old p.step self.new) }
        ensures as_before { OnErr result (KeepsRoom self.old self.new) }
    {
        let GroupRecord { time, step } = next;
        let step = self.prepare_step(step)?;
        Ok(Prepared { time, step })
    }

    // The same of the step alone.
    fn prepare_step(&mut self, step: GroupStep) -> Result<Step, NoMemory>
        requires { KeepsWhole (state_of self.old).bitfiles step }
        ensures same { state_of self.new ≡ state_of self.old }
        ensures step { IfOk result (λ s. step_of s ≡ step) }
        ensures ready { IfOk result (λ s. IsReadyFor self.new s) }
        ensures room { IfOk result (λ s. MakesRoom self.old s self.new) }
        ensures as_before { OnErr result (KeepsRoom self.old self.new) }
    {
        match step {
            GroupStep::Volume {
                vsn,
                slot,
                version,
                size,
            } => self.prepare_volume(vsn, slot, version, size),
            GroupStep::Commit { bfid, len, chunks } => self.prepare_commit(bfid, len, chunks),
            GroupStep::Delete { bfid } => Ok(Step::Delete { bfid }),
            GroupStep::Move { bfid, from, to } => self.prepare_move(bfid, from, to),
            GroupStep::Free { vsn } => Ok(Step::Free { vsn }),
            GroupStep::Reuse {
                vsn,
                epoch,
                version,
            } => Ok(Step::Reuse {
                vsn,
                epoch,
                version,
            }),
        }
    }

    // A new volume: its row.
    fn prepare_volume(
        &mut self,
        vsn: Vsn,
        slot: u8,
        version: u8,
        size: u64,
    ) -> Result<Step, NoMemory>
        ensures same { state_of self.new ≡ state_of self.old }
        ensures step { IfOk result (λ s. step_of s ≡ StepOfVolume vsn slot version size) }
        ensures ready { IfOk result (λ s. IsReadyFor self.new s) }
        ensures room { IfOk result (λ s. MakesRoom self.old s self.new) }
        ensures as_before { OnErr result (KeepsRoom self.old self.new) }
    {
        let row = Box::new(self.alloc, (vsn, new_volume(slot, version, size)))?;
        let _kept = self.volumes.reserve(1)?;
        Ok(Step::Volume {
            row,
            slot,
            version,
            size,
        })
    }

    // A bitfile: its row, and what is kept of the volumes that it lies on.
    fn prepare_commit(
        &mut self,
        bfid: Bfid,
        len: u64,
        chunks: Listed<Chunk>,
    ) -> Result<Step, NoMemory>
        requires { Joins 0 chunks len }
        ensures same { state_of self.new ≡ state_of self.old }
        ensures step { IfOk result (λ s. step_of s ≡ StepOfCommit bfid len chunks) }
        ensures ready { IfOk result (λ s. IsReadyFor self.new s) }
        ensures room { IfOk result (λ s. MakesRoom self.old s self.new) }
        ensures as_before { OnErr result (KeepsRoom self.old self.new) }
    {
        let row = Box::new(self.alloc, (bfid.0, BitfileRow { len, chunks }))?;
        let _known = self.catalogue.know(row.1.chunks.as_slice())?;
        match self.catalogue.reserve() {
            Ok(()) => Ok(Step::Commit { row }),
            Err(refused) => {
                self.catalogue.forget(row.1.chunks.as_slice());
                Err(refused)
            }
        }
    }

    // A move: what is kept of the volume that the chunk goes to.
    fn prepare_move(&mut self, bfid: Bfid, from: Chunk, to: Chunk) -> Result<Step, NoMemory>
        requires { FitsInPlace (chunk_in to.offset (map.get (state_of self.old).bitfiles bfid.0)) to }
        ensures same { state_of self.new ≡ state_of self.old }
        ensures step { IfOk result (λ s. step_of s ≡ StepOfMove bfid from to) }
        ensures ready { IfOk result (λ s. IsReadyFor self.new s) }
        ensures room { IfOk result (λ s. MakesRoom self.old s self.new) }
        ensures as_before { OnErr result (KeepsRoom self.old self.new) }
    {
        let _known = self.catalogue.know(&[to])?;
        Ok(Step::Move { bfid, from, to })
    }

    /// A step that was prepared isn't done: its memory is given back.
    pub fn abandon(&mut self, prepared: Prepared)
        ensures same { state_of self.new ≡ state_of self.old }
        ensures room { GivesBack self.old prepared.step self.new }
    {
        match prepared.step {
            Step::Volume { .. } => (),
            Step::Commit { row } => {
                self.catalogue.forget(row.1.chunks.as_slice());
                self.catalogue.give_back();
            }
            Step::Delete { .. } => (),
            Step::Move { to, .. } => self.catalogue.forget(&[to]),
            Step::Free { .. } => (),
            Step::Reuse { .. } => (),
        }
    }
}
