//! A step is journalled and done, and one in doubt is settled.

ghost use Rattle.std.specs.Prelude.{◌≡◌, false, is_some, IfOk, OnOk, OnErr, IfSome, length};
ghost use Rattle.std.specs.Option.{option_map};
ghost use Rattle.dm_ckpt.specs.declared.doubt.Doubt.TheVariants.{Sure};
ghost use Rattle.dm_daemon_tables.specs.Prepared.{IsReady, record_of};
ghost use Rattle.dm_daemon_tables.specs.Tables.{state_of};
ghost use Rattle.dm_durable.specs.Daemon.{after_record};
ghost use Rattle.dm_durable.specs.DaemonConditions.{MayFollow};
ghost use Rattle.dm_durable.specs.Fields.{FitsPayload};
ghost use Rattle.dm_durable.specs.declared.daemon_journal.DaemonPayload.TheVariants.{Record};
ghost use Rattle.dm_ckpt.specs.Files.{Mine};
ghost use Rattle.dm_host.specs.Count.{HasCause};
ghost use Rattle.dm_host.specs.Works.{Here, Works};
ghost use Rattle.dm_journal.specs.Grammar.{Fits};
ghost use Rattle.dm_records.specs.Payloads.{spelling};
ghost use Rattle.dm_daemon_journal.specs.Doubts.{after_settling, was_done};
ghost use Rattle.dm_daemon_journal.specs.Stored.{EitherTables, OnDisk, Sits};

use crate::kept::Journalled;
use dm_base::NoMemory;
use dm_ckpt::Store;
use dm_daemon_tables::{Prepared, Tables};
use dm_durable::DaemonRecord;
use dm_host::{Bay, Failed};

impl Journalled {
    /// Tables with the journal that tells of them, and no step in doubt.
    pub fn of(tables: Tables, store: Store) -> Journalled
        requires { store.doubt ≡ Sure }
        ensures tables { state_of result.tables ≡ state_of tables }
        ensures store { result.store ≡ store }
        ensures sure { result.pending ≡ None }
    {
        Journalled {
            tables,
            store,
            pending: None,
        }
    }

    /// The tables, as they are before the step in doubt.
    pub fn tables(&self) -> &Tables
        ensures { state_of result.now ≡ state_of self.now.tables }
    {
        &self.tables
    }

    /// Whether a step is in doubt.
    pub fn in_doubt(&self) -> bool
        ensures { result ≡ is_some self.now.pending }
    {
        self.pending.is_some()
    }

    /// Prepares the step of a record: takes all the memory that it needs. The tables say what they said.
    pub fn prepare(&mut self, next: DaemonRecord) -> Result<Prepared, NoMemory>
        requires { self.old.pending ≡ None }
        ensures tables { state_of self.new.tables ≡ state_of self.old.tables }
        ensures store { self.new.store ≡ self.old.store }
        ensures sure { self.new.pending ≡ None }
        ensures step { IfOk result (λ p. record_of p ≡ next) }
        ensures ready { IfOk result (λ p. IsReady self.new.tables p) }
    {
        self.tables.prepare(next)
    }

    /// Finds out what became of the step in doubt, if one is, and does it where its record landed: answers whether it
    /// did. It takes no memory. Where it fails, all is as before.
    pub fn settle<B: Bay>(&mut self, bay: &mut B) -> Result<bool, Failed>
        requires { Sits (B.disk bay.old) self.old }
        ensures tables { IfOk result (λ landed. state_of self.new.tables ≡ after_settling landed (option_map record_of self.old.pending) (state_of self.old.tables)) }
        ensures sure { OnOk result ((self.new.pending ≡ None) × (self.new.store.doubt ≡ Sure)) }
        ensures idle { self.old.pending ≡ None → IfOk result (λ landed. landed ≡ false) }
        ensures same { OnErr result ((state_of self.new.tables ≡ state_of self.old.tables) × (self.new.pending ≡ self.old.pending)) }
        ensures kept { OnDisk (B.disk bay.old) self.old → OnDisk (B.disk bay.new) self.new }
        ensures any_moment { Works (Mine self.old.store.component) (B.disk bay.old) (B.disk bay.new) (Here (Mine self.old.store.component) (B.disk bay.old)) }
        ensures sits { Sits (B.disk bay.new) self.new }
        ensures component { self.new.store.component ≡ self.old.store.component }
        ensures cause { HasCause (B.count bay.old) (B.count bay.new) result }
    {
        let landed = self.store.heal(bay)?;
        let pending = self.pending.take();
        Ok(finish(&mut self.tables, pending, landed))
    }

    /// Appends the record of the step, which `payload` spells, and does the step. Where the append fails, the step is in
    /// doubt: it is as if it hadn't been done, until `settle` says more. It takes no memory.
    pub fn journal<B: Bay>(
        &mut self,
        bay: &mut B,
        payload: &[u8],
        prepared: Prepared,
    ) -> Result<(), Failed>
        requires sure { self.old.pending ≡ None }
        requires settled { self.old.store.doubt ≡ Sure }
        requires sits { Sits (B.disk bay.old) self.old }
        requires spelled { payload.now ≡ spelling (Record (record_of prepared)) }
        requires short { Fits payload.now }
        requires fits { FitsPayload (Record (record_of prepared)) }
        requires may { MayFollow (state_of self.old.tables) (record_of prepared) }
        requires ready { IsReady self.old.tables prepared }
        ensures done { OnOk result ((state_of self.new.tables ≡ after_record (state_of self.old.tables) (record_of prepared)) × (self.new.pending ≡ None) × (self.new.store.doubt ≡ Sure)) }
        ensures doubt { OnErr result ((state_of self.new.tables ≡ state_of self.old.tables) × (option_map record_of self.new.pending ≡ Some (record_of prepared))) }
        ensures kept { OnDisk (B.disk bay.old) self.old → OnDisk (B.disk bay.new) self.new }
        ensures any_moment { OnDisk (B.disk bay.old) self.old → Works (Mine self.old.store.component) (B.disk bay.old) (B.disk bay.new)
            (EitherTables self.old.store.component (state_of self.old.tables) (after_record (state_of self.old.tables) (record_of prepared))) }
        ensures sits { Sits (B.disk bay.new) self.new }
        ensures component { self.new.store.component ≡ self.old.store.component }
        ensures cause { HasCause (B.count bay.old) (B.count bay.new) result }
    {
        match self.store.append(bay, payload) {
            Ok(()) => {
                self.tables.apply(prepared);
                Ok(())
            }
            Err(failed) => {
                self.pending = Some(prepared);
                Err(failed)
            }
        }
    }
}

// The step in doubt is over: it is done where it landed. Whether it was done.
fn finish(tables: &mut Tables, pending: Option<Prepared>, landed: bool) -> bool
    requires { IfSome pending (λ p. IsReady tables.old p) }
    ensures tables { state_of tables.new ≡ after_settling landed (option_map record_of pending) (state_of tables.old) }
    ensures done { result ≡ was_done landed (option_map record_of pending) }
{
    let Some(prepared) = pending else {
        return false;
    };
    if !landed {
        return false;
    }
    tables.apply(prepared);
    true
}
