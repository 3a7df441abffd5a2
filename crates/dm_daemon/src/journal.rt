//! The step in doubt is settled, and a step is journalled: each in one function for all calls.

ghost use Rattle.std.specs.Prelude.{◌≡◌, ◌≤◌, ◌<◌, ◌^◌, ◌∷◌, ◌++◌, length, take};
ghost use Rattle.dm_daemon.specs.Calls.{Journals, MayJournal, Settles};
ghost use Rattle.dm_daemon.specs.Changed.{requests_after};
ghost use Rattle.dm_daemon.specs.State.{Stands};
ghost use Rattle.dm_daemon_tables.specs.Prepared.{IsReady, record_of};
ghost use Rattle.dm_daemon_tables.specs.Tables.{state_of as tables_of};
ghost use Rattle.dm_durable.specs.Tables.{ByNumber};
ghost use Rattle.dm_durable.specs.declared.daemon_journal.DaemonPayload.TheVariants.{Record};
ghost use Rattle.dm_fields.specs.Numbers.{be64};
ghost use Rattle.dm_model.specs.declared.state.OpenRequest.{OpenRequest};
ghost use Rattle.dm_model.specs.DaemonShare.{with_change_on};
ghost use Rattle.dm_records.specs.Payloads.{spelling};
ghost use Rattle.dm_records.specs.Steps.{step_byte};

use crate::changed::note;
use crate::daemon::Daemon;
use dm_base::{DaemonError, Ino, Secs};
use dm_daemon_tables::Prepared;
use dm_fields::Spelled;
use dm_host::{Bay, Failed};
use dm_records::StepKind;

impl Daemon {
    // Settles the step in doubt, if one is. It takes no memory. Where it fails, nothing was changed.
    pub(crate) fn settle<B: Bay>(&mut self, bay: &mut B) -> Result<(), Failed>
        requires { Stands (B.disk bay.old) self.old }
        ensures { Settles (B.disk bay.old) (B.disk bay.new) (B.count bay.old) (B.count bay.new) self.old self.new result }
    {
        match self.journalled.settle(bay) {
            Ok(landed) => {
                note(&mut self.requests, landed, self.found.0, self.found.1);
                self.found = (None, 0);
                self.landed = landed;
                Ok(())
            }
            Err(failed) => {
                self.landed = false;
                Err(failed)
            }
        }
    }

    // Journals a step that is prepared, whose record the first `len` bytes of the buffer are, and does it. `found` is the
    // inode that it changes or removes, if there is one, and the number of the change. It takes no memory.
    pub(crate) fn step<B: Bay>(
        &mut self,
        bay: &mut B,
        len: usize,
        prepared: Prepared,
        found: (Option<Ino>, u64),
    ) -> Result<(), DaemonError>
        requires may { MayJournal (B.disk bay.old) self.old (record_of prepared) }
        requires ready { IsReady self.old.journalled.tables prepared }
        requires within { len ≤ length self.old.buffer.items }
        requires spelled { take len self.old.buffer.items ≡ spelling (Record (record_of prepared)) }
        requires found { (requests : ByNumber OpenRequest) → with_change_on requests found.1 found.0 ≡ requests_after (tables_of self.old.journalled.tables) requests (record_of prepared).step }
        ensures { Journals (B.disk bay.old) (B.disk bay.new) (B.count bay.old) (B.count bay.new) self.old self.new (record_of prepared) result }
    {
        match self.journalled.journal(bay, &self.buffer[..len], prepared) {
            Ok(()) => {
                self.requests.change_found(found.0, found.1);
                Ok(())
            }
            Err(Failed) => {
                self.found = found;
                Err(DaemonError::DaemonFault)
            }
        }
    }
}

// Writes the record of a step of this kind, at this time and with these fields, to the front of the buffer, and answers
// where it ends. It takes no memory.
pub(crate) fn spell<T: Spelled>(
    buffer: &mut Vec<u8>,
    kind: StepKind,
    time: Secs,
    fields: &T,
) -> usize
    requires fits { T.fits fields.now }
    requires time { time.0 < 2 ^ 64 }
    requires room { length (step_byte kind ∷ be64 time.0 ++ T.spelling fields.now) ≤ length buffer.old.items }
    ensures payload { take result buffer.new.items ≡ step_byte kind ∷ be64 time.0 ++ T.spelling fields.now }
    ensures within { result ≤ length buffer.new.items }
    ensures size { length buffer.new.items ≡ length buffer.old.items }
{
    (kind.byte(), (time, fields)).put(buffer, 0)
}
