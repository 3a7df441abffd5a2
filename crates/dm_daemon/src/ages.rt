//! The call on the age.

ghost use Rattle.std.specs.Prelude.{◌≡◌};
ghost use Rattle.dm_daemon.specs.Calls.{Acts, MayAct, MayServe, Serves};
ghost use Rattle.dm_daemon_acts.specs.Acts.{report_of};
ghost use Rattle.dm_model.specs.declared.answer.Answer.TheVariants as answer;
ghost use Rattle.dm_model.specs.declared.call.DaemonCall.TheVariants as call;

use crate::daemon::Daemon;
use crate::journal::spell;
use dm_base::{DaemonError, Secs};
use dm_daemon_refusals::age_refusal;
use dm_daemon_tables::Prepared;
use dm_host::{Bay, Failed};
use dm_records::StepKind;

impl Daemon {
    /// The age in force is this from now on. It takes no memory.
    pub fn set_age<B: Bay>(&mut self, bay: &mut B, age: u64, now: Secs) -> Result<(), DaemonError>
        requires { MayServe (B.disk bay.old) self.old (call.SetAge age now) }
        ensures { Serves (B.disk bay.old) (B.disk bay.new) (B.count bay.old) (B.count bay.new) self.old self.new (call.SetAge age now) (report_of (λ _. answer.AgeSet) result) }
    {
        match self.settle(bay) {
            Ok(()) => self.set_age_settled(bay, age, now),
            Err(Failed) => Err(DaemonError::DaemonFault),
        }
    }

    fn set_age_settled<B: Bay>(
        &mut self,
        bay: &mut B,
        age: u64,
        now: Secs,
    ) -> Result<(), DaemonError>
        requires { MayAct (B.disk bay.old) self.old (call.SetAge age now) }
        ensures { Acts (B.disk bay.old) (B.disk bay.new) (B.count bay.old) (B.count bay.new) self.old self.new (call.SetAge age now) (report_of (λ _. answer.AgeSet) result) }
    {
        match age_refusal(age) {
            Some(error) => Err(error),
            None => {
                let time = self.time_at(now);
                let len = spell(&mut self.buffer, StepKind::Age, time, &age);
                self.step(bay, len, Prepared::age(time, age), (None, 0))
            }
        }
    }
}
