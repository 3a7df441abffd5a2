//! Calls of a recall.

ghost use Rattle.std.specs.Prelude.{◌≡◌};
ghost use Rattle.dm_daemon.specs.State.{state_of};
ghost use Rattle.dm_daemon_acts.specs.Acts.{Does, IsAnswer};
ghost use Rattle.dm_model.specs.declared.answer.Answer.TheVariants as answer;
ghost use Rattle.dm_model.specs.declared.call.DaemonCall.TheVariants as call;
ghost use Rattle.dm_model.specs.DaemonCalls.{daemon_plan};
ghost use Rattle.dm_model.specs.Guards.{AllHold};

use crate::daemon::Daemon;
use dm_base::Request;

impl Daemon {
    /// The recall ends, and nothing else is done: the step in doubt, if one is, stays so. It takes no memory and no device.
    pub fn drop_recall(&mut self, request: Request)
        requires { AllHold (daemon_plan (state_of self.old) (call.DropRecall request.number)).own }
        ensures does { Does (state_of self.old) (state_of self.new) (call.DropRecall request.number) (IsAnswer answer.RecallDropped) }
        ensures journal { self.new.journalled ≡ self.old.journalled }
        ensures landed { self.new.landed ≡ self.old.landed }
        ensures found { self.new.found ≡ self.old.found }
        ensures room { self.new.buffer ≡ self.old.buffer }
    {
        let Request { number } = request;
        self.requests.end(number);
    }
}
