//! The joint machine's two calls: the state before the first event, and one event.

ghost use Rattle.std.specs.Prelude.{◌≡◌, ℕ, Some, IfOk, IsErrOf, OnErr};
ghost use Rattle.dm_joint.specs.Outcomes.{guard_named};
ghost use Rattle.dm_joint.specs.Range.{IsInRange};
ghost use Rattle.dm_model.specs.Begin.{empty_joint as empty_joint_of};
ghost use Rattle.dm_model.specs.Guards.{number_of as number};
ghost use Rattle.dm_model.specs.Step.{step as step_of};
ghost use Rattle.dm_model.specs.Step.Outcome.{Stepped};

use crate::outcome::{Outcome, event_outcome};
use dm_base::{DaemonConf, GroupConf, NoMemory};
use dm_joint_begin::empty_joint;
use dm_model::{Answer, Event, Guard, Joint};
use dm_state_copies::Duplicate;
use dm_verdicts::VerdictError;
use std::alloc::Global;

/// Why nothing was stepped.
#[derive(Clone, Copy, Debug, PartialEq, Eq)]
pub enum StepError {
    /// The event may not come here: the number of the lowest guard that is false.
    NotLegal { guard: u16 },
    /// The event would tell of what can't be told, or make what can't be held: the state isn't in range. No run reaches such a state.
    OutOfRange,
    /// Memory was refused.
    NoMemory,
}

impl From<NoMemory> for StepError {
    ghost use Rattle.dm_joint.specs.declared.machine.StepError.TheVariants.{NoMemory as OutOfMemory};

    ghost from_gives = { λ _ e. e ≡ OutOfMemory };

    fn from(_refused: NoMemory) -> StepError {
        StepError::NoMemory
    }
}

/// A state that goes from event to event. The state of the joint machine is a type of the words, which have no functions,
/// so its methods are a trait's.
pub trait Machine: Sized {
    /// The state of a new site.
    fn empty(alloc: Global, daemon: DaemonConf, groups: &[GroupConf]) -> Result<Self, NoMemory>;

    /// One event of the worker, and what it is answered.
    fn step(&mut self, alloc: Global, worker: u32, event: &Event) -> Result<Answer, StepError>;
}

impl Machine for Joint {
    /// The state of a new site: no file, and of each configured volume an image of which no byte is known.
    fn empty(alloc: Global, daemon: DaemonConf, groups: &[GroupConf]) -> Result<Joint, NoMemory>
        ensures { IfOk result (λ j. j ≡ empty_joint_of daemon groups.now) }
    {
        empty_joint(alloc, daemon, groups)
    }

    /// One event of the worker, and what it is answered: exactly what the definitions say, with the number of the lowest
    /// guard that is false where it may not come. Where it isn't done the state stays as it was. `OutOfRange` comes only where
    /// that state isn't in range, as each state of a run is.
    fn step(&mut self, alloc: Global, worker: u32, event: &Event) -> Result<Answer, StepError>
        ensures ok { IfOk result (λ a. step_of self.old worker event.now ≡ Stepped self.new a) }
        ensures illegal { (n : ℕ) → IsErrOf result (StepError.NotLegal n) → guard_named (step_of self.old worker event.now) ≡ Some n }
        ensures range { IsErrOf result StepError.OutOfRange → IsInRange self.old → ⊥ }
        ensures err { OnErr result (self.new ≡ self.old) }
    {
        let mut after = self.duplicate(alloc)?;
        match event_outcome(alloc, worker, event, &mut after) {
            Ok(Outcome::Stepped { answer }) => {
                *self = after;
                Ok(answer)
            }
            Ok(Outcome::Illegal { guard }) => Err(StepError::NotLegal {
                guard: number_of(guard),
            }),
            Err(VerdictError::OutOfRange) => Err(StepError::OutOfRange),
            Err(VerdictError::NoMemory) => Err(StepError::NoMemory),
        }
    }
}

// The number by which a caller is told of the guard.
fn number_of(guard: Guard) -> u16
    ensures { result ≡ number guard }
{
    match guard {
        Guard::Configured => 1,
        Guard::Tokens => 2,
        Guard::InDoubt => 3,
        Guard::AskedGroups => 4,
        Guard::CopyCommitted => 5,
        Guard::NothingReserved => 6,
        Guard::RecallRead => 7,
        Guard::CopiesDeleted => 8,
        Guard::VolumeConfigured => 9,
        Guard::NewVolumeLabelled => 10,
        Guard::CopyWanted => 11,
        Guard::PieceReserved => 12,
        Guard::ChunkWanted => 13,
        Guard::PiecesWritten => 14,
        Guard::PiecesUnmounted => 15,
        Guard::HardDeleted => 16,
        Guard::SourceListed => 17,
        Guard::ChunkMoved => 18,
        Guard::VolumeKnown => 19,
        Guard::VolumeRelabelled => 20,
        Guard::NoMove => 21,
        Guard::ZonePlace => 22,
        Guard::RangeRead => 23,
        Guard::LabelPlanned => 24,
        Guard::DeviceUsed => 28,
    }
}
