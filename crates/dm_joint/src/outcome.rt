//! What comes of an event.

ghost use Rattle.std.specs.Prelude.{◌≡◌, IfOk, IsErrOf};
ghost use Rattle.std.specs.FinMap as map;
ghost use Rattle.dm_joint.specs.Outcomes.{outcome_found};
ghost use Rattle.dm_joint.specs.Range.{IsInRange};
ghost use Rattle.dm_model.specs.declared.answer.Answer.TheVariants as answer;
ghost use Rattle.dm_model.specs.Step.{after_call, after_fault, outcome_of, call_outcome as call_outcome_of, daemon_doubt as daemon_doubt_of, doubt_outcome as doubt_outcome_of, fault_outcome as fault_outcome_of, group_doubt as group_doubt_of, landing_outcome as landing_outcome_of, landing_outcome_in, look_outcome as look_outcome_of, needs_of, plan_of, step as step_of};
ghost use Rattle.dm_verdicts.specs.Verdict.{verdict_on};

use dm_base::{GroupId, NoMemory};
use dm_daemon_plans::daemon_verdict;
use dm_group_plans::group_verdict;
use dm_joint_effects::{apply_call, apply_fault, apply_landing, apply_stop};
use dm_model::{Answer, Call, Component, Event, Guard, Joint, Payload, Side};
use dm_state_copies::Duplicate;
use dm_verdicts::{Verdict, VerdictError};
use dm_volume_plans::volume_verdict;
use std::alloc::Global;

// An answer, and then the event is done in the state; or the lowest guard that is false, and nothing was done.
#[derive(Drop)]
pub(crate) enum Outcome {
    Stepped { answer: Answer },
    Illegal { guard: Guard },
}

// The worker's event is done in this state, if it may come. Where that fails nothing is said of the state.
pub(crate) fn event_outcome(
    alloc: Global,
    worker: u32,
    event: &Event,
    joint: &mut Joint,
) -> Result<Outcome, VerdictError>
    ensures outcome { IfOk result (λ o. outcome_found joint.new o ≡ step_of joint.old worker event.now) }
    ensures range { IsErrOf result VerdictError.OutOfRange → IsInRange joint.old → ⊥ }
{
    match event {
        Event::Call { call } => call_outcome(alloc, worker, call, joint),
        Event::Fault {
            call,
            healed,
            checkpointed,
        } => fault_outcome(alloc, worker, call, *healed && *checkpointed, joint),
        Event::Landed { component } => Ok(landing_outcome(alloc, *component, joint)?),
        Event::Look { component } => Ok(look_outcome(*component, joint)),
        Event::Stop => {
            apply_stop(alloc, joint)?;
            Ok(Outcome::Stepped {
                answer: Answer::Stopped,
            })
        }
    }
}

// The call with every test made.
fn verdict(alloc: Global, worker: u32, call: &Call, joint: &Joint) -> Result<Verdict, VerdictError>
    ensures verdict { IfOk result (λ v. v ≡ verdict_on (plan_of joint.now call.now) (needs_of joint.now worker call.now)) }
    ensures range { IsErrOf result VerdictError.OutOfRange → IsInRange joint.now → ⊥ }
{
    let caller = joint.workers.get(u128::from(worker));
    match call {
        Call::Daemon { call } => {
            let history = &joint.history;
            daemon_verdict(alloc, &joint.sides, caller, history, &joint.daemon, call)
        }
        Call::Group { group, call } => {
            let side = joint.sides.get(u128::from(group.0));
            group_verdict(alloc, caller, &joint.history, *group, side, call)
        }
        Call::Volume { group, vsn, call } => {
            let side = joint.sides.get(u128::from(group.0));
            Ok(volume_verdict(alloc, *group, *vsn, side, call)?)
        }
    }
}

fn call_outcome(
    alloc: Global,
    worker: u32,
    call: &Call,
    joint: &mut Joint,
) -> Result<Outcome, VerdictError>
    ensures outcome { IfOk result (λ o. outcome_found joint.new o ≡ call_outcome_of joint.old worker (plan_of joint.old call.now) (needs_of joint.old worker call.now)) }
    ensures range { IsErrOf result VerdictError.OutOfRange → IsInRange joint.old → ⊥ }
{
    match verdict(alloc, worker, call, joint) {
        Ok(judged) => Ok(call_judged(alloc, worker, judged, joint)?),
        Err(error) => Err(error),
    }
}

// The call with this verdict.
fn call_judged(
    alloc: Global,
    worker: u32,
    judged: Verdict,
    joint: &mut Joint,
) -> Result<Outcome, NoMemory>
    ensures { IfOk result (λ o. outcome_found joint.new o ≡ outcome_of judged.illegal (after_call worker judged.prepared joint.old) judged.prepared.answer) }
{
    let Verdict {
        illegal,
        illegal_fault: _,
        prepared,
    } = judged;
    match illegal {
        Some(guard) => Ok(Outcome::Illegal { guard }),
        None => {
            let answer = apply_call(alloc, worker, prepared, joint)?;
            Ok(Outcome::Stepped { answer })
        }
    }
}

// The call failed; `far` says that it had come past its heal and its checkpoint.
fn fault_outcome(
    alloc: Global,
    worker: u32,
    call: &Call,
    far: bool,
    joint: &mut Joint,
) -> Result<Outcome, VerdictError>
    ensures outcome { IfOk result (λ o. outcome_found joint.new o ≡ fault_outcome_of joint.old worker far (plan_of joint.old call.now) (needs_of joint.old worker call.now)) }
    ensures range { IsErrOf result VerdictError.OutOfRange → IsInRange joint.old → ⊥ }
{
    match verdict(alloc, worker, call, joint) {
        Ok(judged) => Ok(fault_judged(worker, judged, far, joint)?),
        Err(error) => Err(error),
    }
}

// The failed call with this verdict.
fn fault_judged(
    worker: u32,
    judged: Verdict,
    far: bool,
    joint: &mut Joint,
) -> Result<Outcome, NoMemory>
    ensures { IfOk result (λ o. outcome_found joint.new o ≡ outcome_of judged.illegal_fault (after_fault worker judged.prepared far joint.old) answer.Failed) }
{
    let Verdict {
        illegal: _,
        illegal_fault,
        prepared,
    } = judged;
    match illegal_fault {
        Some(guard) => Ok(Outcome::Illegal { guard }),
        None => {
            apply_fault(worker, prepared, far, joint)?;
            Ok(Outcome::Stepped {
                answer: Answer::Failed,
            })
        }
    }
}

// The step in doubt of the component is found to have landed.
fn landing_outcome(
    alloc: Global,
    component: Component,
    joint: &mut Joint,
) -> Result<Outcome, NoMemory>
    ensures { IfOk result (λ o. outcome_found joint.new o ≡ landing_outcome_of joint.old component) }
{
    match component {
        Component::Daemon => {
            let doubt = daemon_doubt(alloc, joint)?;
            doubt_outcome(alloc, component, doubt, joint)
        }
        Component::Group { group } => group_landing_outcome(alloc, group, joint),
    }
}

fn group_landing_outcome(
    alloc: Global,
    group: GroupId,
    joint: &mut Joint,
) -> Result<Outcome, NoMemory>
    ensures { IfOk result (λ o. outcome_found joint.new o ≡ landing_outcome_in joint.old group (map.get joint.old.sides group.0)) }
{
    let Some(side) = joint.sides.get(u128::from(group.0)) else {
        return Ok(Outcome::Illegal {
            guard: Guard::Configured,
        });
    };
    let doubt = group_doubt(alloc, group, side)?;
    doubt_outcome(alloc, Component::Group { group }, doubt, joint)
}

// The component's step in doubt, if there is one, landed.
fn doubt_outcome(
    alloc: Global,
    component: Component,
    doubt: Option<Payload>,
    joint: &mut Joint,
) -> Result<Outcome, NoMemory>
    ensures { IfOk result (λ o. outcome_found joint.new o ≡ doubt_outcome_of joint.old component doubt) }
{
    match doubt {
        None => Ok(Outcome::Illegal {
            guard: Guard::InDoubt,
        }),
        Some(payload) => {
            apply_landing(alloc, component, payload, joint)?;
            Ok(Outcome::Stepped {
                answer: Answer::Landed,
            })
        }
    }
}

// The step in doubt of the daemon.
fn daemon_doubt(alloc: Global, joint: &Joint) -> Result<Option<Payload>, NoMemory>
    ensures { IfOk result (λ p. p ≡ daemon_doubt_of joint.now) }
{
    match &joint.daemon.doubt {
        None => Ok(None),
        Some(doubt) => Ok(Some(Payload::Daemon {
            record: doubt.duplicate(alloc)?,
        })),
    }
}

// The step in doubt of the group.
fn group_doubt(alloc: Global, group: GroupId, side: &Side) -> Result<Option<Payload>, NoMemory>
    ensures { IfOk result (λ p. p ≡ group_doubt_of group side.now) }
{
    match &side.group.doubt {
        None => Ok(None),
        Some(doubt) => Ok(Some(Payload::Group {
            group,
            record: doubt.duplicate(alloc)?,
        })),
    }
}

// The component's state is looked at, which changes nothing.
fn look_outcome(component: Component, joint: &Joint) -> Outcome
    ensures { outcome_found joint.now result ≡ look_outcome_of joint.now component }
{
    match component {
        Component::Daemon => Outcome::Stepped {
            answer: Answer::Looked,
        },
        Component::Group { group } => match joint.sides.get(u128::from(group.0)) {
            None => Outcome::Illegal {
                guard: Guard::Configured,
            },
            Some(_) => Outcome::Stepped {
                answer: Answer::Looked,
            },
        },
    }
}
