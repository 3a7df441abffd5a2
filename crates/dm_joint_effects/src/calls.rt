//! Whole events: the parts of a plan, one after another.

ghost use Rattle.std.specs.Prelude.{◌≡◌, cond, None, IfOk, OnOk};
ghost use Rattle.dm_model.specs.Step.{after_call, after_fault, after_landing};

use crate::doubts::{doubt, heal};
use crate::endings::spend;
use crate::marks::{mark_failed, mark_left};
use crate::openings::open;
use crate::payloads::journal;
use dm_base::NoMemory;
use dm_model::{Answer, Component, Joint, Payload, Prepared};
use std::alloc::Global;

/// The worker's call is done, and its answer: what it spends goes, and a step in doubt, if it heals; its step is
/// journalled, its mark is left, and its tokens are made. `NoMemory` where memory is refused; nothing is then said of the
/// state (docs/DEFINITIONS.md, "The machine, whole").
pub fn apply_call(
    alloc: Global,
    worker: u32,
    prepared: Prepared,
    joint: &mut Joint,
) -> Result<Answer, NoMemory>
    ensures state { OnOk result (joint.new ≡ after_call worker prepared joint.old) }
    ensures answer { IfOk result (λ a. a ≡ prepared.answer) }
{
    let Prepared {
        component,
        heals,
        ends,
        payload,
        mark,
        opens,
        answer,
    } = prepared;
    spend(worker, &ends, joint)?;
    heal(heals, component, joint)?;
    journal(alloc, payload, joint)?;
    mark_left(alloc, worker, &mark, joint)?;
    open(alloc, worker, opens, joint)?;
    Ok(answer)
}

/// The worker's call failed: what it spends in every answer goes, of what it would have written nothing is known, and its
/// step is in doubt, if it had come so `far` as to journal it. `NoMemory` where memory is refused; nothing is then said of
/// the state (docs/DEFINITIONS.md, "The machine, whole").
pub fn apply_fault(
    worker: u32,
    prepared: Prepared,
    far: bool,
    joint: &mut Joint,
) -> Result<(), NoMemory>
    ensures { OnOk result (joint.new ≡ after_fault worker prepared far joint.old) }
{
    let Prepared {
        component: _,
        heals: _,
        ends,
        payload,
        mark,
        opens: _,
        answer: _,
    } = prepared;
    spend(worker, &ends, joint)?;
    mark_failed(&mark, joint)?;
    doubt(payload_if(far, payload), joint)
}

// The payload of a call that had come so far as to journal it.
fn payload_if(far: bool, payload: Option<Payload>) -> Option<Payload>
    ensures { result ≡ cond far payload None }
{
    if far { payload } else { None }
}

/// The component's step in doubt, which is this one, was found to have landed. `NoMemory` where memory is refused; nothing
/// is then said of the state (docs/DEFINITIONS.md, "The machine, whole").
pub fn apply_landing(
    alloc: Global,
    component: Component,
    payload: Payload,
    joint: &mut Joint,
) -> Result<(), NoMemory>
    ensures { OnOk result (joint.new ≡ after_landing component payload joint.old) }
{
    heal(true, component, joint)?;
    journal(alloc, Some(payload), joint)
}
