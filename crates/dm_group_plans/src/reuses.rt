//! What the calls that free a volume and use it again come to.

ghost use Rattle.std.specs.Prelude.{◌≡◌, ◌<◌, IfOk};
ghost use Rattle.std.specs.Option.{option_copied};
ghost use Rattle.dm_model.specs.GroupCalls.{free as free_plan, is_reuse_label as is_reuse_label_of, reuse as reuse_plan, reuse_needs, reuse_next as reuse_next_plan, reuse_of as reuse_of_plan, was_relabelled as was_relabelled_of};
ghost use Rattle.dm_model.specs.Plan.{no_needs};
ghost use Rattle.dm_model.specs.Volumes.{epoch_of as epoch_of_volume};
ghost use Rattle.dm_rules.specs.Numbers.{last_u64};
ghost use Rattle.dm_verdicts.specs.Verdict.{verdict_on};

use crate::new_volumes::is_label;
use crate::prepared::{
    group_healing_plan, is_new, journal_payload, no_token_with, refused_plan, step_plan, time_at,
};
use dm_base::{GroupId, NoMemory, Secs, Vsn};
use dm_durable::{GroupStep, VolumeRow};
use dm_group_usage::{epoch_of, is_freeable, mount_refusal, reusable};
use dm_model::{
    Answer, Ending, Group, Guard, Label, MountState, Opening, Origin, Prepared, Reusing,
};
use dm_verdicts::{Verdict, guarded, judge, legal};
use std::alloc::Global;

pub(crate) fn free(
    library: &Group,
    id: GroupId,
    vsn: Vsn,
    now: Secs,
    row: Option<VolumeRow>,
) -> Verdict
    ensures { result ≡ verdict_on (free_plan id library.now vsn now.0 row) no_needs }
{
    let Some(row) = row else {
        let known = (false, Guard::VolumeKnown);
        return guarded(&[known], group_healing_plan(id, Answer::Failed));
    };
    if !is_freeable(library, vsn, &row) {
        return legal(group_healing_plan(id, Answer::Freed { freed: false }));
    }
    let payload = journal_payload(library, id, now, GroupStep::Free { vsn });
    legal(step_plan(id, payload, Answer::Freed { freed: true }))
}

pub(crate) fn reuse_next(
    alloc: Global,
    library: &Group,
    id: GroupId,
    number: u64,
    now: Secs,
) -> Result<Verdict, NoMemory>
    ensures { IfOk result (λ v. v ≡ verdict_on (reuse_next_plan id library.now number now.0) no_needs) }
{
    let vsns = reusable(alloc, library, time_at(library, now))?;
    match vsns.as_slice() {
        [] => Ok(legal(group_healing_plan(id, Answer::NoneReusable))),
        [vsn, ..] => Ok(reuse_of(library, id, number, now, *vsn)),
    }
}

// The reuse of this volume, which has an epoch after its own.
fn reuse_of(library: &Group, id: GroupId, number: u64, now: Secs, vsn: Vsn) -> Verdict
    requires { epoch_of_volume library.now vsn.0 < last_u64 }
    ensures { result ≡ verdict_on (reuse_of_plan id library.now number now.0 vsn) no_needs }
{
    if let Some(error) = mount_refusal(library, 0, vsn) {
        return legal(refused_plan(id, error));
    }
    let epoch = epoch_of(library, vsn);
    let version = library.conf.format;
    let reusing = Reusing {
        vsn,
        next_epoch: epoch + 1,
        version,
    };
    let answer = Answer::ReuseBegun {
        mount: number,
        vsn,
        epoch,
        next_epoch: epoch + 1,
        version,
    };
    let prepared = Prepared {
        opens: Opening::Reuse {
            group: id,
            number,
            epoch,
            reusing,
            reading: now.0,
        },
        ..group_healing_plan(id, answer)
    };
    judge(
        &[is_new(library.next_mount, u128::from(number))],
        &[],
        prepared,
    )
}

pub(crate) fn reuse(
    library: &Group,
    id: GroupId,
    number: u64,
    now: Secs,
    reusing: Option<Reusing>,
    state: Option<&MountState>,
) -> Verdict
    ensures { result ≡ verdict_on (reuse_plan id library.now number now.0 reusing) (reuse_needs now.0 (option_copied state.entry)) }
{
    let relabelled = (was_relabelled(now, state), Guard::VolumeRelabelled);
    let Some(reusing) = reusing else {
        return no_token_with(id, relabelled);
    };
    let step = GroupStep::Reuse {
        vsn: reusing.vsn,
        epoch: reusing.next_epoch,
        version: reusing.version,
    };
    let payload = journal_payload(library, id, now, step);
    let prepared = Prepared {
        ends: Ending::Mount { group: id, number },
        ..step_plan(id, payload, Answer::Reused)
    };
    guarded(&[relabelled], prepared)
}

// Whether the label that the mount is for was written last, and the clock reads no less than as the reuse began.
fn was_relabelled(now: Secs, state: Option<&MountState>) -> bool
    ensures { result ≡ was_relabelled_of now.0 (option_copied state.entry) }
{
    match state {
        None => false,
        Some(state) => is_reuse_label(now, state.origin, state.labelled),
    }
}

fn is_reuse_label(now: Secs, origin: Origin, label: Option<Label>) -> bool
    ensures { result ≡ is_reuse_label_of now.0 origin label }
{
    match origin {
        Origin::Reuse {
            next_epoch,
            version,
            reading,
        } => is_label(next_epoch, version, label) && reading.0 <= now.0,
        Origin::New { .. }
        | Origin::Piece { .. }
        | Origin::Chunk { .. }
        | Origin::Source { .. }
        | Origin::Target { .. } => false,
    }
}
