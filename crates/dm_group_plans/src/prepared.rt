//! What the calls of a group have in common.

ghost use Rattle.std.specs.Prelude.{◌≡◌, ◌∷◌, [], is_none, IfOk};
ghost use Rattle.std.specs.FinMap as map;
ghost use Rattle.dm_model.specs.GroupCalls.{group_healing_plan as group_healing_plan_of, group_journal_payload, group_quiet_plan as group_quiet_plan_of, group_refusal, group_time, is_new as is_new_of, no_token as no_token_plan, of_tokens};
ghost use Rattle.dm_model.specs.Plan.{no_needs, prepared_plan};
ghost use Rattle.dm_verdicts.specs.Verdict.{verdict_on};

use dm_base::{GroupError, GroupId, NoMemory, Secs};
use dm_durable::{GroupRecord, GroupStep};
use dm_model::{Answer, Component, Group, Guard, Payload, Prepared};
use dm_tables::Numbers;
use dm_verdicts::{Verdict, healing_plan, judge, quiet_plan};

/// A call that only answers, and leaves a step in doubt.
pub(crate) fn group_quiet_plan(id: GroupId, answer: Answer) -> Prepared
    ensures { result ≡ prepared_plan (group_quiet_plan_of id answer) }
{
    quiet_plan(Component::Group { group: id }, answer)
}

/// The same, of one that settles a step in doubt first.
pub(crate) fn group_healing_plan(id: GroupId, answer: Answer) -> Prepared
    ensures { result ≡ prepared_plan (group_healing_plan_of id answer) }
{
    healing_plan(Component::Group { group: id }, answer)
}

/// A call that is refused.
pub(crate) fn refused_plan(id: GroupId, error: GroupError) -> Prepared
    ensures { result ≡ prepared_plan (group_healing_plan_of id (group_refusal error)) }
{
    group_healing_plan(id, Answer::GroupRefused { error })
}

/// A call that journals a step and makes and spends nothing.
pub(crate) fn step_plan(id: GroupId, payload: Option<Payload>, answer: Answer) -> Prepared
    ensures { result ≡ record (prepared_plan (group_healing_plan_of id answer)) { payload = payload } }
{
    Prepared {
        payload,
        ..group_healing_plan(id, answer)
    }
}

/// A call that takes a token which isn't open.
pub(crate) fn no_token(id: GroupId) -> Verdict
    ensures { result ≡ verdict_on (no_token_plan id) no_needs }
{
    let token = (false, Guard::Tokens);
    let device = (false, Guard::DeviceUsed);
    judge(
        &[token],
        &[token, device],
        group_quiet_plan(id, Answer::Failed),
    )
}

/// The same, of one that needs something of others too.
pub(crate) fn no_token_with(id: GroupId, need: (bool, Guard)) -> Verdict
    ensures { result ≡ verdict_on (no_token_plan id) (of_tokens (need ∷ [])) }
{
    let token = (false, Guard::Tokens);
    let device = (false, Guard::DeviceUsed);
    judge(
        &[token, need],
        &[token, need, device],
        group_quiet_plan(id, Answer::Failed),
    )
}

/// Whether the number of a token that is made was never used.
pub(crate) fn is_new(next: u128, number: u128) -> (bool, Guard)
    ensures { result ≡ is_new_of next number }
{
    (next <= number, Guard::Tokens)
}

/// A step, journalled by a command that read the clock so.
pub(crate) fn journal_payload(
    library: &Group,
    id: GroupId,
    now: Secs,
    step: GroupStep,
) -> Option<Payload>
    ensures { result ≡ group_journal_payload id library.now now.0 step }
{
    let time = time_at(library, now);
    let record = GroupRecord { time, step };
    Some(Payload::Group { group: id, record })
}

/// The group's time after a step whose command read the clock so.
pub(crate) fn time_at(library: &Group, now: Secs) -> Secs
    ensures { result.0 ≡ group_time library.now now.0 }
{
    if library.tables.time.0 < now.0 {
        now
    } else {
        library.tables.time
    }
}

/// Whether a table has no row with this number.
pub(crate) fn is_absent<V>(rows: &Numbers<V>, number: u128) -> bool
    ensures { result ≡ is_none (map.get rows.now number) }
{
    match rows.get(number) {
        None => true,
        Some(_) => false,
    }
}
