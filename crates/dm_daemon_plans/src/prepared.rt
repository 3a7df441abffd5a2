//! What the calls of the daemon have in common.

ghost use Rattle.std.specs.Prelude.{◌≡◌, ◌∷◌, [], true, None, map};
ghost use Rattle.std.specs.Option.{option_map};
ghost use Rattle.dm_model.specs.DaemonCalls.{changed_in, daemon_healing_plan as daemon_healing_plan_of, daemon_refusal, is_new_request as is_new_request_of, journal_payload as journalled_by, no_request as no_request_plan, time_at as time_at_of, too_many as too_many_answer};
ghost use Rattle.dm_model.specs.Guards.{first_true};
ghost use Rattle.dm_model.specs.Plan.{no_needs, prepared_plan};
ghost use Rattle.dm_verdicts.specs.Verdict.{verdict_on};

use dm_base::{Bfid, DaemonError, Ino, Secs};
use dm_durable::{DaemonRecord, DaemonStep};
use dm_model::{Answer, Component, Daemon, Guard, OpenRequest, Payload, Prepared, RequestKind};
use dm_verdicts::{Verdict, guarded, healing_plan};

/// A call that only answers, and settles a step in doubt first.
pub(crate) fn daemon_healing_plan(answer: Answer) -> Prepared
    ensures { result ≡ prepared_plan (daemon_healing_plan_of answer) }
{
    healing_plan(Component::Daemon, answer)
}

/// A call that is refused.
pub(crate) fn refused_plan(error: DaemonError) -> Prepared
    ensures { result ≡ prepared_plan (daemon_healing_plan_of (daemon_refusal error)) }
{
    daemon_healing_plan(Answer::DaemonRefused { error })
}

/// A call that journals a step and makes and spends nothing.
pub(crate) fn step_plan(payload: Option<Payload>, answer: Answer) -> Prepared
    ensures { result ≡ record (prepared_plan (daemon_healing_plan_of answer)) { payload = payload } }
{
    Prepared {
        payload,
        ..daemon_healing_plan(answer)
    }
}

/// A call that takes a request which isn't open.
pub(crate) fn no_request() -> Verdict
    ensures { result ≡ verdict_on no_request_plan no_needs }
{
    guarded(
        &[(false, Guard::Tokens)],
        daemon_healing_plan(Answer::Failed),
    )
}

/// The first error whose test is true.
pub(crate) fn first_error(tests: &[(bool, DaemonError)]) -> Option<DaemonError>
    ensures { option_map daemon_refusal result ≡ first_true (map (λ t. (t.0, daemon_refusal t.1)) tests.now) }
{
    match tests {
        [] => None,
        [(holds, error), rest @ ..] => {
            if *holds {
                return Some(*error);
            }
            first_error(rest)
        }
    }
}

/// As many as there may be.
pub(crate) fn too_many(limit: u64) -> DaemonError
    ensures { daemon_refusal result ≡ too_many_answer limit }
{
    DaemonError::TooMany { limit }
}

/// The inode was changed or removed since the request began.
pub(crate) fn changed(request: &OpenRequest) -> Option<DaemonError>
    ensures { option_map daemon_refusal result ≡ first_true (changed_in request.now) }
{
    match request.found {
        None => None,
        Some(found) => Some(DaemonError::Changed {
            was: request.was,
            found,
        }),
    }
}

/// Whether the number of a request that is made was never used.
pub(crate) fn is_new_request(daemon: &Daemon, number: u64) -> (bool, Guard)
    ensures { result ≡ is_new_request_of daemon.now number }
{
    (daemon.next_request <= u128::from(number), Guard::Tokens)
}

/// A request of the file's inode that begins.
pub(crate) fn request_of(ino: u64, bfid: Bfid, was: u64, kind: RequestKind) -> OpenRequest
    ensures { result ≡ record { ino = record { 0 = ino }; bfid = bfid; was = was; found = None; kind = kind } }
{
    OpenRequest {
        ino: Ino(ino),
        bfid,
        was,
        found: None,
        kind,
    }
}

/// A step, journal_payload by a command that read the clock so.
pub(crate) fn journal_payload(daemon: &Daemon, now: Secs, step: DaemonStep) -> Option<Payload>
    ensures { result ≡ journalled_by daemon.now now.0 step }
{
    let time = time_at(daemon, now);
    let record = DaemonRecord { time, step };
    Some(Payload::Daemon { record })
}

/// The daemon's time after a step whose command read the clock so.
pub(crate) fn time_at(daemon: &Daemon, now: Secs) -> Secs
    ensures { result.0 ≡ time_at_of daemon.now now.0 }
{
    if daemon.tables.time.0 < now.0 {
        now
    } else {
        daemon.tables.time
    }
}
