//! Refusals of calls on requests, dumps and the age.

ghost use Rattle.std.specs.Prelude.{◌≡◌, ◌≤◌, ℕ, List, Some, IfSome, is_some};
ghost use Rattle.std.specs.Option.{option_map};
ghost use Rattle.std.specs.FinMap as map;
ghost use Rattle.dm_daemon_refusals.specs.Seen.{IsRefusal};
ghost use Rattle.dm_daemon_tables.specs.Tables.{state_of as tables_of};
ghost use Rattle.dm_durable.specs.Daemon.{size_of};
ghost use Rattle.dm_durable.specs.Dumps.{length_dumped as length_dumped_of};
ghost use Rattle.dm_model.specs.declared.state.Daemon.{Daemon};
ghost use Rattle.dm_model.specs.DaemonCalls.{changed_in, daemon_refusal, set_age, undump};
ghost use Rattle.dm_model.specs.Guards.{first_true};
ghost use Rattle.dm_model.specs.Plan.{refusal_of};

use crate::first::first_error;
use dm_base::{AGE_LIMIT, DaemonError};
use dm_daemon_tables::Tables;
use dm_model::OpenRequest;

/// Why a call on the request is refused: its inode was changed or removed since it began.
pub fn changed_refusal(request: OpenRequest) -> Option<DaemonError>
    ensures first { option_map daemon_refusal result ≡ first_true (changed_in request) }
    ensures refusal { IfSome result IsRefusal }
{
    match request.found {
        Some(found) => Some(DaemonError::Changed {
            was: request.was,
            found,
        }),
        None => None,
    }
}

/// Why the dump isn't removed: there is none of that name.
pub fn undump_refusal(tables: &Tables, name: &[u8]) -> Option<DaemonError>
    ensures first { (d : Daemon) (now : ℕ) → d.tables ≡ tables_of tables.now → option_map daemon_refusal result ≡ refusal_of (undump d name.now now) }
    ensures refusal { IfSome result IsRefusal }
{
    let tests = [(tables.dump(name).is_none(), DaemonError::NoDump)];
    first_error(&tests)
}

/// Why the age isn't set: it is greater than an age may be.
pub fn age_refusal(age: u64) -> Option<DaemonError>
    ensures first { (d : Daemon) (now : ℕ) → option_map daemon_refusal result ≡ refusal_of (set_age d age now) }
    ensures refusal { IfSome result IsRefusal }
{
    let tests = [(AGE_LIMIT < age, DaemonError::TooMany { limit: AGE_LIMIT })];
    first_error(&tests)
}
