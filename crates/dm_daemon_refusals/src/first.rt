//! The first of several tests that is true.

ghost use Rattle.std.specs.Prelude.{◌≡◌, IfSome, map};
ghost use Rattle.std.specs.List.{AllByRecursion};
ghost use Rattle.std.specs.Option.{option_map};
ghost use Rattle.dm_daemon_acts.specs.Acts.{IsAnswer, report_of_error};
ghost use Rattle.dm_daemon_refusals.specs.Seen.{IsRefusal};
ghost use Rattle.dm_model.specs.DaemonCalls.{daemon_refusal};
ghost use Rattle.dm_model.specs.Guards.{first_true};

use dm_base::DaemonError;

// The first error whose test is true.
pub(crate) fn first_error(tests: &[(bool, DaemonError)]) -> Option<DaemonError>
    requires { AllByRecursion (λ t. IsRefusal t.1) tests.now }
    ensures first { option_map daemon_refusal result ≡ first_true (map (λ t. (t.0, daemon_refusal t.1)) tests.now) }
    ensures refusal { IfSome result IsRefusal }
{
    match tests {
        [] => None,
        [(holds, error), rest @ ..] => {
            if *holds {
                return Some(*error);
            }
            first_error(rest)
        }
    }
}
