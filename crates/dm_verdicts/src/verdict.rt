//! The verdict on a call.

ghost use Rattle.std.specs.Prelude.{◌≡◌, None};
ghost use Rattle.dm_model.specs.Guards.{lowest_false};

use crate::guards::lowest;
use dm_model::{Guard, Prepared};

/// A call that was looked at.
#[derive(Drop)]
pub struct Verdict {
    /// The lowest guard of the call that is false.
    pub illegal: Option<Guard>,
    /// The lowest guard of a fault of the call that is false. A fault makes nothing, so some of the call's guards aren't
    /// its own.
    pub illegal_fault: Option<Guard>,
    /// What the call comes to. It means nothing where the event is illegal.
    pub prepared: Prepared,
}

/// The verdict, with the guards of the call and those of its fault tested.
pub fn judge(call: &[(bool, Guard)], fault: &[(bool, Guard)], prepared: Prepared) -> Verdict
    ensures { result ≡ record { illegal = lowest_false call.now; illegal_fault = lowest_false fault.now; prepared = prepared } }
{
    Verdict {
        illegal: lowest(call),
        illegal_fault: lowest(fault),
        prepared,
    }
}

/// The verdict on a call whose fault needs the same guards: it uses a device, and makes nothing that needs more.
pub fn guarded(guards: &[(bool, Guard)], prepared: Prepared) -> Verdict
    ensures { result ≡ record { illegal = lowest_false guards.now; illegal_fault = lowest_false guards.now; prepared = prepared } }
{
    let illegal = lowest(guards);
    Verdict {
        illegal,
        illegal_fault: illegal,
        prepared,
    }
}

/// The verdict on a call that uses a device and needs no guard.
pub fn legal(prepared: Prepared) -> Verdict
    ensures { result ≡ record { illegal = None; illegal_fault = None; prepared = prepared } }
{
    Verdict {
        illegal: None,
        illegal_fault: None,
        prepared,
    }
}
