//! What a call was, for its entry.
ghost use Rattle.dm_daemon_acts.specs.Acts.{Report};
ghost use Rattle.dm_model.specs.declared.call.Call.{Call};

use crate::names::Names;
use crate::system::System;
use dm_spine::Note;

/// The arguments of a call. With what the call returned they say which call of the machine it was, with the numbers of the tokens that it
/// made, and what it reports.
pub trait Arguments {
    type Returned;

    ghost call: { Self → Self.Returned → Call };

    ghost report: { Self → Self.Returned → Report };
}

/// How far a call had come that failed: whether it had settled the step in doubt, and had done the checkpoint that was due. Of a
/// call that was answered it says nothing.
#[derive(Clone, Copy, Debug, PartialEq, Eq)]
pub struct Progress {
    pub healed: bool,
    pub checkpointed: bool,
}

/// A worker's call, with the names that its entry carries and what it returned. It is made of references and numbers.
#[derive(Drop)]
pub struct CallNote<'a, C: Arguments> {
    worker: u32,
    names: Names,
    arguments: &'a C,
    returned: &'a C::Returned,
    progress: Progress,
}

impl<'a, C: Arguments> CallNote<'a, C> {
    ghost use Rattle.std.specs.Prelude.{◌≡◌};
    ghost use Rattle.dm_bench.specs.Entries.{entry_of, entry_noted};
    ghost use Rattle.dm_bench.specs.Named.{names_in};

    /// The note of a call that the worker made.
    pub fn of(
        worker: u32,
        names: Names,
        arguments: &'a C,
        returned: &'a C::Returned,
        progress: Progress,
    ) -> CallNote<'a, C>
        ensures { entry_noted C.call C.report result ≡ entry_of worker (names_in names) (C.call arguments.now returned.now) (C.report arguments.now returned.now) progress }
    {
        CallNote {
            worker,
            names,
            arguments,
            returned,
            progress,
        }
    }
}

impl<'a, C: Arguments> Note<System> for CallNote<'a, C> {
    ghost use Rattle.dm_bench.specs.Entries.{entry_noted};

    ghost entry = { entry_noted C.call C.report };
}
