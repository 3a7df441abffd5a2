//! How a run ended.

ghost use Rattle.std.specs.Prelude.{◌≡◌};
ghost use Rattle.dm_site.specs.Status.{number_of};

/// How a run ended. docs/COMMANDS.md says when each comes.
#[derive(Clone, Copy)]
pub(crate) enum Status {
    /// The input was read to its end, and everything answered.
    Done = 0,
    /// The words ask for no run.
    NoRun = 1,
    /// The source failed.
    SourceFailed = 4,
    /// The sink failed or took nothing.
    ReplyCut = 5,
    /// The device failed at the opening.
    DeviceFailed = 6,
    /// A command couldn't be read for want of memory.
    OutOfMemory = 7,
    /// The input ended inside a command, or a line was too long.
    InputCut = 8,
    /// No more bytes are counted.
    BytesUsedUp = 9,
}

/// The exit status.
pub(crate) fn number(status: Status) -> u8
    ensures { result ≡ number_of status }
{
    status as u8
}
