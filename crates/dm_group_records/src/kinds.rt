//! The kinds of a group's records, each with its byte: which are written and which are only read is said here.
//!
//! `StepKind` has those that are written. `OldKind` has those of programs that knew volumes of version 1 alone; they are
//! read, and never written. A delete and a free were spelled in those days as they are now. Of the rows of a checkpoint
//! a state, a volume and a bitfile are written; those of a volume and of a bitfile of old are read, and never written.

ghost use Rattle.std.specs.Prelude.{◌≡◌, MatchOption};
ghost use Rattle.dm_group_records.specs.Steps.{step_byte};
ghost use Rattle.dm_group_records.specs.OldSteps.{old_byte};

/// The kind of the row of a state.
pub(crate) const STATE_ROW: u8 = 40;

/// The kind of the row of a volume before there were versions.
pub(crate) const OLD_VOLUME_ROW: u8 = 41;

/// The kind of the row of a bitfile before there were sums.
pub(crate) const OLD_BITFILE_ROW: u8 = 42;

/// The kind of the row of a volume.
pub(crate) const VOLUME_ROW: u8 = 43;

/// The kind of the row of a bitfile.
pub(crate) const BITFILE_ROW: u8 = 44;

/// The kind of a record.
#[derive(Clone, Copy, Debug, PartialEq, Eq)]
pub enum StepKind {
    Volume,
    Commit,
    Delete,
    Move,
    Free,
    Reuse,
}

impl StepKind {
    /// The byte of the kind.
    pub fn byte(self) -> u8
        ensures { result ≡ step_byte self }
    {
        match self {
            StepKind::Volume => 10,
            StepKind::Commit => 8,
            StepKind::Delete => 4,
            StepKind::Move => 9,
            StepKind::Free => 6,
            StepKind::Reuse => 11,
        }
    }

    /// The kind of a byte, or none where it is no such record's.
    pub fn of_byte(byte: u8) -> Option<StepKind>
        ensures { MatchOption result ((kind : StepKind) → step_byte kind ≡ byte → ⊥) (λ kind. step_byte kind ≡ byte) }
    {
        match byte {
            10 => Some(StepKind::Volume),
            8 => Some(StepKind::Commit),
            4 => Some(StepKind::Delete),
            9 => Some(StepKind::Move),
            6 => Some(StepKind::Free),
            11 => Some(StepKind::Reuse),
            _ => None,
        }
    }
}

/// The kind of a record before there were versions and sums.
#[derive(Clone, Copy, Debug, PartialEq, Eq)]
pub enum OldKind {
    Volume,
    Commit,
    Move,
    Reuse,
}

impl OldKind {
    /// The byte of the kind.
    pub fn byte(self) -> u8
        ensures { result ≡ old_byte self }
    {
        match self {
            OldKind::Volume => 2,
            OldKind::Commit => 3,
            OldKind::Move => 5,
            OldKind::Reuse => 7,
        }
    }

    /// The kind of a byte, or none where it is no such record's.
    pub fn of_byte(byte: u8) -> Option<OldKind>
        ensures { MatchOption result ((kind : OldKind) → old_byte kind ≡ byte → ⊥) (λ kind. old_byte kind ≡ byte) }
    {
        match byte {
            2 => Some(OldKind::Volume),
            3 => Some(OldKind::Commit),
            5 => Some(OldKind::Move),
            7 => Some(OldKind::Reuse),
            _ => None,
        }
    }
}
