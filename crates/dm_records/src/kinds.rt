//! The kinds of the daemon's payloads, each with its byte: which are written and which are only read is said here.
//!
//! Every kind of a record is written. Of heads and rows those of version 2 are; those of version 1 and `Upgrade` are in
//! journals that an older program began, and `Upgrade` is written once where such a journal goes on.

ghost use Rattle.std.specs.Prelude.{◌≡◌, MatchOption, ℕ};
ghost use Rattle.dm_records.specs.Rows.{row_kind_byte};
ghost use Rattle.dm_records.specs.Steps.{step_byte};

/// The kind of a record.
#[derive(Clone, Copy, Debug, PartialEq, Eq)]
pub enum StepKind {
    Write,
    Remove,
    BeginPut,
    Stored,
    EndPut,
    Release,
    Taken,
    Dump,
    Undump,
    Restore,
    HardDelete,
    Dropped,
    Restart,
    Age,
}

impl StepKind {
    /// The byte of the kind.
    pub fn byte(self) -> u8
        ensures { result ≡ step_byte self }
    {
        match self {
            StepKind::Write => 2,
            StepKind::Remove => 3,
            StepKind::BeginPut => 4,
            StepKind::Stored => 5,
            StepKind::EndPut => 6,
            StepKind::Release => 7,
            StepKind::Taken => 8,
            StepKind::Dump => 9,
            StepKind::Undump => 10,
            StepKind::Restore => 11,
            StepKind::HardDelete => 12,
            StepKind::Dropped => 13,
            StepKind::Restart => 14,
            StepKind::Age => 15,
        }
    }

    /// The kind of a byte, or none where it is no record's.
    pub fn of_byte(byte: u8) -> Option<StepKind>
        ensures { MatchOption result ((kind : StepKind) → step_byte kind ≡ byte → ⊥) (λ kind. step_byte kind ≡ byte) }
    {
        match byte {
            2 => Some(StepKind::Write),
            3 => Some(StepKind::Remove),
            4 => Some(StepKind::BeginPut),
            5 => Some(StepKind::Stored),
            6 => Some(StepKind::EndPut),
            7 => Some(StepKind::Release),
            8 => Some(StepKind::Taken),
            9 => Some(StepKind::Dump),
            10 => Some(StepKind::Undump),
            11 => Some(StepKind::Restore),
            12 => Some(StepKind::HardDelete),
            13 => Some(StepKind::Dropped),
            14 => Some(StepKind::Restart),
            15 => Some(StepKind::Age),
            _ => None,
        }
    }
}

/// The kind of a row of a checkpoint.
#[derive(Clone, Copy, Debug, PartialEq, Eq)]
pub enum RowKind {
    /// Of version 1, and only read.
    OldState,
    File,
    Bitfile,
    /// Of version 1, and only read.
    OldDump,
    DumpFile,
    State,
    Dump,
}

impl RowKind {
    /// The byte of the kind.
    pub fn byte(self) -> u8
        ensures { result ≡ row_kind_byte self }
    {
        match self {
            RowKind::OldState => 32,
            RowKind::File => 33,
            RowKind::Bitfile => 34,
            RowKind::OldDump => 35,
            RowKind::DumpFile => 36,
            RowKind::State => 37,
            RowKind::Dump => 38,
        }
    }

    /// The kind of a byte, or none where it is no row's.
    pub fn of_byte(byte: u8) -> Option<RowKind>
        ensures { MatchOption result ((kind : RowKind) → row_kind_byte kind ≡ byte → ⊥) (λ kind. row_kind_byte kind ≡ byte) }
    {
        match byte {
            32 => Some(RowKind::OldState),
            33 => Some(RowKind::File),
            34 => Some(RowKind::Bitfile),
            35 => Some(RowKind::OldDump),
            36 => Some(RowKind::DumpFile),
            37 => Some(RowKind::State),
            38 => Some(RowKind::Dump),
            _ => None,
        }
    }
}
