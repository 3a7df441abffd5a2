//! Where a session stands.

ghost use Rattle.std.specs.Prelude.{◌≡◌, ◌≤◌, ◌+◌, ◌∷◌, ◌<◌, IfOk, true, drop};
ghost use Rattle.dm_gen.specs.declared.stage.Stage.TheVariants.{Read as ReadStage, Remove as RemoveStage};
ghost use Rattle.dm_gen.specs.Session.{upkeep};
ghost use Rattle.dm_gen.specs.Stages.{is_ready as is_ready_of, is_within, left_of, stage_after as stage_after_of, IsSettled};

use crate::file::{bytes_of, path_of};
use dm_base::{Command, GroupId, NoMemory};
use std::alloc::Global;

/// What comes next. A number is that of a file, from 1; one behind the last says that none is left at that stage.
#[derive(Clone, Copy)]
pub enum Stage {
    Write(u64),
    Put(u64),
    /// The next number from this one on that three divides.
    Remove(u64),
    /// The commands between the last `rm` and the first `read`, by their place.
    Upkeep(u8),
    /// The next number from this one on that three doesn't divide.
    Read(u64),
}

/// The stage at which the next command is made, where one is left.
pub fn settled(files: u64, stage: Stage) -> Stage
    requires few { files ≤ 4000 }
    requires within { is_within files stage ≡ true }
    ensures { IsSettled files stage result }
{
    match stage {
        Stage::Write(number) => {
            if number > files {
                return next_removed(files, 1);
            }
            stage
        }
        Stage::Put(_) => stage,
        Stage::Remove(number) => next_removed(files, number),
        Stage::Upkeep(place) => {
            if place > 5 {
                return next_read(files, 1);
            }
            stage
        }
        Stage::Read(number) => next_read(files, number),
    }
}

fn next_removed(files: u64, number: u64) -> Stage
    requires few { files ≤ 4000 }
    requires within { number ≤ files + 1 }
    ensures { IsSettled files (RemoveStage number) result }
{
    let mut next = number;
    while next <= files {
        if next % 3 == 0 {
            return Stage::Remove(next);
        }
        next += 1;
    }
    Stage::Upkeep(0)
}

fn next_read(files: u64, number: u64) -> Stage
    requires few { files ≤ 4000 }
    requires within { number ≤ files + 1 }
    ensures { IsSettled files (ReadStage number) result }
{
    let mut next = number;
    while next <= files {
        if next % 3 != 0 {
            return Stage::Read(next);
        }
        next += 1;
    }
    Stage::Read(next)
}

/// Whether a command is made at a stage.
pub fn is_ready(files: u64, stage: Stage) -> bool
    ensures { result ≡ is_ready_of files stage }
{
    match stage {
        Stage::Write(number) | Stage::Put(number) => number <= files,
        Stage::Remove(number) => number <= files && number % 3 == 0,
        Stage::Upkeep(place) => place < 6,
        Stage::Read(number) => number <= files && number % 3 != 0,
    }
}

/// The command that is made at a stage.
pub fn command_at(alloc: Global, files: u64, stage: Stage) -> Result<Command, NoMemory>
    requires few { files ≤ 4000 }
    requires ready { is_ready_of files stage ≡ true }
    ensures { IfOk result (λ command. left_of files stage ≡ command ∷ left_of files (stage_after_of stage)) }
{
    match stage {
        Stage::Write(number) => Ok(Command::Write {
            path: path_of(alloc, number)?,
            bytes: bytes_of(alloc, number)?,
        }),
        Stage::Put(number) => Ok(Command::PutRelease {
            path: path_of(alloc, number)?,
        }),
        Stage::Remove(number) => Ok(Command::Remove {
            path: path_of(alloc, number)?,
        }),
        Stage::Upkeep(place) => Ok(upkeep_at(place)),
        Stage::Read(number) => Ok(Command::Read {
            path: path_of(alloc, number)?,
        }),
    }
}

fn upkeep_at(place: u8) -> Command
    requires { place < 6 }
    ensures { drop place upkeep ≡ result ∷ drop (place + 1) upkeep }
{
    match place {
        0 => Command::HardDelete,
        1 => Command::Merge { group: GroupId(1) },
        2 => Command::Merge { group: GroupId(2) },
        3 => Command::Reuse { group: GroupId(1) },
        4 => Command::Reuse { group: GroupId(2) },
        _ => Command::AuditDeep,
    }
}

/// The stage behind the command of a stage.
pub fn stage_after(files: u64, stage: Stage) -> Stage
    requires few { files ≤ 4000 }
    requires ready { is_ready_of files stage ≡ true }
    ensures { result ≡ stage_after_of stage }
{
    match stage {
        Stage::Write(number) => Stage::Put(number),
        Stage::Put(number) => Stage::Write(number + 1),
        Stage::Remove(number) => Stage::Remove(number + 1),
        Stage::Upkeep(place) => Stage::Upkeep(place + 1),
        Stage::Read(number) => Stage::Read(number + 1),
    }
}
