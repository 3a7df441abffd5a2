//! The plan of a session.

ghost use Rattle.std.specs.Prelude.{◌≡◌, ◌≤◌, ◌↔◌, ◌++◌, [], IfOk, IfSome, IsNone, IsSome, OnErr};
ghost use Rattle.std.specs.Option.{option_to_list};

use crate::stage::{Stage, command_at, is_ready, settled, stage_after};
use dm_base::{Command, NoMemory};
use std::alloc::Global;
use std::marker::Model;

/// The most files of a session.
pub const FILES_LIMIT: u64 = 4000;

/// The rest of a session.
#[derive(Drop)]
pub struct Plan {
    files: u64,
    stage: Stage,
}

impl Model for Plan {
    ghost use Rattle.std.specs.Prelude.{List, ◌≤◌};
    ghost use Rattle.dm_base.specs.declared.command.Command.{Command};
    ghost use Rattle.dm_gen.specs.Stages.{left_of, IsWithin};

    ghost Value = { List Command };

    ghost view = { λ p. left_of p.files p.stage };

    ghost invariant = { λ p. IsWithin p.files p.stage };
}

impl Plan {
    ghost use Rattle.dm_gen.specs.Session.{session};

    /// The session of so many files, or none where there is no session of that number. It takes no memory.
    pub fn of(files: u64) -> Option<Plan>
        ensures is { IfSome result (λ plan. plan ≡ session files) }
        ensures some { IsSome result ↔ ((1 ≤ files) × (files ≤ 4000)) }
    {
        if files < 1 || files > FILES_LIMIT {
            return None;
        }
        Some(Plan {
            files,
            stage: Stage::Write(1),
        })
    }

    /// The next command, or none behind the last. After `NoMemory` the same command comes next.
    pub fn next(&mut self, alloc: Global) -> Result<Option<Command>, NoMemory>
        ensures made { IfOk result (λ made. self.old ≡ option_to_list made ++ self.new) }
        ensures over { IfOk result (λ made. IsNone made ↔ (self.old ≡ [])) }
        ensures err { OnErr result (self.new ≡ self.old) }
    {
        let stage = settled(self.files, self.stage);
        if !is_ready(self.files, stage) {
            return Ok(None);
        }
        match command_at(alloc, self.files, stage) {
            Ok(command) => {
                self.stage = stage_after(self.files, stage);
                Ok(Some(command))
            }
            Err(NoMemory) => Err(NoMemory),
        }
    }
}
