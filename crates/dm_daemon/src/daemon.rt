//! The daemon, and what it tells of itself.

ghost use Rattle.std.specs.Prelude.{◌≡◌, ◌≤◌, ◌<◌, ◌+◌, ◌^◌, false, None, IfOk, length};
ghost use Rattle.std.specs.FinMap as map;
ghost use Rattle.dm_ckpt.specs.declared.doubt.Doubt.TheVariants.{Sure};
ghost use Rattle.dm_daemon.specs.State.{state_of};
ghost use Rattle.dm_daemon_tables.specs.Tables.{state_of as tables_of};
ghost use Rattle.dm_journal.specs.Grammar.{longest};
ghost use Rattle.dm_model.specs.DaemonCalls.{time_at as time_of_step};

use dm_base::{Ino, NoMemory, Secs};
use dm_ckpt::Store;
use dm_daemon_journal::Journalled;
use dm_daemon_tables::Tables;
use dm_requests::Requests;
use std::alloc::Global;

/// The longest payload of a journal, in bytes.
const LONGEST: usize = 20_971_520;

/// The daemon of a site.
#[derive(Drop)]
pub struct Daemon {
    pub(crate) cap: u64,
    pub(crate) landed: bool,
    pub(crate) journalled: Journalled,
    pub(crate) requests: Requests,
    // Where payloads are written.
    pub(crate) buffer: Vec<u8>,
    // The inode that the step in doubt changes or removes, if it does, and the number of the change.
    pub(crate) found: (Option<Ino>, u64),
}

impl Daemon {
    /// The daemon of these tables and of the store that tells of them: no request is open, and no step in doubt.
    pub fn of(alloc: Global, cap: u64, tables: Tables, store: Store) -> Result<Daemon, NoMemory>
        requires { store.doubt ≡ Sure }
        ensures is { IfOk result (λ d. state_of d ≡ record { cap = cap; tables = tables_of tables; requests = map.empty; next_request = 0; doubt = None }) }
        ensures store { IfOk result (λ d. d.journalled.store ≡ store) }
        ensures sure { IfOk result (λ d. d.journalled.pending ≡ None) }
        ensures landed { IfOk result (λ d. d.landed ≡ false) }
        ensures room { IfOk result (λ d. longest ≤ length d.buffer.items) }
        ensures found { IfOk result (λ d. d.found ≡ (None, 0)) }
    {
        let buffer = vec![in alloc; 0; LONGEST]?;
        Ok(Daemon {
            cap,
            landed: false,
            journalled: Journalled::of(tables, store),
            requests: Requests::empty(alloc),
            buffer,
            found: (None, 0),
        })
    }

    /// The most bytes of all files and dumps together.
    pub fn cap(&self) -> u64
        ensures { result ≡ self.now.cap }
    {
        self.cap
    }

    /// Whether the step that was in doubt before the last call that heals had landed.
    pub fn landed(&self) -> bool
        ensures { result ≡ self.now.landed }
    {
        self.landed
    }

    /// The tables, as they are before the step in doubt.
    pub fn tables(&self) -> &Tables
        ensures { tables_of result.now ≡ (state_of self.now).tables }
    {
        self.journalled.tables()
    }

    // The daemon's time after a step whose command read the clock so.
    pub(crate) fn time_at(&self, now: Secs) -> Secs
        ensures at { result.0 ≡ time_of_step (state_of self.now) now.0 }
        ensures word { result.0 < 2 ^ 64 }
    {
        let time = self.journalled.tables().time();
        if now < time { time } else { now }
    }
}
