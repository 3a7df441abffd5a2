//! The end of the program: all that is not durable goes.

ghost use Rattle.std.specs.Prelude.{◌≡◌, OnOk};
ghost use Rattle.dm_model.specs.DaemonShare.{daemon_after_stop as daemon_after_stop_of};
ghost use Rattle.dm_model.specs.GroupShare.{group_after_stop as group_after_stop_of};
ghost use Rattle.dm_model.specs.Step.{after_stop};

use dm_base::NoMemory;
use dm_durable_steps::{daemon_after_stop, empty_daemon};
use dm_model::{Daemon, Group, Joint, Side};
use dm_tables::{Change, Numbers, Texts};
use std::alloc::Global;
use std::mem;

/// The program ended: tables, volumes and what was done stay, and nothing is open or in doubt. `NoMemory` where memory is
/// refused; nothing is then said of the state (docs/DEFINITIONS.md, "The machine, whole").
pub fn apply_stop(alloc: Global, joint: &mut Joint) -> Result<(), NoMemory>
    ensures { OnOk result (joint.new ≡ after_stop joint.old) }
{
    stop_daemon(alloc, &mut joint.daemon)?;
    let sides = mem::replace(&mut joint.sides, Numbers::empty(alloc));
    joint.sides = sides.mapped(alloc, &Stops { alloc })?;
    joint.workers = Numbers::empty(alloc);
    Ok(())
}

fn stop_daemon(alloc: Global, daemon: &mut Daemon) -> Result<(), NoMemory>
    ensures { OnOk result (daemon.new ≡ daemon_after_stop_of daemon.old) }
{
    let tables = mem::replace(&mut daemon.tables, empty_daemon(alloc, 0, 0, 0));
    daemon.tables = daemon_after_stop(alloc, tables)?;
    daemon.requests = Numbers::empty(alloc);
    daemon.next_request = 0;
    daemon.doubt = None;
    Ok(())
}

// The group's library server keeps its tables, and its volumes what stands on them.
#[derive(Drop)]
struct Stops {
    alloc: Global,
}

impl Change<Side> for Stops {
    ghost use Rattle.dm_model.specs.SideShare.{side_after_stop};

    ghost changed = { λ _. side_after_stop };

    fn change(&self, row: Side) -> Side {
        Side {
            group: group_after_stop(self.alloc, row.group),
            images: row.images,
            faithful: row.faithful,
            copies: Numbers::empty(self.alloc),
            mounts: Numbers::empty(self.alloc),
        }
    }
}

fn group_after_stop(alloc: Global, group: Group) -> Group
    ensures { result ≡ group_after_stop_of group }
{
    Group {
        conf: group.conf,
        tables: group.tables,
        tips: Texts::empty(alloc),
        reservations: Numbers::empty(alloc),
        next_reservation: 0,
        mounts: Numbers::empty(alloc),
        next_mount: 0,
        moves: Numbers::empty(alloc),
        next_move: 0,
        reuses: Numbers::empty(alloc),
        doubt: None,
    }
}
