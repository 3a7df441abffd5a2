//! Copies of what the parts of the product keep while the program runs.

ghost use Rattle.std.specs.Prelude.{◌≡◌, IfOk};

use crate::duplicate::Duplicate;
use dm_base::{GroupConf, NoMemory};
use dm_model::{
    CopyReservation, CopyState, Daemon, Group, GroupHistory, History, Image, Joint, MountState,
    Mounted, Moving, OpenRequest, Recall, Reserved, Reusing, Side, Worker, WrittenZone,
};
use std::alloc::Global;

impl Duplicate for OpenRequest {
    fn duplicate(&self, _alloc: Global) -> Result<OpenRequest, NoMemory> {
        Ok(*self)
    }
}

impl Duplicate for Daemon {
    fn duplicate(&self, alloc: Global) -> Result<Daemon, NoMemory> {
        Ok(Daemon {
            cap: self.cap,
            tables: self.tables.duplicate(alloc)?,
            requests: self.requests.duplicate(alloc)?,
            next_request: self.next_request,
            doubt: self.doubt.duplicate(alloc)?,
        })
    }
}

impl Duplicate for Reserved {
    fn duplicate(&self, alloc: Global) -> Result<Reserved, NoMemory> {
        Ok(Reserved {
            bfid: self.bfid,
            len: self.len,
            chunk: self.chunk,
            pieces: self.pieces.copied(alloc)?,
        })
    }
}

impl Duplicate for Mounted {
    fn duplicate(&self, _alloc: Global) -> Result<Mounted, NoMemory> {
        Ok(*self)
    }
}

impl Duplicate for Moving {
    fn duplicate(&self, _alloc: Global) -> Result<Moving, NoMemory> {
        Ok(*self)
    }
}

impl Duplicate for Reusing {
    fn duplicate(&self, _alloc: Global) -> Result<Reusing, NoMemory> {
        Ok(*self)
    }
}

impl Duplicate for Group {
    fn duplicate(&self, alloc: Global) -> Result<Group, NoMemory> {
        Ok(Group {
            conf: conf_copied(alloc, &self.conf)?,
            tables: self.tables.duplicate(alloc)?,
            tips: self.tips.duplicate(alloc)?,
            reservations: self.reservations.duplicate(alloc)?,
            next_reservation: self.next_reservation,
            mounts: self.mounts.duplicate(alloc)?,
            next_mount: self.next_mount,
            moves: self.moves.duplicate(alloc)?,
            next_move: self.next_move,
            reuses: self.reuses.duplicate(alloc)?,
            doubt: self.doubt.duplicate(alloc)?,
        })
    }
}

impl Duplicate for Image {
    fn duplicate(&self, alloc: Global) -> Result<Image, NoMemory> {
        Ok(Image {
            size: self.size,
            known: self.known.duplicate(alloc)?,
        })
    }
}

impl Duplicate for WrittenZone {
    fn duplicate(&self, alloc: Global) -> Result<WrittenZone, NoMemory> {
        Ok(WrittenZone {
            epoch: self.epoch,
            zone: self.zone.copied(alloc)?,
        })
    }
}

impl Duplicate for CopyReservation {
    fn duplicate(&self, alloc: Global) -> Result<CopyReservation, NoMemory> {
        Ok(CopyReservation {
            number: self.number,
            mounts: self.mounts.duplicate(alloc)?,
            written: self.written.duplicate(alloc)?,
        })
    }
}

impl Duplicate for CopyState {
    fn duplicate(&self, alloc: Global) -> Result<CopyState, NoMemory> {
        Ok(CopyState {
            request: self.request,
            len: self.len,
            reservation: self.reservation.duplicate(alloc)?,
        })
    }
}

impl Duplicate for MountState {
    fn duplicate(&self, alloc: Global) -> Result<MountState, NoMemory> {
        Ok(MountState {
            vsn: self.vsn,
            epoch: self.epoch,
            origin: self.origin,
            bound: self.bound,
            labelled: self.labelled,
            read: self.read.duplicate(alloc)?,
            written: self.written.duplicate(alloc)?,
        })
    }
}

impl Duplicate for Recall {
    fn duplicate(&self, alloc: Global) -> Result<Recall, NoMemory> {
        Ok(Recall {
            bfid: self.bfid,
            len: self.len,
            asked: self.asked.copied(alloc)?,
            reads: self.reads.duplicate(alloc)?,
        })
    }
}

impl Duplicate for Worker {
    fn duplicate(&self, alloc: Global) -> Result<Worker, NoMemory> {
        Ok(Worker {
            recalls: self.recalls.duplicate(alloc)?,
        })
    }
}

impl Duplicate for Side {
    fn duplicate(&self, alloc: Global) -> Result<Side, NoMemory> {
        Ok(Side {
            group: self.group.duplicate(alloc)?,
            images: self.images.duplicate(alloc)?,
            faithful: self.faithful.copied(alloc)?,
            copies: self.copies.duplicate(alloc)?,
            mounts: self.mounts.duplicate(alloc)?,
        })
    }
}

impl Duplicate for GroupHistory {
    fn duplicate(&self, alloc: Global) -> Result<GroupHistory, NoMemory> {
        Ok(GroupHistory {
            committed: self.committed.duplicate(alloc)?,
            deleted: self.deleted.duplicate(alloc)?,
        })
    }
}

impl Duplicate for History {
    fn duplicate(&self, alloc: Global) -> Result<History, NoMemory> {
        Ok(History {
            contents: self.contents.duplicate(alloc)?,
            taken: self.taken.duplicate(alloc)?,
            groups: self.groups.duplicate(alloc)?,
        })
    }
}

impl Duplicate for Joint {
    fn duplicate(&self, alloc: Global) -> Result<Joint, NoMemory> {
        Ok(Joint {
            daemon: self.daemon.duplicate(alloc)?,
            sides: self.sides.duplicate(alloc)?,
            workers: self.workers.duplicate(alloc)?,
            history: self.history.duplicate(alloc)?,
        })
    }
}

/// A copy of the configuration of a group.
pub fn conf_copied(alloc: Global, conf: &GroupConf) -> Result<GroupConf, NoMemory>
    ensures { IfOk result (λ copy. copy ≡ conf.now) }
{
    Ok(GroupConf {
        group: conf.group,
        drives: conf.drives,
        chunk: conf.chunk,
        sparse: conf.sparse,
        hold: conf.hold,
        volumes: conf.volumes.copied(alloc)?,
        size: conf.size,
        format: conf.format,
    })
}
