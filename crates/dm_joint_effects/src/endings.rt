//! What a call spends, in every answer.

ghost use Rattle.std.specs.Prelude.{◌≡◌, OnOk};
ghost use Rattle.dm_model.specs.Effects.{after_ending};

use crate::copies::{LosesReservation, unmount_copy};
use crate::sides::edit_each;
use dm_base::NoMemory;
use dm_model::{Ending, Joint, Side, Worker};
use dm_tables::TryEdit;

// What the ending spends goes.
pub(crate) fn spend(worker: u32, ends: &Ending, joint: &mut Joint) -> Result<(), NoMemory>
    ensures { OnOk result (joint.new ≡ after_ending worker ends.now joint.old) }
{
    match ends {
        Ending::Nothing => Ok(()),
        Ending::Put {
            request,
            bfid: _,
            groups,
        } => {
            let _ = joint.daemon.requests.remove(u128::from(*request));
            edit_each(&mut joint.sides, groups.as_slice(), &Spends { ends })
        }
        Ending::Recall { request } => {
            let _ = joint.daemon.requests.remove(u128::from(*request));
            let over = LosesRecall { request: *request };
            joint.workers.edit(u128::from(worker), &over)
        }
        Ending::Reservation { group, .. } => {
            joint.sides.edit(u128::from(group.0), &Spends { ends })
        }
        Ending::Mount { group, .. } => joint.sides.edit(u128::from(group.0), &Spends { ends }),
        Ending::Move { group, .. } => joint.sides.edit(u128::from(group.0), &Spends { ends }),
    }
}

// A recall of the worker is over.
#[derive(Drop)]
struct LosesRecall {
    request: u64,
}

impl TryEdit<Worker> for LosesRecall {
    ghost use Rattle.dm_model.specs.Effects.{without_recall};

    ghost edited = { λ it. without_recall it.request };

    fn try_edit(&self, row: &mut Worker) -> Result<(), NoMemory> {
        let _ = row.recalls.remove(u128::from(self.request));
        Ok(())
    }
}

// What is spent of a group's side.
#[derive(Drop)]
struct Spends<'a> {
    ends: &'a Ending,
}

impl TryEdit<Side> for Spends<'_> {
    ghost use Rattle.dm_model.specs.SideShare.{side_after_ending};

    ghost edited = { λ it. side_after_ending it.ends.now };

    fn try_edit(&self, row: &mut Side) -> Result<(), NoMemory> {
        match self.ends {
            Ending::Nothing | Ending::Recall { .. } => Ok(()),
            Ending::Put { bfid, .. } => {
                let _ = row.copies.remove(bfid.0);
                Ok(())
            }
            Ending::Reservation { number, bfid, .. } => {
                let _ = row.group.reservations.remove(u128::from(*number));
                row.copies.edit(bfid.0, &LosesReservation)
            }
            Ending::Mount { number, .. } => {
                let _ = row.group.mounts.remove(u128::from(*number));
                let _ = row.group.reuses.remove(u128::from(*number));
                match row.mounts.remove(u128::from(*number)) {
                    Some(mount) => unmount_copy(&mut row.copies, *number, mount.origin),
                    None => Ok(()),
                }
            }
            Ending::Move {
                number,
                source,
                target,
                ..
            } => {
                let _ = row.group.moves.remove(u128::from(*number));
                let _ = row.group.mounts.remove(u128::from(*source));
                let _ = row.group.mounts.remove(u128::from(*target));
                let _ = row.mounts.remove(u128::from(*source));
                let _ = row.mounts.remove(u128::from(*target));
                Ok(())
            }
        }
    }
}
