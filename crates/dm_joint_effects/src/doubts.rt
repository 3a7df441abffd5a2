//! Steps of which it isn't known whether they are in the journal.

ghost use Rattle.std.specs.Prelude.{◌≡◌, OnOk};
ghost use Rattle.dm_joint_effects.specs.Sides.{side_with_doubt};
ghost use Rattle.dm_model.specs.Effects.{after_healing, joint_with_doubt};
ghost use Rattle.dm_tables.specs.Rows.{adjust};

use dm_base::NoMemory;
use dm_durable::GroupRecord;
use dm_model::{Component, Joint, Payload, Side};
use dm_tables::{Numbers, TryEdit};

// The component healed, if it does: no step of its is in doubt.
pub(crate) fn heal(heals: bool, component: Component, joint: &mut Joint) -> Result<(), NoMemory>
    ensures { OnOk result (joint.new ≡ after_healing heals component joint.old) }
{
    match component {
        Component::Daemon => {
            if heals {
                joint.daemon.doubt = None;
            }
            Ok(())
        }
        Component::Group { group } => {
            if !heals {
                return Ok(());
            }
            joint.sides.edit(u128::from(group.0), &LosesDoubt)
        }
    }
}

// The payload, if there is one, may be in the journal.
pub(crate) fn doubt(payload: Option<Payload>, joint: &mut Joint) -> Result<(), NoMemory>
    ensures { OnOk result (joint.new ≡ joint_with_doubt payload joint.old) }
{
    match payload {
        None => Ok(()),
        Some(Payload::Daemon { record }) => {
            joint.daemon.doubt = Some(record);
            Ok(())
        }
        Some(Payload::Group { group, record }) => {
            doubt_in(u128::from(group.0), record, &mut joint.sides)
        }
    }
}

// The group's step may be in the journal.
fn doubt_in(group: u128, journalled: GroupRecord, sides: &mut Numbers<Side>) -> Result<(), NoMemory>
    ensures { OnOk result (sides.new ≡ adjust sides.old group (side_with_doubt journalled)) }
{
    let Some(mut side) = sides.remove(group) else {
        return Ok(());
    };
    side.group.doubt = Some(journalled);
    sides.insert(group, side)?;
    Ok(())
}

// No step of the group is in doubt any more.
struct LosesDoubt;

impl TryEdit<Side> for LosesDoubt {
    ghost use Rattle.std.specs.Prelude.{true};
    ghost use Rattle.dm_model.specs.SideShare.{side_without_doubt};

    ghost edited = { λ _. side_without_doubt true };

    fn try_edit(&self, row: &mut Side) -> Result<(), NoMemory> {
        row.group.doubt = None;
        Ok(())
    }
}
