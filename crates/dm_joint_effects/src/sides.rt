//! Changes of several groups.

ghost use Rattle.std.specs.Prelude.{◌≡◌, OnOk};
ghost use Rattle.dm_model.specs.Effects.{at_each};

use dm_base::{GroupId, NoMemory};
use dm_model::Side;
use dm_tables::{Numbers, TryEdit};

// The sides of these groups are edited, one after another.
pub(crate) fn edit_each<E: TryEdit<Side>>(
    sides: &mut Numbers<Side>,
    groups: &[GroupId],
    edit: &E,
) -> Result<(), NoMemory>
    ensures { OnOk result (sides.new ≡ at_each (E.edited edit.now) groups.now sides.old) }
{
    match groups {
        [] => Ok(()),
        [group, rest @ ..] => {
            sides.edit(u128::from(group.0), edit)?;
            edit_each(sides, rest, edit)
        }
    }
}
