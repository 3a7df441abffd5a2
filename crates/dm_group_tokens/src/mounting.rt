//! Why a volume isn't mounted now.

ghost use Rattle.std.specs.Prelude.{◌≡◌, [], ◌∷◌};
ghost use Rattle.std.specs.Option.{option_map};
ghost use Rattle.dm_group_tokens.specs.Mounting.{drives_left, refusal_of_mount};
ghost use Rattle.dm_model.specs.declared.answer.Answer.TheVariants.{GroupRefused};
ghost use Rattle.dm_model.specs.Guards.{first_true};

use crate::tokens::Tokens;
use dm_base::{GroupError, Vsn};
use dm_model::Mounted;

/// How many of so many drives are free.
pub fn free_drives(mounts: &Tokens<Mounted>, drives: u8) -> u8
    ensures { result ≡ drives_left drives mounts.now.rows.rows }
{
    match u8::try_from(mounts.len()) {
        Ok(used) => drives.saturating_sub(used),
        Err(_) => 0,
    }
}

/// Why the volume isn't mounted, together with so many others: it is mounted already, or too few drives are free.
pub fn mount_refusal(
    mounts: &Tokens<Mounted>,
    drives: u8,
    others: u8,
    vsn: Vsn,
) -> Option<GroupError>
    ensures { option_map (λ e. GroupRefused e) result ≡ first_true (refusal_of_mount others drives mounts.now.rows.rows vsn.0 ∷ []) }
{
    let mounted = mounts.is_mounted(vsn);
    let free = free_drives(mounts, drives);
    if mounted || u16::from(free) < u16::from(others) + 1 {
        return Some(GroupError::NotYet { mounted, free });
    }
    None
}
