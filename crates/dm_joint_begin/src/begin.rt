//! The parts of the joint state before the first event.

ghost use Rattle.std.specs.Prelude.{◌≡◌, IfOk};
ghost use Rattle.dm_base.specs.Limits.{volumes_limit};
ghost use Rattle.dm_model.specs.Begin.{blank_images as blank_images_of, empty_joint as empty_joint_of, new_daemon as new_daemon_of, new_group as new_group_of, new_side as new_side_of, new_sides as new_sides_of, no_history, slots_below};

use dm_base::{Bytes, DaemonConf, GroupConf, Listed, NoMemory, VOLUMES_LIMIT, Vsn};
use dm_durable_steps::{empty_daemon, empty_group};
use dm_model::{Daemon, Group, History, Image, Joint, Side};
use dm_state_copies::conf_copied;
use dm_tables::{Numbers, Texts};
use std::alloc::Global;

/// The state of a new site: no file, no bitfile and no request; each group is empty, and of each of its volumes there is an
/// image of which no byte is known. `NoMemory` only where memory is refused.
pub fn empty_joint(
    alloc: Global,
    daemon: DaemonConf,
    groups: &[GroupConf],
) -> Result<Joint, NoMemory>
    ensures { IfOk result (λ j. j ≡ empty_joint_of daemon groups.now) }
{
    let sides = new_sides(alloc, groups)?;
    Ok(Joint {
        daemon: new_daemon(alloc, daemon),
        sides,
        workers: Numbers::empty(alloc),
        history: new_history(alloc),
    })
}

// A daemon with no file and no request.
fn new_daemon(alloc: Global, conf: DaemonConf) -> Daemon
    ensures { result ≡ new_daemon_of conf }
{
    Daemon {
        cap: conf.cap,
        tables: empty_daemon(alloc, conf.site, conf.first, conf.age),
        requests: Numbers::empty(alloc),
        next_request: 0,
        doubt: None,
    }
}

// Nothing was ever done.
fn new_history(alloc: Global) -> History
    ensures { result ≡ no_history }
{
    History {
        contents: Numbers::empty(alloc),
        taken: Numbers::empty(alloc),
        groups: Numbers::empty(alloc),
    }
}

// The groups by number.
fn new_sides(alloc: Global, groups: &[GroupConf]) -> Result<Numbers<Side>, NoMemory>
    ensures { IfOk result (λ t. t ≡ new_sides_of groups.now) }
{
    match groups {
        [] => Ok(Numbers::empty(alloc)),
        [conf, rest @ ..] => {
            let mut sides = new_sides(alloc, rest)?;
            sides.insert(u128::from(conf.group.0), new_side(alloc, conf)?)?;
            Ok(sides)
        }
    }
}

// A group on whose volumes nothing is known; nothing is open, and each file is faithful.
fn new_side(alloc: Global, conf: &GroupConf) -> Result<Side, NoMemory>
    ensures { IfOk result (λ s. s ≡ new_side_of conf.now) }
{
    let faithful = all_slots(alloc)?;
    let images = blank_images(alloc, conf.size, conf.volumes.as_slice())?;
    let group = new_group(alloc, conf)?;
    Ok(Side {
        group,
        images,
        faithful,
        copies: Numbers::empty(alloc),
        mounts: Numbers::empty(alloc),
    })
}

// A group that has no volume yet.
fn new_group(alloc: Global, conf: &GroupConf) -> Result<Group, NoMemory>
    ensures { IfOk result (λ g. g ≡ new_group_of conf.now) }
{
    Ok(Group {
        conf: conf_copied(alloc, conf)?,
        tables: empty_group(alloc, conf.group),
        tips: Texts::empty(alloc),
        reservations: Numbers::empty(alloc),
        next_reservation: 0,
        mounts: Numbers::empty(alloc),
        next_mount: 0,
        moves: Numbers::empty(alloc),
        next_move: 0,
        reuses: Numbers::empty(alloc),
        doubt: None,
    })
}

// An image for each of the volumes; none of its bytes is known.
fn blank_images(alloc: Global, size: u64, volumes: &[Vsn]) -> Result<Texts<Image>, NoMemory>
    ensures { IfOk result (λ t. t ≡ blank_images_of size volumes.now) }
{
    match volumes {
        [] => Ok(Texts::empty(alloc)),
        [vsn, rest @ ..] => {
            let mut images = blank_images(alloc, size, rest)?;
            let name = Bytes::from_vec(Vec::from_slice(alloc, &vsn.0)?);
            let image = Image {
                size,
                known: Numbers::empty(alloc),
            };
            images.insert(name, image)?;
            Ok(images)
        }
    }
}

// The slots of a group.
fn all_slots(alloc: Global) -> Result<Listed<u8>, NoMemory>
    ensures { IfOk result (λ l. l ≡ slots_below volumes_limit) }
{
    let mut slots = Vec::new(alloc);
    for slot in 0..VOLUMES_LIMIT {
        slots.push(slot as u8)?;
    }
    Ok(Listed::from_vec(slots))
}
