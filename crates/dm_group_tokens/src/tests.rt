use super::*;
use dm_base::{Bfid, GroupError, Listed, NoMemory, Piece, Vsn};
use dm_model::{Mounted, Reserved};
use std::alloc::Global;
use std::test::Fail;

const ONE: Vsn = Vsn(*b"VOL001");

const TWO: Vsn = Vsn(*b"VOL002");

fn mount(mounts: &mut Tokens<Mounted>, alloc: Global, vsn: Vsn) -> Result<u64, NoMemory> {
    let Some(number) = mounts.fresh() else {
        return Err(NoMemory);
    };
    let row = Box::new(alloc, (u128::from(number), Mounted { vsn, epoch: 1 }))?;
    mounts.reserve(1)?;
    mounts.begin(row);
    Ok(number)
}

#[test]
fn a_volume_is_in_one_drive(rt: HostRuntime) -> Result<(), Fail> {
    let alloc = rt.alloc();
    let mut mounts = Tokens::empty(alloc);
    assert_eq!(rt; mount(&mut mounts, alloc, ONE)?, 0);
    assert!(rt; mounts.is_mounted(ONE) && !mounts.is_mounted(TWO));
    assert_eq!(rt; free_drives(&mounts, 2), 1);
    assert!(rt; mount_refusal(&mounts, 2, 0, TWO).is_none());
    // The volume is mounted; and for two at a time one drive is too few.
    let mounted = mount_refusal(&mounts, 2, 0, ONE);
    assert!(rt;
        mounted
            == Some(GroupError::NotYet {
                mounted: true,
                free: 1
            })
    );
    let both = mount_refusal(&mounts, 2, 1, TWO);
    assert!(rt;
        both == Some(GroupError::NotYet {
            mounted: false,
            free: 1
        })
    );
    let _over = mounts.end(0);
    assert!(rt; mounts.get(0).is_none() && mounts.len() == 0);
    // The number of a mount that is over never comes again.
    assert_eq!(rt; mount(&mut mounts, alloc, TWO)?, 1);
    Ok(())
}

fn reserve(reservations: &mut Tokens<Reserved>, alloc: Global, vsn: Vsn) -> Result<(), NoMemory> {
    let piece = Piece {
        vsn,
        zone: 64,
        offset: 0,
        len: 100,
        version: 1,
    };
    let pieces = Listed::from_vec(Vec::from_slice(alloc, &[piece])?);
    let reserved = Reserved {
        bfid: Bfid(7),
        len: 100,
        chunk: 100,
        pieces,
    };
    let row = Box::new(alloc, (0, reserved))?;
    reservations.reserve(1)?;
    reservations.begin(row);
    Ok(())
}

#[test]
fn a_volume_with_a_piece_is_reserved(rt: HostRuntime) -> Result<(), Fail> {
    let alloc = rt.alloc();
    let mut reservations = Tokens::empty(alloc);
    reserve(&mut reservations, alloc, ONE)?;
    assert!(rt; reservations.is_reserved(ONE) && !reservations.is_reserved(TWO));
    let _over = reservations.end(0);
    assert!(rt; !reservations.is_reserved(ONE));
    Ok(())
}
