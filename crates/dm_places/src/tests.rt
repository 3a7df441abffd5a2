use super::*;
use dm_base::{Bfid, NoMemory};
use std::alloc::Global;
use std::test::Fail;

struct Of(u128);

impl Test for Of {
    ghost use Rattle.std.specs.Prelude.{nat_eq};

    ghost passes = { λ it spot. nat_eq spot.bfid.0 it.0 };

    fn test(&self, spot: &Spot) -> bool {
        spot.bfid.0 == self.0
    }
}

fn spot(place: u64, bfid: u128, offset: u64) -> Spot {
    Spot {
        place,
        bfid: Bfid(bfid),
        offset,
    }
}

fn put(spots: &mut Spots, spot: Spot) -> Result<(), NoMemory> {
    spots.reserve(1)?;
    spots.push(spot);
    Ok(())
}

// Seven spots in another order than theirs, one of them twice.
fn seven(alloc: Global) -> Result<Spots, NoMemory> {
    let mut spots = Spots::empty(alloc);
    put(&mut spots, spot(292, 7, 0))?;
    put(&mut spots, spot(1000, 5, 0))?;
    put(&mut spots, spot(292, 5, 200))?;
    put(&mut spots, spot(144, 9, 900))?;
    put(&mut spots, spot(292, 5, 100))?;
    put(&mut spots, spot(2000, 1, 0))?;
    put(&mut spots, spot(292, 7, 0))?;
    Ok(spots)
}

// Whether these are the spots, from the first on. They are gone then.
fn are(spots: &mut Spots, all: &[Spot]) -> bool {
    for one in all {
        if spots.first() != Some(*one) {
            return false;
        }
        spots.drop_first();
    }
    spots.first().is_none()
}

#[test]
fn spots_come_by_place_then_bitfile_then_offset(rt: HostRuntime) -> Result<(), Fail> {
    let mut spots = seven(rt.alloc())?;
    let all = [
        spot(144, 9, 900),
        spot(292, 5, 100),
        spot(292, 5, 200),
        spot(292, 7, 0),
        spot(292, 7, 0),
        spot(1000, 5, 0),
        spot(2000, 1, 0),
    ];
    let many = spots.len();
    let in_order = are(&mut spots, &all);
    assert_eq!(rt; many, 7);
    assert!(rt; in_order);
    Ok(())
}

#[test]
fn spots_that_pass_stay(rt: HostRuntime) -> Result<(), Fail> {
    let mut spots = seven(rt.alloc())?;
    spots.retain(&Of(5));
    let all = [spot(292, 5, 100), spot(292, 5, 200), spot(1000, 5, 0)];
    let in_order = are(&mut spots, &all);
    assert!(rt; in_order);
    Ok(())
}

// A place serves again once its spot is gone.
fn serves_again(spots: &mut Spots) -> Result<bool, NoMemory> {
    spots.reserve(1)?;
    spots.push(spot(50, 1, 0));
    spots.drop_first();
    spots.push(spot(60, 1, 0));
    spots.clear();
    spots.push(spot(70, 1, 0));
    Ok(are(spots, &[spot(70, 1, 0)]))
}

#[test]
fn places_serve_again(rt: HostRuntime) -> Result<(), Fail> {
    let mut spots = Spots::empty(rt.alloc());
    let serves = serves_again(&mut spots)?;
    assert!(rt; serves);
    Ok(())
}
