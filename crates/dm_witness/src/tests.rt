//! A witness of a number that was given.
ghost use Rattle.std.specs.Prelude.{◌≡◌, IfOk};
ghost use Rattle.dm_witness.specs.Chosen.{value_of};

use crate::Witness;
use dm_base::NoMemory;
use std::alloc::Global;
use std::marker::Brand;
use std::test::Fail;

fn of_number(alloc: Global, number: &u64) -> Result<Witness<u64>, NoMemory>
    ensures { IfOk result (λ w. value_of w ≡ number.now) }
{
    Witness::<u64>::choose::<u64, Brand>(alloc, number)
}

#[test]
fn a_witness_is_made_of_a_number(rt: HostRuntime) -> Result<(), Fail> {
    let made = of_number(rt.alloc(), &7).is_ok();
    assert!(rt; made);
    Ok(())
}
