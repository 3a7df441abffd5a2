//! What no clause says: that the calls succeed while nothing fails.
ghost use Rattle.std.specs.Prelude.{IfOk, IfSome};
ghost use Rattle.dm_daemon.specs.State.{Stands};
ghost use Rattle.dm_host.specs.MemoryBay.{disk_of};

use super::*;
use dm_base::{LoadError, Secs};
use dm_ckpt::Store;
use dm_daemon_tables::Tables;
use dm_host::{Bay, MemBay};
use std::alloc::Global;
use std::test::Fail;

// The daemon of empty tables over a bay whose files have no payload; `None` where they have one.
fn opened<B: Bay>(alloc: Global, bay: &mut B) -> Result<Option<Daemon>, LoadError>
    ensures { IfOk result (λ found. IfSome found (λ d. Stands (B.disk bay.new) d)) }
{
    let mut loading = Store::open(alloc, bay, 0)?;
    match loading.next(bay)? {
        None => match Daemon::of(alloc, 10, Tables::empty(alloc, 1, 1, 100), loading.ready()) {
            Ok(daemon) => Ok(Some(daemon)),
            Err(_) => Err(LoadError::NoMemory),
        },
        Some(_) => Ok(None),
    }
}

// An age is set, and in force.
fn age_is_set(bay: &mut MemBay, daemon: &mut Daemon) -> bool
    requires { Stands (disk_of bay.old) daemon.old }
{
    let result = daemon.set_age(bay, 7, Secs(9));
    let tables = daemon.tables();
    result == Ok(()) && tables.age() == 7 && tables.time() == Secs(9) && !daemon.landed()
}

// The same over an empty bay.
fn age_is_set_at_first(alloc: Global) -> bool {
    let mut bay = MemBay::empty(alloc);
    match opened(alloc, &mut bay) {
        Ok(Some(mut daemon)) => age_is_set(&mut bay, &mut daemon),
        _ => false,
    }
}

#[test]
fn an_age_is_set(rt: HostRuntime) -> Result<(), Fail> {
    assert!(rt; age_is_set_at_first(rt.alloc()));
    Ok(())
}
