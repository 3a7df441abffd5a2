//! Which calls of a bay over memory fail, and how that is counted.
ghost use Rattle.std.specs.Prelude.{◌≡◌, ◌⊎◌, ◌↔◌, ◌/◌, false, if◌then◌else◌, IsErr, IsOk, IsTrue, OnOk};
ghost use Rattle.dm_host.specs.Count.{HasCause};
ghost use Rattle.dm_host.specs.Faults.{is_blown, is_failing};

use crate::Failed;

fn blown(fuse: Option<u64>, number: u64) -> bool
    ensures { result ≡ is_blown fuse number }
{
    match fuse {
        Some(calls) => calls < number,
        None => false,
    }
}

// Whether the call of this number fails.
pub fn fails(numbers: &[u64], fuse: Option<u64>, number: u64) -> bool
    ensures { result ≡ is_failing numbers.now fuse number }
{
    numbers.contains(&number) || blown(fuse, number)
}

// Counts a fault where the call of this number is one that fails.
pub fn begin(number: u64, count: &mut u64, numbers: &[u64], fuse: Option<u64>) -> Result<(), Failed>
    ensures fails { IsErr result ↔ IsTrue (is_failing numbers.now fuse number) }
    ensures cause { HasCause count.old count.new result }
{
    if fails(numbers, fuse, number) {
        *count = count.saturating_add(1);
        return Err(Failed);
    }
    Ok(())
}

// How many bytes a write puts down.
pub fn front_of(failing: bool, len: usize) -> usize
    ensures { result ≡ (if failing then len / 2 else len) }
{
    if failing { len / 2 } else { len }
}

// The answer of a write, which counts a fault.
pub fn answer(failing: bool, put: Result<(), Failed>, count: &mut u64) -> Result<(), Failed>
    ensures put { OnOk result (IsOk put) }
    ensures failing { OnOk result (failing ≡ false) }
    ensures err { IsErr result ↔ (IsTrue failing ⊎ IsErr put) }
    ensures cause { HasCause count.old count.new result }
{
    if failing || put.is_err() {
        *count = count.saturating_add(1);
        return Err(Failed);
    }
    Ok(())
}
