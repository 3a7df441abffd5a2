use super::*;
use std::test::Fail;

#[test]
fn two_workers_add(rt: HostRuntime) -> Result<(), Fail> {
    let (_past, total) = run_both(&rt, rt.alloc(), &[1, 2, 3], &[10, 20])?;
    assert_eq!(rt; total, 36);
    Ok(())
}
