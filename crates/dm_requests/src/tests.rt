use super::*;
use dm_base::{Bfid, Ino, NoMemory};
use dm_model::{OpenRequest, RequestKind};
use std::alloc::Global;
use std::test::Fail;

// A request of that number begins.
fn begin(
    requests: &mut Requests,
    alloc: Global,
    ino: u64,
    kind: RequestKind,
) -> Result<u64, NoMemory> {
    let Some(number) = requests.fresh() else {
        return Err(NoMemory);
    };
    let row = Box::new(
        alloc,
        (
            u128::from(number),
            OpenRequest {
                ino: Ino(ino),
                bfid: Bfid(u128::from(ino) + 100),
                was: 7,
                found: None,
                kind,
            },
        ),
    )?;
    requests.reserve()?;
    requests.begin(row);
    Ok(number)
}

#[test]
fn a_change_is_found_by_the_requests_on_its_inode(rt: HostRuntime) -> Result<(), Fail> {
    let alloc = rt.alloc();
    let mut requests = Requests::empty(alloc);
    assert_eq!(rt; begin(&mut requests, alloc, 1, RequestKind::Put)?, 0);
    assert_eq!(rt; begin(&mut requests, alloc, 2, RequestKind::Recall)?, 1);
    assert!(rt; requests.has_open_put(Bfid(101)) && !requests.has_open_put(Bfid(102)));
    assert!(rt; requests.has_open_recall(Ino(2)) && !requests.has_open_recall(Ino(1)));
    assert!(rt; requests.has_open_request(Bfid(102)) && !requests.has_open_request(Bfid(103)));
    requests.change_found(Some(Ino(2)), 8);
    requests.change_found(Some(Ino(2)), 9);
    requests.change_found(None, 10);
    assert!(rt;
        requests
            .get(0)
            .is_some_and(|request| request.found.is_none())
    );
    assert!(rt;
        requests
            .get(1)
            .is_some_and(|request| request.found == Some(9))
    );
    requests.end(0);
    assert!(rt; requests.get(0).is_none() && requests.len() == 1);
    // The number of a request that is over never comes again.
    requests.end(1);
    assert_eq!(rt; begin(&mut requests, alloc, 3, RequestKind::Put)?, 2);
    Ok(())
}
