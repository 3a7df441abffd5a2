//! The table of open requests.

ghost use Rattle.std.specs.Prelude.{◌≡◌, ◌<◌, ◌≤◌, ◌+◌, ◌^◌, OnOk, IfSome};
ghost use Rattle.std.specs.FinMap as map;
ghost use Rattle.dm_tables.specs.Rows.{any as any_row};
ghost use Rattle.dm_model.specs.DaemonShare.{with_change_on};
ghost use Rattle.dm_model.specs.Files.{has_open_put as has_open_put_of, has_open_recall as has_open_recall_of, has_open_request as has_open_request_of};

use crate::edits::IsChanged;
use crate::tests_of_rows::{IsOf, IsPutOf, IsRecallOn};
use dm_base::{Bfid, Ino, NoMemory};
use dm_model::OpenRequest;
use dm_rows::NumberRows;
use dm_tables::Test;
use std::alloc::Global;

/// The open requests by number, and the number of the next.
#[derive(Drop)]
pub struct Requests {
    rows: NumberRows<OpenRequest>,
    next: u128,
}

impl Requests {
    /// No request. It takes no memory.
    pub fn empty(alloc: Global) -> Requests
        ensures rows { result.rows.rows ≡ map.empty }
        ensures next { result.next ≡ 0 }
    {
        Requests {
            rows: NumberRows::empty(alloc),
            next: 0,
        }
    }

    /// How many are open.
    pub fn len(&self) -> usize
        ensures { result ≡ map.len self.now.rows.rows }
    {
        self.rows.len()
    }

    /// The request with this number, or none.
    pub fn get(&self, number: u64) -> Option<OpenRequest>
        ensures { result ≡ map.get self.now.rows.rows number }
    {
        self.rows.get(u128::from(number)).copied()
    }

    /// Keeps a place for one request more.
    pub fn reserve(&mut self) -> Result<(), NoMemory>
        ensures rows { self.new.rows.rows ≡ self.old.rows.rows }
        ensures next { self.new.next ≡ self.old.next }
        ensures room { OnOk result (0 < self.new.rows.spare) }
    {
        self.rows.reserve(1)
    }

    /// The number of the next request; none where the numbers of 64 bits are used up, which no run comes to see.
    pub fn fresh(&self) -> Option<u64>
        ensures { IfSome result (λ number. number ≡ self.now.next) }
    {
        match u64::try_from(self.next) {
            Ok(number) => Some(number),
            Err(_) => None,
        }
    }

    /// The request of the row begins, with the number of the row, in a place that is kept. It takes no memory.
    pub fn begin(&mut self, row: Box<(u128, OpenRequest)>)
        requires place { 0 < self.old.rows.spare }
        requires small { row.value.0 < 2 ^ 64 }
        ensures rows { self.new.rows.rows ≡ map.insert self.old.rows.rows row.value.0 row.value.1 }
        ensures next { self.new.next ≡ row.value.0 + 1 }
    {
        self.next = row.0 + 1;
        self.rows.insert_reserved(row);
    }

    /// The request is over. It takes no memory.
    pub fn end(&mut self, number: u64)
        ensures rows { self.new.rows.rows ≡ map.remove self.old.rows.rows number }
        ensures next { self.new.next ≡ self.old.next }
    {
        let _row = self.rows.take(u128::from(number));
    }

    /// The inode was changed, or removed, if there is one: each request on it keeps the number of the change. It takes no
    /// memory.
    pub fn change_found(&mut self, ino: Option<Ino>, change: u64)
        ensures rows { self.new.rows.rows ≡ with_change_on self.old.rows.rows change ino }
        ensures next { self.new.next ≡ self.old.next }
    {
        let Some(ino) = ino else { return };
        self.rows.change_all(&IsChanged { ino, change });
    }

    /// Whether a put of the bitfile is open.
    pub fn has_open_put(&self, bfid: Bfid) -> bool
        ensures { result ≡ has_open_put_of self.now.rows.rows bfid.0 }
    {
        any(&self.rows, &IsPutOf { bfid })
    }

    /// Whether a recall of the inode is open.
    pub fn has_open_recall(&self, ino: Ino) -> bool
        ensures { result ≡ has_open_recall_of self.now.rows.rows ino.0 }
    {
        any(&self.rows, &IsRecallOn { ino })
    }

    /// Whether a request of either kind is open on the bitfile.
    pub fn has_open_request(&self, bfid: Bfid) -> bool
        ensures { result ≡ has_open_request_of self.now.rows.rows bfid.0 }
    {
        any(&self.rows, &IsOf { bfid })
    }
}

// Whether some request passes.
fn any<T: Test<OpenRequest>>(rows: &NumberRows<OpenRequest>, test: &T) -> bool
    ensures { result ≡ any_row (λ _. T.passes test.now) rows.now.rows }
{
    for at in 0..rows.len() {
        let Some((_, row)) = rows.entry(at) else {
            return false;
        };
        if test.test(row) {
            return true;
        }
    }
    false
}
