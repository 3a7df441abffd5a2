//! What a step does to the open requests.

ghost use Rattle.std.specs.Prelude.{◌≡◌};
ghost use Rattle.dm_daemon.specs.Changed.{noted};

use dm_base::Ino;
use dm_requests::Requests;

// The requests on an inode that a step changed keep the number of the change, if the step landed.
pub(crate) fn note(requests: &mut Requests, landed: bool, ino: Option<Ino>, change: u64)
    ensures rows { requests.new.rows.rows ≡ noted landed change ino requests.old.rows.rows }
    ensures next { requests.new.next ≡ requests.old.next }
{
    if landed {
        requests.change_found(ino, change);
    }
}
