//! What a change of an inode does to the requests on it.

use dm_base::Ino;
use dm_model::OpenRequest;
use dm_rows::Edit;

// The inode was changed.
#[derive(Drop)]
pub(crate) struct IsChanged {
    pub(crate) ino: Ino,
    pub(crate) change: u64,
}

impl Edit<OpenRequest> for IsChanged {
    ghost use Rattle.dm_model.specs.DaemonShare.{with_change};

    ghost edited = { λ it. with_change it.ino.0 it.change };

    fn edit(&self, row: &mut OpenRequest) {
        if row.ino.0 == self.ino.0 {
            row.found = Some(self.change);
        }
    }
}
