//! Questions that are asked of each request.

use dm_base::{Bfid, Ino};
use dm_model::{OpenRequest, RequestKind};
use dm_tables::Test;

// It is a put of the bitfile.
#[derive(Drop)]
pub(crate) struct IsPutOf {
    pub(crate) bfid: Bfid,
}

impl Test<OpenRequest> for IsPutOf {
    ghost use Rattle.dm_model.specs.Files.{is_put_of};

    ghost passes = { λ it. is_put_of it.bfid.0 };

    fn test(&self, row: &OpenRequest) -> bool {
        match row.kind {
            RequestKind::Put => row.bfid.0 == self.bfid.0,
            RequestKind::Recall => false,
        }
    }
}

// It is a recall of the inode.
#[derive(Drop)]
pub(crate) struct IsRecallOn {
    pub(crate) ino: Ino,
}

impl Test<OpenRequest> for IsRecallOn {
    ghost use Rattle.dm_model.specs.Files.{is_recall_on};

    ghost passes = { λ it. is_recall_on it.ino.0 };

    fn test(&self, row: &OpenRequest) -> bool {
        match row.kind {
            RequestKind::Put => false,
            RequestKind::Recall => row.ino.0 == self.ino.0,
        }
    }
}

// It is of the bitfile.
#[derive(Drop)]
pub(crate) struct IsOf {
    pub(crate) bfid: Bfid,
}

impl Test<OpenRequest> for IsOf {
    ghost use Rattle.std.specs.Prelude.{nat_eq};

    ghost passes = { λ it. λ r. nat_eq r.bfid.0 it.bfid.0 };

    fn test(&self, row: &OpenRequest) -> bool {
        row.bfid.0 == self.bfid.0
    }
}
