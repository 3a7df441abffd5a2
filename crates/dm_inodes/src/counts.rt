//! How many inodes name each bitfile.

ghost use Rattle.std.specs.Prelude.{◌≡◌, option_map};
ghost use Rattle.dm_inodes.specs.Counts.{let_go_by, with_one_fewer, with_one_more};

use dm_base::Bfid;
use dm_rows::{Edit, NumberRows};

// One more.
struct OneMore;

impl Edit<u64> for OneMore {
    ghost use Rattle.dm_inodes.specs.Counts.{raised};

    ghost edited = { λ _. raised };

    fn edit(&self, row: &mut u64) {
        *row = row.saturating_add(1);
    }
}

// One fewer.
struct OneFewer;

impl Edit<u64> for OneFewer {
    ghost use Rattle.dm_inodes.specs.Counts.{lowered};

    ghost edited = { λ _. lowered };

    fn edit(&self, row: &mut u64) {
        *row = row.saturating_sub(1);
    }
}

// One inode more names the bitfile, if there is one.
pub(crate) fn raise(counts: &mut NumberRows<u64>, named: Option<Bfid>)
    ensures rows { counts.new.rows ≡ with_one_more counts.old.rows (option_map (λ b. b.0) named) }
    ensures spare { counts.new.spare ≡ counts.old.spare }
{
    let Some(bfid) = named else { return };
    let _there = counts.change(bfid.0, &OneMore);
}

// One fewer does.
pub(crate) fn lower(counts: &mut NumberRows<u64>, named: Option<Bfid>)
    ensures rows { counts.new.rows ≡ with_one_fewer counts.old.rows (option_map (λ b. b.0) named) }
    ensures spare { counts.new.spare ≡ counts.old.spare }
{
    let Some(bfid) = named else { return };
    let _there = counts.change(bfid.0, &OneFewer);
}
