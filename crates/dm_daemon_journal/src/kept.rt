//! Tables, journal, and the step in doubt.

use dm_ckpt::Store;
use dm_daemon_tables::{Prepared, Tables};

/// The daemon's tables, their journal, and the step that is in doubt, if one is.
#[derive(Drop)]
pub struct Journalled {
    pub(crate) tables: Tables,
    pub(crate) store: Store,
    pub(crate) pending: Option<Prepared>,
}
