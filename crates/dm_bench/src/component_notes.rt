//! What happens to a component beside its calls.

use crate::system::System;
use dm_model::Component;
use dm_spine::Note;

/// The worker's call found that the component's step in doubt had landed.
#[derive(Clone, Copy, Debug, PartialEq, Eq)]
pub struct LandedNote {
    pub worker: u32,
    pub component: Component,
}

impl Note<System> for LandedNote {
    ghost use Rattle.dm_bench.specs.Drawing.{landed_entry};

    ghost entry = { λ l. landed_entry l.worker l.component };
}

/// The worker copied the component's state, to be audited.
#[derive(Clone, Copy, Debug, PartialEq, Eq)]
pub struct LookNote {
    pub worker: u32,
    pub component: Component,
}

impl Note<System> for LookNote {
    ghost use Rattle.dm_bench.specs.Drawing.{look_entry};

    ghost entry = { λ l. look_entry l.worker l.component };
}
