//! What the product's history begins with.
ghost use Rattle.std.specs.Prelude.{◌≤◌, length};
ghost use Rattle.dm_model.specs.Names.{fixed_names};
ghost use Rattle.dm_witness.specs.Chosen.{value_of};

use dm_model::{HistoryEntry, Joint, Name};
use dm_spine::Parts;
use dm_witness::Witness;

/// The product's parts: what was loaded, of which no value is made, and how many workers there are. Its names are the daemon, the groups
/// and their volumes, the workers, the copies of open puts, and the open mounts; its entries are the machine's events
/// (docs/DEFINITIONS.md, "How a history begins").
#[derive(Drop)]
pub struct System {
    loaded: Witness<Joint>,
    workers: u32,
    ghost few: { length (fixed_names (value_of loaded) workers) ≤ 32768 },
}

impl System {
    ghost use Rattle.std.specs.Prelude.{◌≡◌, ◌≤◌, length};
    ghost use Rattle.dm_bench.specs.Systems.{loaded_by};
    ghost use Rattle.dm_model.specs.Names.{fixed_names};
    ghost use Rattle.dm_witness.specs.Chosen.{value_of};

    /// The parts of a history that begins in what was loaded, with so many workers. Of names that are there from the beginning a
    /// spine has room for 32,768.
    pub fn of(loaded: Witness<Joint>, workers: u32) -> System
        requires { length (fixed_names (value_of loaded) workers) ≤ 32768 }
        ensures loaded { (loaded_by result).state ≡ value_of loaded }
        ensures workers { (loaded_by result).workers ≡ workers }
    {
        System { loaded, workers }
    }
}

impl Parts for System {
    ghost use Rattle.dm_bench.specs.Systems.{machine, machine_lawful};

    type Name = Name;

    type Entry = HistoryEntry;

    ghost meaning = { machine };

    ghost lawful = { machine_lawful };
}
