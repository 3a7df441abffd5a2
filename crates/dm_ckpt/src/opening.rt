//! How a load begins: the four files are synced, both areas are looked at, and one index is chosen.
//!
//! Both areas are looked at whole before anything is read of a log, so that what is damaged is told before memory is
//! asked for, and whichever of the two is in use.
ghost use Rattle.std.specs.Prelude.{◌≡◌, ◌+◌, ◌<◌, ◌≤◌, ◌^◌, ℕ, List, IfOk, OnOk, true, ⊤};
ghost use Rattle.dm_host.specs.Count.{HasCause};
ghost use Rattle.dm_host.specs.Disk.{Only, Tells};
ghost use Rattle.dm_host.specs.Works.{Works};
ghost use Rattle.dm_ckpt.specs.declared.files.Index.TheVariants.{First, Second};
ghost use Rattle.dm_ckpt.specs.Files.{area_file, Mine, TellsMine, Unchanged};
ghost use Rattle.dm_ckpt.specs.Load.{Retells};
ghost use Rattle.dm_ckpt.specs.Opening.{Chooses, size_chosen, AreasSynced, Starts, IsSound, Means, IsInRange, LogRead};
ghost use Rattle.dm_ckpt.specs.Survey.{Surveys, size_found};
ghost use Rattle.dm_ckpt.specs.declared.survey.Found.TheVariants.{Open};

use crate::files::{Index, area_number, log_number};
use crate::survey::{Area, Found, survey};
use dm_host::{Bay, Failed};
use dm_journal::steps::open;

/// The index that a load reads, and what its area's header says: generation and length of the body, or 0 and 0 where
/// there is no area.
#[derive(Clone, Copy)]
pub struct Origin {
    pub index: Index,
    pub has_area: bool,
    pub generation: u64,
    pub size: u64,
}

/// What both areas come to.
#[derive(Clone, Copy)]
pub enum Choice {
    /// The area of this index is to be named as damaged.
    Broken(Index),
    Used(Origin),
}

/// Where a load begins.
#[derive(Clone, Copy)]
pub enum Start {
    /// The area of this index is damaged.
    Refused(Index),
    /// The length of the log comes with it.
    Begun { origin: Origin, end: u64 },
}

fn origin_of(index: Index, area: Area) -> Origin
    ensures { result ≡ record { index = index; has_area = true; generation = area.generation; size = area.size } }
{
    Origin {
        index,
        has_area: true,
        generation: area.generation,
        size: area.size,
    }
}

// Which of two open areas is in use: that of the greater generation.
fn choose_open(first: Area, second: Area) -> Choice
    ensures chosen { (x y : List ℕ) → Surveys (Open first) x → Surveys (Open second) y → Chooses result x y }
    ensures range { 17 + first.size ≤ 2 ^ 62 → 17 + second.size ≤ 2 ^ 62 → 17 + size_chosen result ≤ 2 ^ 62 }
{
    if first.generation == second.generation {
        return Choice::Broken(Index::First);
    }
    if first.generation > second.generation {
        return Choice::Used(origin_of(Index::First, first));
    }
    Choice::Used(origin_of(Index::Second, second))
}

// Which area is in use. Where both are damaged the first is named.
fn choose(first: Found, second: Found) -> Choice
    ensures chosen { (x y : List ℕ) → Surveys first x → Surveys second y → Chooses result x y }
    ensures range { 17 + size_found first ≤ 2 ^ 62 → 17 + size_found second ≤ 2 ^ 62 → 17 + size_chosen result ≤ 2 ^ 62 }
{
    match (first, second) {
        (Found::Wrong, _) => Choice::Broken(Index::First),
        (Found::Shut, Found::Wrong) => Choice::Broken(Index::Second),
        (Found::Open(_), Found::Wrong) => Choice::Broken(Index::Second),
        (Found::Shut, Found::Shut) => Choice::Used(Origin {
            index: Index::First,
            has_area: false,
            generation: 0,
            size: 0,
        }),
        (Found::Open(area), Found::Shut) => Choice::Used(origin_of(Index::First, area)),
        (Found::Shut, Found::Open(area)) => Choice::Used(origin_of(Index::Second, area)),
        (Found::Open(one), Found::Open(other)) => choose_open(one, other),
    }
}

// Syncs the area and the log of an index.
fn sync_index<B: Bay>(bay: &mut B, component: u8, index: Index) -> Result<(), Failed>
    requires { component < 5 }
    ensures unchanged { Unchanged component (B.disk bay.old) (B.disk bay.new) }
    ensures area { Tells (B.disk bay.old) (area_file component index)
        → OnOk result (Only ((B.disk bay.new).seen (area_file component index)) ((B.disk bay.new).may_leave (area_file component index))) }
    ensures cause { HasCause (B.count bay.old) (B.count bay.new) result }
{
    bay.sync(area_number(component, index))?;
    bay.sync(log_number(component, index))
}

// Syncs the four files.
fn sync_all<B: Bay>(bay: &mut B, component: u8) -> Result<(), Failed>
    requires { component < 5 }
    ensures unchanged { Unchanged component (B.disk bay.old) (B.disk bay.new) }
    ensures synced { TellsMine (B.disk bay.old) component → OnOk result (AreasSynced (B.disk bay.new) component) }
    ensures cause { HasCause (B.count bay.old) (B.count bay.new) result }
{
    sync_index(bay, component, Index::First)?;
    sync_index(bay, component, Index::Second)
}

// Looks at both areas.
fn survey_both<B: Bay>(bay: &mut B, component: u8) -> Result<Choice, Failed>
    requires { component < 5 }
    ensures chosen { TellsMine (B.disk bay.old) component
        → IfOk result (λ choice. Chooses choice ((B.disk bay.old).seen (area_file component First)) ((B.disk bay.old).seen (area_file component Second))) }
    ensures range { IfOk result (λ choice. 17 + size_chosen choice ≤ 2 ^ 62) }
    ensures unchanged { Unchanged component (B.disk bay.old) (B.disk bay.new) }
    ensures cause { HasCause (B.count bay.old) (B.count bay.new) result }
{
    let first = survey(bay, area_number(component, Index::First))?;
    let second = survey(bay, area_number(component, Index::Second))?;
    Ok(choose(first, second))
}

// Syncs the four files, and looks at both areas.
fn prepare<B: Bay>(bay: &mut B, component: u8) -> Result<Choice, Failed>
    requires { component < 5 }
    ensures chosen { TellsMine (B.disk bay.old) component
        → IfOk result (λ choice. Chooses choice ((B.disk bay.old).seen (area_file component First)) ((B.disk bay.old).seen (area_file component Second))) }
    ensures synced { TellsMine (B.disk bay.old) component → OnOk result (AreasSynced (B.disk bay.new) component) }
    ensures range { IfOk result (λ choice. 17 + size_chosen choice ≤ 2 ^ 62) }
    ensures unchanged { Unchanged component (B.disk bay.old) (B.disk bay.new) }
    ensures cause { HasCause (B.count bay.old) (B.count bay.new) result }
{
    sync_all(bay, component)?;
    survey_both(bay, component)
}

/// Syncs the four files, looks at both areas, and opens the log of the index in use. A log of at most a byte gets a
/// closed gate.
pub fn begin<B: Bay>(bay: &mut B, component: u8) -> Result<Start, Failed>
    requires { component < 5 }
    ensures starts { TellsMine (B.disk bay.old) component → IfOk result (λ s. Starts (B.disk bay.new) component s (B.disk bay.old).seen) }
    ensures sound { TellsMine (B.disk bay.old) component → IfOk result (λ s. IsSound component s (B.disk bay.old).seen) }
    ensures means { TellsMine (B.disk bay.old) component → OnOk result (Means component (B.disk bay.old).seen (B.disk bay.new).seen) }
    ensures any_moment { TellsMine (B.disk bay.old) component → Works (Mine component) (B.disk bay.old) (B.disk bay.new) (Retells component (B.disk bay.old)) }
    ensures others { Works (Mine component) (B.disk bay.old) (B.disk bay.new) (λ x. ⊤) }
    ensures range { IfOk result (λ s. IsInRange s) }
    ensures stands { IfOk result (λ s. LogRead (B.disk bay.new) component s) }
    ensures cause { HasCause (B.count bay.old) (B.count bay.new) result }
{
    match prepare(bay, component)? {
        Choice::Broken(index) => Ok(Start::Refused(index)),
        Choice::Used(origin) => {
            let end = open(bay, log_number(component, origin.index))?;
            Ok(Start::Begun { origin, end })
        }
    }
}
