//! Two workers look at the daemon and at a group, each by a pass of its own. Then the passes are joined, and the first looks at what the
//! second had looked at.
ghost use Rattle.std.specs.Prelude.{◌≡◌, ◌<◌, ℕ, [], ◌∷◌, IfOk};
ghost use Rattle.dm_bench.specs.Drawing.{Enters, look_entry};
ghost use Rattle.dm_bench.specs.Looks.{HasLooked, IsConfigured};
ghost use Rattle.dm_bench.specs.Systems.{loaded_by, machine};
ghost use Rattle.dm_history.specs.History.{run_of, state_seen};
ghost use Rattle.dm_model.specs.Begin.{empty_joint};
ghost use Rattle.dm_model.specs.Names as words;
ghost use Rattle.dm_model.specs.Step.{Run};
ghost use Rattle.dm_model.specs.declared.call.Component.TheVariants as component;
ghost use Rattle.dm_model.specs.declared.entry.Name.TheVariants as name;
ghost use Rattle.dm_model.specs.declared.entry.Part.TheVariants as part;
ghost use Rattle.dm_model.specs.declared.state.Joint.{Joint};
ghost use Rattle.dm_openings.specs.Openings.{IsOpening};
ghost use Rattle.dm_spine.specs.Passes.{IsBeside, kept_by, parts_of, past_of, seen_by, view_of};
ghost use Rattle.dm_spine.specs.Past.{In, at_home};
ghost use Rattle.dm_spine.specs.Rule.{IsSound};

use crate::{LookNote, System, draw_entry};
use dm_base::{DaemonConf, GroupConf, GroupId, Listed, NoMemory};
use dm_model::{Component, Joint, Name, Part};
use dm_spine::{Pass, Past, Spine};
use dm_witness::Witness;
use std::alloc::Global;
use std::marker::Brand;
use std::test::Fail;

/// A daemon, and one group that has no volume.
#[derive(Drop)]
struct Site<'a> {
    daemon: &'a DaemonConf,
    group: &'a GroupConf,
}

// What a history begins with where the tables are empty.
fn empty_system(alloc: Global, daemon: &DaemonConf, group: &GroupConf) -> Result<System, NoMemory>
    requires { group.now.volumes ≡ [] }
    ensures loaded { IfOk result (λ s. (loaded_by s).state ≡ empty_joint daemon.now (group.now ∷ [])) }
    ensures workers { IfOk result (λ s. (loaded_by s).workers ≡ 2) }
{
    let site = Site { daemon, group };
    let loaded = Witness::<Joint>::choose::<Site, Brand>(alloc, &site)?;
    Ok(System::of(loaded, 2))
}

// The first pass keeps the daemon and a worker, the second keeps the group and another.
fn begin_both(
    alloc: Global,
    system: System,
    group: GroupId,
) -> Result<(Pass<System>, Pass<System>), dm_spine::NoMemory>
    requires workers { (loaded_by system).workers ≡ 2 }
    requires configured { IsConfigured (loaded_by system).state (component.Group group) }
    ensures beside { IfOk result (λ r. IsBeside r.0 r.1) }
    ensures parts { IfOk result (λ r. (parts_of r.0 ≡ system) × (parts_of r.1 ≡ system)) }
    ensures seen { IfOk result (λ r. (seen_by r.0 ≡ []) × (seen_by r.1 ≡ [])) }
    ensures first { IfOk result (λ r. In name.Daemon (kept_by r.0) × In (name.Worker 0) (kept_by r.0)) }
    ensures second { IfOk result (λ r. In (name.Side group part.Itself) (kept_by r.1) × In (name.Worker 1) (kept_by r.1)) }
    ensures sound { IfOk result (λ r. IsSound machine system (view_of r.0) × IsSound machine system (view_of r.1)) }
{
    let (_spine, mut first) = Spine::begin(alloc, system)?;
    let mut names = Vec::with_capacity(alloc, 2)?;
    names.push_reserved(Name::Side {
        group,
        part: Part::Itself,
    });
    names.push_reserved(Name::Worker { worker: 1 });
    let second = first.split(alloc, names)?;
    Ok((first, second))
}

// The worker looks at the component, which has so many entries.
fn look(pass: &mut Pass<System>, entries: u64, worker: u32, component: Component) -> u64
    requires sound { IsSound machine (parts_of pass.old) (view_of pass.old) }
    requires keeps { In (words.component_name component) (kept_by pass.old) × In (name.Worker worker) (kept_by pass.old) }
    requires configured { IsConfigured (loaded_by (parts_of pass.old)).state component }
    requires counted { entries ≡ at_home machine (words.component_name component) (seen_by pass.old) }
    requires room { entries < 281474976710656 }
    ensures spine { IsBeside pass.old pass.new }
    ensures enters { Enters (parts_of pass.old) (look_entry worker component) (view_of pass.old) (view_of pass.new) }
    ensures counted { result ≡ at_home machine (words.component_name component) (seen_by pass.new) }
{
    draw_entry(pass, entries, &LookNote { worker, component })
}

// Each pass looks at what it keeps, and the union of what they have seen looks at the group again.
fn look_all(first: Pass<System>, second: Pass<System>, group: GroupId) -> Past<System>
    requires beside { IsBeside first second }
    requires configured { IsConfigured (loaded_by (parts_of first)).state (component.Group group) }
    requires seen { (seen_by first ≡ []) × (seen_by second ≡ []) }
    requires first { In name.Daemon (kept_by first) × In (name.Worker 0) (kept_by first) }
    requires second { In (name.Side group part.Itself) (kept_by second) × In (name.Worker 1) (kept_by second) }
    requires sound { IsSound machine (parts_of first) (view_of first) × IsSound machine (parts_of second) (view_of second) }
    ensures run { (j : Joint) → IsOpening (loaded_by (parts_of first)).state j → Run j (run_of (past_of result)) (state_seen j (past_of result)) }
    ensures daemon { HasLooked 0 component.Daemon (past_of result) }
    ensures group { HasLooked 1 (component.Group group) (past_of result) }
    ensures again { HasLooked 0 (component.Group group) (past_of result) }
{
    let mut first = first;
    let mut second = second;
    look(&mut first, 0, 0, Component::Daemon);
    let entries = look(&mut second, 0, 1, Component::Group { group });
    first.join(second);
    look(&mut first, entries, 0, Component::Group { group });
    first.finish()
}

fn look_at_nothing(
    alloc: Global,
    daemon: &DaemonConf,
    group: &GroupConf,
) -> Result<(), dm_spine::NoMemory>
    requires { group.now.volumes ≡ [] }
{
    let system = match empty_system(alloc, daemon, group) {
        Ok(system) => system,
        Err(_) => return Err(dm_spine::NoMemory),
    };
    let (first, second) = begin_both(alloc, system, group.group)?;
    let _past = look_all(first, second, group.group);
    Ok(())
}

#[test]
fn two_passes_look_and_their_union_looks(rt: HostRuntime) -> Result<(), Fail> {
    let daemon = DaemonConf {
        site: 1,
        first: 1,
        age: 0,
        cap: 1_000_000,
    };
    let group = GroupConf {
        group: GroupId(1),
        drives: 2,
        chunk: 1024,
        sparse: 50,
        hold: 0,
        volumes: Listed::from_vec(Vec::new(rt.alloc())),
        size: 65_536,
        format: 1,
    };
    let looked = look_at_nothing(rt.alloc(), &daemon, &group).is_ok();
    assert!(rt; looked);
    Ok(())
}
