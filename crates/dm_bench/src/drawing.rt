//! The entries of one call are drawn.
//!
//! A component's entries are counted beside it, since a home has room for 2 to the 48th. A call draws two at most: that a step in doubt
//! had landed, and its own. So whoever calls a component looks first whether there is room for two (`has_room`), and makes no call where
//! there isn't.
ghost use Rattle.std.specs.Prelude.{◌≡◌, ◌+◌, ◌<◌, ◌≤◌, ◌↔◌, IsTrue, [], ◌∷◌};
ghost use Rattle.dm_spine.specs.Passes.{IsBeside, parts_of, seen_by, view_of};
ghost use Rattle.dm_model.specs.Names.{component_name, home_of};
ghost use Rattle.dm_bench.specs.Drawing.{Enters, EntersAll, LandedAtHome, MayEnter, entries_at, landed_entry, landed_first};

use crate::component_notes::LandedNote;
use crate::system::System;
use dm_spine::{Note, Pass};

/// The most entries of a home at which there is room for two more.
const ROOM_FOR_TWO: u64 = 281_474_976_710_654;

/// Whether a home with so many entries has room for those of one call.
pub fn has_room(entries: u64) -> bool
    ensures { IsTrue result ↔ (entries + 2 ≤ 281474976710656) }
{
    entries <= ROOM_FOR_TWO
}

/// Draws the note's entry, of a home with so many entries, and answers how many it then has.
pub fn draw_entry<N: Note<System>>(pass: &mut Pass<System>, entries: u64, note: &N) -> u64
    requires may { MayEnter (parts_of pass.old) [] (N.entry note.now) (view_of pass.old) }
    requires counted { entries ≡ entries_at (N.entry note.now) (seen_by pass.old) }
    requires room { entries < 281474976710656 }
    ensures spine { IsBeside pass.old pass.new }
    ensures enters { Enters (parts_of pass.old) (N.entry note.now) (view_of pass.old) (view_of pass.new) }
    ensures counted { result ≡ entries_at (N.entry note.now) (seen_by pass.new) }
{
    pass.draw(note);
    entries + 1
}

// Draws that the step in doubt had landed, and then the call's own entry.
fn draw_both<N: Note<System>>(
    pass: &mut Pass<System>,
    entries: u64,
    first: LandedNote,
    note: &N,
) -> u64
    requires may { MayEnter (parts_of pass.old) (landed_entry first.worker first.component ∷ []) (N.entry note.now) (view_of pass.old) }
    requires home { component_name first.component ≡ home_of (N.entry note.now).event }
    requires counted { entries ≡ entries_at (N.entry note.now) (seen_by pass.old) }
    requires room { entries + 2 ≤ 281474976710656 }
    ensures spine { IsBeside pass.old pass.new }
    ensures enters { EntersAll (parts_of pass.old) (landed_entry first.worker first.component ∷ []) (N.entry note.now) (view_of pass.old) (view_of pass.new) }
    ensures counted { result ≡ entries_at (N.entry note.now) (seen_by pass.new) }
{
    let entries = draw_entry(pass, entries, &first);
    draw_entry(pass, entries, note)
}

/// Draws what a call of a component with so many entries came to, and answers how many it then has: first that the step in doubt had landed,
/// where the call found so, and then the call's own entry.
pub fn draw_call<N: Note<System>>(
    pass: &mut Pass<System>,
    entries: u64,
    landed: Option<LandedNote>,
    note: &N,
) -> u64
    requires may { MayEnter (parts_of pass.old) (landed_first landed) (N.entry note.now) (view_of pass.old) }
    requires home { LandedAtHome landed (N.entry note.now) }
    requires counted { entries ≡ entries_at (N.entry note.now) (seen_by pass.old) }
    requires room { entries + 2 ≤ 281474976710656 }
    ensures spine { IsBeside pass.old pass.new }
    ensures enters { EntersAll (parts_of pass.old) (landed_first landed) (N.entry note.now) (view_of pass.old) (view_of pass.new) }
    ensures counted { result ≡ entries_at (N.entry note.now) (seen_by pass.new) }
{
    match landed {
        None => draw_entry(pass, entries, note),
        Some(first) => draw_both(pass, entries, first, note),
    }
}
