//! The program's call.

ghost use Rattle.std.specs.Prelude.{◌≡◌, ◌⊎◌, ◌↔◌, map, string_bytes, IsTrue};
ghost use Rattle.dm_host.specs.Count.{Rose};
ghost use Rattle.dm_site.specs.Script.{AreRun, IsScript};

use crate::archive::Archive;
use crate::session::converse;
use crate::status::{Status, number};
use dm_host::{Bay, Clock, Sink, Source};
use std::alloc::Global;

/// Runs one session: it reads commands from the source, does them over the device and answers each to
/// the sink. It returns for every source. `words` are the program's arguments, `run` and a folder.
///
/// The answer is the exit status; docs/COMMANDS.md says when each comes, and docs/DEFINITIONS.md
/// ("A run") what the clauses say. Neither `conf` nor `clock` is read yet. Nothing of an earlier run is
/// read: a session begins with no file.
pub fn run_script<S: Source, F: Source, K: Sink, C: Clock, B: Bay>(
    alloc: Global,
    words: &[String],
    conf: &mut F,
    source: &mut S,
    sink: &mut K,
    clock: &mut C,
    bay: &mut B,
) -> u8
    // What was heard in the bytes taken was answered by the rules, each read with the plain namespace's bytes.
    ensures script { IsScript ((B.disk bay.old).told 16) (S.left source.old) (S.left source.new) (K.taken sink.old) (K.taken sink.new)
        (B.count bay.old) (B.count bay.new) ((B.disk bay.new).seen 16) result }

    // When each status comes that the script doesn't tie to the input.
    ensures words { (result ≡ 1) ↔ (AreRun (map (λ w. string_bytes w) words.now) → ⊥) }
    ensures source_fault { result ≡ 4 → Rose (S.count source.old) (S.count source.new) }
    ensures sink_fault { result ≡ 5 → Rose (K.count sink.old) (K.count sink.new) ⊎ K.ends sink.old }
    ensures device_fault { result ≡ 6 → Rose (B.count bay.old) (B.count bay.new) }

    ensures told { (B.disk bay.new).told ≡ (B.disk bay.old).told }
    ensures conf { (F.left conf.new ≡ F.left conf.old) × (F.count conf.new ≡ F.count conf.old) }
    ensures clock { C.readings clock.new ≡ C.readings clock.old }
{
    if !are_run(words) {
        return number(Status::NoRun);
    }
    match Archive::open(alloc, bay) {
        Ok(mut archive) => number(converse(alloc, &mut archive, source, sink, bay)),
        Err(_) => number(Status::DeviceFailed),
    }
}

// Whether the words are `run` and a folder that isn't empty.
fn are_run(words: &[String]) -> bool
    ensures { IsTrue result ↔ AreRun (map (λ w. string_bytes w) words.now) }
{
    let Some((first, rest)) = words.split_first() else {
        return false;
    };
    let Some((folder, more)) = rest.split_first() else {
        return false;
    };
    if !more.is_empty() {
        return false;
    }
    if folder.is_empty() {
        return false;
    }
    first.as_str() == "run"
}
