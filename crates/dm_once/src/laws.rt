//! What is proved, as contracts of functions that do nothing.
ghost use Rattle.std.specs.Prelude.{◌≡◌, ℕ, List, Some};
ghost use Rattle.std.specs.FinMap as map;
ghost use Rattle.dm_base.specs.declared.volume.Chunk.{Chunk};
ghost use Rattle.dm_durable.specs.declared.group.BitfileRow.{BitfileRow};
ghost use Rattle.dm_durable.specs.declared.group.VolumeRow.{VolumeRow};
ghost use Rattle.dm_invariant.specs.Among.{IsAmong};
ghost use Rattle.dm_invariant.specs.Kept.{InvariantHolds};
ghost use Rattle.dm_model.specs.declared.answer.Answer.{Answer};
ghost use Rattle.dm_model.specs.declared.call.Event.{Event};
ghost use Rattle.dm_model.specs.declared.state.Joint.{Joint};
ghost use Rattle.dm_model.specs.declared.state.Side.{Side};
ghost use Rattle.dm_model.specs.Step.{RunEntry, Run, Stepped, step};
ghost use Rattle.dm_invariant.specs.Opened.{Opened};
ghost use Rattle.dm_once.specs.Away.{BringsOther, IsAwayIn};
ghost use Rattle.dm_once.specs.Missing.{ListedRight};
ghost use Rattle.dm_once.specs.WasLive.{WasLiveIn};
ghost use Rattle.dm_shown.specs.Along.{KeptAlong};

/// A chunk that was live when its volume had an epoch is still there for as long as the volume has that epoch, whatever became
/// of its bitfile: its bytes are known to be its part of the content, its sum is right, and no zone in hand meets it
/// (docs/DEFINITIONS.md, "Once live"). Each chunk of a bitfile is such a one, and each legal event, stops among them, keeps that.
pub fn once_live()
    ensures begins { (j : Joint) (g b : ℕ) (s : Side) (row : BitfileRow) (c : Chunk) (v : VolumeRow) → InvariantHolds j → map.get j.sides g ≡ Some s
        → map.get s.group.tables.bitfiles b ≡ Some row → IsAmong c row.chunks → map.get s.group.tables.volumes c.vsn.0 ≡ Some v
        → WasLiveIn j g v.epoch b c }
    ensures events { (j k : Joint) (w : ℕ) (e : Event) (a : Answer) (g epoch b : ℕ) (c : Chunk) → InvariantHolds j → step j w e ≡ Stepped k a
        → WasLiveIn j g epoch b c → WasLiveIn k g epoch b c }
    ensures runs { (j : Joint) (entries : List RunEntry) (k : Joint) (g epoch b : ℕ) (c : Chunk) → KeptAlong j entries → Run j entries k
        → WasLiveIn j g epoch b c → WasLiveIn k g epoch b c }
{}

/// The content of a bitfile in a state is its content ever after.
pub fn content_kept()
    ensures events { (j k : Joint) (w : ℕ) (e : Event) (a : Answer) (b : ℕ) (bytes : List ℕ) → InvariantHolds j → step j w e ≡ Stepped k a
        → map.get j.history.contents b ≡ Some bytes → map.get k.history.contents b ≡ Some bytes }
    ensures runs { (j : Joint) (entries : List RunEntry) (k : Joint) (b : ℕ) (bytes : List ℕ) → KeptAlong j entries → Run j entries k
        → map.get j.history.contents b ≡ Some bytes → map.get k.history.contents b ≡ Some bytes }
{}

/// A volume that the tables hadn't as it was mounted for any use is missing from them as long as the mount is open, and one that
/// they had is there (docs/DEFINITIONS.md, "Volumes that are missing"). So it is in an opened state, and each legal event keeps it.
pub fn missing_kept()
    ensures opened { (j : Joint) → Opened j → ListedRight j }
    ensures events { (j k : Joint) (w : ℕ) (e : Event) (a : Answer) → InvariantHolds j → ListedRight j → step j w e ≡ Stepped k a → ListedRight k }
    ensures runs { (j : Joint) (entries : List RunEntry) (k : Joint) → KeptAlong j entries → Run j entries k → ListedRight j → ListedRight k }
{}

/// A group comes to have a bitfile by a commit of a reservation of that bitfile alone, or by one in doubt that landed: every other
/// legal event leaves away what the group hasn't (docs/DEFINITIONS.md, "Bitfiles that a group hasn't").
pub fn committed_alone()
    ensures events { (j k : Joint) (w : ℕ) (e : Event) (a : Answer) (g b : ℕ) → InvariantHolds j → IsAwayIn j g b → BringsOther j g b e
        → step j w e ≡ Stepped k a → IsAwayIn k g b }
{}
