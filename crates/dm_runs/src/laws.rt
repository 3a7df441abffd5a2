//! What is proved, as contracts of functions that do nothing.
//!
//! The laws suppose of a run that no two different byte lists of one length have one SHA-256, of those that are hashed in the
//! run and the parts of bitfiles that stand in chunks as it begins (docs/DEFINITIONS.md, "What the laws take of a run").
ghost use Rattle.std.specs.Prelude.{◌≡◌, ℕ, Some, List, ◌++◌};
ghost use Rattle.std.specs.FinMap as map;
ghost use Rattle.dm_base.specs.declared.volume.Chunk.{Chunk};
ghost use Rattle.dm_durable.specs.declared.group.BitfileRow.{BitfileRow};
ghost use Rattle.dm_durable.specs.declared.group.VolumeRow.{VolumeRow};
ghost use Rattle.dm_group_effects.specs.OnVolume.{ReadsTellApart};
ghost use Rattle.dm_invariant.specs.Among.{IsAmong};
ghost use Rattle.dm_invariant.specs.Kept.{InvariantHolds};
ghost use Rattle.dm_invariant.specs.Opened.{IsAsConfigured, Opened};
ghost use Rattle.dm_invariant.specs.Sound.{CopiesSound, Sound};
ghost use Rattle.dm_invariant.specs.StandsFor.{plain_of, shown_namespace};
ghost use Rattle.dm_model.specs.declared.state.Joint.{Joint};
ghost use Rattle.dm_model.specs.declared.state.Side.{Side};
ghost use Rattle.dm_model.specs.Hashed.{NoCollision};
ghost use Rattle.dm_model.specs.Project.{plain_run, run_steps};
ghost use Rattle.dm_model.specs.Step.{RunEntry, Run};
ghost use Rattle.dm_once.specs.Missing.{ListedRight};
ghost use Rattle.dm_once.specs.WasLive.{WasLiveIn};
ghost use Rattle.dm_runs.specs.Images.{ImagesThere, VolumesImaged};
ghost use Rattle.dm_runs.specs.Journals.{CallsMayJournal, DoubtsMayLand, FaultsMayJournal, TablesMayBe};
ghost use Rattle.dm_runs.specs.Reads.{ChunksReadRight, RecallsAnswered};
ghost use Rattle.dm_runs.specs.There.{ChunksFollow, CopiesOpen, MountedWhole, NumbersNew, ReservedAsked};
ghost use Rattle.dm_shown.specs.Reads.{OnlineRight, RecalledRight};
ghost use Rattle.dm_shown.specs.There.{LandedDead, RequestThere, ReusedDead, YoungThere};
ghost use Rattle.dm_tables.specs.Rows.{EachRow};

/// A legal run from an opened state ends in a sound state that fits its configuration: whatever is put, recalled, dumped,
/// merged and deleted meanwhile, which calls fail, which steps in doubt land, and wherever the program ends and begins again
/// (docs/DEFINITIONS.md, "The invariant"). Each copy that a group has of a bitfile assembles to the bitfile's content then, and
/// each volume of the tables has an image of its size.
pub fn sound_kept()
    ensures kept { (j : Joint) (entries : List RunEntry) (k : Joint) → Opened j → NoCollision j entries → Run j entries k → InvariantHolds k }
    ensures sound { (j : Joint) (entries : List RunEntry) (k : Joint) → Opened j → NoCollision j entries → Run j entries k → Sound k }
    ensures fits { (j : Joint) (entries : List RunEntry) (k : Joint) → Opened j → NoCollision j entries → Run j entries k → IsAsConfigured k }
    ensures copies { (j : Joint) (entries : List RunEntry) (k : Joint) → Opened j → NoCollision j entries → Run j entries k → CopiesSound k }
    ensures volumes { (j : Joint) (entries : List RunEntry) (k : Joint) → Opened j → NoCollision j entries → Run j entries k
        → VolumesImaged k }
{}

/// What users see of the namespace that the last state of such a run stands for is what they see of the first one's after the
/// plain steps of the run, whatever stops it has (docs/DEFINITIONS.md, "What users see").
pub fn plain_kept()
    ensures shown { (j : Joint) (entries : List RunEntry) (k : Joint) → Opened j → NoCollision j entries → Run j entries k
        → plain_of k ≡ shown_namespace (plain_run (run_steps j entries) (plain_of j)) }
{}

/// What reads answer after such a run (docs/DEFINITIONS.md, "What users see"): a file whose bytes are on the disk, and one that
/// was recalled, as the plain namespace has it, a recall at the path at which it was begun; and a chunk by its part of the
/// content, or by bytes that haven't the chunk's sum.
pub fn reads_right()
    ensures online { (j : Joint) (entries : List RunEntry) (k : Joint) → Opened j → NoCollision j entries → Run j entries k
        → OnlineRight k (plain_run (run_steps j entries) (plain_of j)) }
    ensures recalled { (j : Joint) (entries : List RunEntry) (k : Joint) → Opened j → NoCollision j entries → Run j entries k
        → RecalledRight k (plain_run (run_steps j entries) (plain_of j)) }
    ensures asked { (j : Joint) (entries : List RunEntry) (k : Joint) → Opened j → Run j entries k → RecallsAnswered j entries k }
    ensures chunks { (j : Joint) (entries : List RunEntry) (k : Joint) → Opened j → Run j entries k → ChunksReadRight j entries k }
{}

/// After such a run the entry of an open request is there, and isn't being dropped; and the bitfile of an open recall is in each
/// group that was asked (docs/DEFINITIONS.md, "What is there, and what is dead").
pub fn request_there()
    ensures there { (j : Joint) (entries : List RunEntry) (k : Joint) → Opened j → NoCollision j entries → Run j entries k
        → EachRow k.daemon.requests (λ n r. RequestThere k r) }
{}

/// After such a run each bitfile that a young dump names is in each of its groups, and no hard delete ever took it.
pub fn young_kept()
    ensures there { (j : Joint) (entries : List RunEntry) (k : Joint) → Opened j → NoCollision j entries → Run j entries k → YoungThere k }
{}

/// A volume that is used again after such a run was held for the group's hold since it was freed, or is empty; and nothing is on
/// it. So it is as a reuse is accepted, and as one in doubt is found to have landed.
pub fn freed_dead()
    ensures reused { (j : Joint) (entries : List RunEntry) (k : Joint) → Opened j → NoCollision j entries → Run j entries k → ReusedDead k }
    ensures landed { (j : Joint) (entries : List RunEntry) (k : Joint) → Opened j → NoCollision j entries → Run j entries k → LandedDead k }
{}

/// After such a run what a legal call journals may be next in its component's tables, what one that fails may have journalled may,
/// and what is in doubt may; and the tables of each component may be a state that a checkpoint writes. So no journal that a run
/// wrote is damaged.
pub fn payloads_follow()
    ensures calls { (j : Joint) (entries : List RunEntry) (k : Joint) → Opened j → NoCollision j entries → Run j entries k
        → CallsMayJournal k }
    ensures faults { (j : Joint) (entries : List RunEntry) (k : Joint) → Opened j → NoCollision j entries → Run j entries k
        → FaultsMayJournal k }
    ensures doubts { (j : Joint) (entries : List RunEntry) (k : Joint) → Opened j → NoCollision j entries → Run j entries k
        → DoubtsMayLand k }
    ensures tables { (j : Joint) (entries : List RunEntry) (k : Joint) → Opened j → NoCollision j entries → Run j entries k
        → TablesMayBe k }
{}

/// What the calls of groups find after such a run: the entry of a bitfile for which room may be reserved, and the bitfile of which
/// a worker may mount a chunk, with its next chunk or its end where one ends; the put and the reservation of a copy that is
/// kept; and new numbers.
pub fn found_there()
    ensures reserved { (j : Joint) (entries : List RunEntry) (k : Joint) → Opened j → NoCollision j entries → Run j entries k
        → ReservedAsked k }
    ensures mounted { (j : Joint) (entries : List RunEntry) (k : Joint) → Opened j → NoCollision j entries → Run j entries k
        → MountedWhole k }
    ensures chunks { (j : Joint) (entries : List RunEntry) (k : Joint) → Opened j → NoCollision j entries → Run j entries k
        → ChunksFollow k }
    ensures copies { (j : Joint) (entries : List RunEntry) (k : Joint) → Opened j → NoCollision j entries → Run j entries k
        → CopiesOpen k }
    ensures numbers { (j : Joint) (entries : List RunEntry) (k : Joint) → Opened j → NoCollision j entries → Run j entries k
        → NumbersNew k }
{}

/// What was so at some moment of such a run: a chunk that a group had then is still there at its end, as long as its volume has the
/// epoch that it had, whatever became of its bitfile (docs/DEFINITIONS.md, "Once live"); and the content of a bitfile is its
/// content ever after.
pub fn past_stays()
    ensures live { (j : Joint) (before : List RunEntry) (mid : Joint) (later : List RunEntry) (k : Joint) → Opened j
        → NoCollision j (before ++ later) → Run j before mid → Run mid later k
        → (g b : ℕ) (s : Side) (row : BitfileRow) (c : Chunk) (v : VolumeRow) → map.get mid.sides g ≡ Some s
        → map.get s.group.tables.bitfiles b ≡ Some row → IsAmong c row.chunks → map.get s.group.tables.volumes c.vsn.0 ≡ Some v
        → WasLiveIn k g v.epoch b c }
    ensures content { (j : Joint) (before : List RunEntry) (mid : Joint) (later : List RunEntry) (k : Joint) → Opened j
        → NoCollision j (before ++ later) → Run j before mid → Run mid later k
        → (b : ℕ) (bytes : List ℕ) → map.get mid.history.contents b ≡ Some bytes → map.get k.history.contents b ≡ Some bytes }
{}

/// After such a run a volume that the tables hadn't as it was mounted for any use is missing from them as long as the mount is open,
/// and one that they had is there (docs/DEFINITIONS.md, "Volumes that are missing").
pub fn missing_kept()
    ensures listed { (j : Joint) (entries : List RunEntry) (k : Joint) → Opened j → NoCollision j entries → Run j entries k → ListedRight k }
{}

/// Where the sums of what is hashed in a legal run from an opened state, and of what stands in chunks as it begins, tell these
/// byte lists apart, each read of the run tells its bytes from the part that it is of. This alone is what the laws need of sums.
pub fn sums_tell()
    ensures reads { (j : Joint) (entries : List RunEntry) (k : Joint) → Opened j → NoCollision j entries → Run j entries k
        → ReadsTellApart j entries }
    ensures kept { (j : Joint) (entries : List RunEntry) (k : Joint) → Opened j → ReadsTellApart j entries → Run j entries k → InvariantHolds k }
{}

/// After each legal run from an opened state each volume of the configuration has an image of its size.
pub fn images_kept()
    ensures images { (j : Joint) (entries : List RunEntry) (k : Joint) → Opened j → Run j entries k → ImagesThere k }
{}
