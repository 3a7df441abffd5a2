//! The tables, as the payloads so far tell of them.

ghost use Rattle.std.specs.Prelude.{◌≡◌, ◌↔◌, IsTrue, OnOk, IfOk, IsErrOf, MatchOption};
ghost use Rattle.dm_durable.specs.Limits.{IsFirstNumber};
ghost use Rattle.dm_durable.specs.DaemonJournal.{DaemonState, MayBeHead, MayBeIn, MayCome, after_payload, state_of_head};
ghost use Rattle.dm_durable.specs.declared.daemon_journal.DaemonHead.{DaemonHead as HeadOf};
ghost use Rattle.dm_durable.specs.declared.daemon_journal.DaemonPayload.TheVariants.{Head, Record, Upgrade};
ghost use Rattle.dm_durable.specs.declared.daemon_journal.JournalVersion.TheVariants.{First};
ghost use Rattle.dm_fields.specs.declared.input.ReadError.TheVariants.{Damaged};
ghost use Rattle.dm_daemon_replay.specs.Replay.{replayed_of, IsBeginning, IsNext};

use dm_base::{AGE_LIMIT, NUMBER_LIMIT, Secs};
use dm_daemon_conditions::may_follow;
use dm_daemon_tables::Tables;
use dm_durable::{DaemonHead, DaemonPayload, DaemonRecord, DaemonStep, JournalVersion};
use dm_fields::ReadError;
use dm_records::read_log;
use std::alloc::Global;

/// What the payloads so far tell: tables, and the journal's version.
#[derive(Drop)]
pub struct Replayed {
    pub version: JournalVersion,
    pub tables: Tables,
}

impl Replayed {
    /// Reads the first payload of a log. `Damaged` says that it is no head, `NoMemory` that memory was refused.
    pub fn begin(alloc: Global, payload: &[u8]) -> Result<Replayed, ReadError>
        ensures begun { IfOk result (λ r. IsBeginning payload.now (replayed_of r)) }
        ensures damaged { IsErrOf result Damaged → (s : DaemonState) → IsBeginning payload.now s → ⊥ }
    {
        match read_log(alloc, payload) {
            Ok(payload) => match head_of(payload) {
                Some(head) => Ok(Replayed::of_head(alloc, &head)),
                None => Err(ReadError::Damaged),
            },
            Err(error) => Err(error),
        }
    }

    // The empty tables of a head.
    fn of_head(alloc: Global, head: &DaemonHead) -> Replayed
        ensures { replayed_of result ≡ state_of_head head.now }
    {
        let mut tables = Tables::empty(alloc, head.site, head.first, head.age);
        tables.set_time(head.time);
        Replayed {
            version: head.version,
            tables,
        }
    }

    /// Reads the next payload of a log, and does what it says. `Damaged` says that it is none that may come, `NoMemory`
    /// that memory was refused.
    pub fn go_on(&mut self, alloc: Global, payload: &[u8]) -> Result<(), ReadError>
        ensures next { OnOk result (IsNext (replayed_of self.old) payload.now (replayed_of self.new)) }
        ensures damaged { IsErrOf result Damaged → (s : DaemonState) → IsNext (replayed_of self.old) payload.now s → ⊥ }
    {
        match read_log(alloc, payload) {
            Ok(payload) => self.follow(payload),
            Err(error) => Err(error),
        }
    }

    // Does what a payload says, where it may come.
    fn follow(&mut self, payload: DaemonPayload) -> Result<(), ReadError>
        ensures next { OnOk result (MayCome (replayed_of self.old) payload × (replayed_of self.new ≡ after_payload (replayed_of self.old) payload)) }
        ensures damaged { IsErrOf result Damaged → MayCome (replayed_of self.old) payload → ⊥ }
    {
        match payload {
            DaemonPayload::Head { .. } => Err(ReadError::Damaged),
            DaemonPayload::Record { record } => self.follow_record(record),
            DaemonPayload::Upgrade { time } => self.upgrade(time),
            DaemonPayload::Row { .. } => Err(ReadError::Damaged),
        }
    }

    // Does what a record says, where it may come.
    fn follow_record(&mut self, next: DaemonRecord) -> Result<(), ReadError>
        ensures next { OnOk result (MayCome (replayed_of self.old) (Record next) × (replayed_of self.new ≡ after_payload (replayed_of self.old) (Record next))) }
        ensures damaged { IsErrOf result Damaged → MayCome (replayed_of self.old) (Record next) → ⊥ }
    {
        if !may_be_in(self.version, &next.step) {
            return Err(ReadError::Damaged);
        }
        if !may_follow(&self.tables, &next) {
            return Err(ReadError::Damaged);
        }
        match self.tables.prepare(next) {
            Ok(prepared) => {
                self.tables.apply(prepared);
                Ok(())
            }
            Err(_) => Err(ReadError::NoMemory),
        }
    }

    // Goes on as version 2, where that may come.
    fn upgrade(&mut self, time: Secs) -> Result<(), ReadError>
        ensures next { OnOk result (MayCome (replayed_of self.old) (Upgrade time) × (replayed_of self.new ≡ after_payload (replayed_of self.old) (Upgrade time))) }
        ensures damaged { IsErrOf result Damaged → MayCome (replayed_of self.old) (Upgrade time) → ⊥ }
    {
        if time.0 < self.tables.time().0 {
            return Err(ReadError::Damaged);
        }
        match self.version {
            JournalVersion::First => {
                self.version = JournalVersion::Second;
                self.tables.set_time(time);
                Ok(())
            }
            JournalVersion::Second => Err(ReadError::Damaged),
        }
    }
}

// The head that the payload is, if it is one that may begin a journal.
fn head_of(payload: DaemonPayload) -> Option<DaemonHead>
    ensures { MatchOption result ((h : HeadOf) → payload ≡ Head h → MayBeHead h → ⊥) (λ h. (payload ≡ Head h) × MayBeHead h) }
{
    match payload {
        DaemonPayload::Head { head } => { if may_be_head(&head) { Some(head) } else { None } }
        DaemonPayload::Record { .. } => None,
        DaemonPayload::Upgrade { .. } => None,
        DaemonPayload::Row { .. } => None,
    }
}

// Whether a head is within the limits of its numbers.
fn may_be_head(head: &DaemonHead) -> bool
    ensures { IsTrue result ↔ MayBeHead head.now }
{
    let numbers = is_first_number(head.site) && is_first_number(head.first);
    numbers && head.age <= AGE_LIMIT
}

// Whether a number is a site's, or may be a first counter.
fn is_first_number(number: u64) -> bool
    ensures { IsTrue result ↔ IsFirstNumber number }
{
    1 <= number && number <= NUMBER_LIMIT
}

// Whether a journal of this version may have the step.
fn may_be_in(version: JournalVersion, step: &DaemonStep) -> bool
    ensures { IsTrue result ↔ MayBeIn version step.now }
{
    match version {
        JournalVersion::First => may_be_in_first(step),
        JournalVersion::Second => true,
    }
}

// Whether a journal of version 1 may have the step: it has one age.
fn may_be_in_first(step: &DaemonStep) -> bool
    ensures { IsTrue result ↔ MayBeIn First step.now }
{
    match step {
        DaemonStep::Write { .. } => true,
        DaemonStep::Remove { .. } => true,
        DaemonStep::BeginPut { .. } => true,
        DaemonStep::Stored { .. } => true,
        DaemonStep::EndPut { .. } => true,
        DaemonStep::Release { .. } => true,
        DaemonStep::Taken { .. } => true,
        DaemonStep::Dump { .. } => true,
        DaemonStep::Undump { .. } => true,
        DaemonStep::Restore { .. } => true,
        DaemonStep::HardDelete { .. } => true,
        DaemonStep::Dropped { .. } => true,
        DaemonStep::Restart => true,
        DaemonStep::Age { .. } => false,
    }
}
