//! What holds of every payload: functions that do nothing, whose contracts are theorems.

ghost use Rattle.std.specs.Prelude.{◌≡◌, ◌≤◌, length};
ghost use Rattle.dm_durable.specs.Fields.{FitsPayload};
ghost use Rattle.dm_durable.specs.declared.daemon_journal.DaemonPayload.{DaemonPayload};
ghost use Rattle.dm_records.specs.Limits.{IsWithinLimits, payload_limit};
ghost use Rattle.dm_records.specs.Payloads.{spelling};

/// Two payloads with the same bytes are the same, heads, records, upgrades and rows alike.
pub fn spelled_once()
    ensures { (p q : DaemonPayload) → FitsPayload p → FitsPayload q → spelling p ≡ spelling q → p ≡ q }
{}

/// Every payload that a configuration allows is within the limit of a journal, which is that of a row too.
pub fn payloads_are_short()
    ensures { (p : DaemonPayload) → FitsPayload p → IsWithinLimits p → length (spelling p) ≤ payload_limit }
{}
