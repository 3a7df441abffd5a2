//! What holds of every payload of a group: functions that do nothing, whose contracts are theorems.

ghost use Rattle.std.specs.Prelude.{◌≡◌, ◌≤◌, length};
ghost use Rattle.dm_durable.specs.Fields.{FitsGroupPayload};
ghost use Rattle.dm_durable.specs.declared.group_journal.GroupPayload.{GroupPayload};
ghost use Rattle.dm_group_records.specs.Limits.{IsWithinLimits, payload_limit};
ghost use Rattle.dm_group_records.specs.Payloads.{spelling};

/// Two payloads with the same bytes are the same, whether they are heads, records, old records or rows.
pub fn spelled_once()
    ensures { (p q : GroupPayload) → FitsGroupPayload p → FitsGroupPayload q → spelling p ≡ spelling q → p ≡ q }
{}

/// Every payload that a configuration allows is within the limit of a journal, a row too.
pub fn payloads_are_short()
    ensures { (p : GroupPayload) → FitsGroupPayload p → IsWithinLimits p → length (spelling p) ≤ payload_limit }
{}
