//! Numbers at their places in bytes, the highest byte first.

ghost use Rattle.std.specs.Prelude.{◌≡◌, ◌<◌, ◌≤◌, ◌+◌, length, MatchOption};
ghost use Rattle.std.specs.Int.{w32, w64, w128};
ghost use Rattle.dm_zone.specs.Fields.{number_at};

#[tactic(auto, unfolding(crate::specs::Fields::number_at))]
pub(crate) fn u32_at(bytes: &[u8], place: usize) -> Option<u32>
    ensures { MatchOption result (length bytes.now < place + 4)
        (λ n. (place + 4 ≤ length bytes.now) × (n ≡ number_at w32 place bytes.now)) }
{
    let (_, rest) = bytes.split_at_checked(place)?;
    let (field, _) = rest.split_first_chunk()?;
    Some(u32::from_be_bytes(*field))
}

#[tactic(auto, unfolding(crate::specs::Fields::number_at))]
pub(crate) fn u64_at(bytes: &[u8], place: usize) -> Option<u64>
    ensures { MatchOption result (length bytes.now < place + 8)
        (λ n. (place + 8 ≤ length bytes.now) × (n ≡ number_at w64 place bytes.now)) }
{
    let (_, rest) = bytes.split_at_checked(place)?;
    let (field, _) = rest.split_first_chunk()?;
    Some(u64::from_be_bytes(*field))
}

#[tactic(auto, unfolding(crate::specs::Fields::number_at))]
pub(crate) fn u128_at(bytes: &[u8], place: usize) -> Option<u128>
    ensures { MatchOption result (length bytes.now < place + 16)
        (λ n. (place + 16 ≤ length bytes.now) × (n ≡ number_at w128 place bytes.now)) }
{
    let (_, rest) = bytes.split_at_checked(place)?;
    let (field, _) = rest.split_first_chunk()?;
    Some(u128::from_be_bytes(*field))
}
