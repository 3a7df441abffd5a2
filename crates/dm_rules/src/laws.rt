//! What holds of the sizes of the two versions. Nothing is done here: the contracts are the laws.

ghost use Rattle.std.specs.Prelude.{◌≡◌, ◌≤◌, ◌<◌, ◌+◌, ℕ};
ghost use Rattle.dm_rules.specs.Room.{room};
ghost use Rattle.dm_rules.specs.Version.{first_version, second_version};
ghost use Rattle.dm_rules.specs.Zone.{weight, zone_length};

/// A chunk weighs what a zone of it alone takes, which is 80 bytes and its own in the first version, and 112 and its own
/// in the second. So the weights of a volume's chunks tell what they would take elsewhere.
pub fn weights_are_zones()
    ensures alone { (version chunk n : ℕ) → 0 < n → n ≤ chunk → zone_length version chunk n ≡ weight version n }
    ensures first { (n : ℕ) → weight first_version n ≡ 80 + n }
    ensures second { (n : ℕ) → weight second_version n ≡ 112 + n }
{}

/// Worked sizes, of volumes of 424 bytes behind their label: in chunks of 1,000 bytes the first version takes a piece of
/// 280 and the second one of 248, in chunks of 100 bytes they take 200 in two chunks and 168; and what is left behind a
/// piece of one byte.
pub fn rooms_are_as_worked()
    ensures first { room first_version 424 64 1000 ≡ 280 }
    ensures second { room second_version 424 64 1000 ≡ 248 }
    ensures first_small { room first_version 424 64 100 ≡ 200 }
    ensures second_small { room second_version 424 64 100 ≡ 168 }
    ensures second_behind { room second_version 424 177 1000 ≡ 135 }
    ensures second_full { room second_version 424 424 1000 ≡ 0 }
{}
