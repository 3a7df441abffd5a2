//! The lowest guard that is false.

ghost use Rattle.std.specs.Prelude.{◌≡◌, Some};
ghost use Rattle.dm_model.specs.Guards.{lower_of as lower, lowest_false, number_of as number};

use dm_model::Guard;

/// The guard of the least number whose test is false; `None` where every test holds.
pub fn lowest(tests: &[(bool, Guard)]) -> Option<Guard>
    ensures { result ≡ lowest_false tests.now }
{
    match tests {
        [] => None,
        [(holds, guard), rest @ ..] => {
            let later = lowest(rest);
            if *holds {
                return later;
            }
            Some(lower_of(*guard, later))
        }
    }
}

// The guard of the lesser number.
fn lower_of(guard: Guard, other: Option<Guard>) -> Guard
    ensures { result ≡ lower guard other }
{
    match other {
        None => guard,
        Some(other) => {
            if number_of(other) < number_of(guard) {
                other
            } else {
                guard
            }
        }
    }
}

fn number_of(guard: Guard) -> u8
    ensures { result ≡ number guard }
{
    match guard {
        Guard::Configured => 1,
        Guard::Tokens => 2,
        Guard::InDoubt => 3,
        Guard::AskedGroups => 4,
        Guard::CopyCommitted => 5,
        Guard::NothingReserved => 6,
        Guard::RecallRead => 7,
        Guard::CopiesDeleted => 8,
        Guard::VolumeConfigured => 9,
        Guard::NewVolumeLabelled => 10,
        Guard::CopyWanted => 11,
        Guard::PieceReserved => 12,
        Guard::ChunkWanted => 13,
        Guard::PiecesWritten => 14,
        Guard::PiecesUnmounted => 15,
        Guard::HardDeleted => 16,
        Guard::SourceListed => 17,
        Guard::ChunkMoved => 18,
        Guard::VolumeKnown => 19,
        Guard::VolumeRelabelled => 20,
        Guard::NoMove => 21,
        Guard::ZonePlace => 22,
        Guard::RangeRead => 23,
        Guard::LabelPlanned => 24,
        Guard::DeviceUsed => 28,
    }
}
