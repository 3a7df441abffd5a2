//! Questions that are asked of each token.

ghost use Rattle.std.specs.Prelude.{◌≡◌};
ghost use Rattle.std.specs.List.{list_any};
ghost use Rattle.dm_durable.specs.Tables.{same_text};

use dm_base::{Piece, Vsn};
use dm_model::{Mounted, Reserved, Reusing};
use dm_tables::Test;

// It is a mount of the volume.
#[derive(Drop)]
pub(crate) struct IsMountOf {
    pub(crate) vsn: Vsn,
}

impl Test<Mounted> for IsMountOf {
    ghost use Rattle.dm_durable.specs.Tables.{same_text};

    ghost passes = { λ it x. same_text x.vsn.0 it.vsn.0 };

    fn test(&self, row: &Mounted) -> bool {
        row.vsn == self.vsn
    }
}

// It is a reuse of the volume.
#[derive(Drop)]
pub(crate) struct IsReuseOf {
    pub(crate) vsn: Vsn,
}

impl Test<Reusing> for IsReuseOf {
    ghost use Rattle.dm_durable.specs.Tables.{same_text};

    ghost passes = { λ it x. same_text x.vsn.0 it.vsn.0 };

    fn test(&self, row: &Reusing) -> bool {
        row.vsn == self.vsn
    }
}

// It has a piece on the volume.
#[derive(Drop)]
pub(crate) struct HasPieceOn {
    pub(crate) vsn: Vsn,
}

impl Test<Reserved> for HasPieceOn {
    ghost use Rattle.dm_model.specs.Volumes.{has_piece_on};

    ghost passes = { λ it r. has_piece_on it.vsn.0 r };

    fn test(&self, row: &Reserved) -> bool {
        has_piece_on(row.pieces.as_slice(), self.vsn)
    }
}

// Whether one of the pieces is on the volume.
fn has_piece_on(pieces: &[Piece], vsn: Vsn) -> bool
    ensures { result ≡ list_any (λ p. same_text p.vsn.0 vsn.0) pieces.now }
{
    match pieces {
        [] => false,
        [piece, rest @ ..] => piece.vsn == vsn || has_piece_on(rest, vsn),
    }
}
