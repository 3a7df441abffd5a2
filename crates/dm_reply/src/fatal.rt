//! The line that is printed where a site is not opened.

ghost use Rattle.std.specs.Prelude.{◌≡◌, ◌+◌, ◌≤◌, ◌++◌};
ghost use Rattle.arrayvec.specs.ArrayVec.{array_vec_len};

use crate::key::push_key;
use crate::piece::push;
use crate::row::{Row, Rows};
use crate::text::push_words;
use dm_base::{ConfKey, Finding};

/// Why a site is not opened.
#[derive(Drop)]
pub enum Fatal {
    /// The first key of the configuration that is outside its definition, or doesn't fit what was loaded.
    Config { key: ConfKey },
    /// What stands at that place of that file of the device was never written by this program.
    Damaged { file: u32, place: u64 },
    /// The tables that were loaded don't fit each other; the first of the findings.
    Tables { finding: Finding },
}

impl Fatal {
    ghost use Rattle.dm_reply.specs.Fatal.{fatal_line, fatal_text};

    /// Puts the line behind what is there, and the line feed that ends it.
    pub(crate) fn push_line(&self, piece: &mut Rows)
        requires { array_vec_len piece.old + 400 ≤ 4096 }
        ensures { piece.new.items ≡ piece.old.items ++ fatal_text self.now }
    {
        self.push_words(piece);
        push(piece, b"\n");
    }

    fn push_words(&self, piece: &mut Rows)
        requires { array_vec_len piece.old + 399 ≤ 4096 }
        ensures value { piece.new.items ≡ piece.old.items ++ fatal_line self.now }
        ensures short { array_vec_len piece.new ≤ array_vec_len piece.old + 399 }
    {
        match self {
            Fatal::Config { key } => {
                push(piece, b"fatal config ");
                push_key(piece, *key);
            }
            Fatal::Damaged { file, place } => {
                push_words(piece, b"fatal damaged ", u64::from(*file));
                push_words(piece, b" ", *place);
            }
            Fatal::Tables { finding } => {
                push(piece, b"fatal tables ");
                finding.push(piece);
            }
        }
    }
}
