//! A path or the name of a dump in place.

ghost use Rattle.std.specs.Prelude.{◌≡◌, ◌≤◌, length};

use std::marker::Model;

/// The most bytes of a text that is kept in place: those of the longest path.
pub const SHORT_TEXT: usize = 255;

/// A text of at most 255 bytes, kept in place: a step that may not take memory has no other room for a path.
#[derive(Drop)]
pub struct ShortText {
    bytes: [u8; SHORT_TEXT],
    len: usize,
}

impl Model for ShortText {
    ghost use Rattle.std.specs.Prelude.{List, ℕ, ◌≤◌, take};

    ghost Value = { List ℕ };

    ghost view = { λ s. take s.len s.bytes };

    ghost invariant = { λ s. s.len ≤ 255 };
}

impl ShortText {
    /// A copy of the text. It takes no memory.
    pub fn of(text: &[u8]) -> ShortText
        requires { length text.now ≤ 255 }
        ensures { result ≡ text.now }
    {
        let mut bytes = [0; SHORT_TEXT];
        bytes[..text.len()].copy_from_slice(text);
        ShortText {
            bytes,
            len: text.len(),
        }
    }

    /// The text.
    pub fn text(&self) -> &[u8]
        ensures { result.now ≡ self.now }
    {
        &self.bytes[..self.len]
    }
}
