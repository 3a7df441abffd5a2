//! Keys that are texts.

ghost use Rattle.std.specs.Prelude.{◌≡◌, ℕ, List};

use dm_base::{Bytes, DumpName, Path, Vsn};

/// A key that is a text. Keys with the same text are the same key, and their order is that of the
/// texts, byte by byte.
pub trait Text: Drop + Sized {
    ghost text: { Self → List ℕ };

    /// The text.
    fn text(&self) -> &[u8]
        ensures { result.now ≡ text self.now };
}

impl Text for Bytes {
    ghost text = { λ b. b };

    fn text(&self) -> &[u8] {
        self.as_slice()
    }
}

impl Text for Path {
    ghost text = { λ p. p };

    fn text(&self) -> &[u8] {
        self.bytes()
    }
}

impl Text for DumpName {
    ghost text = { λ n. n };

    fn text(&self) -> &[u8] {
        self.bytes()
    }
}

impl Text for Vsn {
    ghost text = { λ v. v.0 };

    fn text(&self) -> &[u8] {
        &self.0
    }
}
