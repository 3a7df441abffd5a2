//! The bytes between two gates.
ghost use Rattle.std.specs.Prelude.{◌≡◌, ◌≤◌, [], ◌∷◌, ◌++◌, length, vec_capacity};
ghost use Rattle.std.specs.Int.{w32, to_be_bytes};
ghost use Rattle.dm_journal.specs.Grammar.{Fits, buffer_room, inner};

use byteorder::{BigEndian, ByteOrder};

/// A gate that is open. Any other byte is a closed one.
pub const OPEN: u8 = 1;

/// The capacity of a journal's buffer: a length, the longest payload and a gate fit in it.
pub const CAPACITY: usize = 20_971_526;

fn four_bytes(n: u32) -> [u8; 4]
    ensures { result ≡ to_be_bytes w32 n }
{
    let mut bytes = [0; 4];
    BigEndian::write_u32(&mut bytes, n);
    bytes
}

/// Makes the buffer hold the length, the payload and the next gate, closed.
pub fn put_frame(buffer: &mut Vec<u8>, payload: &[u8])
    requires room { buffer_room ≤ vec_capacity buffer.old }
    requires size { Fits payload.now }
    ensures bytes { buffer.new.items ≡ inner payload.now ++ 0 ∷ [] }
    ensures room { buffer_room ≤ vec_capacity buffer.new }
{
    let len = four_bytes(payload.len() as u32);
    buffer.clear();
    let _ = buffer.extend_from_slice(&len);
    let _ = buffer.extend_from_slice(payload);
    let _ = buffer.push(0);
}
