//! What is put together before it goes out: bytes at the front of an array on the stack.
//!
//! The language sets each place of an array before it is used, so the size is chosen by what is said: a line of a reply
//! is a few words and numbers, and only a reply of many rows is worth a piece of some kilobytes. Nothing here knows the
//! sink. Each function asks for the room that it may need at most, so that no push can fail.

ghost use Rattle.std.specs.Prelude.{◌≡◌, ◌+◌, ◌≤◌, ◌++◌, decimal, length, replicate};
ghost use Rattle.arrayvec.specs.ArrayVec.{array_vec_len};
ghost use Rattle.dm_reply.specs.Calendar.{right_in};

use arrayvec::ArrayVec;
use itoa::Buffer;

/// Bytes that are to go out, at most `N`.
pub type Piece<const N: usize> = ArrayVec<u8, N>;

pub fn push<const N: usize>(piece: &mut Piece<N>, bytes: &[u8])
    requires { array_vec_len piece.old + length bytes.now ≤ N }
    ensures { piece.new.items ≡ piece.old.items ++ bytes.now }
{
    let _fits = piece.try_extend_from_slice(bytes);
}

pub fn push_number<const N: usize>(piece: &mut Piece<N>, number: u64)
    requires { array_vec_len piece.old + 20 ≤ N }
    ensures value { piece.new.items ≡ piece.old.items ++ decimal number }
    ensures short { array_vec_len piece.new ≤ array_vec_len piece.old + 20 }
{
    let mut digits = Buffer::new();
    push(piece, digits.format(number).as_bytes());
}

fn push_filler<const N: usize>(piece: &mut Piece<N>, filler: u8, count: usize)
    requires { array_vec_len piece.old + count ≤ N }
    ensures { piece.new.items ≡ piece.old.items ++ replicate count filler }
{
    for _ in 0..count {
        piece.push(filler);
    }
}

/// A number, right in so many places; a longer one takes the places that it has digits.
pub fn push_right<const N: usize>(piece: &mut Piece<N>, filler: u8, places: usize, number: u64)
    requires few { places ≤ 20 }
    requires room { array_vec_len piece.old + 20 ≤ N }
    ensures value { piece.new.items ≡ piece.old.items ++ right_in filler places (decimal number) }
    ensures short { array_vec_len piece.new ≤ array_vec_len piece.old + 20 }
{
    let mut digits = Buffer::new();
    let text = digits.format(number).as_bytes();
    push_filler(piece, filler, places.saturating_sub(text.len()));
    push(piece, text);
}
