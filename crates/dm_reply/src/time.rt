//! Times as a user reads them (docs/DEFINITIONS.md, "Times").
//!
//! `jiff` finds the civil date and time of the day. What is said of the text doesn't rest on its arithmetic: the day is
//! the one that counting from the first of January 1970 comes to.

ghost use Rattle.std.specs.Prelude.{◌≡◌, ◌+◌, ◌*◌, ◌≤◌, ◌++◌, pos, unsigned_abs};
ghost use Rattle.arrayvec.specs.ArrayVec.{array_vec_len};
ghost use Rattle.jiff_core.specs.DateTime.{civil_nanos};
ghost use Rattle.dm_reply.specs.Calendar.{date_text, clock_text, moment_text, time_text, last_dated_second};

use crate::piece::{Piece, push, push_number, push_right};
use jiff::Timestamp;
use jiff::civil::DateTime;
use jiff::tz::Offset;

/// The last second that is printed as a date: the last of the year 9998. Behind it there are places on Earth whose
/// civil time `jiff` doesn't have.
const LAST_DATED_SECOND: u64 = 253_370_764_799;

/// Puts a time behind what is there.
pub fn push_time<const N: usize>(piece: &mut Piece<N>, seconds: u64)
    requires { array_vec_len piece.old + 128 ≤ N }
    ensures value { piece.new.items ≡ piece.old.items ++ time_text seconds }
    ensures short { array_vec_len piece.new ≤ array_vec_len piece.old + 128 }
{
    if seconds > LAST_DATED_SECOND {
        push_number(piece, seconds);
        push(piece, b"s");
        return;
    }
    push_moment(piece, seconds, civil_time(seconds));
}

fn civil_time(seconds: u64) -> DateTime
    requires { seconds ≤ last_dated_second }
    ensures { civil_nanos result ≡ pos (seconds * 1000000000) }
{
    let Ok(instant) = Timestamp::from_second(seconds as i64) else {
        unreachable!()
    };
    Offset::UTC.to_datetime(instant)
}

// The date and time of the day that `jiff` has for these seconds.
fn push_moment<const N: usize>(piece: &mut Piece<N>, seconds: u64, moment: DateTime)
    requires room { array_vec_len piece.old + 128 ≤ N }
    requires moment { civil_nanos moment ≡ pos (seconds * 1000000000) }
    ensures value { piece.new.items ≡ piece.old.items ++ moment_text seconds }
    ensures short { array_vec_len piece.new ≤ array_vec_len piece.old + 128 }
{
    let year = moment.year().unsigned_abs();
    push_date(piece, year, whole(moment.month()), whole(moment.day()));
    push(piece, b"T");
    let hour = whole(moment.hour());
    push_clock(piece, hour, whole(moment.minute()), whole(moment.second()));
    push(piece, b"Z");
}

fn whole(part: i8) -> u8
    ensures { result ≡ unsigned_abs part }
{
    part.unsigned_abs()
}

fn push_date<const N: usize>(piece: &mut Piece<N>, year: u16, month: u8, day: u8)
    requires { array_vec_len piece.old + 62 ≤ N }
    ensures value { piece.new.items ≡ piece.old.items ++ date_text (record { year = year; month = month; day = day }) }
    ensures short { array_vec_len piece.new ≤ array_vec_len piece.old + 62 }
{
    push_right(piece, b'0', 4, u64::from(year));
    push(piece, b"-");
    push_right(piece, b'0', 2, u64::from(month));
    push(piece, b"-");
    push_right(piece, b'0', 2, u64::from(day));
}

fn push_clock<const N: usize>(piece: &mut Piece<N>, hour: u8, minute: u8, second: u8)
    requires { array_vec_len piece.old + 62 ≤ N }
    ensures value { piece.new.items ≡ piece.old.items ++ clock_text hour minute second }
    ensures short { array_vec_len piece.new ≤ array_vec_len piece.old + 62 }
{
    push_right(piece, b'0', 2, u64::from(hour));
    push(piece, b":");
    push_right(piece, b'0', 2, u64::from(minute));
    push(piece, b":");
    push_right(piece, b'0', 2, u64::from(second));
}
