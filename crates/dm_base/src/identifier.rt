//! Identifiers of bitfiles and volume groups.

ghost use Rattle.std.specs.Prelude.{◌≡◌, ◌≢◌, ℕ, ◌+◌, ◌*◌, ◌^◌, ◌<◌, IfSome, IfNone};
ghost use Rattle.dm_base.specs.Hexadecimal.{hexadecimal, hexadecimal_digit as digit_of};

/// Identifies a bitfile: the bytes that one put stored. The upper 64 bits are the number of the
/// site, the lower 64 a counter that rises by one with each begun put, so that none is given twice.
#[derive(Clone, Copy, Debug, PartialEq, Eq, PartialOrd, Ord)]
pub struct Bfid(pub u128);

/// Number of a volume group, 1 to 4.
#[derive(Clone, Copy, Debug, PartialEq, Eq, PartialOrd, Ord)]
pub struct GroupId(pub u8);

/// Number of an inode: that of the change that made it.
#[derive(Clone, Copy, Debug, PartialEq, Eq, PartialOrd, Ord)]
pub struct Ino(pub u64);

/// A time, in seconds since 1970.
#[derive(Clone, Copy, Debug, PartialEq, Eq, PartialOrd, Ord)]
pub struct Secs(pub u64);

/// How many digits a `Bfid` prints as.
pub const BFID_DIGITS: usize = 32;

impl Bfid {
    /// The identifier of a site's bitfile with this counter.
    pub fn of(site: u64, counter: u64) -> Bfid
        ensures { result.0 ≡ site * 2 ^ 64 + counter }
    {
        Bfid((u128::from(site) << 64) + u128::from(counter))
    }

    /// The text: 32 lower-case hexadecimal digits, the highest first.
    pub fn digits(self) -> [u8; 32]
        ensures { result ≡ hexadecimal 32 self.0 }
    {
        let mut digits = [b'0'; BFID_DIGITS];
        let mut rest = self.0;
        for written in 0..BFID_DIGITS {
            digits[BFID_DIGITS - 1 - written] = hexadecimal_digit((rest % 16) as u8);
            rest /= 16;
        }
        digits
    }
}

impl Bfid {
    /// The identifier that prints as this text, or none where the text is no such print: other than 32
    /// digits, or a capital among them.
    pub fn of_digits(text: &[u8]) -> Option<Bfid>
        ensures spelled { IfSome result (λ bfid. hexadecimal 32 bfid.0 ≡ text.now) }
        ensures none { IfNone result ((n : ℕ) → hexadecimal 32 n ≢ text.now) }
    {
        if text.len() != BFID_DIGITS {
            return None;
        }
        let mut value = 0;
        for byte in text {
            let Some(digit) = hexadecimal_value(*byte) else {
                return None;
            };
            value = value * 16 + u128::from(digit);
        }
        Some(Bfid(value))
    }
}

// What a digit stands for, where the byte is one.
fn hexadecimal_value(byte: u8) -> Option<u8>
    ensures small { IfSome result (λ value. value < 16) }
    ensures spelled { IfSome result (λ value. digit_of value ≡ byte) }
    ensures none { IfNone result ((value : ℕ) → value < 16 → digit_of value ≢ byte) }
{
    match byte {
        b'0'..=b'9' => Some(byte - b'0'),
        b'a'..=b'f' => Some(byte - b'a' + 10),
        _ => None,
    }
}

fn hexadecimal_digit(value: u8) -> u8
    requires { value < 16 }
    ensures { result ≡ digit_of value }
{
    if value < 10 {
        b'0' + value
    } else {
        b'a' + (value - 10)
    }
}
