//! Serial numbers of volumes (docs/DEFINITIONS.md, "Names").

ghost use Rattle.std.specs.Prelude.{◌≡◌, ◌↔◌, IfSome, IsSome, IsTrue};
ghost use Rattle.dm_base.specs.Naming.{IsSerial, is_all_serial, is_serial_byte as is_serial_byte_of};

/// The serial number of a volume: six of A-Z and 0-9. Two volumes of a site never have one serial
/// number.
#[derive(Clone, Copy, Debug, PartialEq, Eq, PartialOrd, Ord)]
pub struct Vsn(pub [u8; 6]);

/// How many bytes a serial number has.
pub const VSN_LENGTH: usize = 6;

impl Vsn {
    /// The serial number of this text, or none where it isn't one.
    pub fn of_bytes(text: &[u8]) -> Option<Vsn>
        ensures is { IfSome result (λ vsn. vsn.0 ≡ text.now) }
        ensures grammar { IsSome result ↔ IsSerial text.now }
    {
        if text.len() != VSN_LENGTH {
            return None;
        }
        let Ok(bytes) = <[u8; VSN_LENGTH]>::try_from(text) else {
            return None;
        };
        if are_serial_bytes(text) {
            Some(Vsn(bytes))
        } else {
            None
        }
    }
}

fn are_serial_bytes(text: &[u8]) -> bool
    ensures { result ≡ is_all_serial text.now }
{
    for byte in text {
        if !is_serial_byte(*byte) {
            return false;
        }
    }
    true
}

fn is_serial_byte(byte: u8) -> bool
    ensures { result ≡ is_serial_byte_of byte }
{
    byte.is_ascii_uppercase() || byte.is_ascii_digit()
}
