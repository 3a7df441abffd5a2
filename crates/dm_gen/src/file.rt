//! The files of a session.

ghost use Rattle.std.specs.Prelude.{◌≡◌, ◌≤◌, ◌+◌, IfOk};
ghost use Rattle.dm_gen.specs.Session.{bytes_of as bytes_of_file, path_of as path_of_file};

use dm_base::{Bytes, NoMemory, Path, TextError};
use std::alloc::Global;

/// The length of each file.
const FILE_SIZE: usize = 1000;

/// The name of a file.
pub fn path_of(alloc: Global, number: u64) -> Result<Path, NoMemory>
    requires { number ≤ 4001 }
    ensures { IfOk result (λ path. path ≡ path_of_file number) }
{
    let name = [
        b'/',
        b'g',
        b'/',
        digit(number / 1000),
        digit(number / 100 % 10),
        digit(number / 10 % 10),
        digit(number % 10),
    ];
    match Path::of_bytes(alloc, &name) {
        Ok(path) => Ok(path),
        Err(TextError::NoMemory) => Err(NoMemory),
        Err(TextError::Grammar) => unreachable!(),
    }
}

fn digit(value: u64) -> u8
    requires { value ≤ 9 }
    ensures { result ≡ 48 + value }
{
    b'0' + value as u8
}

/// The bytes of a file.
pub fn bytes_of(alloc: Global, number: u64) -> Result<Bytes, NoMemory>
    ensures { IfOk result (λ bytes. bytes ≡ bytes_of_file number) }
{
    let byte = (number % 256) as u8;
    Ok(Bytes::from_vec(vec![in alloc; byte; FILE_SIZE]?))
}
