//! Numbered files in memory. A file that isn't there is one with no bytes.
ghost use Rattle.std.specs.Prelude.{◌≡◌, ◌≢◌, ◌+◌, ◌<◌, ◌≤◌, ◌^◌, ℕ, length, take, drop, slice_set, vec_len, IfOk, OnOk, OnErr};
ghost use Rattle.dm_host.specs.Disk.{part};
ghost use Rattle.dm_host.specs.Past.{contents, lengthened, overlaid};

use std::alloc::{AllocError, Global};

// The bytes of a file.
pub fn bytes_of(files: &[Vec<u8>], file: usize) -> &[u8]
    ensures { result.now ≡ contents files.now file }
{
    if file >= files.len() {
        return &[];
    }
    &files[file]
}

// Makes files with no bytes, up to this one.
pub fn grow_to(alloc: Global, files: &mut Vec<Vec<u8>>, file: usize) -> Result<(), AllocError>
    ensures same { contents files.new.items ≡ contents files.old.items }
    ensures has { OnOk result (file < vec_len files.new) }
{
    while files.len() <= file {
        files.push(Vec::new(alloc))?;
    }
    Ok(())
}

// The bytes of a range, as far as there are any.
pub fn copy_range(
    alloc: Global,
    bytes: &[u8],
    place: usize,
    n: usize,
) -> Result<Vec<u8>, AllocError>
    ensures { IfOk result (λ copy. copy.items ≡ take n (drop place bytes.now)) }
{
    if place >= bytes.len() {
        return Ok(Vec::new(alloc));
    }
    let rest = &bytes[place..];
    rest[..n.min(rest.len())].to_vec(alloc)
}

// Fills `into` with the bytes from a place on, zeros past the end.
pub fn read_part(bytes: &[u8], place: u64, into: &mut [u8])
    ensures { into.new ≡ part bytes.now place (length into.old) }
{
    into.fill(0);
    let end = bytes.len() as u64;
    if place >= end {
        return;
    }
    let rest = &bytes[place as usize..];
    let n = rest.len().min(into.len());
    into[..n].copy_from_slice(&rest[..n]);
}

// Fills a file up to a length with zeros.
fn lengthen(bytes: &mut Vec<u8>, end: usize) -> Result<(), AllocError>
    ensures ok { OnOk result (bytes.new.items ≡ lengthened end bytes.old.items) }
    ensures err { OnErr result (bytes.new.items ≡ bytes.old.items) }
{
    if bytes.len() < end {
        bytes.resize(end, 0)?;
    }
    Ok(())
}

fn overlay(bytes: &mut [u8], place: usize, piece: &[u8])
    requires { place + length piece.now ≤ length bytes.old }
    ensures { bytes.new ≡ overlaid place piece.now bytes.old }
{
    bytes[place..place + piece.len()].copy_from_slice(piece);
}

// Writes into a file, which grows where that ends past its end.
fn write_over(bytes: &mut Vec<u8>, place: usize, piece: &[u8]) -> Result<(), AllocError>
    requires { place + length piece.now ≤ 2 ^ 62 }
    ensures ok { OnOk result (bytes.new.items ≡ overlaid place piece.now (lengthened (place + length piece.now) bytes.old.items)) }
    ensures err { OnErr result (bytes.new.items ≡ bytes.old.items) }
{
    lengthen(bytes, place + piece.len())?;
    overlay(bytes, place, piece);
    Ok(())
}

// Writes into one of the files.
pub fn write_into(
    files: &mut Vec<Vec<u8>>,
    file: usize,
    place: usize,
    piece: &[u8],
) -> Result<(), AllocError>
    requires there { file < vec_len files.old }
    requires limit { place + length piece.now ≤ 2 ^ 62 }
    ensures ok { OnOk result (contents files.new.items file ≡ overlaid place piece.now (lengthened (place + length piece.now) (contents files.old.items file))) }
    ensures err { OnErr result (contents files.new.items ≡ contents files.old.items) }
    ensures others { (g : ℕ) → g ≢ file → contents files.new.items g ≡ contents files.old.items g }
{
    write_over(&mut files[file], place, piece)
}

// Sets a byte of one of the files.
pub fn set_byte(files: &mut Vec<Vec<u8>>, file: usize, place: usize, byte: u8)
    requires { place < length (contents files.old.items file) }
    ensures byte { contents files.new.items file ≡ slice_set (contents files.old.items file) place byte }
    ensures others { (g : ℕ) → g ≢ file → contents files.new.items g ≡ contents files.old.items g }
{
    let bytes = &mut files[file];
    bytes[place] = byte;
}
