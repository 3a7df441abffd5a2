//! What one word of a command says: a path, a name, a number, a group, an identifier, a prefix.
//!
//! Each function is a test: it answers none exactly where the word says nothing of its kind. Memory is
//! asked only for a text of the grammar, so want of it is told of no other.

ghost use Rattle.std.specs.Prelude.{◌≡◌, IfOk, OnErr};
ghost use Rattle.std.specs.Option.{SomeIff};
ghost use Rattle.std.specs.Str.Parse.{digits_value};
ghost use Rattle.dm_base.specs.Naming.{IsDumpName, IsPath};
ghost use Rattle.dm_proto.specs.Grammar.{IsNumber};
ghost use Rattle.dm_proto.specs.Found.{bfid_in, group_in, name_in, number_in, path_in, prefix_in};

use dm_base::{Bfid, DIGITS_LIMIT, DumpName, GroupId, NoMemory, Path, Prefix, TextError};
use std::alloc::Global;

/// The path of a word.
pub fn path_of(alloc: Global, word: &[u8]) -> Result<Option<Path>, NoMemory>
    ensures found { IfOk result (λ path. path ≡ path_in word.now) }
    ensures memory { OnErr result (IsPath word.now) }
{
    match Path::of_bytes(alloc, word) {
        Ok(path) => Ok(Some(path)),
        Err(TextError::Grammar) => Ok(None),
        Err(TextError::NoMemory) => Err(NoMemory),
    }
}

/// The name of a word.
pub fn name_of(alloc: Global, word: &[u8]) -> Result<Option<DumpName>, NoMemory>
    ensures found { IfOk result (λ name. name ≡ name_in word.now) }
    ensures memory { OnErr result (IsDumpName word.now) }
{
    match DumpName::of_bytes(alloc, word) {
        Ok(name) => Ok(Some(name)),
        Err(TextError::Grammar) => Ok(None),
        Err(TextError::NoMemory) => Err(NoMemory),
    }
}

/// The prefix of a word: `/`, or a path.
pub fn prefix_of(alloc: Global, word: &[u8]) -> Result<Option<Prefix>, NoMemory>
    ensures found { IfOk result (λ prefix. prefix ≡ prefix_in word.now) }
    ensures memory { OnErr result (IsPath word.now) }
{
    if word == b"/".as_slice() {
        return Ok(Some(Prefix::Root));
    }
    match path_of(alloc, word)? {
        Some(path) => Ok(Some(Prefix::Under(path))),
        None => Ok(None),
    }
}

/// The group of a word: one digit, 1 to 4.
pub fn group_of(word: &[u8]) -> Option<GroupId>
    ensures { result ≡ group_in word.now }
{
    let [digit] = word else {
        return None;
    };
    if *digit >= b'1' && *digit <= b'4' {
        return Some(GroupId(*digit - b'0'));
    }
    None
}

/// The identifier of a word, as it prints.
pub fn bfid_of(word: &[u8]) -> Option<Bfid>
    ensures { result ≡ bfid_in word.now }
{
    let Some(bfid) = Bfid::of_digits(word) else {
        return None;
    };
    // The value is taken out for what its type says of it: 128 bits.
    let value = bfid.0;
    Some(Bfid(value))
}

/// The number of a word: 1 to 19 decimal digits.
pub fn number_of(word: &[u8]) -> Option<u64>
    ensures { result ≡ number_in word.now }
{
    number_of_digits(word)
}

fn number_of_digits(digits: &[u8]) -> Option<u64>
    ensures { SomeIff result (IsNumber digits.now) (digits_value 10 digits.now) }
{
    if digits.is_empty() || digits.len() > DIGITS_LIMIT {
        return None;
    }
    let mut number = 0;
    for digit in digits {
        if !digit.is_ascii_digit() {
            return None;
        }
        number = number * 10 + u64::from(*digit - b'0');
    }
    Some(number)
}
