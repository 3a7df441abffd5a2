//! Lists of things behind their number.

ghost use Rattle.std.specs.Prelude.{◌≡◌, ◌<◌, ◌≤◌, ◌+◌, ◌^◌, length, IsTrue};
ghost use Rattle.std.specs.List.{AllByRecursion, flat_map};
ghost use Rattle.dm_fields.specs.Reading.{IsRead, AreItems};
ghost use Rattle.dm_fields.specs.Writing.{IsPut};

use crate::field::{Field, Spelled};
use crate::input::{Input, ReadError};
use crate::numbers::{put_be32, put_bytes, take_be32, take_byte};
use dm_base::Listed;
use std::alloc::Global;

/// How many bytes the items have together.
pub fn items_len<T: Spelled>(items: &[T]) -> usize
    requires { length (flat_map T.spelling items.now) < 2 ^ 64 }
    ensures { result ≡ length (flat_map T.spelling items.now) }
{
    let mut sum = 0;
    for item in items {
        sum += item.spelled_len();
    }
    sum
}

/// Writes the items one after the other.
pub fn put_items<T: Spelled>(items: &[T], out: &mut [u8], at: usize) -> usize
    requires fits { AllByRecursion T.fits items.now }
    requires room { at + length (flat_map T.spelling items.now) ≤ length out.old }
    ensures { IsPut (flat_map T.spelling items.now) at out.old out.new result }
{
    let mut end = at;
    for item in items {
        end = item.put(out, end);
    }
    end
}

/// Reads so many items.
pub fn read_items<T: Field>(
    alloc: Global,
    input: &mut Input<'_>,
    count: usize,
) -> Result<Listed<T>, ReadError>
    ensures { IsRead (flat_map T.spelling) (AreItems T.fits count) input.old input.new result }
{
    let mut items = Vec::new(alloc);
    for _ in 0..count {
        let item = match T::read(alloc, input) {
            Ok(item) => item,
            Err(error) => return Err(error),
        };
        if items.push(item).is_err() {
            return Err(ReadError::NoMemory);
        }
    }
    Ok(Listed::from_vec(items))
}

#[tactic(auto, using(crate::specs::Once::widths))]
impl<T: Spelled> Spelled for Listed<T> {
    ghost use Rattle.std.specs.Prelude.{◌<◌, ◌^◌, length};
    ghost use Rattle.std.specs.List.{AllByRecursion};
    ghost use Rattle.dm_fields.specs.Fields.{list_field};

    ghost spelling = { list_field T.spelling };

    ghost fits = { λ items. (length items < 2 ^ 32) × AllByRecursion T.fits items };

    fn spelled_len(&self) -> usize {
        4 + items_len(self.as_slice())
    }

    fn put(&self, out: &mut [u8], at: usize) -> usize {
        let items = self.as_slice();
        let behind = put_be32(out, at, items.len() as u32);
        put_items(items, out, behind)
    }
}

impl<T: Field> Field for Listed<T> {
    ghost use Rattle.dm_fields.specs.Once.{list_once};

    ghost once = { list_once T.spelling T.fits T.once };

    fn read(alloc: Global, input: &mut Input<'_>) -> Result<Listed<T>, ReadError> {
        let Some(count) = take_be32(input) else {
            return Err(ReadError::Damaged);
        };
        read_items(alloc, input, count as usize)
    }
}

/// A list behind its number in one byte.
#[derive(Drop)]
pub struct ShortList<T> {
    pub items: Listed<T>,
}

impl<T: Spelled> Spelled for ShortList<T> {
    ghost use Rattle.std.specs.Prelude.{◌<◌, ◌^◌, length};
    ghost use Rattle.std.specs.List.{AllByRecursion};
    ghost use Rattle.dm_fields.specs.Fields.{short_list_field};

    ghost spelling = { λ l. short_list_field T.spelling l.items };

    ghost fits = { λ l. (length l.items < 2 ^ 8) × AllByRecursion T.fits l.items };

    fn spelled_len(&self) -> usize {
        ShortListOf { items: &self.items }.spelled_len()
    }

    fn put(&self, out: &mut [u8], at: usize) -> usize {
        ShortListOf { items: &self.items }.put(out, at)
    }
}

/// A list that is lent, to be put behind its number in one byte.
#[derive(Drop)]
pub struct ShortListOf<'a, T> {
    pub items: &'a Listed<T>,
}

impl<'a, T: Spelled> Spelled for ShortListOf<'a, T> {
    ghost use Rattle.std.specs.Prelude.{◌<◌, ◌^◌, length};
    ghost use Rattle.std.specs.List.{AllByRecursion};
    ghost use Rattle.dm_fields.specs.Fields.{short_list_field};

    ghost spelling = { λ l. short_list_field T.spelling l.items.now };

    ghost fits = { λ l. (length l.items.now < 2 ^ 8) × AllByRecursion T.fits l.items.now };

    fn spelled_len(&self) -> usize {
        1 + items_len(self.items.as_slice())
    }

    fn put(&self, out: &mut [u8], at: usize) -> usize {
        let items = self.items.as_slice();
        let behind = put_bytes(out, at, &[items.len() as u8]);
        put_items(items, out, behind)
    }
}

impl<T: Field> Field for ShortList<T> {
    ghost use Rattle.dm_fields.specs.Once.{wrapped_short_list_once};

    ghost once = { wrapped_short_list_once T.spelling T.fits T.once };

    fn read(alloc: Global, input: &mut Input<'_>) -> Result<ShortList<T>, ReadError> {
        let Some(count) = take_byte(input) else {
            return Err(ReadError::Damaged);
        };
        match read_items(alloc, input, count as usize) {
            Ok(items) => Ok(ShortList { items }),
            Err(error) => Err(error),
        }
    }
}
