//! Fields of a fixed width: numbers, flags, and what is known by a number or by six letters.

use crate::field::{Field, Spelled};
use crate::input::{Input, ReadError};
use crate::numbers::{put_be64, put_be128, put_bytes, take_be64, take_be128, take_byte};
use dm_base::{Bfid, GroupId, Ino, Secs, VSN_LENGTH, Vsn};
use std::alloc::Global;

impl Spelled for u8 {
    ghost use Rattle.std.specs.Prelude.{◌<◌, ◌^◌};
    ghost use Rattle.dm_fields.specs.Fields.{byte_field};

    ghost spelling = { byte_field };

    ghost fits = { λ n. n < 2 ^ 8 };

    fn spelled_len(&self) -> usize {
        1
    }

    fn put(&self, out: &mut [u8], at: usize) -> usize {
        put_bytes(out, at, &[*self])
    }
}

impl Field for u8 {
    ghost use Rattle.dm_fields.specs.Once.{byte_once};

    ghost once = { λ x y r s p q e. byte_once x y r s e };

    fn read(_alloc: Global, input: &mut Input<'_>) -> Result<u8, ReadError> {
        match take_byte(input) {
            Some(number) => Ok(number),
            None => Err(ReadError::Damaged),
        }
    }
}

#[tactic(auto, using(crate::specs::Once::widths))]
impl Spelled for u64 {
    ghost use Rattle.std.specs.Prelude.{◌<◌, ◌^◌};
    ghost use Rattle.dm_fields.specs.Numbers.{be64};

    ghost spelling = { be64 };

    ghost fits = { λ n. n < 2 ^ 64 };

    fn spelled_len(&self) -> usize {
        8
    }

    fn put(&self, out: &mut [u8], at: usize) -> usize {
        put_be64(out, at, *self)
    }
}

#[tactic(auto, using(crate::specs::Once::widths))]
impl Field for u64 {
    ghost use Rattle.dm_fields.specs.Once.{number_once};

    ghost once = { number_once 8 };

    fn read(_alloc: Global, input: &mut Input<'_>) -> Result<u64, ReadError> {
        match take_be64(input) {
            Some(number) => Ok(number),
            None => Err(ReadError::Damaged),
        }
    }
}

#[tactic(auto, using(crate::specs::Once::widths))]
impl Spelled for Bfid {
    ghost use Rattle.std.specs.Prelude.{◌<◌, ◌^◌};
    ghost use Rattle.dm_fields.specs.Numbers.{be128};

    ghost spelling = { λ b. be128 b.0 };

    ghost fits = { λ b. b.0 < 2 ^ 128 };

    fn spelled_len(&self) -> usize {
        16
    }

    fn put(&self, out: &mut [u8], at: usize) -> usize {
        put_be128(out, at, self.0)
    }
}

#[tactic(auto, using(crate::specs::Once::widths))]
impl Field for Bfid {
    ghost use Rattle.dm_fields.specs.Once.{bfid_once};

    ghost once = { bfid_once };

    fn read(_alloc: Global, input: &mut Input<'_>) -> Result<Bfid, ReadError> {
        match take_be128(input) {
            Some(number) => Ok(Bfid(number)),
            None => Err(ReadError::Damaged),
        }
    }
}

impl Spelled for GroupId {
    ghost use Rattle.std.specs.Prelude.{◌<◌, ◌^◌};
    ghost use Rattle.dm_fields.specs.Fields.{byte_field};

    ghost spelling = { λ g. byte_field g.0 };

    ghost fits = { λ g. g.0 < 2 ^ 8 };

    fn spelled_len(&self) -> usize {
        1
    }

    fn put(&self, out: &mut [u8], at: usize) -> usize {
        put_bytes(out, at, &[self.0])
    }
}

impl Field for GroupId {
    ghost use Rattle.dm_fields.specs.Once.{group_once};

    ghost once = { group_once };

    fn read(_alloc: Global, input: &mut Input<'_>) -> Result<GroupId, ReadError> {
        match take_byte(input) {
            Some(number) => Ok(GroupId(number)),
            None => Err(ReadError::Damaged),
        }
    }
}

#[tactic(auto, using(crate::specs::Once::widths))]
impl Spelled for Ino {
    ghost use Rattle.std.specs.Prelude.{◌<◌, ◌^◌};
    ghost use Rattle.dm_fields.specs.Numbers.{be64};

    ghost spelling = { λ n. be64 n.0 };

    ghost fits = { λ n. n.0 < 2 ^ 64 };

    fn spelled_len(&self) -> usize {
        8
    }

    fn put(&self, out: &mut [u8], at: usize) -> usize {
        put_be64(out, at, self.0)
    }
}

#[tactic(auto, using(crate::specs::Once::widths))]
impl Field for Ino {
    ghost use Rattle.dm_fields.specs.Once.{ino_once};

    ghost once = { ino_once };

    fn read(_alloc: Global, input: &mut Input<'_>) -> Result<Ino, ReadError> {
        match take_be64(input) {
            Some(number) => Ok(Ino(number)),
            None => Err(ReadError::Damaged),
        }
    }
}

#[tactic(auto, using(crate::specs::Once::widths))]
impl Spelled for Secs {
    ghost use Rattle.std.specs.Prelude.{◌<◌, ◌^◌};
    ghost use Rattle.dm_fields.specs.Numbers.{be64};

    ghost spelling = { λ t. be64 t.0 };

    ghost fits = { λ t. t.0 < 2 ^ 64 };

    fn spelled_len(&self) -> usize {
        8
    }

    fn put(&self, out: &mut [u8], at: usize) -> usize {
        put_be64(out, at, self.0)
    }
}

#[tactic(auto, using(crate::specs::Once::widths))]
impl Field for Secs {
    ghost use Rattle.dm_fields.specs.Once.{secs_once};

    ghost once = { secs_once };

    fn read(_alloc: Global, input: &mut Input<'_>) -> Result<Secs, ReadError> {
        match take_be64(input) {
            Some(number) => Ok(Secs(number)),
            None => Err(ReadError::Damaged),
        }
    }
}

impl Spelled for bool {
    ghost use Rattle.std.specs.Prelude.{⊤};
    ghost use Rattle.dm_fields.specs.Fields.{flag_field};

    ghost spelling = { flag_field };

    ghost fits = { λ _. ⊤ };

    fn spelled_len(&self) -> usize {
        1
    }

    fn put(&self, out: &mut [u8], at: usize) -> usize {
        put_bytes(out, at, &[u8::from(*self)])
    }
}

impl Field for bool {
    ghost use Rattle.dm_fields.specs.Once.{flag_once};

    ghost once = { λ x y r s p q e. flag_once x y r s e };

    fn read(_alloc: Global, input: &mut Input<'_>) -> Result<bool, ReadError> {
        match take_byte(input) {
            Some(0) => Ok(false),
            Some(1) => Ok(true),
            _ => Err(ReadError::Damaged),
        }
    }
}

impl Spelled for Vsn {
    ghost use Rattle.dm_base.specs.Naming.{IsSerial};

    ghost spelling = { λ v. v.0 };

    ghost fits = { λ v. IsSerial v.0 };

    fn spelled_len(&self) -> usize {
        let text: &[u8] = &self.0;
        text.len()
    }

    fn put(&self, out: &mut [u8], at: usize) -> usize {
        put_bytes(out, at, &self.0)
    }
}

impl Field for Vsn {
    ghost use Rattle.dm_fields.specs.Once.{vsn_once};

    ghost once = { vsn_once };

    fn read(_alloc: Global, input: &mut Input<'_>) -> Result<Vsn, ReadError> {
        let Some(text) = input.take(VSN_LENGTH) else {
            return Err(ReadError::Damaged);
        };
        match Vsn::of_bytes(text) {
            Some(vsn) => Ok(vsn),
            None => Err(ReadError::Damaged),
        }
    }
}
