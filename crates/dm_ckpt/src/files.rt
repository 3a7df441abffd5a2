//! The numbers of a component's files. Log 0 has the component's own number, so that it is the file of a component
//! that never took a checkpoint.
ghost use Rattle.std.specs.Prelude.{◌≡◌, ◌<◌};
ghost use Rattle.dm_ckpt.specs.Files.{opposite, area_file, log_file};

/// An area and the log that goes with it.
#[derive(Clone, Copy, Debug, PartialEq, Eq)]
pub enum Index {
    First,
    Second,
}

pub fn opposite_of(index: Index) -> Index
    ensures { result ≡ opposite index }
{
    match index {
        Index::First => Index::Second,
        Index::Second => Index::First,
    }
}

pub fn area_number(component: u8, index: Index) -> u32
    requires { component < 5 }
    ensures number { result ≡ area_file component index }
    ensures limit { result < 256 }
{
    match index {
        Index::First => 128 + 4 * component as u32,
        Index::Second => 129 + 4 * component as u32,
    }
}

pub fn log_number(component: u8, index: Index) -> u32
    requires { component < 5 }
    ensures number { result ≡ log_file component index }
    ensures limit { result < 256 }
{
    match index {
        Index::First => component as u32,
        Index::Second => 130 + 4 * component as u32,
    }
}
