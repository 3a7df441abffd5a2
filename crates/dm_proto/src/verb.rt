//! The commands by their first word, in families of which each has its own kind of further words.
//!
//! A keyword is looked up before anything is made of the words behind it: so memory is asked only for
//! a word of a command. The tables are `specs/Found`.

ghost use Rattle.std.specs.Prelude.{◌≡◌};
ghost use Rattle.dm_proto.specs.Found.{bare_commands, verbs_on_path, verbs_on_name};
ghost use Rattle.dm_proto.specs.Found.{verbs_on_group, verbs_on_save, row_in};

use dm_base::{Command, DumpName, GroupId, Path};

/// A command of a path alone.
#[derive(Clone, Copy, Debug, PartialEq, Eq)]
pub enum OnPath {
    Read,
    Put,
    Get,
    Release,
    Remove,
    Attr,
}

/// A command of a name alone.
#[derive(Clone, Copy, Debug, PartialEq, Eq)]
pub enum OnName {
    Dump,
    Undump,
}

/// A command of a group alone.
#[derive(Clone, Copy, Debug, PartialEq, Eq)]
pub enum OnGroup {
    Merge,
    Reuse,
    Volumes,
}

/// A command of a group and a name.
#[derive(Clone, Copy, Debug, PartialEq, Eq)]
pub enum OnSave {
    Snap,
    Unsnap,
}

impl OnPath {
    ghost use Rattle.dm_proto.specs.Found.{command_on_path};

    /// The command on that path.
    pub fn command(self, path: Path) -> Command
        ensures { result ≡ command_on_path self path }
    {
        match self {
            OnPath::Read => Command::Read { path },
            OnPath::Put => Command::Put { path },
            OnPath::Get => Command::Get { path },
            OnPath::Release => Command::Release { path },
            OnPath::Remove => Command::Remove { path },
            OnPath::Attr => Command::Attr { path },
        }
    }
}

impl OnName {
    ghost use Rattle.dm_proto.specs.Found.{command_on_name};

    /// The command on that name.
    pub fn command(self, name: DumpName) -> Command
        ensures { result ≡ command_on_name self name }
    {
        match self {
            OnName::Dump => Command::Dump { name },
            OnName::Undump => Command::Undump { name },
        }
    }
}

impl OnGroup {
    ghost use Rattle.dm_proto.specs.Found.{command_on_group};

    /// The command on that group.
    pub fn command(self, group: GroupId) -> Command
        ensures { result ≡ command_on_group self group }
    {
        match self {
            OnGroup::Merge => Command::Merge { group },
            OnGroup::Reuse => Command::Reuse { group },
            OnGroup::Volumes => Command::Volumes { group },
        }
    }
}

impl OnSave {
    ghost use Rattle.dm_proto.specs.Found.{command_on_save};

    /// The command on that group and name.
    pub fn command(self, group: GroupId, name: DumpName) -> Command
        ensures { result ≡ command_on_save self group name }
    {
        match self {
            OnSave::Snap => Command::Snap { group, name },
            OnSave::Unsnap => Command::Unsnap { group, name },
        }
    }
}

/// The command that is this one word.
pub fn bare_command(word: &[u8]) -> Option<Command>
    ensures { result ≡ row_in bare_commands word.now }
{
    if word == b"ls".as_slice() {
        return Some(Command::List);
    }
    if word == b"hdelete".as_slice() {
        return Some(Command::HardDelete);
    }
    if word == b"space".as_slice() {
        return Some(Command::Space);
    }
    if word == b"audit".as_slice() {
        return Some(Command::Audit);
    }
    if word == b"quit".as_slice() {
        return Some(Command::Quit);
    }
    if word == b"shutdown".as_slice() {
        return Some(Command::Shutdown);
    }
    None
}

/// The command of a path that this word begins.
pub fn verb_on_path(word: &[u8]) -> Option<OnPath>
    ensures { result ≡ row_in verbs_on_path word.now }
{
    if word == b"read".as_slice() {
        return Some(OnPath::Read);
    }
    if word == b"put".as_slice() {
        return Some(OnPath::Put);
    }
    if word == b"get".as_slice() {
        return Some(OnPath::Get);
    }
    if word == b"release".as_slice() {
        return Some(OnPath::Release);
    }
    if word == b"rm".as_slice() {
        return Some(OnPath::Remove);
    }
    if word == b"attr".as_slice() {
        return Some(OnPath::Attr);
    }
    None
}

/// The command of a name that this word begins.
pub fn verb_on_name(word: &[u8]) -> Option<OnName>
    ensures { result ≡ row_in verbs_on_name word.now }
{
    if word == b"dump".as_slice() {
        return Some(OnName::Dump);
    }
    if word == b"undump".as_slice() {
        return Some(OnName::Undump);
    }
    None
}

/// The command of a group that this word begins.
pub fn verb_on_group(word: &[u8]) -> Option<OnGroup>
    ensures { result ≡ row_in verbs_on_group word.now }
{
    if word == b"merge".as_slice() {
        return Some(OnGroup::Merge);
    }
    if word == b"reuse".as_slice() {
        return Some(OnGroup::Reuse);
    }
    if word == b"vols".as_slice() {
        return Some(OnGroup::Volumes);
    }
    None
}

/// The command of a group and a name that this word begins.
pub fn verb_on_save(word: &[u8]) -> Option<OnSave>
    ensures { result ≡ row_in verbs_on_save word.now }
{
    if word == b"snap".as_slice() {
        return Some(OnSave::Snap);
    }
    if word == b"unsnap".as_slice() {
        return Some(OnSave::Unsnap);
    }
    None
}
