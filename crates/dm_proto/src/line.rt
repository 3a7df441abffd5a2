//! What a line says (docs/COMMANDS.md).
//!
//! A line is taken apart by the number of its words. Each function here finds exactly what
//! `specs/Found` says of those words, which is proved to be what the grammar means. Numbers and groups
//! are looked at before anything is copied, so a line that is no command asks for little memory.

ghost use Rattle.std.specs.Prelude.{◌≡◌, [], ◌∷◌, IfOk, OnErr};
ghost use Rattle.dm_proto.specs.Words.{words};
ghost use Rattle.dm_proto.specs.Found.{found_in, one_word as one_word_in, two_words as two_words_in};
ghost use Rattle.dm_proto.specs.Found.{three_words as three_words_in, four_words as four_words_in};
ghost use Rattle.dm_proto.specs.Found.{age_line as age_line_in, group_line as group_line_in};
ghost use Rattle.dm_proto.specs.Found.{name_line as name_line_in, path_line as path_line_in};
ghost use Rattle.dm_proto.specs.Found.{write_line as write_line_in, patch_line as patch_line_in};
ghost use Rattle.dm_proto.specs.Found.{move_line as move_line_in, save_line as save_line_in};
ghost use Rattle.dm_proto.specs.Found.{move_two_line as move_two_line_in};
ghost use Rattle.dm_proto.specs.Found.{restore_line as restore_line_in};
ghost use Rattle.dm_proto.specs.Found.{salvage_line as salvage_line_in, given, path_in};

use crate::argument::{bfid_of, group_of, name_of, number_of, path_of, prefix_of};
use crate::verb::{
    OnGroup, OnName, OnPath, OnSave, bare_command, verb_on_group, verb_on_name, verb_on_path,
    verb_on_save,
};
use crate::words::{next_word, without_return};
use dm_base::{Bytes, Command, NoMemory, Path};
use std::alloc::Global;

/// What a line says.
#[derive(Drop)]
pub enum Line {
    /// It has no word.
    Blank,
    /// It has a word, and is no command.
    Syntax,
    /// A command that has no payload.
    Command(Command),
    /// A command behind whose line a payload stands.
    Payload(Opening),
}

/// What the line of a write or patch says.
#[derive(Drop)]
pub struct Opening {
    pub path: Path,
    /// Where a patch begins. A write has none.
    pub offset: Option<u64>,
    /// How many bytes of payload follow.
    pub size: u64,
}

impl Opening {
    ghost use Rattle.dm_proto.specs.Found.{kept_command, long_command};

    /// The command with these bytes.
    pub fn kept(self, bytes: Bytes) -> Command
        ensures { result ≡ kept_command self.path self.offset bytes }
    {
        let path = self.path;
        match self.offset {
            None => Command::Write { path, bytes },
            Some(offset) => Command::Patch {
                path,
                offset,
                bytes,
            },
        }
    }

    /// The command of a payload that is kept nowhere.
    pub fn long(self) -> Command
        ensures { result ≡ long_command self.path self.offset self.size }
    {
        let path = self.path;
        let len = self.size;
        match self.offset {
            None => Command::LongWrite { path, len },
            Some(offset) => Command::LongPatch { path, offset, len },
        }
    }
}

/// What a line says, without its line feed.
pub fn line_of(alloc: Global, line: &[u8]) -> Result<Line, NoMemory>
    ensures { IfOk result (λ found. found ≡ found_in (words line.now)) }
{
    let Some((first, rest)) = next_word(without_return(line)) else {
        return Ok(Line::Blank);
    };
    let Some((second, rest)) = next_word(rest) else {
        return Ok(one_word(first));
    };
    let Some((third, rest)) = next_word(rest) else {
        return two_words(alloc, first, second);
    };
    let Some((fourth, rest)) = next_word(rest) else {
        return three_words(alloc, first, second, third);
    };
    match next_word(rest) {
        Some(_) => Ok(Line::Syntax),
        None => four_words(alloc, first, second, third, fourth),
    }
}

fn one_word(word: &[u8]) -> Line
    ensures { result ≡ one_word_in word.now }
{
    match bare_command(word) {
        Some(command) => Line::Command(command),
        None => Line::Syntax,
    }
}

fn two_words(alloc: Global, first: &[u8], second: &[u8]) -> Result<Line, NoMemory>
    ensures { IfOk result (λ found. found ≡ two_words_in first.now second.now) }
{
    if let Some(verb) = verb_on_path(first) {
        return path_line(alloc, verb, second);
    }
    if let Some(verb) = verb_on_name(first) {
        return name_line(alloc, verb, second);
    }
    if let Some(verb) = verb_on_group(first) {
        return Ok(group_line(verb, second));
    }
    if first == b"age".as_slice() {
        return Ok(age_line(second));
    }
    if first == b"audit".as_slice() && second == b"deep".as_slice() {
        return Ok(Line::Command(Command::AuditDeep));
    }
    Ok(Line::Syntax)
}

fn three_words(alloc: Global, first: &[u8], second: &[u8], third: &[u8]) -> Result<Line, NoMemory>
    ensures { IfOk result (λ found. found ≡ three_words_in first.now second.now third.now) }
{
    if first == b"write".as_slice() {
        return write_line(alloc, second, third);
    }
    if first == b"put".as_slice() && second == b"-r".as_slice() {
        return put_release_line(alloc, third);
    }
    if first == b"move".as_slice() {
        return move_line(alloc, second, third);
    }
    match verb_on_save(first) {
        Some(verb) => save_line(alloc, verb, second, third),
        None => Ok(Line::Syntax),
    }
}

fn four_words(
    alloc: Global,
    first: &[u8],
    second: &[u8],
    third: &[u8],
    fourth: &[u8],
) -> Result<Line, NoMemory>
    ensures { IfOk result (λ found.
        found ≡ four_words_in first.now second.now third.now fourth.now) }
{
    if first == b"patch".as_slice() {
        return patch_line(alloc, second, third, fourth);
    }
    if first == b"restore".as_slice() {
        return restore_line(alloc, second, third, fourth);
    }
    if first == b"move".as_slice() {
        return move_two_line(alloc, second, third, fourth);
    }
    if first == b"salvage".as_slice() {
        return salvage_line(alloc, second, third, fourth);
    }
    Ok(Line::Syntax)
}

fn path_line(alloc: Global, verb: OnPath, word: &[u8]) -> Result<Line, NoMemory>
    ensures { IfOk result (λ found. found ≡ path_line_in verb word.now) }
{
    match path_of(alloc, word)? {
        Some(path) => Ok(Line::Command(verb.command(path))),
        None => Ok(Line::Syntax),
    }
}

fn name_line(alloc: Global, verb: OnName, word: &[u8]) -> Result<Line, NoMemory>
    ensures { IfOk result (λ found. found ≡ name_line_in verb word.now) }
{
    match name_of(alloc, word)? {
        Some(name) => Ok(Line::Command(verb.command(name))),
        None => Ok(Line::Syntax),
    }
}

fn group_line(verb: OnGroup, word: &[u8]) -> Line
    ensures { result ≡ group_line_in verb word.now }
{
    match group_of(word) {
        Some(group) => Line::Command(verb.command(group)),
        None => Line::Syntax,
    }
}

fn age_line(word: &[u8]) -> Line
    ensures { result ≡ age_line_in word.now }
{
    match number_of(word) {
        Some(age) => Line::Command(Command::Age { age }),
        None => Line::Syntax,
    }
}

fn write_line(alloc: Global, path: &[u8], size: &[u8]) -> Result<Line, NoMemory>
    ensures { IfOk result (λ found. found ≡ write_line_in path.now size.now) }
{
    let Some(size) = number_of(size) else {
        return Ok(Line::Syntax);
    };
    match path_of(alloc, path)? {
        Some(path) => Ok(Line::Payload(Opening {
            path,
            offset: None,
            size,
        })),
        None => Ok(Line::Syntax),
    }
}

fn put_release_line(alloc: Global, path: &[u8]) -> Result<Line, NoMemory>
    ensures { IfOk result (λ found.
        found ≡ given (path_in path.now) (λ p. Line.Command (Command.PutRelease p))) }
{
    match path_of(alloc, path)? {
        Some(path) => Ok(Line::Command(Command::PutRelease { path })),
        None => Ok(Line::Syntax),
    }
}

fn move_line(alloc: Global, prefix: &[u8], group: &[u8]) -> Result<Line, NoMemory>
    ensures { IfOk result (λ found. found ≡ move_line_in prefix.now group.now) }
{
    let Some(group) = group_of(group) else {
        return Ok(Line::Syntax);
    };
    match prefix_of(alloc, prefix)? {
        Some(prefix) => Ok(Line::Command(Command::Move {
            prefix,
            group,
            second: None,
        })),
        None => Ok(Line::Syntax),
    }
}

fn save_line(alloc: Global, verb: OnSave, group: &[u8], name: &[u8]) -> Result<Line, NoMemory>
    ensures { IfOk result (λ found. found ≡ save_line_in verb group.now name.now) }
{
    let Some(group) = group_of(group) else {
        return Ok(Line::Syntax);
    };
    match name_of(alloc, name)? {
        Some(name) => Ok(Line::Command(verb.command(group, name))),
        None => Ok(Line::Syntax),
    }
}

fn patch_line(alloc: Global, path: &[u8], offset: &[u8], size: &[u8]) -> Result<Line, NoMemory>
    ensures { IfOk result (λ found. found ≡ patch_line_in path.now offset.now size.now) }
{
    let Some(offset) = number_of(offset) else {
        return Ok(Line::Syntax);
    };
    let Some(size) = number_of(size) else {
        return Ok(Line::Syntax);
    };
    match path_of(alloc, path)? {
        Some(path) => Ok(Line::Payload(Opening {
            path,
            offset: Some(offset),
            size,
        })),
        None => Ok(Line::Syntax),
    }
}

fn restore_line(alloc: Global, name: &[u8], path: &[u8], target: &[u8]) -> Result<Line, NoMemory>
    ensures { IfOk result (λ found. found ≡ restore_line_in name.now path.now target.now) }
{
    let Some(name) = name_of(alloc, name)? else {
        return Ok(Line::Syntax);
    };
    let Some(path) = path_of(alloc, path)? else {
        return Ok(Line::Syntax);
    };
    match path_of(alloc, target)? {
        Some(target) => Ok(Line::Command(Command::Restore { name, path, target })),
        None => Ok(Line::Syntax),
    }
}

fn move_two_line(
    alloc: Global,
    prefix: &[u8],
    group: &[u8],
    second: &[u8],
) -> Result<Line, NoMemory>
    ensures { IfOk result (λ found. found ≡ move_two_line_in prefix.now group.now second.now) }
{
    let Some(group) = group_of(group) else {
        return Ok(Line::Syntax);
    };
    let Some(second) = group_of(second) else {
        return Ok(Line::Syntax);
    };
    if group.0 == second.0 {
        return Ok(Line::Syntax);
    }
    match prefix_of(alloc, prefix)? {
        Some(prefix) => Ok(Line::Command(Command::Move {
            prefix,
            group,
            second: Some(second),
        })),
        None => Ok(Line::Syntax),
    }
}

fn salvage_line(alloc: Global, group: &[u8], name: &[u8], bfid: &[u8]) -> Result<Line, NoMemory>
    ensures { IfOk result (λ found. found ≡ salvage_line_in group.now name.now bfid.now) }
{
    let Some(group) = group_of(group) else {
        return Ok(Line::Syntax);
    };
    let Some(bfid) = bfid_of(bfid) else {
        return Ok(Line::Syntax);
    };
    match name_of(alloc, name)? {
        Some(name) => Ok(Line::Command(Command::Salvage { group, name, bfid })),
        None => Ok(Line::Syntax),
    }
}
