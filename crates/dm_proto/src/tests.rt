//! Sessions and lines whose meaning is known from the grammar, in pieces of several lengths.
//!
//! What a reader holds and hears is owned by small functions with one way out and no `?`: its drop is spelled out at each.

ghost use Rattle.std.specs.Prelude.{◌≡◌};

use super::*;
use dm_base::{Bfid, Command, GroupId, Prefix};
use std::alloc::Global;
use std::test::*;

// One letter for what is heard: a command, or a line that is none.
fn letter(heard: &Heard) -> u8 {
    match heard {
        Heard::Syntax => b's',
        Heard::Command(_) => b'c',
    }
}

// The letter of what is ready, which is handed out.
fn letter_of_ready(reader: &mut Reader) -> Option<u8>
    ensures { reader.new.ready ≡ None }
{
    let ready = reader.take();
    match &ready {
        Some(heard) => Some(letter(heard)),
        None => None,
    }
}

// Notes what is ready, if something is, and says whether memory was there for the note.
fn note_ready(reader: &mut Reader, log: &mut Vec<u8>) -> bool {
    match letter_of_ready(reader) {
        Some(letter) => log.push(letter).is_ok(),
        None => true,
    }
}

// Feeds a reader in which nothing is ready, and says how many bytes it took.
fn feed_idle(alloc: Global, reader: &mut Reader, piece: &[u8]) -> Result<usize, InputError> {
    if letter_of_ready(reader).is_some() {
        return Ok(0);
    }
    reader.feed(alloc, piece)
}

// Feeds one piece and notes what is heard. Says whether each call was answered with Ok, as the others here do.
fn feed(alloc: Global, reader: &mut Reader, log: &mut Vec<u8>, piece: &[u8]) -> bool {
    let mut rest = piece;
    for _ in 0..piece.len() {
        let Ok(taken) = feed_idle(alloc, reader, rest) else {
            return false;
        };
        rest = rest.split_at(taken.min(rest.len())).1;
        if !note_ready(reader, log) {
            return false;
        }
    }
    true
}

fn feed_pieces(
    alloc: Global,
    reader: &mut Reader,
    log: &mut Vec<u8>,
    input: &[u8],
    length: usize,
) -> bool {
    if length == 0 {
        return false;
    }
    for piece in input.chunks(length) {
        if !feed(alloc, reader, log, piece) {
            return false;
        }
    }
    true
}

// Notes what is heard of an input in pieces of this length. The second answer is whether it ends inside a command.
fn listen(alloc: Global, log: &mut Vec<u8>, input: &[u8], length: usize) -> (bool, bool) {
    let mut reader = Reader::new(alloc);
    let fed = feed_pieces(alloc, &mut reader, log, input, length);
    (fed, reader.inside())
}

// Whether these letters are heard of an input, and whether it ends inside a command as said.
fn hears(alloc: Global, input: &str, length: usize, letters: &str, inside: bool) -> bool {
    let mut log = Vec::new(alloc);
    let (fed, ended_inside) = listen(alloc, &mut log, input.as_bytes(), length);
    fed && ended_inside == inside && log.as_slice() == letters.as_bytes()
}

// A file that is stored, dumped, removed and restored.
const SESSION: &str =
    "write /a 5\nhelloput -r /a\ndump d\nrm /a\nhdelete\nrestore d /a /b\nread /b\n";

#[test]
fn pieces(rt: HostRuntime) {
    assert!(rt; hears(rt.alloc(), SESSION, 1, "ccccccc", false));
    assert!(rt; hears(rt.alloc(), SESSION, 7, "ccccccc", false));
    assert!(rt; hears(rt.alloc(), SESSION, 1000, "ccccccc", false));
}

// Each command, with numbers, groups and texts at their limits, blank lines, spaces and a carriage return.
const ACCEPTED: &str =
    "write /e 0\nwrite /a 2\n\n\npatch /a 3 2\nXYpatch /a 9999999999999999999 0\n\
    read /a/b.c_D-9\nput /a\nput -r /a\nput /-r\nget /a\nrelease /a\nrm /a\n\
    ls\nattr /a\ndump d\nundump 0123456789012345678901234567890_\nrestore d /a /b\n\
    hdelete\nage 50\nage 4294967296\nmerge 1\nreuse 2\nvols 3\nvols 4\nspace\n\
    move / 2\nmove /a 1 2\nsnap 1 s\nunsnap 4 s\n\
    salvage 1 s 0000000000000001000000000000000a\naudit\naudit deep\n\
    quit\nshutdown\nls\n\r\n\n   \n \r\n\x20 read   /a  \r\n\
    write /a 0000000000000000003\na\nbread /a\n";

// Lines with a word that are no command.
const REFUSED: &str = "frob\nwrite a 1\nwrite /a\nwrite /a 5 5\nwrite /a +5\nwrite /a 0x5\n\
    write /a 00000000000000000003\npatch /a 1\npatch /a 10000000000000000000 1\n\
    patch /a 1 -1\nPUT -r /a\nput -R /a\nput -r\nread /a /b\nread\t/a\nread /a\t\n\
    read /\nread //a\nread /a/\nread /a\r\r\nls /a\nattr\ndump\ndump a/b\n\
    dump 012345678901234567890123456789012\nrestore d /a\nrestore d /a /b /c\n\
    restore /a d /b\nage\nage one\nmerge\nmerge 0\nmerge 5\nmerge 01\nmerge 1 2\n\
    reuse /a\nvols 10\nspace 1\nmove /a\nmove /a 2 2\nmove /a 1 2 3\nmove // 1\n\
    snap s 1\nsnap 1\nunsnap 1 s s\nsalvage 1 s 1\n\
    salvage 1 s 0000000000000001000000000000000A\n\
    salvage 1 s 00000000000000010000000000000001 1\naudit shallow\naudit deep deep\n\
    quit now\nshutdown -h\n";

#[test]
fn each_command_is_heard(rt: HostRuntime) {
    let letters = "ccccccccccccccccccccccccccccccccccccc";
    assert!(rt; hears(rt.alloc(), ACCEPTED, 5, letters, false));
}

// No payload goes with a syntax line, so each line stands for itself.
#[test]
fn other_lines_are_syntax_lines(rt: HostRuntime) {
    let letters = "ssssssssssssssssssssssssssssssssssssssssssssssssssss";
    assert!(rt; hears(rt.alloc(), REFUSED, 1000, letters, false));
}

#[test]
fn unfinished(rt: HostRuntime) {
    for input in [
        "write /a 5\nhel",
        "write /a 5\n",
        "patch /a 1 2\nX",
        "write /a 16777217\nhel",
        "write /a 9999999999999999999\nhello",
        "\n ",
        "\r",
        "quit",
    ] {
        assert!(rt; hears(rt.alloc(), input, 4, "", true), "at {input}");
    }
}

// What a command is to say.
#[derive(Clone, Copy)]
enum Wanted {
    // The bitfile 1 of site 1, by the tables `s` of group 2.
    Salvage,
    // All files, to group 1 alone.
    Move,
    // `/a` with `hello`.
    Write,
    // `/a` with 16,777,217 bytes, which were kept nowhere.
    LongWrite,
    // `/a` with 16,777,216 bytes.
    WholeFile,
    // A line that is no command.
    Syntax,
}

fn is_salvage(heard: &Heard) -> bool {
    match heard {
        Heard::Command(Command::Salvage { group, name, bfid }) => {
            *group == GroupId(2) && name.bytes() == b"s".as_slice() && *bfid == Bfid::of(1, 1)
        }
        _ => false,
    }
}

fn is_move(heard: &Heard) -> bool {
    match heard {
        Heard::Command(
            Command::Move {
                prefix: Prefix::Root,
                group,
                second: None,
            },
        ) => *group == GroupId(1),
        _ => false,
    }
}

fn is_write(heard: &Heard) -> bool {
    match heard {
        Heard::Command(Command::Write { path, bytes }) => {
            path.bytes() == b"/a".as_slice() && bytes.as_slice() == b"hello".as_slice()
        }
        _ => false,
    }
}

fn is_whole_file(heard: &Heard) -> bool {
    match heard {
        Heard::Command(Command::Write { path, bytes }) => {
            path.bytes() == b"/a".as_slice() && bytes.len() == 16_777_216
        }
        _ => false,
    }
}

fn is_long_write(heard: &Heard) -> bool {
    match heard {
        Heard::Command(Command::LongWrite { path, len }) => {
            path.bytes() == b"/a".as_slice() && *len == 16_777_217
        }
        _ => false,
    }
}

fn is(heard: &Heard, wanted: Wanted) -> bool {
    match wanted {
        Wanted::Salvage => is_salvage(heard),
        Wanted::Move => is_move(heard),
        Wanted::Write => is_write(heard),
        Wanted::LongWrite => is_long_write(heard),
        Wanted::WholeFile => is_whole_file(heard),
        Wanted::Syntax => letter(heard) == b's',
    }
}

fn is_ready(reader: &mut Reader, wanted: Wanted) -> bool {
    let ready = reader.take();
    match &ready {
        Some(heard) => is(heard, wanted),
        None => false,
    }
}

// Feeds a piece that is taken whole.
fn takes(alloc: Global, reader: &mut Reader, piece: &[u8]) -> bool {
    match feed_idle(alloc, reader, piece) {
        Ok(taken) => taken == piece.len(),
        Err(_) => false,
    }
}

fn says(alloc: Global, line: &[u8], rest: &[u8], wanted: Wanted) -> bool {
    let mut reader = Reader::new(alloc);
    takes(alloc, &mut reader, line)
        && takes(alloc, &mut reader, rest)
        && is_ready(&mut reader, wanted)
}

#[test]
fn what_words_say_is_in_the_command(rt: HostRuntime) {
    let salvage = b"salvage 2 s 00000000000000010000000000000001\n";
    assert!(rt; says(rt.alloc(), b"", salvage, Wanted::Salvage));
    assert!(rt; says(rt.alloc(), b"move / ", b"1\n", Wanted::Move));
    assert!(rt; says(rt.alloc(), b"write /a 5\n", b"hello", Wanted::Write));
}

// Feeds 256 pieces of 65,536 bytes, 16,777,216 in all.
fn feed_a_file(alloc: Global, reader: &mut Reader) -> bool {
    let piece = [b'x'; 65_536];
    for _ in 0..256 {
        if !takes(alloc, reader, &piece) {
            return false;
        }
    }
    true
}

// The same for a line, the bytes of a file, and what follows.
fn says_of_a_file(alloc: Global, line: &[u8], rest: &[u8], wanted: Wanted) -> bool {
    let mut reader = Reader::new(alloc);
    takes(alloc, &mut reader, line)
        && feed_a_file(alloc, &mut reader)
        && (rest.is_empty() || takes(alloc, &mut reader, rest))
        && is_ready(&mut reader, wanted)
}

#[test]
fn a_payload_of_the_limit_is_kept(rt: HostRuntime) {
    assert!(rt; says_of_a_file(rt.alloc(), b"write /a 16777216\n", b"", Wanted::WholeFile));
}

#[test]
fn a_payload_over_the_limit_is_read_off(rt: HostRuntime) {
    assert!(rt; says_of_a_file(rt.alloc(), b"write /a 16777217\n", b"x", Wanted::LongWrite));
}

// Notes what is heard behind a payload over the limit.
fn goes_on_behind_it(alloc: Global, log: &mut Vec<u8>) -> bool {
    let mut reader = Reader::new(alloc);
    takes(alloc, &mut reader, b"write /a 16777217\n")
        && feed_a_file(alloc, &mut reader)
        && feed(alloc, &mut reader, log, b"xfrob\nwrite a 1\nls\n")
}

#[test]
fn no_payload_is_read_for_a_syntax_line(rt: HostRuntime) {
    let mut log = Vec::new(rt.alloc());
    let fed = goes_on_behind_it(rt.alloc(), &mut log);
    assert!(rt; fed && log.as_slice() == b"cssc".as_slice());
}

// How a piece is answered behind another one.
fn answer(alloc: Global, first: &[u8], second: &[u8]) -> Result<usize, InputError> {
    let mut reader = Reader::new(alloc);
    if takes(alloc, &mut reader, first) {
        feed_idle(alloc, &mut reader, second)
    } else {
        Ok(0)
    }
}

// A line of 1,025 bytes, and one of 1,024.
#[test]
fn long_lines(rt: HostRuntime) {
    let line = [b'a'; 1024];
    assert_eq!(rt; answer(rt.alloc(), &line, b"\r"), Err(InputError::LongLine));
    assert!(rt; says(rt.alloc(), &line, b"\n", Wanted::Syntax));
}
