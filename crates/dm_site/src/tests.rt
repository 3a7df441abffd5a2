//! Whole runs over memory: what no clause says is that memory and devices that don't fail lead to the
//! replies that a user expects.

use super::archive::Archive;
use super::run_script;
use dm_base::{Bytes, Command, NUMBER_LIMIT, Path, Reply};
use dm_host::{MemBay, MemClock, MemSink, MemSource};
use dm_proto::Heard;
use std::alloc::{AllocError, Global};
use std::test::Fail;

const FIRST_SESSION: &[u8] = b"write /a 5\nhelloput -r /a\nread /a\n";

const FIRST_REPLIES: &[u8] = b"ok 1\nok 00000000000000010000000000000001\nok 5\nhello\n";

// The label of the volume, and the zone of `hello`.
const FIRST_IMAGE: [u8; 149] = [
    0x44, 0x4d, 0x56, 0x4f, 0x4c, 0x49, 0x4d, 0x31, 0x41, 0x41, 0x30, 0x30, 0x30, 0x31, 1, 1, 0, 0,
    0, 0, 0, 0, 0, 1, 0, 0, 0, 0, 0, 0, 0x01, 0xa8, 0, 0, 0, 0, 0, 0, 0, 0, 0, 0, 0, 0, 0, 0, 0, 0,
    0, 0, 0, 0, 0, 0, 0, 0, 0, 0, 0, 0, 0, 0, 0, 0, 0x5a, 0x4f, 0x4e, 0x45, 0, 0, 0, 1, 0, 0, 0, 0,
    0, 0, 0, 1, 0, 0, 0, 0, 0, 0, 0, 0x55, 0, 0, 0, 0, 0, 0, 0, 0, 0x43, 0x48, 0x4e, 0x4b, 0, 0, 0,
    0, 0, 0, 0, 0, 0, 0, 0, 1, 0, 0, 0, 0, 0, 0, 0, 1, 0, 0, 0, 0, 0, 0, 0, 0, 0, 0, 0, 0, 0, 0, 0,
    5, 0, 0, 0, 0, 0, 0, 0, 5, 0x68, 0x65, 0x6c, 0x6c, 0x6f,
];

// How a run is played. A number of a call that fails is 0 where none does.
#[derive(Clone, Copy)]
struct Scene<'a> {
    words: &'a [&'a str],
    input: &'a [u8],
    source_piece: usize,
    source_fails: u64,
    sink_piece: usize,
    sink_fails: u64,
    device_fails: u64,
}

#[derive(Drop)]
struct Played {
    status: u8,
    said: Vec<u8>,
    bay: MemBay,
}

fn undisturbed(input: &[u8]) -> Scene<'_> {
    with_words(&["run", "archive"], input)
}

fn with_words<'a>(words: &'a [&'a str], input: &'a [u8]) -> Scene<'a> {
    Scene {
        words,
        input,
        source_piece: 1000,
        source_fails: 0,
        sink_piece: 1000,
        sink_fails: 0,
        device_fails: 0,
    }
}

fn numbers(alloc: Global, number: u64) -> Result<Vec<u64>, AllocError> {
    let mut numbers = Vec::new(alloc);
    if number > 0 {
        numbers.push(number)?;
    }
    Ok(numbers)
}

fn source_of(
    alloc: Global,
    bytes: &[u8],
    piece: usize,
    fails: u64,
) -> Result<MemSource, AllocError> {
    Ok(MemSource {
        bytes: Vec::from_slice(alloc, bytes)?,
        at: 0,
        piece,
        fail: numbers(alloc, fails)?,
        calls: 0,
        count: 0,
    })
}

fn play(alloc: Global, scene: &Scene) -> Result<Played, AllocError> {
    let mut words = Vec::new(alloc);
    for word in scene.words {
        words.push(String::from_str(alloc, word)?)?;
    }
    let mut conf = source_of(alloc, b"", 1, 0)?;
    let mut source = source_of(alloc, scene.input, scene.source_piece, scene.source_fails)?;
    let mut sink = MemSink {
        taken: Vec::new(alloc),
        piece: scene.sink_piece,
        fail: numbers(alloc, scene.sink_fails)?,
        calls: 0,
        count: 0,
    };
    let mut clock = MemClock {
        readings: Vec::new(alloc),
        at: 0,
    };
    let mut bay = MemBay::empty(alloc);
    bay.fail = numbers(alloc, scene.device_fails)?;
    let status = run_script(
        alloc,
        words.as_slice(),
        &mut conf,
        &mut source,
        &mut sink,
        &mut clock,
        &mut bay,
    );
    Ok(Played {
        status,
        said: sink.taken,
        bay,
    })
}

#[test]
fn a_file_is_written_stored_and_read(rt: HostRuntime) -> Result<(), Fail> {
    for piece in [1, 7, 1000] {
        let mut first = undisturbed(FIRST_SESSION);
        first.source_piece = piece;
        first.sink_piece = piece;
        let played = play(rt.alloc(), &first)?;
        assert_eq!(rt; played.status, 0, "in pieces of {piece}");
        assert_eq!(rt;
            played.said.as_slice(),
            FIRST_REPLIES,
            "in pieces of {piece}"
        );
        assert_eq!(rt; played.bay.bytes(16), FIRST_IMAGE.as_slice());
    }
    Ok(())
}

// The replies to sessions that meet no fault, by the rules.
#[test]
fn sessions_are_answered_by_the_rules(rt: HostRuntime) -> Result<(), Fail> {
    let cases: [(&[u8], &[u8], u8); 8] = [
        (b"", b"", 0),
        (b"write /a 5\nhel", b"", 8),
        (
            b"put -r /z\nread /z\nfrob\n\nwrite a 1\n",
            b"err nofile\nerr nofile\nerr syntax\nerr syntax\n",
            0,
        ),
        (
            b"write /a 1\nhput -r /a\nput -r /a\nread /a\nput -r /a\nread /a\n",
            b"ok 1\nok 00000000000000010000000000000001\nerr state OFL\nok 1\nh\nerr state DUL\nok 1\nh\n",
            0,
        ),
        (
            b"write /a 1\nhwrite /a 2\nhiread /a\n",
            b"ok 1\nok 2\nok 2\nhi\n",
            0,
        ),
        (
            b"write /e 0\nput -r /e\nread /e\n",
            b"ok 1\nok 00000000000000010000000000000001\nok 0\n\n",
            0,
        ),
        // A command that isn't done yet takes what it brings, and no line of it is read.
        (
            b"write /a 1\nhpatch /a 0 8\nread /a\nls\nread /a\n",
            b"ok 1\nerr syntax\nerr syntax\nok 1\nh\n",
            0,
        ),
        (b"read /a", b"", 8),
    ];
    for (input, said, status) in cases {
        let played = play(rt.alloc(), &undisturbed(input))?;
        assert_eq!(rt; played.said.as_slice(), said);
        assert_eq!(rt; played.status, status);
    }
    Ok(())
}

#[test]
fn the_volume_holds_280_bytes(rt: HostRuntime) -> Result<(), Fail> {
    let alloc = rt.alloc();
    let mut input = Vec::from_slice(alloc, b"write /a 280\n")?;
    let content = vec![in alloc; b'x'; 280]?;
    input.extend_from_slice(content.as_slice())?;
    input.extend_from_slice(b"put -r /a\nread /a\nwrite /b 1\nyput -r /b\n")?;
    let mut said = Vec::from_slice(
        alloc,
        b"ok 1\nok 00000000000000010000000000000001\nok 280\n",
    )?;
    said.extend_from_slice(content.as_slice())?;
    said.extend_from_slice(b"\nok 2\nerr room 0 1\n")?;
    let played = play(alloc, &undisturbed(input.as_slice()))?;
    assert_eq!(rt; played.said.as_slice(), said.as_slice());
    assert_eq!(rt; played.status, 0);
    let image = played.bay.bytes(16);
    assert_eq!(rt; image.len(), 424);
    Ok(())
}

// A file may be longer than the volume; it is then kept and not stored.
#[test]
fn a_file_of_281_bytes_is_not_stored(rt: HostRuntime) -> Result<(), Fail> {
    let alloc = rt.alloc();
    let mut input = Vec::from_slice(alloc, b"write /a 281\n")?;
    let content = vec![in alloc; b'x'; 281]?;
    input.extend_from_slice(content.as_slice())?;
    input.extend_from_slice(b"put -r /a\n")?;
    let played = play(alloc, &undisturbed(input.as_slice()))?;
    assert_eq!(rt;
        played.said.as_slice(),
        b"ok 1\nerr room 280 281\n".as_slice()
    );
    assert_eq!(rt; played.status, 0);
    Ok(())
}

#[test]
fn a_write_of_too_many_bytes_is_refused(rt: HostRuntime) -> Result<(), Fail> {
    let alloc = rt.alloc();
    let mut archive = Archive::numbered(alloc, 0, 1);
    let mut bay = MemBay::empty(alloc);
    let long = Command::LongWrite {
        path: path(alloc, b"/a")?,
        len: 16_777_217,
    };
    let reply = archive.answer(alloc, &mut bay, Heard::Command(long));
    assert!(rt; matches!(reply, Reply::Limit { limit: 16_777_216 }));
    Ok(())
}

#[test]
fn a_line_of_1025_bytes_ends_the_run(rt: HostRuntime) -> Result<(), Fail> {
    let alloc = rt.alloc();
    let line = vec![in alloc; b'x'; 1025]?;
    let played = play(alloc, &undisturbed(line.as_slice()))?;
    assert_eq!(rt; played.status, 8);
    assert!(rt; played.said.is_empty());
    Ok(())
}

#[test]
fn words_that_are_no_run_print_nothing(rt: HostRuntime) -> Result<(), Fail> {
    let cases: [&[&str]; 4] = [&[], &["run"], &["run", ""], &["serve", "archive"]];
    for words in cases {
        let played = play(rt.alloc(), &with_words(words, FIRST_SESSION))?;
        assert_eq!(rt; played.status, 1);
        assert!(rt; played.said.is_empty());
        assert!(rt; played.bay.bytes(16).is_empty());
    }
    Ok(())
}

#[test]
fn a_stream_that_fails_ends_the_run(rt: HostRuntime) -> Result<(), Fail> {
    for fails in 1..=3u64 {
        let mut broken = undisturbed(FIRST_SESSION);
        broken.source_piece = 20;
        broken.source_fails = fails;
        let played = play(rt.alloc(), &broken)?;
        assert_eq!(rt; played.status, 4, "at read {fails}");
        let mut cut = undisturbed(FIRST_SESSION);
        cut.sink_fails = fails;
        let played = play(rt.alloc(), &cut)?;
        assert_eq!(rt; played.status, 5, "at write {fails}");
        assert!(rt; played.said.len() < FIRST_REPLIES.len());
        assert!(rt; FIRST_REPLIES.starts_with(played.said.as_slice()));
    }
    let mut full = undisturbed(FIRST_SESSION);
    full.sink_piece = 0;
    let played = play(rt.alloc(), &full)?;
    assert_eq!(rt; played.status, 5);
    assert!(rt; played.said.is_empty());
    Ok(())
}

// Calls 1 and 2 of the device write the label, 3 and 4 the zone, 5 reads it.
#[test]
fn a_device_that_fails_once_is_answered(rt: HostRuntime) -> Result<(), Fail> {
    let input = b"write /a 5\nhelloput -r /a\nread /a\nread /a\n".as_slice();
    let stored = b"ok 1\nerr group 1\nok 5\nhello\nok 5\nhello\n".as_slice();
    let recalled =
        b"ok 1\nok 00000000000000010000000000000001\nerr copies 1:1\nok 5\nhello\n".as_slice();
    let whole = b"ok 1\nok 00000000000000010000000000000001\nok 5\nhello\nok 5\nhello\n".as_slice();
    let cases: [(u64, &[u8], u8); 6] = [
        (1, b"", 6),
        (2, b"", 6),
        (3, stored, 0),
        (4, stored, 0),
        (5, recalled, 0),
        (6, whole, 0),
    ];
    for (call, said, status) in cases {
        let mut broken = undisturbed(input);
        broken.device_fails = call;
        let played = play(rt.alloc(), &broken)?;
        assert_eq!(rt; played.said.as_slice(), said, "at call {call}");
        assert_eq!(rt; played.status, status, "at call {call}");
    }
    Ok(())
}

// The last change and the last counter are given, and then no more.
#[test]
fn numbers_are_used_up(rt: HostRuntime) -> Result<(), Fail> {
    let alloc = rt.alloc();
    let mut archive = Archive::numbered(alloc, NUMBER_LIMIT - 2, NUMBER_LIMIT);
    let mut bay = MemBay::empty(alloc);
    for (text, limited) in [(b"/a", false), (b"/b", false), (b"/c", true)] {
        let bytes = Bytes::from_vec(Vec::from_slice(alloc, b"h")?);
        let written = archive.write(path(alloc, text)?, bytes);
        assert_eq!(rt; is_limit(&written), limited);
    }
    for (text, limited) in [(b"/a", false), (b"/b", true)] {
        let stored = archive.put_release(alloc, &mut bay, &path(alloc, text)?);
        assert_eq!(rt; is_limit(&stored), limited);
    }
    Ok(())
}

fn path(alloc: Global, text: &[u8]) -> Result<Path, AllocError> {
    Path::of_bytes(alloc, text).map_err(|_| AllocError)
}

fn is_limit(reply: &Reply) -> bool {
    matches!(
        reply,
        Reply::Limit {
            limit: NUMBER_LIMIT
        }
    )
}
