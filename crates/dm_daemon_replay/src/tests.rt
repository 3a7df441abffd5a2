//! A log of ten payloads, whose bytes were worked out by hand from the table of kinds (docs/FORMATS.md), at each of its fronts;
//! what may not come; and a log of version 1.

use crate::Replayed;
use dm_base::Ino;
use dm_fields::ReadError;
use std::alloc::Global;

const ROOM: usize = 64;

// The ten, each at the time 10 but the last, and the first of which has the time 0.
const LOG: [&str; 10] = [
    "01 0000000000000000 444d4441454d4e32 0000000000000001 0000000000000001 0000000000000064",
    "02 000000000000000a 0002 2f61 0000000000000001 00000005 68656c6c6f",
    "04 000000000000000a 0002 2f61 00000000000000010000000000000001 01 01",
    "05 000000000000000a 00000000000000010000000000000001 01",
    "06 000000000000000a 0000000000000001 00000000000000010000000000000001 01",
    "07 000000000000000a 0002 2f61",
    "09 000000000000000a 01 64",
    "08 000000000000000a 0000000000000001 00000005 68656c6c6f",
    "02 000000000000000a 0002 2f61 0000000000000002 00000001 78",
    "0b 000000000000006d 01 64 0002 2f61 0002 2f62 0000000000000003",
];

// The same head of version 1.
const OLD_HEAD: &str =
    "01 0000000000000000 444d4441454d4e31 0000000000000001 0000000000000001 0000000000000064";

const UPGRADE: &str = "10 000000000000000a";

const AGE: &str = "0f 000000000000000a 0000000000000032";

// The bytes of hexadecimal digits, and how many they are. Spaces part the fields.
fn bytes_of(text: &str) -> ([u8; ROOM], usize) {
    let mut bytes = [0; ROOM];
    let mut digits = 0usize;
    for digit in text.bytes() {
        if digit == b' ' {
            continue;
        }
        let value = if digit <= b'9' {
            digit.wrapping_sub(b'0')
        } else {
            digit.wrapping_sub(b'a').wrapping_add(10)
        };
        let at = digits / 2;
        if at >= ROOM {
            return (bytes, ROOM);
        }
        bytes[at] = bytes[at].wrapping_mul(16).wrapping_add(value);
        digits += 1;
    }
    (bytes, digits / 2)
}

// The first so many bytes.
fn front(bytes: &[u8], len: usize) -> &[u8] {
    match bytes.get(..len) {
        Some(front) => front,
        None => bytes,
    }
}

// What becomes of a log.
#[derive(Clone, Copy, Debug, PartialEq, Eq)]
enum Outcome {
    // These files, the number of the last change, the time and the age in force.
    Told(usize, u64, u64, u64),
    // The number of the payload that may not come.
    Damaged(usize),
    NoMemory,
}

fn told(replayed: &Replayed) -> Outcome {
    let tables = &replayed.tables;
    Outcome::Told(
        tables.files(),
        tables.change(),
        tables.time().0,
        tables.age(),
    )
}

// Takes one payload more.
fn taken(alloc: Global, replayed: Option<Replayed>, bytes: &[u8]) -> Result<Replayed, ReadError> {
    match replayed {
        None => Replayed::begin(alloc, bytes),
        Some(mut replayed) => match replayed.go_on(alloc, bytes) {
            Ok(()) => Ok(replayed),
            Err(error) => Err(error),
        },
    }
}

// What becomes of a log of these payloads, which are some.
fn outcome_of(alloc: Global, log: &[&str]) -> Outcome {
    let mut replayed = None;
    for (number, text) in log.iter().enumerate() {
        let (bytes, len) = bytes_of(text);
        match taken(alloc, replayed, front(&bytes, len)) {
            Ok(next) => replayed = Some(next),
            Err(ReadError::Damaged) => return Outcome::Damaged(number),
            Err(ReadError::NoMemory) => return Outcome::NoMemory,
        }
    }
    match replayed {
        Some(replayed) => told(&replayed),
        None => Outcome::Damaged(0),
    }
}

#[test]
fn each_front_of_a_log_is_replayed(rt: HostRuntime) {
    let alloc = rt.alloc();
    assert_eq!(rt; outcome_of(alloc, &LOG[..1]), Outcome::Told(0, 0, 0, 100));
    for n in 2..9 {
        assert_eq!(rt; outcome_of(alloc, &LOG[..n]), Outcome::Told(1, 1, 10, 100));
    }
    assert_eq!(rt; outcome_of(alloc, &LOG[..9]), Outcome::Told(1, 2, 10, 100));
    assert_eq!(rt; outcome_of(alloc, &LOG), Outcome::Told(2, 3, 109, 100));
}

#[test]
fn a_payload_out_of_its_place_is_damage(rt: HostRuntime) {
    let alloc = rt.alloc();
    for n in 1..10 {
        assert_eq!(rt; outcome_of(alloc, &LOG[n..]), Outcome::Damaged(0));
    }
    assert_eq!(rt; outcome_of(alloc, &[LOG[0], LOG[0]]), Outcome::Damaged(1));
    assert_eq!(rt;
        outcome_of(alloc, &[LOG[0], LOG[1], LOG[1]]),
        Outcome::Damaged(2)
    );
    assert_eq!(rt; outcome_of(alloc, &[LOG[0], UPGRADE]), Outcome::Damaged(1));
}

#[test]
fn an_old_log_is_upgraded_once(rt: HostRuntime) {
    let alloc = rt.alloc();
    assert_eq!(rt;
        outcome_of(alloc, &[LOG[0], AGE]),
        Outcome::Told(0, 0, 10, 50)
    );
    assert_eq!(rt; outcome_of(alloc, &[OLD_HEAD, AGE]), Outcome::Damaged(1));
    assert_eq!(rt;
        outcome_of(alloc, &[OLD_HEAD, UPGRADE, AGE]),
        Outcome::Told(0, 0, 10, 50)
    );
    assert_eq!(rt;
        outcome_of(alloc, &[OLD_HEAD, UPGRADE, UPGRADE]),
        Outcome::Damaged(2)
    );
}

#[test]
fn a_restored_file_has_its_bitfile(rt: HostRuntime) {
    let alloc = rt.alloc();
    let (head, len) = bytes_of(LOG[0]);
    let mut replayed = Replayed::begin(alloc, front(&head, len)).expect(&rt, "a head");
    for text in &LOG[1..] {
        let (bytes, len) = bytes_of(text);
        replayed
            .go_on(alloc, front(&bytes, len))
            .expect(&rt, "a payload");
    }
    assert_eq!(rt; replayed.tables.ino(b"/b"), Some(Ino(3)));
}
