//! A small session command by command, and how many commands a large one has.

use super::*;
use dm_base::Command;
use std::alloc::Global;
use std::test::*;

// A letter for what the command does, and the last byte of the file's name or the group's number.
fn label(command: &Command) -> (char, u8) {
    match command {
        Command::Write { path, .. } => ('w', last_byte(path.bytes())),
        Command::PutRelease { path } => ('p', last_byte(path.bytes())),
        Command::Remove { path } => ('d', last_byte(path.bytes())),
        Command::Read { path } => ('r', last_byte(path.bytes())),
        Command::HardDelete => ('h', 0),
        Command::Merge { group } => ('m', group.0),
        Command::Reuse { group } => ('u', group.0),
        Command::AuditDeep => ('a', 0),
        _ => ('?', 0),
    }
}

fn last_byte(text: &[u8]) -> u8 {
    match text {
        [.., last] => *last,
        [] => 0,
    }
}

// Whether the next command has this label.
fn goes_on(alloc: Global, plan: &mut Plan, expected: (char, u8)) -> bool {
    match plan.next(alloc) {
        Ok(Some(command)) => label(&command) == expected,
        _ => false,
    }
}

fn has_ended(alloc: Global, plan: &mut Plan) -> bool {
    match plan.next(alloc) {
        Ok(None) => true,
        _ => false,
    }
}

#[test]
fn three_files(rt: HostRuntime) {
    let alloc = rt.alloc();
    let Some(mut plan) = Plan::of(3) else {
        panic!(rt; "no plan");
    };
    for number in [b'1', b'2', b'3'] {
        assert!(rt; goes_on(alloc, &mut plan, ('w', number)));
        assert!(rt; goes_on(alloc, &mut plan, ('p', number)));
    }
    for expected in [
        ('d', b'3'),
        ('h', 0),
        ('m', 1),
        ('m', 2),
        ('u', 1),
        ('u', 2),
        ('a', 0),
    ] {
        assert!(rt; goes_on(alloc, &mut plan, expected));
    }
    assert!(rt; goes_on(alloc, &mut plan, ('r', b'1')));
    assert!(rt; goes_on(alloc, &mut plan, ('r', b'2')));
    assert!(rt; has_ended(alloc, &mut plan));
    assert!(rt; has_ended(alloc, &mut plan));
}

// The first command of a session of one file, byte by byte.
#[test]
fn the_first_write(rt: HostRuntime) {
    let Some(mut plan) = Plan::of(1) else {
        panic!(rt; "no plan");
    };
    let Ok(Some(Command::Write { path, bytes })) = plan.next(rt.alloc()) else {
        panic!(rt; "no write");
    };
    assert_eq!(rt; path.bytes(), b"/g/0001".as_slice());
    assert_eq!(rt; bytes.len(), 1000);
    assert!(rt; bytes.as_slice().iter().all(|byte| *byte == 1));
}

// How many commands there are, and how many of them have this label's letter.
fn count(alloc: Global, plan: &mut Plan, letter: char) -> (u64, u64) {
    let mut all = 0u64;
    let mut some = 0u64;
    for _ in 0..20_000 {
        let Ok(Some(command)) = plan.next(alloc) else {
            break;
        };
        all = all.saturating_add(1);
        if label(&command).0 == letter {
            some = some.saturating_add(1);
        }
    }
    (all, some)
}

#[test]
fn many_files(rt: HostRuntime) {
    let alloc = rt.alloc();
    let Some(mut plan) = Plan::of(200) else {
        panic!(rt; "no plan");
    };
    assert_eq!(rt; count(alloc, &mut plan, 'd'), (606, 66));
    let Some(mut plan) = Plan::of(4000) else {
        panic!(rt; "no plan");
    };
    assert_eq!(rt; count(alloc, &mut plan, 'r'), (12_006, 2667));
    assert!(rt; Plan::of(0).is_none());
    assert!(rt; Plan::of(4001).is_none());
}
