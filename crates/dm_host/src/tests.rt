//! What no clause says: that calls succeed while memory is ample, and that each type is usable through its trait.
ghost use Rattle.dm_host.specs.Disk.{untold};
ghost use Rattle.std.proofs.Common.{rules};

use crate::{
    Bay, Clock, Failed, MemBay, MemClock, MemSink, MemSource, Sink, Source, read_synced,
    write_synced,
};
use std::test::Fail;

fn next<S: Source>(source: &mut S, into: &mut [u8]) -> Result<usize, Failed> {
    source.read(into)
}

fn give<S: Sink>(sink: &mut S, bytes: &[u8]) -> Result<usize, Failed> {
    sink.write(bytes)
}

fn tick<C: Clock>(clock: &mut C) -> u64 {
    clock.now()
}

#[test]
fn a_source_gives_pieces_and_fails_at_its_call(rt: HostRuntime) -> Result<(), Fail> {
    let alloc = rt.alloc();
    let mut source = MemSource {
        bytes: [1, 2, 3].to_vec(alloc)?,
        at: 0,
        piece: 2,
        fail: [2].to_vec(alloc)?,
        calls: 0,
        count: 0,
    };
    let mut into = [0; 4];
    assert_eq!(rt; next(&mut source, &mut into)?, 2);
    assert_eq!(rt; into, [1, 2, 0, 0]);
    assert_eq!(rt; next(&mut source, &mut into), Err(Failed));
    assert_eq!(rt; source.faults(), 1);
    assert_eq!(rt; next(&mut source, &mut into)?, 1);
    assert_eq!(rt; into, [3, 2, 0, 0]);
    assert_eq!(rt; next(&mut source, &mut into)?, 0);
    Ok(())
}

#[test]
fn a_sink_takes_pieces_and_fails_at_its_call(rt: HostRuntime) -> Result<(), Fail> {
    let alloc = rt.alloc();
    let mut sink = MemSink {
        taken: Vec::new(alloc),
        piece: 2,
        fail: [2].to_vec(alloc)?,
        calls: 0,
        count: 0,
    };
    assert_eq!(rt; give(&mut sink, &[1, 2, 3])?, 2);
    assert_eq!(rt; give(&mut sink, &[3]), Err(Failed));
    assert_eq!(rt; sink.faults(), 1);
    assert_eq!(rt; give(&mut sink, &[3])?, 1);
    assert_eq!(rt; sink.taken.as_slice(), [1, 2, 3].as_slice());
    sink.piece = 0;
    assert_eq!(rt; give(&mut sink, &[4])?, 0);
    Ok(())
}

#[test]
fn a_clock_repeats_its_last_reading(rt: HostRuntime) -> Result<(), Fail> {
    let alloc = rt.alloc();
    let mut clock = MemClock {
        readings: [7, 5].to_vec(alloc)?,
        at: 0,
    };
    assert_eq!(rt; tick(&mut clock), 7);
    assert_eq!(rt; tick(&mut clock), 5);
    assert_eq!(rt; tick(&mut clock), 5);
    let mut none = MemClock {
        readings: Vec::new(alloc),
        at: 0,
    };
    assert_eq!(rt; tick(&mut none), 0);
    Ok(())
}

#[test]
fn a_bay_with_no_fault_to_come_keeps_its_files(rt: HostRuntime) -> Result<(), Fail> {
    let mut bay = MemBay::empty(rt.alloc());
    write_synced(&mut bay, 3, 0, &[1, 2, 3])?;
    write_synced(&mut bay, 255, 2, &[9])?;
    bay.write(3, 1, &[8])?;
    let mut into = [7; 4];
    bay.read(3, 1, &mut into)?;
    assert_eq!(rt; into, [8, 3, 0, 0]);
    assert_eq!(rt; bay.len(255)?, 3);
    assert_eq!(rt; bay.len(4)?, 0);
    assert_eq!(rt; bay.bytes(255), [0, 0, 9].as_slice());
    assert_eq!(rt; read_synced(&mut bay, 3, 1)?, 8);
    assert_eq!(rt; read_synced(&mut bay, 3, 3)?, 0);
    assert_eq!(rt; bay.faults(), 0);
    Ok(())
}

#[test]
fn a_failing_write_leaves_its_first_half(rt: HostRuntime) -> Result<(), Fail> {
    let alloc = rt.alloc();
    let mut bay = MemBay::empty(alloc);
    bay.fail = [2].to_vec(alloc)?;
    bay.write(0, 0, &[1, 1, 1])?;
    assert_eq!(rt; bay.write(0, 1, &[2, 3, 4, 5, 6]), Err(Failed));
    assert_eq!(rt; bay.bytes(0), [1, 2, 3].as_slice());
    assert_eq!(rt; bay.faults(), 1);
    bay.sync(0)?;
    Ok(())
}

#[test]
fn a_blown_fuse_fails_each_call(rt: HostRuntime) -> Result<(), Fail> {
    let mut bay = MemBay::empty(rt.alloc());
    bay.fuse = Some(1);
    bay.write(0, 0, &[1])?;
    assert_eq!(rt; bay.sync(0), Err(Failed));
    assert_eq!(rt; bay.len(0), Err(Failed));
    assert_eq!(rt; bay.faults(), 2);
    bay.fuse = None;
    bay.sync(0)?;
    Ok(())
}

#[test]
fn a_byte_rots_before_its_call(rt: HostRuntime) -> Result<(), Fail> {
    let alloc = rt.alloc();
    let mut bay = MemBay::empty(alloc);
    bay.rot = [(2, 7, 1, 9), (3, 7, 5, 9), (4, 8, 0, 9)].to_vec(alloc)?;
    bay.fail = [4].to_vec(alloc)?;
    bay.write(7, 0, &[1, 2, 3])?;
    assert_eq!(rt; bay.bytes(7), [1, 2, 3].as_slice());
    bay.write(8, 0, &[5])?;
    assert_eq!(rt; bay.bytes(7), [1, 9, 3].as_slice());
    let mut into = [0; 3];
    bay.read(7, 0, &mut into)?;
    assert_eq!(rt; into, [1, 9, 3]);
    assert_eq!(rt; bay.sync(8), Err(Failed));
    assert_eq!(rt; bay.bytes(8), [9].as_slice());
    assert_eq!(rt; bay.faults(), 1);
    Ok(())
}

#[test]
fn a_byte_is_set(rt: HostRuntime) -> Result<(), Fail> {
    let mut bay = MemBay::empty(rt.alloc());
    bay.write(1, 0, &[1, 2])?;
    bay.set(1, 1, 7);
    assert_eq!(rt; bay.bytes(1), [1, 7].as_slice());
    Ok(())
}

// A bay that tells nothing, as one over real files.
#[derive(Drop)]
struct Silent {
    count: u64,
}

impl Bay for Silent {
    ghost disk = { λ s. untold };

    ghost count = { λ s. s.count };

    ghost counts_now = { λ s t x le now. tt };

    ghost only_now = { λ s x left g. tt };

    ghost seen_may_stay = { λ s g. tt };

    ghost bounded = { λ s g told. absurd (Prim.search rules) };

    fn len(&mut self, _file: u32) -> Result<u64, Failed> {
        Ok(1)
    }

    fn read(&mut self, _file: u32, _place: u64, into: &mut [u8]) -> Result<(), Failed> {
        into.fill(1);
        Ok(())
    }

    fn write(&mut self, _file: u32, place: u64, bytes: &[u8]) -> Result<(), Failed> {
        if place > 1 << 61 || bytes.len() > 1 << 61 {
            self.count = self.count.saturating_add(1);
            return Err(Failed);
        }
        Ok(())
    }

    fn sync(&mut self, _file: u32) -> Result<(), Failed> {
        Ok(())
    }

    fn faults(&self) -> u64 {
        self.count
    }
}

#[test]
fn a_bay_may_tell_nothing(rt: HostRuntime) -> Result<(), Fail> {
    let mut bay = Silent { count: 0 };
    write_synced(&mut bay, 0, 1 << 61, &[1])?;
    assert_eq!(rt; write_synced(&mut bay, 0, 1 << 62, &[1]), Err(Failed));
    assert_eq!(rt; read_synced(&mut bay, 0, 0)?, 1);
    Ok(())
}
