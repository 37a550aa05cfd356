//! Turns on a disk of which calls fail.
use crate::fixtures::{each_crash_leaves, letters, open_file, part};
use causal_clock::Op;
use keeper::{KeepFault, Kept, KeptFile, MemoryFile, OpenFault};
use std::alloc::{AllocError, Global};
use std::test::Fail;

// Up to which number each turn goes. The last finds nothing new, unless the one before has failed.
const ENDS: [usize; 5] = [3, 70, 71, 200, 200];

// Takes the turns. Whether each kept what it told, and each crash between two leaves that.
fn take_turns(
    alloc: Global,
    file: &mut KeptFile<MemoryFile>,
    ops: &[Op],
) -> Result<bool, AllocError> {
    let mut all = true;
    for upto in ENDS {
        let before = file.version() as usize;
        let (told, lengths) = match file.keep(alloc, part(ops, before, upto)) {
            Ok(()) => (upto, 1),
            Err(_) => (before, 25),
        };
        all &= file.version() as usize == told;
        all &= each_crash_leaves(alloc, file, ops, told, upto, lengths)?;
    }
    Ok(all && file.version() == 200)
}

// The turns on an empty file of which so many calls fail, after so many.
fn fail_after(
    alloc: Global,
    ops: &[Op],
    after: usize,
    failures: usize,
    written: usize,
) -> Result<bool, AllocError> {
    let disk = MemoryFile::failing(alloc, Vec::new(alloc), after, failures, written);
    match open_file(alloc, disk, 7) {
        Ok(mut found) => take_turns(alloc, &mut found.file, ops),
        Err(why) => Ok(after < 2 && matches!(&why, OpenFault::File(_))),
    }
}

#[test]
fn each_call_fails_once(rt: HostRuntime) -> Result<(), Fail> {
    let alloc = rt.alloc();
    let ops = letters(alloc, 200)?;
    let mut all = true;
    for after in 0..12 {
        for written in [0, 1, 300, 20_000] {
            all &= fail_after(alloc, &ops, after, 1, written)?;
        }
    }
    assert!(rt; all);
    Ok(())
}

#[test]
fn a_disk_that_stays_full_is_waited_for(rt: HostRuntime) -> Result<(), Fail> {
    let alloc = rt.alloc();
    let ops = letters(alloc, 200)?;
    let mut all = true;
    // the second turn fails, and of those after it all but the last
    for failures in 2..4 {
        all &= fail_after(alloc, &ops, 4, failures, 150)?;
    }
    assert!(rt; all);
    Ok(())
}

// Where all is kept nothing is done: so on a disk whose every call would fail.
fn keep_nothing(alloc: Global, file: &mut KeptFile<MemoryFile>) -> bool {
    let before = file.kept();
    let mut all = file.keep(alloc, &[]).is_ok();
    all &= file.kept() == before && before == Kept::nothing(7);
    all && file.room() == 7 && before.room() == 7 && before.version() == 0
}

// More operations than a log may have are refused, and nothing is written.
fn keep_too_many(
    alloc: Global,
    file: &mut KeptFile<MemoryFile>,
    ops: &[Op],
) -> Result<bool, AllocError> {
    let mut all = matches!(&file.keep(alloc, ops), Err(KeepFault::Full));
    all &= file.version() == 0 && file.disk().bytes(alloc)?.is_empty();
    Ok(all)
}

#[test]
fn nothing_is_kept_without_a_call(rt: HostRuntime) -> Result<(), Fail> {
    let alloc = rt.alloc();
    let op = letters(alloc, 1)?;
    let mut ops = Vec::new(alloc);
    for _ in 0..131_073 {
        ops.extend_from_slice(&op)?;
    }
    let disk = MemoryFile::failing(alloc, Vec::new(alloc), 2, 1000, 0);
    let all = match open_file(alloc, disk, 7) {
        Ok(mut found) => keep_nothing(alloc, &mut found.file)
            && keep_too_many(alloc, &mut found.file, &ops)?,
        Err(_) => false,
    };
    assert!(rt; all);
    Ok(())
}
