//! Files that a crash has left, opened again.
use crate::fixtures::{Opened, letters, open_file, part, stands_for};
use causal_clock::Op;
use keeper::{KeptFile, MemoryFile, OpenFault};
use std::alloc::{AllocError, Global};
use std::test::Fail;

// What a crash leaves in the midst of the second of two turns, after so many bytes and with zeros behind them.
fn leave(
    alloc: Global,
    file: &mut KeptFile<MemoryFile>,
    ops: &[Op],
    size: usize,
) -> Result<Vec<u8>, AllocError> {
    let _ = file.keep(alloc, part(ops, 0, 70));
    let _ = file.keep(alloc, part(ops, 70, 200));
    file.disk().torn(alloc, size, 2)
}

// What it leaves is opened, and the rest is kept.
fn go_on(
    alloc: Global,
    found: &mut Opened<MemoryFile>,
    ops: &[Op],
    left: usize,
) -> Result<bool, AllocError> {
    let version = found.doc.version() as usize;
    let mut all = version >= 70 && version == found.file.version() as usize;
    let before = found.file.disk().bytes(alloc)?;
    all &= before.len() == left && found.torn <= left;
    all &= stands_for(
        alloc,
        &before[..left.min(before.len()) - found.torn.min(left.min(before.len()))],
        ops,
        version,
        version,
    );
    all &= found.file.keep(alloc, part(ops, version, 200)).is_ok();
    all &= stands_for(alloc, &found.file.disk().bytes(alloc)?, ops, 200, 200);
    Ok(all)
}

fn crash_and_open(alloc: Global, ops: &[Op], size: usize) -> Result<bool, AllocError> {
    // the sync of the second turn fails: its append is the last call
    let disk = MemoryFile::failing(alloc, Vec::new(alloc), 5, 1, 0);
    let left = match open_file(alloc, disk, 0) {
        Ok(mut found) => leave(alloc, &mut found.file, ops, size)?,
        Err(_) => return Ok(false),
    };
    let len = left.len();
    match open_file(alloc, MemoryFile::new(alloc, left), 3) {
        Ok(mut found) => Ok(found.file.room() == 3 && go_on(alloc, &mut found, ops, len)?),
        Err(_) => Ok(false),
    }
}

#[test]
fn a_torn_file_is_opened_and_goes_on(rt: HostRuntime) -> Result<(), Fail> {
    let alloc = rt.alloc();
    let ops = letters(alloc, 200)?;
    let mut all = true;
    for step in 0..150 {
        all &= crash_and_open(alloc, &ops, step * 131)?;
    }
    assert!(rt; all);
    Ok(())
}

// The number of the line that is told of bytes, or 0.
fn line_of(alloc: Global, bytes: &[u8]) -> Result<usize, AllocError> {
    let copy = bytes.to_vec(alloc)?;
    Ok(match open_file(alloc, MemoryFile::new(alloc, copy), 0) {
        Err(OpenFault::Line(line)) => line,
        _ => 0,
    })
}

#[test]
fn a_line_of_something_else_is_told(rt: HostRuntime) -> Result<(), Fail> {
    let alloc = rt.alloc();
    assert_eq!(rt; line_of(alloc, b"not a part\n")?, 1);
    assert_eq!(rt;
        line_of(alloc, b"{\"from\":0,\"ops\":[],\"r\":\"ops\"}\n\n")?,
        2
    );
    assert_eq!(rt; line_of(alloc, b"torn, so that it is left out")?, 0);
    Ok(())
}

// How many bytes are told to be no line that was cut short, or 0.
fn tail_of(alloc: Global, bytes: &[u8]) -> Result<usize, AllocError> {
    let copy = bytes.to_vec(alloc)?;
    Ok(match open_file(alloc, MemoryFile::new(alloc, copy), 0) {
        Err(OpenFault::Tail(len)) => len,
        _ => 0,
    })
}

#[test]
fn what_is_no_line_that_was_cut_short_is_told(rt: HostRuntime) -> Result<(), Fail> {
    let alloc = rt.alloc();
    let mut long = b"{\"from\":0,\"ops\":[],\"r\":\"ops\"}\n".to_vec(alloc)?;
    assert_eq!(rt; tail_of(alloc, b"no line")?, 7);
    assert_eq!(rt; tail_of(alloc, &long)?, 0);
    long.resize(long.len() + 65_536, b'x')?;
    assert_eq!(rt; tail_of(alloc, &long)?, 0);
    long.push(b'x')?;
    assert_eq!(rt; tail_of(alloc, &long)?, 65_537);
    Ok(())
}

// Whether a kept file of these operations of which a byte was changed is refused.
fn is_refused(alloc: Global, kept: &[u8], at: usize) -> Result<bool, AllocError> {
    let mut bytes = kept.to_vec(alloc)?;
    if let Some(byte) = bytes.get_mut(at) {
        *byte ^= 1;
    }
    Ok(open_file(alloc, MemoryFile::new(alloc, bytes), 0).is_err())
}

// A file in which three operations are kept by three turns.
fn three_turns(alloc: Global, ops: &[Op]) -> Result<Vec<u8>, AllocError> {
    match open_file(alloc, MemoryFile::new(alloc, Vec::new(alloc)), 0) {
        Ok(mut opened) => {
            for end in 1..4 {
                let _ = opened.file.keep(alloc, part(ops, end - 1, end));
            }
            opened.file.disk().bytes(alloc)
        }
        Err(_) => Ok(Vec::new(alloc)),
    }
}

#[test]
fn each_changed_byte_is_refused(rt: HostRuntime) -> Result<(), Fail> {
    let alloc = rt.alloc();
    let ops = letters(alloc, 3)?;
    let kept = three_turns(alloc, &ops)?;
    let mut all = kept.len() > 400 && stands_for(alloc, &kept, &ops, 3, 3);
    // (the last LF changed leaves the last digest cut short)
    for at in 0..kept.len().saturating_sub(1) {
        all &= is_refused(alloc, &kept, at)?;
    }
    assert!(rt; all);
    Ok(())
}
