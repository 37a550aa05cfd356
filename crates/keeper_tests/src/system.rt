//! A file of the system, of which no contract knows anything.
use crate::fixtures::{letters, open_file, part, stands_for};
use causal_clock::Op;
use keeper::{Disk, HostFile, KeepFault};
use std::alloc::Global;
use std::fs::{File, Files, OpenOptions};
use std::test::Fail;
use std::{fs, io};

// Where it stands.
const PATH: &str = "keeper_tests.ops";

fn open<R: Files<File = File>>(rt: &R) -> io::Result<HostFile> {
    let file = OpenOptions::new()
        .read(true)
        .append(true)
        .create(true)
        .open(rt, PATH)?;
    Ok(HostFile::new(file))
}

// Opens it, and keeps 30 operations more than were kept; then a line is begun behind them.
fn go_on<R: Files<File = File>>(rt: &R, alloc: Global, ops: &[Op], round: u8) -> io::Result<bool> {
    let Ok(mut found) = open_file(alloc, open(rt)?, usize::from(round)) else {
        return Ok(false);
    };
    let from = usize::from(round) * 30;
    let mut all = found.doc.version() as usize == from
        && found.torn == if round == 0 { 0 } else { 11 };
    all &= found.file.keep(alloc, part(ops, from, from + 30)).is_ok();
    all &= found.file.version() as usize == from + 30;
    let mut torn = open(rt)?;
    torn.append(b"{\"from\":30,")?;
    // (which the file that is open sees: it keeps nothing more)
    let strayed = found.file.keep(alloc, part(ops, from + 30, from + 31));
    all &= matches!(&strayed, Err(KeepFault::Strayed(_)));
    Ok(all)
}

#[test]
fn a_file_of_the_system_is_kept(rt: HostRuntime) -> Result<(), Fail> {
    let alloc = rt.alloc();
    let ops = letters(alloc, 90)?;
    let _ = fs::remove_file(&rt, PATH);
    let mut all = true;
    for round in 0..3u8 {
        all &= go_on(&rt, alloc, &ops, round)?;
    }
    let bytes = fs::read(&rt, PATH)?;
    all &= stands_for(alloc, &bytes, &ops, 90, 90);
    fs::remove_file(&rt, PATH)?;
    assert!(rt; all);
    Ok(())
}
