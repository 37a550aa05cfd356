//! A file in memory fails as it was asked to, and leaves what it was asked for.
use keeper::{Disk, MemoryFile};
use std::alloc::{AllocError, Global};
use std::test::Fail;

// Whether a crash leaves these bytes, where so many of the last append are written, and so many zeros.
fn leaves(
    alloc: Global,
    file: &MemoryFile,
    size: usize,
    zeros: usize,
    wanted: &[u8],
) -> Result<bool, AllocError> {
    let left = file.torn(alloc, size, zeros)?;
    Ok(left.as_slice() == wanted)
}

// A file of which the second call fails and the third, and an append that fails writes two bytes.
fn fail_twice(alloc: Global, file: &mut MemoryFile) -> Result<bool, AllocError> {
    let mut all = file.sync().is_ok();
    all &= file.append(b"abc").is_err();
    all &= leaves(alloc, file, 9, 0, b"xab")?;
    all &= leaves(alloc, file, 1, 3, b"xa\0\0\0")?;
    all &= file.cut(0).is_err();
    all &= file.append(b"cd").is_ok();
    all &= leaves(alloc, file, 1, 1, b"xabc\0")?;
    all &= file.sync().is_ok();
    all &= leaves(alloc, file, 1, 1, b"xabcd")?;
    Ok(all)
}

#[test]
fn a_file_in_memory_fails_as_asked(rt: HostRuntime) -> Result<(), Fail> {
    let alloc = rt.alloc();
    let mut file = MemoryFile::failing(alloc, b"x".to_vec(alloc)?, 1, 2, 2);
    assert!(rt; fail_twice(alloc, &mut file)?);
    Ok(())
}
