//! A log, and what is read of bytes.
use causal_clock::{Clock, Op};
use journal::read_journal;
use keeper::{Disk, Found, FoundFile, KeptFile, MemoryFile, OpenFault, find};
use opid::{OpKind, Site};
use std::alloc::{AllocError, Global};
use std::test::Fail;
use versions::Doc;

/// A file that was opened, the document that stands in it, and how many bytes behind its last whole line were saved.
#[derive(Drop)]
pub(crate) struct Opened<D: Disk> {
    pub(crate) file: KeptFile<D>,
    pub(crate) doc: Doc,
    pub(crate) torn: usize,
}

/// Opens a file, and saves what stands behind its last whole line in memory.
pub(crate) fn open_file<D: Disk>(
    alloc: Global,
    disk: D,
    room: usize,
) -> Result<Opened<D>, OpenFault> {
    let (found, doc) = match find(alloc, disk, room) {
        Ok(Found { file, doc }) => (file, doc),
        Err(unopened) => return Err(unopened.why),
    };
    match found {
        FoundFile::Whole(file) => Ok(Opened { file, doc, torn: 0 }),
        FoundFile::Torn(torn) => {
            let len = torn.tail().len();
            let mut beside = MemoryFile::new(alloc, Vec::new(alloc));
            match torn.save(&mut beside) {
                Ok(file) => Ok(Opened {
                    file,
                    doc,
                    torn: len,
                }),
                Err(why) => Err(OpenFault::File(why)),
            }
        }
    }
}

/// So many insertions at the head, by site 0.
pub(crate) fn letters(alloc: Global, count: usize) -> Result<Vec<Op>, Fail> {
    let site = Site::new(0)?;
    let mut known = Clock::zero();
    let mut ops = Vec::new(alloc);
    for _ in 0..count {
        if known.sum() < 1000 {
            let kind = OpKind::Ins {
                parent: None,
                ch: 'a',
            };
            let op = Op::next(site, &known, kind);
            known = op.clock();
            ops.push(op)?;
        }
    }
    Ok(ops)
}

/// The operations from one number up to another.
pub(crate) fn part(ops: &[Op], from: usize, upto: usize) -> &[Op] {
    let end = ops.len().min(upto);
    &ops[end.min(from)..end]
}

/// Whether the bytes stand for the first of the operations, and for how many at least and at most.
pub(crate) fn stands_for(
    alloc: Global,
    bytes: &[u8],
    ops: &[Op],
    least: usize,
    most: usize,
) -> bool {
    let Ok(journal) = read_journal(alloc, bytes) else {
        return false;
    };
    let count = journal.doc.version() as usize;
    let mut all = least <= count && count <= most && count <= ops.len();
    for at in 0..count.min(ops.len()) {
        all &= journal.doc.op(at as u32) == ops[at];
    }
    all
}

/// Whether each crash of this moment leaves so many of the operations at least, and so many at most: of an append so many lengths, 601
/// bytes apart, and zeros behind it.
pub(crate) fn each_crash_leaves(
    alloc: Global,
    file: &KeptFile<MemoryFile>,
    ops: &[Op],
    least: usize,
    most: usize,
    lengths: usize,
) -> Result<bool, AllocError> {
    let mut all = true;
    for step in 0..lengths.min(1000) {
        let left = file.disk().torn(alloc, step * 601, 3)?;
        all &= stands_for(alloc, &left, ops, least, most);
    }
    Ok(all)
}
