//! Lines that lack memory, each served by an engine of its own over one desk. This test passes whatever allocation is refused:
//! `tests/refused_memory` refuses each of them in turn.
use crate::desks::desk_of;
use line_engine::{Counted, ServeFault, serve_lines};
use opid::Site;
use room::RoomDesk;
use std::alloc::Global;
use std::test::Fail;

// More bytes than any answer here has.
const MOST: usize = 256;

// A line and what answers it; for a submission, another one under its number.
#[derive(Clone, Copy)]
struct Line {
    asked: &'static [u8],
    told: &'static [u8],
    again: Option<&'static [u8]>,
}

const JOIN: Line = Line {
    asked: b"{\"t\":\"join\"}",
    told: b"{\"r\":\"joined\",\"s\":1,\"v\":0,\"x\":\"\"}\n",
    again: None,
};

const H: Line = Line {
    asked: b"{\"t\":\"ins\",\"s\":1,\"n\":1,\"v\":0,\"k\":0,\"x\":\"H\"}",
    told: b"{\"from\":0,\"r\":\"ok\",\"to\":1}\n",
    again: Some(b"{\"t\":\"ins\",\"s\":1,\"n\":1,\"v\":0,\"k\":0,\"x\":\"zz\"}"),
};

const PULLED_H: Line = Line {
    asked: b"{\"t\":\"pull\",\"s\":1,\"have\":0,\"max\":64}",
    told: b"{\"es\":[[\"i\",0,\"H\"]],\"from\":0,\"r\":\"edits\"}\n",
    again: None,
};

const INSERTS: &[Line] = &[
    JOIN,
    H,
    PULLED_H,
    Line {
        asked: b"{\"t\":\"ops\",\"after\":0,\"max\":64}",
        told: b"{\"from\":0,\"ops\":[{\"c\":[[0,1]],\"k\":\"i\",\"p\":null,\"s\":0,\"x\":\"H\"}],\"r\":\"ops\"}\n",
        again: None,
    },
];

const NAMES_AN_OLD_VERSION: &[Line] = &[
    JOIN,
    Line {
        asked: b"{\"t\":\"ins\",\"s\":1,\"n\":1,\"v\":0,\"k\":0,\"x\":\"abc\"}",
        told: b"{\"from\":0,\"r\":\"ok\",\"to\":3}\n",
        again: Some(b"{\"t\":\"ins\",\"s\":1,\"n\":1,\"v\":0,\"k\":0,\"x\":\"zz\"}"),
    },
    Line {
        asked: b"{\"t\":\"pull\",\"s\":1,\"have\":0,\"max\":64}",
        told: b"{\"es\":[[\"i\",0,\"a\"],[\"i\",1,\"b\"],[\"i\",2,\"c\"]],\"from\":0,\"r\":\"edits\"}\n",
        again: None,
    },
    Line {
        asked: b"{\"t\":\"del\",\"s\":1,\"n\":2,\"v\":3,\"k\":1,\"c\":1}",
        told: b"{\"from\":3,\"r\":\"ok\",\"to\":4}\n",
        again: Some(b"{\"t\":\"del\",\"s\":1,\"n\":2,\"v\":3,\"k\":0,\"c\":3}"),
    },
    Line {
        asked: b"{\"t\":\"ins\",\"s\":1,\"n\":3,\"v\":3,\"k\":2,\"x\":\"X\"}",
        told: b"{\"from\":4,\"r\":\"ok\",\"to\":5}\n",
        again: Some(b"{\"t\":\"del\",\"s\":1,\"n\":3,\"v\":3,\"k\":0,\"c\":3}"),
    },
    Line {
        asked: b"{\"t\":\"pull\",\"s\":1,\"have\":3,\"max\":64}",
        told: b"{\"es\":[[\"d\",1],[\"i\",1,\"X\"]],\"from\":3,\"r\":\"edits\"}\n",
        again: None,
    },
    Line {
        asked: b"{\"t\":\"read\"}",
        told: b"{\"r\":\"text\",\"v\":5,\"x\":\"aXc\"}\n",
        again: None,
    },
];

// An operation whose causal past comes after it.
const EARLY: &[u8] =
    b"{\"t\":\"put\",\"ops\":[{\"c\":[[1,2]],\"k\":\"i\",\"p\":[1,1],\"s\":1,\"x\":\"b\"}]}";

const HOLDS_BACK: &[Line] = &[
    Line {
        asked: EARLY,
        told: b"{\"os\":[[\"kept\"]],\"r\":\"put\"}\n",
        again: None,
    },
    Line {
        asked: b"{\"t\":\"put\",\"ops\":[{\"c\":[[1,1]],\"k\":\"i\",\"p\":null,\"s\":1,\"x\":\"a\"}]}",
        told: b"{\"os\":[[\"took\",2,0]],\"r\":\"put\"}\n",
        again: None,
    },
    Line {
        asked: EARLY,
        told: b"{\"os\":[[\"again\"]],\"r\":\"put\"}\n",
        again: None,
    },
    Line {
        asked: b"{\"t\":\"read\"}",
        told: b"{\"r\":\"text\",\"v\":2,\"x\":\"ab\"}\n",
        again: None,
    },
];

const REFUSES: &[Line] = &[
    JOIN,
    H,
    PULLED_H,
    Line {
        asked: b"{\"t\":\"ins\",\"s\":1,\"n\":2,\"v\":1,\"k\":1,\"x\":\"I\"}",
        told: b"{\"from\":1,\"r\":\"ok\",\"to\":2}\n",
        again: Some(b"{\"t\":\"ins\",\"s\":1,\"n\":2,\"v\":1,\"k\":1,\"x\":\"zz\"}"),
    },
    Line {
        asked: b"{\"t\":\"put\",\"ops\":[{\"c\":[[1,1]],\"k\":\"i\",\"p\":[2,0],\"s\":1,\"x\":\"p\"},{\"c\":[[1,1]],\"k\":\"i\",\"p\":[9,9],\"s\":1,\"x\":\"p\"},{\"c\":[[0,1],[1,1]],\"k\":\"i\",\"p\":[1,0],\"s\":1,\"x\":\"p\"},{\"c\":[[1,2]],\"k\":\"d\",\"s\":1,\"t\":[1,0]}]}",
        told: b"{\"os\":[[\"no\",21],[\"no\",20],[\"took\",1,0],[\"no\",19]],\"r\":\"put\"}\n",
        again: None,
    },
    Line {
        asked: b"{\"t\":\"read\"}",
        told: b"{\"r\":\"text\",\"v\":3,\"x\":\"HpI\"}\n",
        again: None,
    },
];

// What became of a line.
#[derive(Clone, Copy, PartialEq, Eq)]
enum Fate {
    AsWithAmpleMemory,
    // Refused for want of memory, or the engine ended before it read: nothing was done.
    NotDone,
    // The engine ended when its answer found no memory, and wrote nothing of it.
    NotTold,
    Otherwise,
}

fn serve(alloc: Global, desk: &mut RoomDesk, line: &[u8], want: &[u8]) -> Fate {
    let mut written = [0; MOST];
    let mut input = Counted::new(line);
    let mut output = Counted::new(&mut written[..]);
    let end = serve_lines(alloc, desk, &mut input, &mut output);
    let unread = input.into_inner().len();
    let left = output.into_inner().len();
    let told = &written[..MOST.saturating_sub(left)];
    match end {
        Ok(()) if told == want => Fate::AsWithAmpleMemory,
        Ok(()) if told == b"{\"n\":26,\"r\":\"no\"}\n".as_slice() => Fate::NotDone,
        Err(ServeFault::Memory) if told.is_empty() && unread == line.len() => Fate::NotDone,
        Err(ServeFault::Memory) if told.is_empty() => Fate::NotTold,
        _ => Fate::Otherwise,
    }
}

// Whether each line is answered as with ample memory, once it was sent again where it wasn't done. What was done and not told
// ends the run; a submission is first sent again as another, and gets the kept reply.
fn bears_want(alloc: Global, desk: &mut RoomDesk, lines: &[Line]) -> bool {
    for line in lines {
        let mut fate = serve(alloc, desk, line.asked, line.told);
        if fate == Fate::NotDone {
            fate = serve(alloc, desk, line.asked, line.told);
        }
        if fate == Fate::NotTold {
            return match line.again {
                Some(other) => serve(alloc, desk, other, line.told) == Fate::AsWithAmpleMemory,
                None => true,
            };
        }
        if fate != Fate::AsWithAmpleMemory {
            return false;
        }
    }
    true
}

// The same over a room of its own.
fn bears_want_anew(alloc: Global, site: Site, lines: &[Line]) -> bool {
    let mut desk = desk_of(alloc, site);
    bears_want(alloc, &mut desk, lines)
}

#[test]
fn lines_that_lack_memory(rt: HostRuntime) -> Result<(), Fail> {
    let site = Site::new(0)?;
    let mut all = bears_want_anew(rt.alloc(), site, INSERTS);
    all &= bears_want_anew(rt.alloc(), site, NAMES_AN_OLD_VERSION);
    all &= bears_want_anew(rt.alloc(), site, HOLDS_BACK);
    all &= bears_want_anew(rt.alloc(), site, REFUSES);
    assert!(rt; all);
    Ok(())
}
