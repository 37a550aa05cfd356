//! Editors whose texts are as long as a document may be, in either count of places.
use crate::counts::Editors;
use opid::{Edit, Refusal};
use room::{Characters, Edits, Reply};
use std::alloc::{AllocError, Global};
use std::test::Fail;

// A text of one character, so often, for an editor of the count: where it ends, and the edit that takes the last one out once
// another character stands before all.
#[derive(Clone, Copy)]
struct Long {
    units: bool,
    ch: char,
    count: u32,
    end: usize,
    last: Edit,
}

// The character so often, between these texts.
fn text_of(
    alloc: Global,
    start: &str,
    ch: char,
    count: u32,
    end: &str,
) -> Result<String, AllocError> {
    let mut text = String::from_str(alloc, start)?;
    for _ in 0..count {
        text.push(ch)?;
    }
    text.push_str(end)?;
    Ok(text)
}

// The reply that opens a session with the text.
fn joined(alloc: Global, long: &Long) -> Result<Reply, AllocError> {
    let text = text_of(alloc, "", long.ch, long.count, "")?;
    let x = Characters::new(text);
    Ok(Reply::Joined {
        s: 1,
        v: long.count,
        x,
    })
}

// The reply by which `b` is put in at the end, `c` at the beginning, and the last of the text's own is taken out.
fn edited(alloc: Global, long: &Long) -> Result<Reply, AllocError> {
    let edits = vec![in alloc; Edit::Ins(long.end, 'b'), Edit::Ins(0, 'c'), long.last]?;
    Ok(Reply::Edits {
        from: long.count,
        es: Edits::new(edits),
    })
}

// Whether the editor of the count is then at the version, with its text.
fn shows_edited(alloc: Global, both: &Editors, long: &Long) -> Result<bool, AllocError> {
    let count = long.count.saturating_sub(1);
    let wanted = text_of(alloc, "c", long.ch, count, "b")?;
    let version = long.count.saturating_add(3);
    Ok(both.show(long.units, version, wanted.as_str()))
}

// Whether an editor that is given both replies shows what they tell.
fn is_followed(alloc: Global, both: &mut Editors, long: &Long) -> Result<bool, Refusal> {
    both.follow(long.units, &joined(alloc, long)?)?;
    both.follow(long.units, &edited(alloc, long)?)?;
    Ok(shows_edited(alloc, both, long)?)
}

#[test]
fn editors_of_long_texts(rt: HostRuntime) -> Result<(), Fail> {
    // with its three edits the longer one of each count comes to as many versions as a log has
    for (units, ch, count, end, last) in [
        (false, 'a', 65_536, 65_536, Edit::Del(65_536)),
        (false, 'a', 131_069, 131_069, Edit::Del(131_069)),
        (
            true,
            '\u{1F600}',
            65_536,
            131_072,
            Edit::DelUnits(131_071, 2),
        ),
        (
            true,
            '\u{1F600}',
            131_069,
            262_138,
            Edit::DelUnits(262_137, 2),
        ),
    ] {
        let long = Long {
            units,
            ch,
            count,
            end,
            last,
        };
        assert!(rt; is_followed(rt.alloc(), &mut Editors::new(rt.alloc()), &long)?);
    }
    Ok(())
}
