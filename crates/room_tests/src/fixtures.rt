//! What tests of rooms share: an empty room, an insertion, replies, and what an editor shows.
ghost use Rattle.std.specs.Prelude.{◌≡◌, [], IfOk};

use editors::Editor;
use opid::{Refusal, Site};
use room::{Call, Characters, Reply, Room};
use std::alloc::{AllocError, Global};

/// The room of site 0, with an empty document.
pub(crate) fn empty_room(alloc: Global) -> Result<Room, Refusal>
    ensures { IfOk result (λ r. r.history ≡ []) }
{
    Ok(Room::new(alloc, Site::new(0)?))
}

/// The insertion of a text as submission `n` of a session, at a place of a version.
pub(crate) fn insertion(
    alloc: Global,
    s: u32,
    n: u32,
    v: u32,
    k: u32,
    text: &str,
) -> Result<Call, AllocError> {
    let x = Characters::from_str(alloc, text)?;
    Ok(Call::Ins { s, n, v, k, x })
}

/// Whether the reply tells that a submission leads from that version to that one.
pub(crate) fn is_ok(reply: &Reply, versions: (u32, u32)) -> bool {
    match reply {
        Reply::Ok { from, to } => (*from, *to) == versions,
        _ => false,
    }
}

/// Whether the reply opens that session at the version, with its text.
pub(crate) fn is_joined(reply: &Reply, session: u32, version: u32, text: &str) -> bool {
    match reply {
        Reply::Joined { s, v, x } => *s == session && *v == version && x.as_str() == text,
        _ => false,
    }
}

/// Whether the reply tells the text of the version.
pub(crate) fn is_text(reply: &Reply, version: u32, text: &str) -> bool {
    match reply {
        Reply::Text { v, x } => *v == version && x.as_str() == text,
        _ => false,
    }
}

/// Whether the editor has the text.
pub(crate) fn shows(editor: &Editor, text: &str) -> bool {
    editor.text().characters().iter().copied().eq(text.chars())
}
