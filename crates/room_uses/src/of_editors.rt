//! What a client keeps of a room.
ghost use Rattle.std.specs.Prelude.{◌≡◌, IfOk, Some};
ghost use Rattle.room_model.specs.Editor.{empty_editor, with_reply};

use editors::Editor;
use opid::Refusal;
use room::Reply;
use std::alloc::Global;

/// An editor that was told the reply to its session's joining.
pub fn opened_by(alloc: Global, joined: &Reply) -> Result<Editor, Refusal>
    ensures { IfOk result (λ editor. with_reply joined.now empty_editor ≡ Some editor) }
{
    let mut editor = Editor::new(alloc);
    editor.follow(joined)?;
    Ok(editor)
}
