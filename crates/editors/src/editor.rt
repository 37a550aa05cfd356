//! An editor of a session, as the author of a client would write it.
ghost use Rattle.std.specs.Prelude.{◌≡◌, ◌+◌, ◌<◌, ◌≤◌, ◌^◌, ◌⊎◌, ℕ, Some, None, length, take, IfErr, OnOk, OnErr};
ghost use Rattle.opid.specs.declared.refusal.Refusal.TheVariants.{BadPlace, Memory};
ghost use Rattle.opid.specs.Splice.{play_in};
ghost use Rattle.room_model.specs.Editor.{empty_editor, with_reply_in, FollowsPart_in};

use opid::{Edit, Refusal};
use room_model::Reply;
use splice::{EditedText, Text, UnitText};
use std::alloc::Global;
use std::marker::Model;

/// The text and the version that an editor makes of the replies of its session, in whatever order and however often
/// they come. Its text counts as the session's places do.
#[derive(Debug, Drop)]
pub struct EditorOf<T: EditedText> {
    alloc: Global,
    text: T,
    version: u64,
}

/// An editor of a session whose places count characters.
pub type Editor = EditorOf<Text>;

/// An editor of a session whose places count UTF-16 code units.
pub type UnitEditor = EditorOf<UnitText>;

impl<T: EditedText> Model for EditorOf<T> {
    ghost use Rattle.room_model.specs.Editor.{Editor};

    ghost Value = { Editor };

    ghost view = { λ e. record { text = T.items e.text; version = e.version } };
}

impl<T: EditedText> EditorOf<T> {
    /// An editor of the empty text at version 0. Constant time; takes no memory.
    pub fn new(alloc: Global) -> EditorOf<T>
        ensures { result ≡ empty_editor }
    {
        EditorOf {
            alloc,
            text: T::new(alloc),
            version: 0,
        }
    }

    /// The text. Constant time.
    pub fn text(&self) -> &T
        ensures { T.items result.now ≡ self.now.text }
    {
        &self.text
    }

    /// The version that the text is of. Constant time.
    pub fn version(&self) -> u64
        ensures { result ≡ self.now.version }
    {
        self.version
    }

    /// Plays a reply of the editor's session: a joined one gives the text and the version, edits that lead on from the
    /// editor's version are played, and all else changes nothing. Takes a step for each place of a joined one's text, and for
    /// each edit one for each place behind its own.
    ///
    /// Refused with `BadPlace` where an edit is none of the text, which no reply to such a session has, and with `Memory`. Then
    /// a beginning of its edits was played, and the version is theirs: the editor is in step with its room still, and
    /// pulls again from there.
    pub fn follow(&mut self, reply: &Reply) -> Result<(), Refusal>
        ensures ok { OnOk result (with_reply_in T.units reply.now self.old ≡ Some self.new) }
        ensures cause { IfErr result (λ e. ((e ≡ BadPlace) × (with_reply_in T.units reply.now self.old ≡ None)) ⊎ (e ≡ Memory)) }
        ensures err { OnErr result (FollowsPart_in T.units reply.now self.old self.new) }
    {
        match reply {
            Reply::Joined { s: _, v, x } => {
                self.text = T::start(self.alloc, x.as_str())?;
                self.version = u64::from(*v);
                Ok(())
            }
            Reply::Edits { from, es } => {
                if u64::from(*from) != self.version {
                    return Ok(());
                }
                play_each(&mut self.text, &mut self.version, es.as_slice())
            }
            _ => Ok(()),
        }
    }
}

// Plays edits one after another, and counts them.
fn play_each<T: EditedText>(text: &mut T, version: &mut u64, es: &[Edit]) -> Result<(), Refusal>
    requires { version.old < 2 ^ 32 }
    ensures ok { OnOk result ((play_in T.units (T.items text.old) es.now ≡ Some (T.items text.new))
        × (version.new ≡ version.old + length es.now)) }
    ensures cause { IfErr result (λ e. ((e ≡ BadPlace) × (play_in T.units (T.items text.old) es.now ≡ None)) ⊎ (e ≡ Memory)) }
    ensures err { OnErr result ((n : ℕ) × (n ≤ length es.now)
        × (play_in T.units (T.items text.old) (take n es.now) ≡ Some (T.items text.new)) × (version.new ≡ version.old + n)) }
{
    for edit in es {
        match text.apply(edit) {
            Ok(()) => *version += 1,
            Err(why) => return Err(why),
        }
    }
    Ok(())
}
