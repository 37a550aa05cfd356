//! A text in characters.
ghost use Rattle.std.specs.Prelude.{◌≡◌, length, ◌==◌};

use crate::edited::EditedText;
use opid::{Edit, Refusal};
use std::alloc::Global;
use std::marker::Model;

/// A text, seen as the list of its characters (Unicode scalar values). Places count characters.
#[derive(Debug, Drop)]
pub struct Text {
    characters: Vec<char>,
}

impl Model for Text {
    ghost use Rattle.std.specs.Prelude.{ℕ, List};

    ghost Value = { List ℕ };

    ghost view = { λ t. t.characters.items };
}

impl Text {
    /// How many characters there are. Constant time.
    pub fn len(&self) -> usize
        ensures { result ≡ length self.now }
    {
        self.characters.len()
    }

    /// Whether there are none. Constant time.
    pub fn is_empty(&self) -> bool
        ensures { result ≡ (length self.now == 0) }
    {
        self.characters.is_empty()
    }

    /// The characters. Constant time.
    pub fn characters(&self) -> &[char]
        ensures { result.now ≡ self.now }
    {
        &self.characters
    }
}

impl EditedText for Text {
    ghost use Rattle.std.specs.Prelude.{false};

    ghost units = { false };

    ghost items = { λ t. t };

    fn new(alloc: Global) -> Text {
        Text {
            characters: Vec::new(alloc),
        }
    }

    fn start(alloc: Global, start: &str) -> Result<Text, Refusal> {
        let characters = start.chars().collect(alloc)?;
        Ok(Text { characters })
    }

    fn apply(&mut self, edit: &Edit) -> Result<(), Refusal> {
        match *edit {
            Edit::Ins(place, character) => {
                if place > self.characters.len() {
                    return Err(Refusal::BadPlace);
                }
                self.characters.insert(place, character)?;
                Ok(())
            }
            Edit::Del(place) => {
                if place >= self.characters.len() {
                    return Err(Refusal::BadPlace);
                }
                self.characters.remove(place);
                Ok(())
            }
            Edit::DelUnits(_, _) => Err(Refusal::BadPlace),
            Edit::Nop => Ok(()),
        }
    }
}
