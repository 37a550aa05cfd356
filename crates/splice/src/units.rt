//! A text in UTF-16 code units.
ghost use Rattle.std.specs.Prelude.{◌≡◌, ◌+◌, ◌≤◌, ◌++◌, true, take, drop, OnOk, OnErr, IfErr, length};
ghost use Rattle.opid.specs.declared.refusal.Refusal.TheVariants.{Memory};
ghost use Rattle.opid.specs.Units.{units_of};
ghost use Rattle.opid.specs.Splice.{is_inside};

use crate::edited::EditedText;
use opid::{Edit, Refusal};
use std::alloc::Global;
use std::marker::Model;

/// A text, seen as the list of its UTF-16 code units. Places count code units.
#[derive(Debug, Drop)]
pub struct UnitText {
    units: Vec<u16>,
}

impl Model for UnitText {
    ghost use Rattle.std.specs.Prelude.{ℕ, List};

    ghost Value = { List ℕ };

    ghost view = { λ t. t.units.items };
}

impl UnitText {
    /// How many code units there are. Constant time.
    pub fn len(&self) -> usize
        ensures { result ≡ length self.now }
    {
        self.units.len()
    }

    /// The code units. Constant time.
    pub fn units(&self) -> &[u16]
        ensures { result.now ≡ self.now }
    {
        &self.units
    }

    // Whether the place stands inside a pair.
    fn is_inside(&self, place: usize) -> bool
        ensures { result ≡ is_inside true self.now place }
    {
        match self.units.get(place) {
            Some(unit) => 0xDC00 <= *unit && *unit < 0xE000,
            None => false,
        }
    }

    // Puts in the code units of the character at the place.
    fn put(&mut self, place: usize, ch: char) -> Result<(), Refusal>
        requires { place ≤ length self.old }
        ensures ok { OnOk result (self.new ≡ take place self.old ++ (units_of ch ++ drop place self.old)) }
        ensures err { OnErr result (self.new ≡ self.old) }
        ensures cause { IfErr result (λ e. e ≡ Memory) }
    {
        let mut buffer = [0; 2];
        let units = ch.encode_utf16(&mut buffer);
        self.units.extend_from_slice(units)?;
        self.units[place..].rotate_right(units.len());
        Ok(())
    }

    // Takes out so many code units from the place on.
    fn take_out(&mut self, place: usize, width: u8)
        requires { place + width ≤ length self.old }
        ensures { self.new ≡ take place self.old ++ drop (place + width) self.old }
    {
        let rest = self.units.len() - usize::from(width);
        self.units.copy_within(place + usize::from(width).., place);
        self.units.truncate(rest);
    }
}

impl EditedText for UnitText {
    ghost units = { true };

    ghost items = { λ t. t };

    fn new(alloc: Global) -> UnitText {
        UnitText {
            units: Vec::new(alloc),
        }
    }

    fn start(alloc: Global, start: &str) -> Result<UnitText, Refusal> {
        let mut units = Vec::new(alloc);
        for ch in start.chars() {
            units.extend_from_slice(ch.encode_utf16(&mut [0; 2]))?;
        }
        Ok(UnitText { units })
    }

    fn apply(&mut self, edit: &Edit) -> Result<(), Refusal> {
        match *edit {
            Edit::Ins(place, ch) => {
                if place > self.units.len() || self.is_inside(place) {
                    return Err(Refusal::BadPlace);
                }
                self.put(place, ch)
            }
            Edit::Del(_) => Err(Refusal::BadPlace),
            Edit::DelUnits(place, width) => {
                if place >= self.units.len() || self.is_inside(place) {
                    return Err(Refusal::BadPlace);
                }
                let found = if self.is_inside(place + 1) { 2 } else { 1 };
                if width != found {
                    return Err(Refusal::BadPlace);
                }
                self.take_out(place, width);
                Ok(())
            }
            Edit::Nop => Ok(()),
        }
    }
}
