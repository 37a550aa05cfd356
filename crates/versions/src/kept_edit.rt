//! An edit as a document keeps it, in both ways of counting places: eight bytes.
ghost use Rattle.std.specs.Prelude.{◌≡◌, ◌≤◌, ◌<◌, ◌*◌, ◌/◌, ◌%◌, ◌^◌, Bool, if◌then◌else◌};
ghost use Rattle.opid.specs.Units.{is_character};
ghost use Rattle.opid.specs.declared.edit.Edit.TheVariants as changes;
ghost use Rattle.versions.specs.Internal.KeptEdits.{edit_in};

use opid::{Edit, MAX_OPERATIONS};

// Each character is below this: 2^21.
const CHARACTERS: u64 = 2_097_152;

// Each place in characters is below this: 2^18.
const PLACES: u64 = 262_144;

// An edit that changes nothing.
const NOP: u64 = 3;

/// An edit with its place in characters and that in UTF-16 units, side by side in one number.
#[derive(Clone, Copy)]
pub(crate) struct KeptEdit {
    /// The place in units, that in characters, the character, and last the kind: 0 puts it in, 1 and 2 take one of so many
    /// units out, 3 changes nothing.
    pub(crate) word: u64,
}

const _: () = prove!(size_of::<KeptEdit>() == 8);

// What is kept of an edit, in one number.
fn word_of(place: usize, unit_place: usize, ch: char, kind: u64) -> u64
    requires place { place ≤ MAX_OPERATIONS }
    requires unit_place { unit_place ≤ 2 * MAX_OPERATIONS }
    requires kind { kind < 4 }
    ensures kind { result % 4 ≡ kind }
    ensures ch { result / 4 % 2 ^ 21 ≡ ch }
    ensures place { result / 4 / 2 ^ 21 % 2 ^ 18 ≡ place }
    ensures unit_place { result / 4 / 2 ^ 21 / 2 ^ 18 ≡ unit_place }
{
    let places = unit_place as u64 * PLACES + place as u64;
    (places * CHARACTERS + u64::from(ch)) * 4 + kind
}

// The character of a number, U+0000 where it is that of none.
fn char_of(number: u32) -> char
    ensures { result ≡ (if is_character number then number else 0) }
{
    match char::from_u32(number) {
        Some(ch) => ch,
        None => '\0',
    }
}

impl KeptEdit {
    /// The character is put in at the place, which is told in characters and in units.
    pub fn ins(place: usize, unit_place: usize, ch: char) -> KeptEdit
        requires place { place ≤ MAX_OPERATIONS }
        requires unit_place { unit_place ≤ 2 * MAX_OPERATIONS }
        ensures { (units : Bool) → edit_in units result ≡ changes.Ins (if units then unit_place else place) ch }
    {
        KeptEdit {
            word: word_of(place, unit_place, ch, 0),
        }
    }

    /// The character at the place, which is told in characters and in units, is taken out: whether it is wide tells that it
    /// has two units.
    pub fn del(place: usize, unit_place: usize, wide: bool) -> KeptEdit
        requires place { place ≤ MAX_OPERATIONS }
        requires unit_place { unit_place ≤ 2 * MAX_OPERATIONS }
        ensures { (units : Bool) → edit_in units result
            ≡ (if units then changes.DelUnits unit_place (if wide then 2 else 1) else changes.Del place) }
    {
        KeptEdit {
            word: word_of(place, unit_place, '\0', if wide { 2 } else { 1 }),
        }
    }

    /// Nothing changes.
    pub fn nop() -> KeptEdit
        ensures { (units : Bool) → edit_in units result ≡ changes.Nop }
    {
        KeptEdit { word: NOP }
    }

    /// The edit, with its place in units or in characters.
    pub fn edit(&self, in_units: bool) -> Edit
        ensures { result ≡ edit_in in_units self.now }
    {
        let kind = self.word % 4;
        let places = self.word / 4 / CHARACTERS;
        let place = if in_units {
            places / PLACES
        } else {
            places % PLACES
        } as usize;
        if kind == 0 {
            Edit::Ins(place, char_of((self.word / 4 % CHARACTERS) as u32))
        } else if kind == NOP {
            Edit::Nop
        } else if in_units {
            Edit::DelUnits(place, kind as u8)
        } else {
            Edit::Del(place)
        }
    }
}
