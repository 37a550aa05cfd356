//! The text of an edit, put together from its end in a few bytes, so that it is copied once, but for a character above ASCII, which
//! is appended by itself.
ghost use Rattle.std.specs.Prelude.{◌≡◌, ◌+◌, ◌≤◌, ◌∷◌, ◌++◌, drop, OnOk};
ghost use Rattle.opid.specs.declared.edit.Edit.TheVariants as edits;
ghost use Rattle.wire_json.specs.Text.{IsEditInRange, edit_text};

use json_bytes::{put, put_number, put_quoted};
use opid::Edit;
use std::alloc::AllocError;

// Room for the text of any edit: `["d",`, two numbers of at most 20 digits, a comma and a bracket take 47 bytes.
const MOST: usize = 64;

/// Appends the text of the edit.
pub(crate) fn push_edit(out: &mut Vec<u8>, edit: Edit) -> Result<(), AllocError>
    ensures text { OnOk result (out.new.items ≡ out.old.items ++ edit_text edit) }
    ensures in_range { IsEditInRange edit }
{
    let mut bytes = [0; MOST];
    let end = put(&mut bytes, MOST, b']');
    match edit {
        Edit::Del(place) => {
            let at = put_number(&mut bytes, end, place as u64);
            let at = put_letter(&mut bytes, at, b'd');
            out.extend_from_slice(&bytes[at..])
        }
        Edit::DelUnits(place, width) => {
            let at = put_number(&mut bytes, end, u64::from(width));
            let at = put(&mut bytes, at, b',');
            let at = put_number(&mut bytes, at, place as u64);
            let at = put_letter(&mut bytes, at, b'd');
            out.extend_from_slice(&bytes[at..])
        }
        Edit::Nop => out.extend_from_slice(b"[\"n\"]"),
        Edit::Ins(place, ch) => {
            if ch >= '\u{80}' {
                return push_wide(out, place, ch);
            }
            let at = put_quoted(&mut bytes, end, ch);
            let at = put(&mut bytes, at, b',');
            let at = put_number(&mut bytes, at, place as u64);
            let at = put_letter(&mut bytes, at, b'i');
            out.extend_from_slice(&bytes[at..])
        }
    }
}

// Appends an insertion whose character is above ASCII.
fn push_wide(out: &mut Vec<u8>, place: usize, ch: char) -> Result<(), AllocError>
    requires { 128 ≤ ch }
    ensures { OnOk result (out.new.items ≡ out.old.items ++ edit_text (edits.Ins place ch)) }
{
    let mut bytes = [0; MOST];
    let at = put(&mut bytes, MOST, b'"');
    let at = put(&mut bytes, at, b',');
    let at = put_number(&mut bytes, at, place as u64);
    let at = put_letter(&mut bytes, at, b'i');
    out.extend_from_slice(&bytes[at..])?;
    out.extend_from_slice(ch.encode_utf8(&mut [0; 4]).as_bytes())?;
    out.extend_from_slice(b"\"]")?;
    Ok(())
}

// Puts the beginning of an edit before a place: a bracket, the letter in quotes, and a comma.
#[inline(always)]
fn put_letter(bytes: &mut [u8; MOST], at: usize, letter: u8) -> usize
    requires first { 5 ≤ at }
    requires within { at ≤ MOST }
    ensures told { drop result bytes.new ≡ 91 ∷ 34 ∷ letter ∷ 34 ∷ 44 ∷ drop at bytes.old }
    ensures place { result + 5 ≡ at }
{
    let at = put(bytes, at, b',');
    let at = put(bytes, at, b'"');
    let at = put(bytes, at, letter);
    let at = put(bytes, at, b'"');
    put(bytes, at, b'[')
}
