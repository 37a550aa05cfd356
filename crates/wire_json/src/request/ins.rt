//! An insertion, by its keys and byte by byte, and what is handed over of its text.
ghost use Rattle.std.specs.Prelude.{◌≡◌, take, IfSome, codes, IfOk, IfErr};
ghost use Rattle.std.specs.Str.{chars};
ghost use Rattle.wire_json.specs.Request.{ins_call};
ghost use Rattle.wire_json.specs.Internal.Flat.{fields_data};
ghost use Rattle.operation_json.specs.Results.{Gives, same};
ghost use Rattle.opid.specs.declared.refusal.Refusal.TheVariants.{Memory};
ghost use Rattle.wire_json.specs.Internal.CallTokens.{ReadsRest};

use crate::request::fields::{Fields, next_place};
use arrayvec::ArrayString;
use json_bytes::{MAX_TEXT, PlainReader};
use operation_json::{behind_first, is_closed};
use opid::{MAX_COUNT, Refusal};
use room_model::{Call, Characters};
use std::alloc::Global;

// How many characters are handed over: one more than a room takes is enough to refuse them.
const MOST: usize = MAX_COUNT as usize + 1;

pub(crate) fn read_ins(alloc: Global, fields: &Fields<'_>) -> Result<Call, Refusal>
    ensures { Gives same result (ins_call (fields_data fields.now)) }
{
    fields.check_keys(&["t", "s", "n", "v", "k", "x"])?;
    let s = fields.number("s")?;
    let n = fields.number("n")?;
    let v = fields.number("v")?;
    let k = fields.number("k")?;
    let x = fields.text("x")?;
    let x = Characters::from_str(alloc, first_characters(x))?;
    Ok(Call::Ins { s, n, v, k, x })
}

// What an insertion has behind its kind.
pub(crate) fn rest_of_ins(
    alloc: Global,
    reader: &mut PlainReader<'_>,
) -> Result<Option<Call>, Refusal>
    ensures told { IfOk result (λ r. IfSome r (λ call. ReadsRest (codes "ins") reader.old call)) }
    ensures memory { IfErr result (λ e. e ≡ Memory) }
{
    let Some((s, n, v, k)) = next_place(reader) else {
        return Ok(None);
    };
    let mut text: ArrayString<MAX_TEXT> = ArrayString::new();
    if !reader.take_key("x") || !reader.next_text(&mut text) || !is_closed(reader) {
        return Ok(None);
    }
    let x = Characters::from_str(alloc, first_characters(text.as_str()))?;
    Ok(Some(Call::Ins { s, n, v, k, x }))
}

// The text up to its 65th character. Constant time for one of at most 65 bytes, else 65 steps.
#[inline(always)]
fn first_characters(text: &str) -> &str
    ensures { chars result.now ≡ take 65 (chars text.now) }
{
    if text.len() <= MOST { text } else { cut(text) }
}

// The text up to its 65th character, if it has one.
fn cut(text: &str) -> &str
    ensures { chars result.now ≡ take 65 (chars text.now) }
{
    let mut rest = text;
    for _count in 0..MOST {
        rest = behind_first(rest);
    }
    &text[..text.len() - rest.len()]
}
