//! Writing a reply.
mod bytes;
mod edit;
mod outcome;
mod tokens;

ghost use Rattle.std.specs.Prelude.{◌≡◌, Ok, IfOk, IfErr, OnOk, string_bytes};
ghost use Rattle.opid.specs.declared.refusal.Refusal.TheVariants.{Memory};
ghost use Rattle.wire_json.specs.Text.{IsInRange, text};

use crate::reply::bytes::{edits_text, ok_text, ops_text, put_text};
use crate::reply::tokens::text_by_tokens;
use opid::Refusal;
use room_model::Reply;
use std::alloc::{AllocError, Global};

/// The one text of a reply: a compact JSON object, its keys in the order of their bytes, with no line feed. Operations are
/// packed into runs from the left.
///
/// Refused with `Memory`. Takes time and memory in proportion to the text.
pub fn write_reply(alloc: Global, reply: &Reply) -> Result<String, Refusal>
    ensures text { IfOk result (λ s. string_bytes s ≡ text reply.now) }
    ensures in_range { OnOk result (IsInRange reply.now) }
    ensures memory { IfErr result (λ e. e ≡ Memory) }
{
    let len = likely_len(reply);
    match reply {
        Reply::Ok { from, to } => text_or_refusal(ok_text(alloc, len, *from, *to)),
        Reply::Edits { from, es } => text_or_refusal(edits_text(alloc, len, *from, es.as_slice())),
        Reply::Ops { from, ops } => text_or_refusal(ops_text(alloc, len, *from, ops.as_slice())),
        Reply::Put(outcomes) => text_or_refusal(put_text(alloc, len, outcomes.as_slice())),
        Reply::Joined { .. } | Reply::Left | Reply::Text { .. } | Reply::No(_) => {
            text_or_refusal(text_by_tokens(alloc, len, reply))
        }
    }
}

// The text, if there was memory for it.
#[inline(always)]
fn text_or_refusal(text: Result<String, AllocError>) -> Result<String, Refusal>
    ensures ok { IfOk result (λ s. text ≡ Ok s) }
    ensures memory { IfErr result (λ e. e ≡ Memory) }
{
    match text {
        Ok(text) => Ok(text),
        Err(_) => Err(Refusal::Memory),
    }
}

// Most replies' texts are no longer: an edit takes about 15 bytes, and an operation of a run its character.
fn likely_len(reply: &Reply) -> usize {
    let more = match reply {
        Reply::Joined { x, .. } | Reply::Text { x, .. } => x.as_str().len(),
        Reply::Edits { es, .. } => es.as_slice().len().saturating_mul(16),
        Reply::Ops { ops, .. } => ops.as_slice().len().saturating_mul(16),
        Reply::Put(outcomes) => outcomes.as_slice().len().saturating_mul(16),
        Reply::Ok { .. } | Reply::Left | Reply::No(_) => 0,
    };
    more.saturating_add(63)
}
