//! Writing a reply token by token into one buffer, and the text that it becomes: of each kind that `bytes` doesn't put together.
ghost use Rattle.std.specs.Prelude.{◌≡◌, [], ◌∷◌, ◌++◌, decimal, IfOk, OnOk, string_bytes};
ghost use Rattle.json.specs.Token.{key, string, number};
ghost use Rattle.json.specs.Print.{print};
ghost use Rattle.wire_json.specs.Text.{IsInRange, text};
ghost use Rattle.wire_json.specs.Internal.Values.{tokens_of, joined_data, left_data, text_data, no_data, data_of, IsByTokens};

use json::Writer;
use json_bytes::text_of_bytes;
use opid::Refusal;
use room_model::Reply;
use std::alloc::{AllocError, Global};

// The text of a reply that is put together token by token, in memory for so many bytes at first, and for the line feed that may come
// behind it.
pub(crate) fn text_by_tokens(alloc: Global, len: usize, reply: &Reply) -> Result<String, AllocError>
    requires { IsByTokens reply.now }
    ensures text { IfOk result (λ s. string_bytes s ≡ text reply.now) }
    ensures in_range { OnOk result (IsInRange reply.now) }
{
    let mut out = writer(alloc, len)?;
    append_reply(&mut out, reply)?;
    Ok(text_of(out))
}

fn append_reply(out: &mut Writer, reply: &Reply) -> Result<(), AllocError>
    requires { IsByTokens reply.now }
    ensures before { out.new.before ≡ out.old.before }
    ensures tokens { OnOk result (out.new.tokens ≡ out.old.tokens ++ tokens_of (data_of reply.now)) }
    ensures in_range { OnOk result (IsInRange reply.now) }
{
    match reply {
        Reply::Joined { s, v, x } => append_joined(out, *s, *v, x.as_str()),
        Reply::Left => append_left(out),
        Reply::Text { v, x } => append_whole_text(out, *v, x.as_str()),
        Reply::No(why) => append_refusal(out, *why),
        Reply::Ok { .. } | Reply::Edits { .. } | Reply::Ops { .. } | Reply::Put(_) =>
            unreachable!(),
    }
}

fn append_joined(out: &mut Writer, s: u32, v: u32, x: &str) -> Result<(), AllocError>
    ensures before { out.new.before ≡ out.old.before }
    ensures tokens { OnOk result (out.new.tokens ≡ out.old.tokens ++ tokens_of (joined_data s v x.now)) }
{
    out.begin_object()?;
    append_text(out, "r", "joined")?;
    append_number(out, "s", s)?;
    append_number(out, "v", v)?;
    append_text(out, "x", x)?;
    out.end_object()
}

fn append_left(out: &mut Writer) -> Result<(), AllocError>
    ensures before { out.new.before ≡ out.old.before }
    ensures tokens { OnOk result (out.new.tokens ≡ out.old.tokens ++ tokens_of left_data) }
{
    out.begin_object()?;
    append_text(out, "r", "left")?;
    out.end_object()
}

fn append_whole_text(out: &mut Writer, v: u32, x: &str) -> Result<(), AllocError>
    ensures before { out.new.before ≡ out.old.before }
    ensures tokens { OnOk result (out.new.tokens ≡ out.old.tokens ++ tokens_of (text_data v x.now)) }
{
    out.begin_object()?;
    append_text(out, "r", "text")?;
    append_number(out, "v", v)?;
    append_text(out, "x", x)?;
    out.end_object()
}

fn append_refusal(out: &mut Writer, why: Refusal) -> Result<(), AllocError>
    ensures before { out.new.before ≡ out.old.before }
    ensures tokens { OnOk result (out.new.tokens ≡ out.old.tokens ++ tokens_of (no_data why)) }
{
    out.begin_object()?;
    append_number(out, "n", why.number())?;
    append_text(out, "r", "no")?;
    out.end_object()
}

// A writer with room for a text of so many bytes, and for the line feed that may come behind it.
fn writer(alloc: Global, len: usize) -> Result<Writer, AllocError>
    ensures before { IfOk result (λ out. out.before ≡ []) }
    ensures tokens { IfOk result (λ out. out.tokens ≡ []) }
{
    let out = Vec::with_capacity(alloc, len.saturating_add(1))?;
    Ok(Writer::new(out))
}

// The text of what was written. Constant time.
fn text_of(out: Writer) -> String
    requires { out.before ≡ [] }
    ensures { string_bytes result ≡ print out.tokens }
{
    // What a writer has printed is UTF-8, by its `into_inner`.
    text_of_bytes(out.into_inner())
}

// Appends a key and its number.
fn append_number(out: &mut Writer, name: &str, n: u32) -> Result<(), AllocError>
    ensures before { out.new.before ≡ out.old.before }
    ensures tokens { OnOk result (out.new.tokens ≡ out.old.tokens ++ key name.now ∷ number (decimal n) ∷ []) }
{
    out.key(name)?;
    out.u64(u64::from(n))
}

// Appends a key and its text.
fn append_text(out: &mut Writer, name: &str, text: &str) -> Result<(), AllocError>
    ensures before { out.new.before ≡ out.old.before }
    ensures tokens { OnOk result (out.new.tokens ≡ out.old.tokens ++ key name.now ∷ string text.now ∷ []) }
{
    out.key(name)?;
    out.string(text)
}
