//! The texts of what most requests get, put together as bytes, with no tokens: an `ok`, edits, operations or outcomes. What has a
//! bound is put from its end into a few bytes first, so that one copy appends it.
ghost use Rattle.std.specs.Prelude.{◌≡◌, ◌++◌, map, IfOk, OnOk, string_bytes};
ghost use Rattle.std.specs.List.{AllByRecursion};
ghost use Rattle.room_model.specs.declared.reply.Reply.TheVariants as replies;
ghost use Rattle.wire_json.specs.Text.{IsEditInRange, IsOutcomeInRange, edit_text, outcome_text, text};
ghost use Rattle.operation_json.specs.Text.{IsOperationInRange, in_brackets, more};

use crate::reply::edit::push_edit;
use crate::reply::outcome::push_outcome;
use causal_clock::Op;
use json_bytes::{put, put_all, put_number, text_of_bytes};
use operation_json::push_packed;
use opid::Edit;
use room_model::Outcome;
use std::alloc::{AllocError, Global};

// Room for the text of an `ok`: its two numbers have at most 20 digits, and the rest takes 24 bytes.
const MOST: usize = 64;

/// The text of an `ok`, in memory for so many bytes at first, and for the line feed that may come behind it.
pub(crate) fn ok_text(alloc: Global, len: usize, from: u32, to: u32) -> Result<String, AllocError>
    ensures { IfOk result (λ s. string_bytes s ≡ text (replies.Ok from to)) }
{
    let mut bytes = [0; MOST];
    let at = put(&mut bytes, MOST, b'}');
    let at = put_number(&mut bytes, at, u64::from(to));
    let at = put_all(&mut bytes, at, b",\"r\":\"ok\",\"to\":");
    let at = put_number(&mut bytes, at, u64::from(from));
    let at = put_all(&mut bytes, at, b"{\"from\":");
    let mut out = Vec::with_capacity(alloc, len.saturating_add(1))?;
    out.extend_from_slice(&bytes[at..])?;
    Ok(text_of_bytes(out))
}

/// The text of edits from a version on, in memory for so many bytes at first, and for the line feed that may come behind it.
pub(crate) fn edits_text(
    alloc: Global,
    len: usize,
    from: u32,
    es: &[Edit],
) -> Result<String, AllocError>
    ensures text { IfOk result (λ s. string_bytes s ≡ text (replies.Edits from es.now)) }
    ensures in_range { OnOk result (AllByRecursion IsEditInRange es.now) }
{
    let mut out = Vec::with_capacity(alloc, len.saturating_add(1))?;
    out.extend_from_slice(b"{\"es\":")?;
    push_edits(&mut out, es)?;
    out.extend_from_slice(b",\"from\":")?;
    out.extend_from_slice(itoa::Buffer::new().format(from).as_bytes())?;
    out.extend_from_slice(b",\"r\":\"edits\"}")?;
    Ok(text_of_bytes(out))
}

/// The text of what became of the operations of a `put`, in memory for so many bytes at first, and for the line feed that may come
/// behind it.
pub(crate) fn put_text(
    alloc: Global,
    len: usize,
    outcomes: &[Outcome],
) -> Result<String, AllocError>
    ensures text { IfOk result (λ s. string_bytes s ≡ text (replies.Put outcomes.now)) }
    ensures in_range { OnOk result (AllByRecursion IsOutcomeInRange outcomes.now) }
{
    let mut out = Vec::with_capacity(alloc, len.saturating_add(1))?;
    out.extend_from_slice(b"{\"os\":")?;
    push_outcomes(&mut out, outcomes)?;
    out.extend_from_slice(b",\"r\":\"put\"}")?;
    Ok(text_of_bytes(out))
}

/// The text of operations from a place of the log on, in memory for so many bytes at first, and for the line feed that may come
/// behind it.
pub(crate) fn ops_text(
    alloc: Global,
    len: usize,
    from: u32,
    ops: &[Op],
) -> Result<String, AllocError>
    ensures text { IfOk result (λ s. string_bytes s ≡ text (replies.Ops from ops.now)) }
    ensures in_range { OnOk result (AllByRecursion IsOperationInRange ops.now) }
{
    let mut out = Vec::with_capacity(alloc, len.saturating_add(1))?;
    out.extend_from_slice(b"{\"from\":")?;
    out.extend_from_slice(itoa::Buffer::new().format(from).as_bytes())?;
    out.extend_from_slice(b",\"ops\":")?;
    push_packed(&mut out, ops)?;
    out.extend_from_slice(b",\"r\":\"ops\"}")?;
    Ok(text_of_bytes(out))
}

fn push_edits(out: &mut Vec<u8>, es: &[Edit]) -> Result<(), AllocError>
    ensures text { OnOk result (out.new.items ≡ out.old.items ++ in_brackets (map edit_text es.now)) }
    ensures in_range { OnOk result (AllByRecursion IsEditInRange es.now) }
{
    let [first, rest @ ..] = es else {
        return out.extend_from_slice(b"[]");
    };
    out.extend_from_slice(b"[")?;
    push_edit(out, *first)?;
    push_more(out, rest)?;
    out.extend_from_slice(b"]")
}

// Appends edits with a comma before each.
fn push_more(out: &mut Vec<u8>, es: &[Edit]) -> Result<(), AllocError>
    ensures text { OnOk result (out.new.items ≡ out.old.items ++ more (map edit_text es.now)) }
    ensures in_range { OnOk result (AllByRecursion IsEditInRange es.now) }
{
    for edit in es {
        out.push(b',')?;
        push_edit(out, *edit)?;
    }
    Ok(())
}

fn push_outcomes(out: &mut Vec<u8>, outcomes: &[Outcome]) -> Result<(), AllocError>
    ensures text { OnOk result (out.new.items ≡ out.old.items ++ in_brackets (map outcome_text outcomes.now)) }
    ensures in_range { OnOk result (AllByRecursion IsOutcomeInRange outcomes.now) }
{
    let [first, rest @ ..] = outcomes else {
        return out.extend_from_slice(b"[]");
    };
    out.extend_from_slice(b"[")?;
    push_outcome(out, *first)?;
    push_more_outcomes(out, rest)?;
    out.extend_from_slice(b"]")
}

// Appends outcomes with a comma before each.
fn push_more_outcomes(out: &mut Vec<u8>, outcomes: &[Outcome]) -> Result<(), AllocError>
    ensures text { OnOk result (out.new.items ≡ out.old.items ++ more (map outcome_text outcomes.now)) }
    ensures in_range { OnOk result (AllByRecursion IsOutcomeInRange outcomes.now) }
{
    for outcome in outcomes {
        out.push(b',')?;
        push_outcome(out, *outcome)?;
    }
    Ok(())
}
