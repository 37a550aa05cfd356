//! The JSON value that bytes are, and the members of an object: each is there and of its kind, or refused.
ghost use Rattle.std.specs.Prelude.{◌≡◌, ◌^◌, map, option_map};
ghost use Rattle.serde_json.specs.View.{view, items_view, members_view};
ghost use Rattle.serde_json.specs.Find.{get};
ghost use Rattle.opid.specs.declared.refusal.Refusal.TheVariants.{BadField};
ghost use Rattle.operation_json.specs.Members.{or_refuse, only_keys, is_known, are_among, below, number_told, number_at, text_at, json_of};
ghost use Rattle.operation_json.specs.Operations.{items_told, list_at, present};
ghost use Rattle.operation_json.specs.Results.{Tells, Gives};

use opid::Refusal;
use serde_json::{Map, Value};
use std::alloc::Global;

/// The JSON value that the bytes are, which are UTF-8. Refused with `BadJson`, and with `Memory`. (RFC 8259.)
/// Takes time and memory in proportion to the bytes.
pub fn read_value(alloc: Global, bytes: &[u8]) -> Result<Value, Refusal>
    ensures { Gives view result (json_of bytes.now) }
{
    match Value::from_slice(alloc, bytes) {
        Ok(value) => Ok(value),
        Err(e) if e.is_memory() => Err(Refusal::Memory),
        Err(_) => Err(Refusal::BadJson),
    }
}

/// Refuses with `BadField` a value that is no object, or that has a key that isn't of the row. That each of these is there
/// is seen where its value is read. Compares each key of the value with those of the row; takes no memory.
pub fn check_keys(value: &Value, row: &[&str]) -> Result<(), Refusal>
    ensures { result ≡ only_keys (map (λ name. name.now) row.now) (view value.now) }
{
    match value.as_object() {
        Some(members) if has_only(members, row) => Ok(()),
        _ => Err(Refusal::BadField),
    }
}

fn has_only(members: &Map<String, Value>, row: &[&str]) -> bool
    ensures { result ≡ are_among (map (λ name. name.now) row.now) (members_view members.now.entries) }
{
    for (key, _) in members.iter() {
        if !is_among(key.as_str(), row) {
            return false;
        }
    }
    true
}

/// Whether the key is one of the row. Compares it with each; takes no memory.
pub fn is_among(key: &str, row: &[&str]) -> bool
    ensures { result ≡ is_known (map (λ name. name.now) row.now) key.now }
{
    row.contains(&key)
}

/// The number at a key, whole and from 0 to 4,294,967,295. Refused with `BadField`. A look-up; takes no memory.
pub fn read_number(value: &Value, key: &str) -> Result<u32, Refusal>
    ensures { result ≡ number_at key.now (view value.now) }
{
    number_in(value.get(key))
}

// The number that a value is, if there is one.
pub(crate) fn number_in(value: Option<&Value>) -> Result<u32, Refusal>
    ensures { result ≡ number_told (option_map (λ v. view v.now) value.entry) }
{
    let Some(value) = value else {
        return Err(Refusal::BadField);
    };
    match value.as_u64() {
        Some(n) => number_in_range(n),
        None => Err(Refusal::BadField),
    }
}

/// A number, which is at most 4,294,967,295. Refused with `BadField`. Constant time.
#[inline(always)]
pub fn number_in_range(n: u64) -> Result<u32, Refusal>
    ensures { result ≡ or_refuse BadField (below (2 ^ 32) n) }
{
    if n > u32::MAX as u64 {
        return Err(Refusal::BadField);
    }
    Ok(n as u32)
}

/// The text at a key. Refused with `BadField`. A look-up; takes no memory.
pub fn read_text<'v>(value: &'v Value, key: &str) -> Result<&'v str, Refusal>
    ensures { Tells (λ s. s.now) result (text_at key.now (view value.now)) }
{
    match value.get(key).and_then(Value::as_str) {
        Some(text) => Ok(text),
        None => Err(Refusal::BadField),
    }
}

// The value at a key.
pub(crate) fn read_member<'v>(value: &'v Value, key: &str) -> Result<&'v Value, Refusal>
    ensures { Tells (λ v. view v.now) result (present (get key.now (view value.now))) }
{
    match value.get(key) {
        Some(member) => Ok(member),
        None => Err(Refusal::BadField),
    }
}

/// The items of the list at a key. Refused with `BadField`. A look-up; takes no memory.
pub fn read_list<'v>(value: &'v Value, key: &str) -> Result<&'v [Value], Refusal>
    ensures { Tells (λ v. items_told (items_view v.now)) result (list_at key.now (view value.now)) }
{
    match value.get(key).and_then(Value::as_array) {
        Some(list) => Ok(list.as_slice()),
        None => Err(Refusal::BadField),
    }
}
