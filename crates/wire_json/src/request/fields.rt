//! What a request tells by its keys: of an object that was read with no tree, or of any JSON value; and key by key from bytes.
ghost use Rattle.std.specs.Prelude.{◌≡◌, true, map, is_some, option_map, IfSome};
ghost use Rattle.serde_json.specs.Find.{get};
ghost use Rattle.std.specs.List.{list_all};
ghost use Rattle.wire_json.specs.Internal.Flat.{primitive_data, flat_data, fields_data};
ghost use Rattle.operation_json.specs.PackedOperations.{operations_at};
ghost use Rattle.operation_json.specs.Members.{is_known, only_keys, number_told, number_at, text_at};
ghost use Rattle.operation_json.specs.Results.{Tells, Gives};
ghost use Rattle.json_bytes.specs.Plain.{is_plain};
ghost use Rattle.wire_json.specs.Internal.CallTokens.{ReadsField, ReadsPlace};

use crate::request::flat::{Member, Primitive};
use causal_clock::Op;
use json_bytes::PlainReader;
use operation_json::{
    check_keys, is_among, number_in_range, read_items, read_list, read_number, read_text,
};
use opid::Refusal;
use serde_json::Value;
use std::alloc::Global;

/// The value that a request is, in which its keys are looked up.
#[derive(Clone, Copy, Drop)]
pub(crate) enum Fields<'v> {
    /// An object with these members.
    Flat(&'v [Member<'v>]),
    /// Any value.
    Tree(&'v Value),
}

impl<'v> Fields<'v> {
    /// Whether the key is there.
    pub fn has(&self, key: &str) -> bool
        ensures { result ≡ is_some (get key.now (fields_data self.now)) }
    {
        match self {
            Fields::Flat(members) => value_among(members, key).is_some(),
            Fields::Tree(value) => value.get(key).is_some(),
        }
    }

    /// The number at a key, whole and from 0 to 4,294,967,295.
    #[inline(always)]
    pub fn number(&self, key: &str) -> Result<u32, Refusal>
        ensures { result ≡ number_at key.now (fields_data self.now) }
    {
        match self {
            Fields::Flat(members) => number_told(value_among(members, key)),
            Fields::Tree(value) => read_number(value, key),
        }
    }

    /// The text at a key.
    #[inline(always)]
    pub fn text(&self, key: &str) -> Result<&'v str, Refusal>
        ensures { Tells (λ s. s.now) result (text_at key.now (fields_data self.now)) }
    {
        match self {
            Fields::Flat(members) => match value_among(members, key) {
                Some(Primitive::Text(text)) => Ok(text),
                _ => Err(Refusal::BadField),
            },
            Fields::Tree(value) => read_text(value, key),
        }
    }

    /// Refuses a value that is no object, or that has a key that isn't of the row.
    pub fn check_keys(&self, row: &[&str]) -> Result<(), Refusal>
        ensures { result ≡ only_keys (map (λ name. name.now) row.now) (fields_data self.now) }
    {
        match self {
            Fields::Flat(members) => check_members(members, row),
            Fields::Tree(value) => check_keys(value, row),
        }
    }

    /// The single operations that the list at a key hands over. An object that was read with no tree has no list.
    pub fn operations(&self, alloc: Global, key: &str) -> Result<Vec<Op>, Refusal>
        ensures { Gives (λ ops. ops.items) result (operations_at key.now (fields_data self.now)) }
    {
        match self {
            Fields::Flat(_) => Err(Refusal::BadField),
            Fields::Tree(value) => read_items(alloc, read_list(value, key)?),
        }
    }
}

// The last value of a key. It stands in the body of who looks up, where most keys are known.
#[inline(always)]
fn value_among<'v>(members: &[Member<'v>], key: &str) -> Option<Primitive<'v>>
    ensures { option_map primitive_data result ≡ get key.now (flat_data members.now) }
{
    for i in (0..members.len()).rev() {
        if members[i].key == key {
            return Some(members[i].value);
        }
    }
    None
}

// The number that a value is, whole and from 0 to 4,294,967,295.
fn number_told(value: Option<Primitive<'_>>) -> Result<u32, Refusal>
    ensures { result ≡ number_told (option_map primitive_data value.entry) }
{
    match value {
        Some(Primitive::Number(n)) => number_in_range(n),
        _ => Err(Refusal::BadField),
    }
}

fn check_members(members: &[Member<'_>], row: &[&str]) -> Result<(), Refusal>
    ensures { result ≡ only_keys (map (λ name. name.now) row.now) (flat_data members.now) }
{
    if are_of(members, row) {
        Ok(())
    } else {
        Err(Refusal::BadField)
    }
}

fn are_of(members: &[Member<'_>], row: &[&str]) -> bool
    ensures { result ≡ list_all (λ m. is_known (map (λ name. name.now) row.now) m.key.now) members.now }
{
    are_in_order(members, row) || members.iter().all(|member| is_among(member.key, row))
}

// True only where each key is of the row: the row's at the same place. Then one comparison a key is enough.
fn are_in_order(members: &[Member<'_>], row: &[&str]) -> bool
    ensures { result ≡ true → list_all (λ m. is_known (map (λ name. name.now) row.now) m.key.now) members.now ≡ true }
{
    if row.len() < members.len() {
        return false;
    }
    for i in 0..members.len() {
        if row[i] != members[i].key {
            return false;
        }
    }
    true
}

// The session, its number, the version and the place of a submission.
#[inline(always)]
pub(crate) fn next_place(reader: &mut PlainReader<'_>) -> Option<(u32, u32, u32, u32)>
    ensures { IfSome result (λ p. ReadsPlace reader.old p.0 p.1 p.2 p.3 reader.new) }
{
    let s = next_field(reader, "s")?;
    let n = next_field(reader, "n")?;
    let v = next_field(reader, "v")?;
    let k = next_field(reader, "k")?;
    Some((s, n, v, k))
}

// The number at a key, which is next.
#[inline(always)]
pub(crate) fn next_field(reader: &mut PlainReader<'_>, name: &str) -> Option<u32>
    requires { list_all is_plain name.now ≡ true }
    ensures { IfSome result (λ n. ReadsField reader.old name.now n reader.new) }
{
    if !reader.take_key(name) {
        return None;
    }
    reader.next_number()
}
