//! Operation objects and run objects read byte by byte, with no tree, as servers spell them: with just the keys of their kind, in the
//! order of their bytes, and spaces as a `PlainReader` passes them. What is spelled otherwise or would be refused isn't read here:
//! it is read as a tree.
ghost use Rattle.std.specs.Prelude.{◌≡◌, ◌≤◌, ◌<◌, ◌∷◌, ◌+◌, [], false, true, List, length, sum, take, drop, codes, IfSome};
ghost use Rattle.std.specs.Str.{chars};
ghost use Rattle.json.specs.Token.{Token as Sign, begin_array, end_array, end_object, key};
ghost use Rattle.serde_json.specs.Data as tree;
ghost use Rattle.serde_json.specs.Data.{unsigned};
ghost use Rattle.json_bytes.specs.Plain.{Comes};
ghost use Rattle.operation_json.specs.Internal.MemberTokens.{ReadsTwo, TellsPairs, ReadsStamp, ReadsParent, ReadsClock, ReadsTyped};
ghost use Rattle.operation_json.specs.Internal.MemberTokens.{ReadsDeleted, ReadsInsertion, ReadsDeletion, ReadsRun};
ghost use Rattle.operation_json.specs.ItemTokens.{ReadsItem};

use crate::read::operation::{check_site, only_char};
use crate::read::run::split_run;
use arrayvec::ArrayString;
use causal_clock::{Clock, MAX_SUM, Op};
use json_bytes::{MAX_TEXT, PlainReader};
use opid::{MAX_OPERATIONS, OpKind, SITES, Site, Stamp, count_characters};

// Whether the two are one text.
fn is_one(a: &str, b: &str) -> bool
    ensures { result ≡ true → a.now ≡ b.now }
{
    a == b
}

/// Whether just the bracket that closes the object is left, which is then taken. Constant time, but for spaces behind it.
#[inline(always)]
pub fn is_closed(reader: &mut PlainReader<'_>) -> bool
    ensures { result ≡ true → reader.old ≡ end_object ∷ [] }
{
    reader.take_end_object() && reader.is_over()
}

// The two numbers of a list whose opening bracket was taken.
#[inline(always)]
fn rest_of_pair(reader: &mut PlainReader<'_>) -> Option<(u32, u32)>
    ensures { IfSome result (λ p. ReadsTwo reader.old p reader.new) }
{
    let first = reader.next_number()?;
    let second = reader.next_number()?;
    if !reader.take_end_array() {
        return None;
    }
    Some((first, second))
}

// The pairs of a clock, up to the closing bracket of their list, whose opening one was taken: how many there are, each with a
// site, or none where one is no such pair or there are more than sites.
fn rest_of_pairs(reader: &mut PlainReader<'_>, pairs: &mut [(Site, u32); SITES]) -> Option<usize>
    ensures { IfSome result (λ n. (n ≤ 32) × TellsPairs reader.old (take n pairs.new) (end_array ∷ reader.new)) }
{
    for place in 0..=SITES {
        if reader.take_end_array() {
            return Some(place);
        }
        if !reader.take_begin_array() {
            return None;
        }
        let (number, count) = rest_of_pair(reader)?;
        let Ok(site) = check_site(number) else {
            return None;
        };
        if place == SITES {
            return None;
        }
        pairs[place] = (site, count);
    }
    None
}

// A stamp whose opening bracket was taken.
fn rest_of_stamp(reader: &mut PlainReader<'_>) -> Option<Stamp>
    ensures { IfSome result (λ s. ReadsStamp (begin_array ∷ reader.old) s reader.new) }
{
    let (sum, number) = rest_of_pair(reader)?;
    match check_site(number) {
        Ok(site) => Some(Stamp { sum, site }),
        Err(_) => None,
    }
}

// The next value as a parent.
fn next_parent(reader: &mut PlainReader<'_>) -> Option<Option<Stamp>>
    ensures { IfSome result (λ p. ReadsParent reader.old p reader.new) }
{
    if reader.take_null() {
        return Some(None);
    }
    let stamp = next_stamp(reader)?;
    Some(Some(stamp))
}

// The next value as a target.
fn next_stamp(reader: &mut PlainReader<'_>) -> Option<Stamp>
    ensures { IfSome result (λ s. ReadsStamp reader.old s reader.new) }
{
    if !reader.take_begin_array() {
        return None;
    }
    rest_of_stamp(reader)
}

// The clock that a key tells, which is next.
fn next_clock(reader: &mut PlainReader<'_>) -> Option<Clock>
    ensures { IfSome result (λ clock. ReadsClock reader.old clock reader.new) }
{
    if !reader.take_key("c") || !reader.take_begin_array() {
        return None;
    }
    let site = Site::new(0).ok()?;
    let mut pairs = [(site, 0); SITES];
    let count = rest_of_pairs(reader, &mut pairs)?;
    Clock::from_pairs(&pairs[..count]).ok()
}

// The site that a key tells, which is next.
fn next_site(reader: &mut PlainReader<'_>) -> Option<Site>
    ensures { IfSome result (λ s. (number : List Sign) × (reader.old ≡ key (codes "s") ∷ number)
        × Comes 1 number (tree.number (unsigned s)) reader.new × (s < 32)) }
{
    if !reader.take_key("s") {
        return None;
    }
    let number = reader.next_number()?;
    check_site(number).ok()
}

// What an insertion or a run has behind its letter, up to the bracket that closes it: its parent and its site, while its text is
// put in.
fn rest_of_typed(
    reader: &mut PlainReader<'_>,
    into: &mut ArrayString<MAX_TEXT>,
) -> Option<(Option<Stamp>, Site)>
    ensures { IfSome result (λ t. ReadsTyped reader.old t.0 t.1 into.new.bytes reader.new) }
{
    if !reader.take_key("p") {
        return None;
    }
    let parent = next_parent(reader)?;
    let site = next_site(reader)?;
    if !reader.take_key("x") || !reader.next_text(into) || !reader.take_end_object() {
        return None;
    }
    Some((parent, site))
}

// What a deletion has behind its letter, up to the bracket that closes it: its site and its target.
fn rest_of_deleted(reader: &mut PlainReader<'_>) -> Option<(Site, Stamp)>
    ensures { IfSome result (λ t. ReadsDeleted reader.old t.0 t.1 reader.new) }
{
    let site = next_site(reader)?;
    if !reader.take_key("t") {
        return None;
    }
    let target = next_stamp(reader)?;
    if !reader.take_end_object() {
        return None;
    }
    Some((site, target))
}

/// The operation that an object tells, or the first one of a run.
#[derive(Clone, Copy, Drop)]
pub struct SpelledItem {
    pub first: Op,
    pub is_run: bool,
}

// The insertion with this clock, from behind its letter on, while its text is put in.
fn rest_of_insertion(
    reader: &mut PlainReader<'_>,
    into: &mut ArrayString<MAX_TEXT>,
    clock: Clock,
) -> Option<Op>
    ensures told { IfSome result (λ x. ReadsInsertion reader.old x reader.new) }
    ensures clock { IfSome result (λ x. x.clock ≡ clock) }
    ensures alone { IfSome result (λ x. [] ≡ drop 1 (chars into.new.bytes)) }
{
    prove!(clock.sum() <= MAX_SUM);
    let (parent, site) = rest_of_typed(reader, into)?;
    let ch = only_char(into.as_str())?;
    Op::new(site, clock, OpKind::Ins { parent, ch }).ok()
}

// The deletion with this clock, from behind its letter on.
fn rest_of_deletion(reader: &mut PlainReader<'_>, clock: Clock) -> Option<Op>
    ensures told { IfSome result (λ x. ReadsDeletion reader.old x reader.new) }
    ensures clock { IfSome result (λ x. x.clock ≡ clock) }
{
    prove!(clock.sum() <= MAX_SUM);
    let (site, target) = rest_of_deleted(reader)?;
    Op::new(site, clock, OpKind::Del { target }).ok()
}

// The first operation of the run with this clock, from behind its letter on, while the text of all is put in.
fn rest_of_run(
    reader: &mut PlainReader<'_>,
    into: &mut ArrayString<MAX_TEXT>,
    clock: Clock,
) -> Option<Op>
    ensures told { IfSome result (λ x. ReadsRun reader.old x (drop 1 (chars into.new.bytes)) reader.new) }
    ensures clock { IfSome result (λ x. x.clock ≡ clock) }
{
    prove!(clock.sum() <= MAX_SUM);
    let (parent, site) = rest_of_typed(reader, into)?;
    let Some((ch, more)) = split_run(into.as_str()) else {
        return None;
    };
    if count_characters(more) > (MAX_SUM - clock.sum()) as usize {
        return None;
    }
    Op::new(site, clock, OpKind::Ins { parent, ch }).ok()
}

/// The operation that an object tells, or the first one of a run, up to the bracket that closes it; the one that opens it was taken.
/// The text of an insertion or a run is put in, in place of what was there: what stands behind its first character is that of the
/// operations that follow. None where the object is refused, or is spelled otherwise than `write_op` and `write_item` spell, but for
/// escapes, by a number too, and for spaces, at most 64 in a row and none before a colon: then the reader is anywhere. Takes time
/// in proportion to the object, and no memory.
pub fn rest_of_item(
    reader: &mut PlainReader<'_>,
    into: &mut ArrayString<MAX_TEXT>,
) -> Option<SpelledItem>
    ensures told { IfSome result (λ i. ReadsItem reader.old i.first (drop 1 (chars into.new.bytes)) i.is_run reader.new) }
    ensures alone { IfSome result (λ i. i.is_run ≡ false → drop 1 (chars into.new.bytes) ≡ []) }
    ensures counted { IfSome result (λ i. sum i.first.clock + length (drop 1 (chars into.new.bytes)) ≤ MAX_OPERATIONS) }
{
    let clock = next_clock(reader)?;
    if !reader.take_key("k") || !reader.next_text(into) {
        return None;
    }
    if is_one(into.as_str(), "i") {
        let first = rest_of_insertion(reader, into, clock)?;
        let is_run = false;
        return Some(SpelledItem { first, is_run });
    }
    if is_one(into.as_str(), "r") {
        let first = rest_of_run(reader, into, clock)?;
        let is_run = true;
        return Some(SpelledItem { first, is_run });
    }
    if !is_one(into.as_str(), "d") {
        return None;
    }
    into.clear();
    let first = rest_of_deletion(reader, clock)?;
    let is_run = false;
    Some(SpelledItem { first, is_run })
}
