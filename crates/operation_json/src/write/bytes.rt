//! The texts of operations and of runs, put together from their end in some bytes on the stack, so that each is copied once;
//! the characters are appended behind.
ghost use Rattle.std.specs.Prelude.{◌≡◌, ◌+◌, ◌<◌, ◌≤◌, ◌∷◌, ◌++◌, drop, codes, decimal, OnOk};
ghost use Rattle.opid.specs.declared.kind.OpKind.TheVariants as kinds;
ghost use Rattle.opid.specs.Clocks.{entry};
ghost use Rattle.operation_json.specs.Text.{clock_text, op_text_of, pair_text, parent_text, stamp_text};
ghost use Rattle.json_bytes.specs.Quote.{quote};

use causal_clock::{Clock, Op};
use json_bytes::{push_quoted, put, put_all, put_small};
use opid::{SITES, Site, Stamp};
use std::alloc::AllocError;

// Room for the text of any operation but its characters: 32 pairs of at most 24 bytes take 770 bytes with their brackets, and the
// rest no more than 80.
const MOST: usize = 896;

/// Appends an insertion, the letter `i` and its character, or a run, the letter `r` and its characters.
pub(crate) fn push_typed(
    out: &mut Vec<u8>,
    letter: u8,
    op: &Op,
    parent: Option<Stamp>,
    ch: char,
    more: &[char],
) -> Result<(), AllocError>
    ensures { OnOk result (out.new.items ≡ out.old.items ++ (codes "{\"c\":" ++ clock_text op.now.clock
        ++ (codes ",\"k\":\"" ++ letter ∷ codes "\",\"p\":") ++ parent_text parent ++ codes ",\"s\":" ++ decimal op.now.site
        ++ codes ",\"x\":" ++ quote (ch ∷ more.now) ++ codes "}")) }
{
    let mut bytes = [0; MOST];
    let at = put_typed(&mut bytes, MOST, letter, op.site(), op.known(), parent);
    out.extend_from_slice(&bytes[at..])?;
    push_quoted(out, ch, more)?;
    out.push(b'}')?;
    Ok(())
}

/// Appends a deletion.
pub(crate) fn push_deletion(out: &mut Vec<u8>, op: &Op, target: Stamp) -> Result<(), AllocError>
    ensures { OnOk result (out.new.items ≡ out.old.items ++ op_text_of op.now.site op.now.clock (kinds.Del target)) }
{
    let mut bytes = [0; MOST];
    let at = put_deletion(&mut bytes, MOST, op.site(), op.known(), target);
    out.extend_from_slice(&bytes[at..])?;
    Ok(())
}

// Puts the pairs of a clock before a place.
fn put_clock(bytes: &mut [u8; MOST], at: usize, clock: &Clock) -> usize
    requires free { 770 ≤ at }
    requires within { at ≤ MOST }
    ensures told { drop result bytes.new ≡ clock_text clock.now ++ drop at bytes.old }
    ensures place { at ≤ result + 770 }
    ensures before { result ≤ at }
{
    let mut here = put(bytes, at, b']');
    for done in 0..SITES as u8 {
        let number = 31 - done;
        here = put_entry(bytes, here, number, entry_of(clock, number));
    }
    if bytes[here] == b',' {
        put(bytes, here + 1, b'[')
    } else {
        put(bytes, here, b'[')
    }
}

// The count of the site with this number.
fn entry_of(clock: &Clock, number: u8) -> u32
    requires { number < SITES }
    ensures { result ≡ entry clock.now number }
{
    match Site::new(number) {
        Ok(site) => clock.entry(site),
        Err(_) => 0,
    }
}

// Puts a site's pair and a comma before a place, unless its count is 0.
#[inline(always)]
fn put_entry(bytes: &mut [u8; MOST], at: usize, number: u8, count: u32) -> usize
    requires free { 24 ≤ at }
    requires within { at ≤ MOST }
    ensures some { 0 < count → drop result bytes.new ≡ 44 ∷ (pair_text (number, count) ++ drop at bytes.old) }
    ensures none { count ≡ 0 → drop result bytes.new ≡ drop at bytes.old }
    ensures place { at ≤ result + 24 }
    ensures before { result ≤ at }
{
    if count == 0 {
        return at;
    }
    let at = put_two(bytes, at, u32::from(number), count);
    put(bytes, at, b',')
}

// Puts a list of two numbers before a place.
#[inline(always)]
fn put_two(bytes: &mut [u8; MOST], at: usize, first: u32, second: u32) -> usize
    requires free { 23 ≤ at }
    requires within { at ≤ MOST }
    ensures told { drop result bytes.new ≡ pair_text (first, second) ++ drop at bytes.old }
    ensures place { at ≤ result + 23 }
    ensures before { result ≤ at }
{
    let at = put(bytes, at, b']');
    let at = put_small(bytes, at, second);
    let at = put(bytes, at, b',');
    let at = put_small(bytes, at, first);
    put(bytes, at, b'[')
}

// Puts a parent before a place.
#[inline(always)]
fn put_parent(bytes: &mut [u8; MOST], at: usize, parent: Option<Stamp>) -> usize
    requires free { 23 ≤ at }
    requires within { at ≤ MOST }
    ensures told { drop result bytes.new ≡ parent_text parent ++ drop at bytes.old }
    ensures place { at ≤ result + 23 }
    ensures before { result ≤ at }
{
    match parent {
        Some(stamp) => put_stamp(bytes, at, stamp),
        None => put_all(bytes, at, b"null"),
    }
}

// Puts a stamp before a place.
#[inline(always)]
fn put_stamp(bytes: &mut [u8; MOST], at: usize, stamp: Stamp) -> usize
    requires free { 23 ≤ at }
    requires within { at ≤ MOST }
    ensures told { drop result bytes.new ≡ stamp_text stamp ++ drop at bytes.old }
    ensures place { at ≤ result + 23 }
    ensures before { result ≤ at }
{
    put_two(bytes, at, stamp.sum, u32::from(stamp.site.number()))
}

// Puts what stands in front of the characters of an insertion or a run before a place: the letter is `i` or `r`.
fn put_typed(
    bytes: &mut [u8; MOST],
    at: usize,
    letter: u8,
    site: Site,
    clock: &Clock,
    parent: Option<Stamp>,
) -> usize
    requires free { 850 ≤ at }
    requires within { at ≤ MOST }
    ensures told { drop result bytes.new ≡ codes "{\"c\":" ++ clock_text clock.now ++ codes ",\"k\":\"" ++ letter ∷ (codes "\",\"p\":"
        ++ parent_text parent ++ codes ",\"s\":" ++ decimal site ++ codes ",\"x\":" ++ drop at bytes.old) }
    ensures before { result ≤ at }
{
    let at = put_all(bytes, at, b",\"x\":");
    let at = put_small(bytes, at, u32::from(site.number()));
    let at = put_all(bytes, at, b",\"s\":");
    let at = put_parent(bytes, at, parent);
    let at = put_all(bytes, at, b"\",\"p\":");
    let at = put(bytes, at, letter);
    let at = put_all(bytes, at, b",\"k\":\"");
    let at = put_clock(bytes, at, clock);
    put_all(bytes, at, b"{\"c\":")
}

// Puts a deletion before a place.
fn put_deletion(
    bytes: &mut [u8; MOST],
    at: usize,
    site: Site,
    clock: &Clock,
    target: Stamp,
) -> usize
    requires free { 850 ≤ at }
    requires within { at ≤ MOST }
    ensures told { drop result bytes.new ≡ codes "{\"c\":" ++ clock_text clock.now ++ codes ",\"k\":\"d\",\"s\":" ++ decimal site
        ++ codes ",\"t\":" ++ stamp_text target ++ codes "}" ++ drop at bytes.old }
    ensures before { result ≤ at }
{
    let at = put(bytes, at, b'}');
    let at = put_stamp(bytes, at, target);
    let at = put_all(bytes, at, b",\"t\":");
    let at = put_small(bytes, at, u32::from(site.number()));
    let at = put_all(bytes, at, b",\"k\":\"d\",\"s\":");
    let at = put_clock(bytes, at, clock);
    put_all(bytes, at, b"{\"c\":")
}
