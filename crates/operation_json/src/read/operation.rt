//! Reading an operation object: its fields, then its sites, then its clock.
ghost use Rattle.std.specs.Prelude.{◌≡◌, Ok, map, length, slice_get, option_and_then, option_map};
ghost use Rattle.std.specs.Str.{chars};
ghost use Rattle.serde_json.specs.View.{view, items_view};
ghost use Rattle.serde_json.specs.Find.{as_array};
ghost use Rattle.opid.specs.declared.refusal.Refusal.TheVariants.{BadField};
ghost use Rattle.causal_clock.specs.Listing.{clock_told};
ghost use Rattle.operation_json.specs.Members.{or_refuse};
ghost use Rattle.operation_json.specs.Operations.{each, items_told, two, pair_of, stamp_told, parent_of, only_char, one_character_at};
ghost use Rattle.operation_json.specs.Operations.{offered_insertion, offered_deletion, offer_of, site_of, sited_pair, sited_stamp};
ghost use Rattle.operation_json.specs.Operations.{sited_kind, sited, with_clock, operation, op_of};
ghost use Rattle.operation_json.specs.Internal.Offers.{offered_kind, stamp_with, pair_in, pairs_in};
ghost use Rattle.operation_json.specs.Results.{Tells};

use crate::read::members::{check_keys, number_in, read_list, read_member, read_number, read_text};
use crate::read::offer::{Offer, OfferedKind, SitedOffer};
use causal_clock::{Clock, Op};
use opid::{OpKind, Refusal, SITES, Site, Stamp, count_characters};
use serde_json::Value;

/// The operation that a JSON value tells.
///
/// An insertion is an object with exactly the keys `c` (its clock, as a list of pairs `[site,count]`), `k` (the text
/// `i`), `p` (its parent's stamp `[sum,site]`, or `null` for the head), `s` (its site) and `x` (a text of its one
/// character). A deletion has exactly `c`, `k` (the text `d`), `s` and `t` (its target's stamp). Refused with the
/// first of these that applies: `BadField` where a key is missing or too many or a value has a wrong type or range,
/// `BadSite` where a site is above 31, `BadClock` where the clock's sites don't strictly rise, a count is 0, the sum
/// exceeds 131,072 or the own site has no count. Takes no memory, and time in proportion to the value. (Roh and others
/// 2011.)
pub fn read_op(value: &Value) -> Result<Op, Refusal>
    ensures { result ≡ op_of (view value.now) }
{
    let offer = read_offer(value)?;
    let sited = check_sites(&offer)?;
    check_clock(&sited)
}

pub(crate) fn read_offer<'v>(value: &'v Value) -> Result<Offer<'v>, Refusal>
    ensures { result ≡ offer_of (view value.now) }
{
    let kind = read_text(value, "k")?;
    match kind {
        "i" => read_insertion(value),
        "d" => read_deletion(value),
        _ => Err(Refusal::BadField),
    }
}

fn read_insertion<'v>(value: &'v Value) -> Result<Offer<'v>, Refusal>
    ensures { result ≡ offered_insertion (view value.now) }
{
    check_keys(value, &["c", "k", "p", "s", "x"])?;
    let pairs = read_list(value, "c")?;
    check_pairs(pairs)?;
    let parent = read_parent(read_member(value, "p")?)?;
    let site = read_number(value, "s")?;
    let ch = read_char(value, "x")?;
    let kind = OfferedKind::Ins { parent, ch };
    Ok(Offer { site, pairs, kind })
}

fn read_deletion<'v>(value: &'v Value) -> Result<Offer<'v>, Refusal>
    ensures { result ≡ offered_deletion (view value.now) }
{
    check_keys(value, &["c", "k", "s", "t"])?;
    let pairs = read_list(value, "c")?;
    check_pairs(pairs)?;
    let site = read_number(value, "s")?;
    let target = read_stamp(read_member(value, "t")?)?;
    let kind = OfferedKind::Del { target };
    Ok(Offer { site, pairs, kind })
}

// Whether each value is a pair.
pub(crate) fn check_pairs(values: &[Value]) -> Result<(), Refusal>
    ensures { Tells (λ _. pairs_in values.now) result (each pair_of (items_told (items_view values.now))) }
{
    for value in values {
        read_pair(value)?;
    }
    Ok(())
}

// The pair that a value is, where `check_pairs` found one.
fn pair_in(value: &Value) -> (u32, u32)
    ensures { result ≡ pair_in (view value.now) }
{
    read_pair(value).unwrap_or((0, 0))
}

fn read_pair(value: &Value) -> Result<(u32, u32), Refusal>
    ensures { result ≡ pair_of (view value.now) }
{
    check_two(value)?;
    let x = number_in(value.get(0))?;
    let y = number_in(value.get(1))?;
    Ok((x, y))
}

fn check_two(value: &Value) -> Result<(), Refusal>
    ensures { result ≡ or_refuse BadField (option_and_then two (as_array (view value.now))) }
{
    match value.as_array() {
        Some(items) if items.len() == 2 => Ok(()),
        _ => Err(Refusal::BadField),
    }
}

fn read_stamp(value: &Value) -> Result<(u32, u32), Refusal>
    ensures { Tells stamp_with result (stamp_told (view value.now)) }
{
    read_pair(value)
}

pub(crate) fn read_parent(value: &Value) -> Result<Option<(u32, u32)>, Refusal>
    ensures { Tells (λ p. option_map stamp_with p) result (parent_of (view value.now)) }
{
    if value.is_null() {
        return Ok(None);
    }
    let stamp = read_stamp(value)?;
    Ok(Some(stamp))
}

fn read_char(value: &Value, key: &str) -> Result<char, Refusal>
    ensures { result ≡ one_character_at key.now (view value.now) }
{
    let text = read_text(value, key)?;
    match only_char(text) {
        Some(ch) => Ok(ch),
        None => Err(Refusal::BadField),
    }
}

// The only character of a text.
pub(crate) fn only_char(text: &str) -> Option<char>
    ensures { result ≡ only_char text.now }
{
    if count_characters(text) == 1 {
        first_char(text)
    } else {
        None
    }
}

fn first_char(text: &str) -> Option<char>
    ensures { result ≡ slice_get (chars text.now) 0 }
{
    text.chars().next()
}

pub(crate) fn check_sites<'v>(offer: &Offer<'v>) -> Result<SitedOffer<'v>, Refusal>
    ensures { result ≡ sited offer.now }
{
    let site = check_site(offer.site)?;
    check_pair_sites(offer.pairs)?;
    let kind = check_kind(offer.kind)?;
    Ok(SitedOffer {
        site,
        pairs: offer.pairs,
        kind,
    })
}

/// The site with this number, which is at most 31. Refused with `BadSite`. Constant time.
pub fn check_site(number: u32) -> Result<Site, Refusal>
    ensures { result ≡ site_of number }
{
    if number > 31 {
        return Err(Refusal::BadSite);
    }
    Site::new(number as u8)
}

// Whether the site of each pair is a site.
fn check_pair_sites(pairs: &[Value]) -> Result<(), Refusal>
    ensures { Tells (λ _. pairs_in pairs.now) result (each sited_pair (pairs_in pairs.now)) }
{
    for value in pairs {
        check_pair(pair_in(value))?;
    }
    Ok(())
}

fn check_pair(pair: (u32, u32)) -> Result<(Site, u32), Refusal>
    ensures { result ≡ sited_pair pair }
{
    let site = check_site(pair.0)?;
    Ok((site, pair.1))
}

fn check_stamp(stamp: (u32, u32)) -> Result<Stamp, Refusal>
    ensures { result ≡ sited_stamp (stamp_with stamp) }
{
    let site = check_site(stamp.1)?;
    Ok(Stamp { sum: stamp.0, site })
}

fn check_kind(kind: OfferedKind) -> Result<OpKind, Refusal>
    ensures { result ≡ sited_kind (offered_kind kind) }
{
    match kind {
        OfferedKind::Ins { parent: None, ch } => Ok(OpKind::Ins { parent: None, ch }),
        OfferedKind::Ins {
            parent: Some(stamp),
            ch,
        } => {
            let parent = Some(check_stamp(stamp)?);
            Ok(OpKind::Ins { parent, ch })
        }
        OfferedKind::Del { target } => {
            let target = check_stamp(target)?;
            Ok(OpKind::Del { target })
        }
    }
}

pub(crate) fn check_clock(offer: &SitedOffer<'_>) -> Result<Op, Refusal>
    ensures { result ≡ operation offer.now }
{
    let clock = read_clock(offer.site, offer.pairs)?;
    count(offer.site, clock, offer.kind)
}

// The clock that pairs of sites tell. The sites of more pairs than there are sites can't strictly rise. Behind the
// pairs the list has the own site, which isn't looked at.
fn read_clock(own: Site, pairs: &[Value]) -> Result<Clock, Refusal>
    requires { each sited_pair (pairs_in pairs.now) ≡ Ok (pairs_in pairs.now) }
    ensures { result ≡ clock_told (pairs_in pairs.now) }
{
    if pairs.len() > SITES {
        return Err(Refusal::BadClock);
    }
    let mut list = [(own, 0); SITES];
    for (place, value) in pairs.iter().enumerate() {
        list[place] = check_pair(pair_in(value))?;
    }
    Clock::from_pairs(&list[..pairs.len()])
}

fn count(site: Site, clock: Clock, kind: OpKind) -> Result<Op, Refusal>
    ensures { result ≡ with_clock site clock kind }
{
    Op::new(site, clock, kind)
}
