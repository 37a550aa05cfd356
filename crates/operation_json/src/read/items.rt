//! Reading operation objects and run objects: the fields of all, then the sites of all, then the clocks of all.
ghost use Rattle.std.specs.Prelude.{◌≡◌, ◌≤◌, ◌<◌, ◌+◌, ◌++◌, ◌⊎◌, Ok, Err, List, length, take, IfOk, IfErr, OnOk};
ghost use Rattle.serde_json.specs.View.{view, items_view};
ghost use Rattle.opid.specs.declared.refusal.Refusal.TheVariants.{Memory};
ghost use Rattle.opid.specs.Operations.{Operation};
ghost use Rattle.operation_json.specs.Operations.{each, items_told};
ghost use Rattle.operation_json.specs.PackedOperations.{item_offer_of, item_sited, item_operations, run_of, all_operations, first_65_of};
ghost use Rattle.operation_json.specs.PackedOperations.{handed_over, item_ops_of};
ghost use Rattle.operation_json.specs.Results.{Gives};

use crate::read::members::{check_keys, read_list, read_member, read_number, read_text};
use crate::read::offer::{ItemOffer, Offer, OfferedKind, SitedItem};
use crate::read::operation::{check_clock, check_pairs, check_sites, read_offer, read_parent};
use crate::read::run::{no_text, split_run, unfold_run};
use causal_clock::{MAX_SUM, Op};
use opid::{MAX_RUN, Refusal, count_characters};
use serde_json::Value;
use std::alloc::Global;

/// The single operations that JSON values hand over, at most the first 65, each an operation object or a run object, refused as
/// `read_op` does: each fault is sought in all values before the next. `Memory` may stand in the place of any answer.
///
/// A run object has the keys of an insertion, `k` the text `r`, and `x` a text of 2 to 64 characters, else `BadField`. It
/// stands for the insertions that its site asks for by typing that text at once: the first has its clock and parent, each
/// next one the clock before it raised at the site, and the element before it as its parent. `BadClock` where the last
/// clock's sum exceeds 131,072. Takes time and memory in proportion to the values.
pub fn read_items(alloc: Global, values: &[Value]) -> Result<Vec<Op>, Refusal>
    ensures { Gives (λ ops. ops.items) result (handed_over (items_told (items_view values.now))) }
{
    let offers = read_item_offers(alloc, values)?;
    let sited = check_item_sites(alloc, offers.as_slice())?;
    unfold_all(alloc, sited.as_slice())
}

/// The single operations that a JSON value tells by itself, an operation object or a run object of at most 64 characters, refused
/// as `read_op` does. `Memory` may stand in the place of any answer. Takes time and memory in proportion to the value.
pub fn read_item_ops(alloc: Global, value: &Value) -> Result<Vec<Op>, Refusal>
    ensures { Gives (λ ops. ops.items) result (item_ops_of (view value.now)) }
{
    let offer = read_item(value)?;
    let first = check_sites(&offer.first)?;
    let more = offer.more;
    let mut ops = Vec::new(alloc);
    unfold(&mut ops, &SitedItem { first, more })?;
    Ok(ops)
}

fn read_item_offers<'v>(alloc: Global, values: &'v [Value]) -> Result<Vec<ItemOffer<'v>>, Refusal>
    ensures { Gives (λ v. v.items) result (each item_offer_of (items_told (items_view values.now))) }
{
    let mut offers = Vec::new(alloc);
    for value in values {
        let offer = read_item(value)?;
        offers.push(offer)?;
    }
    Ok(offers)
}

fn check_item_sites<'v>(
    alloc: Global,
    offers: &[ItemOffer<'v>],
) -> Result<Vec<SitedItem<'v>>, Refusal>
    ensures { Gives (λ v. v.items) result (each item_sited offers.now) }
{
    let mut all = Vec::new(alloc);
    for offer in offers {
        let first = check_sites(&offer.first)?;
        let more = offer.more;
        all.push(SitedItem { first, more })?;
    }
    Ok(all)
}

fn unfold_all(alloc: Global, offers: &[SitedItem<'_>]) -> Result<Vec<Op>, Refusal>
    ensures { Gives (λ v. v.items) result (first_65_of (all_operations offers.now)) }
{
    let mut ops = Vec::new(alloc);
    for offer in offers {
        unfold(&mut ops, offer)?;
    }
    Ok(ops)
}

fn read_item<'v>(value: &'v Value) -> Result<ItemOffer<'v>, Refusal>
    ensures told { result ≡ item_offer_of (view value.now) }
    ensures few { IfOk result (λ o. length o.more < MAX_RUN) }
{
    match read_text(value, "k")? {
        "r" => read_run(value),
        _ => {
            let first = read_offer(value)?;
            let more = no_text();
            Ok(ItemOffer { first, more })
        }
    }
}

fn read_run<'v>(value: &'v Value) -> Result<ItemOffer<'v>, Refusal>
    ensures told { result ≡ run_of (view value.now) }
    ensures few { IfOk result (λ o. length o.more < MAX_RUN) }
{
    check_keys(value, &["c", "k", "p", "s", "x"])?;
    let pairs = read_list(value, "c")?;
    check_pairs(pairs)?;
    let parent = read_parent(read_member(value, "p")?)?;
    let site = read_number(value, "s")?;
    let text = read_text(value, "x")?;
    let Some((ch, more)) = split_run(text) else {
        return Err(Refusal::BadField);
    };
    let kind = OfferedKind::Ins { parent, ch };
    let first = Offer { site, pairs, kind };
    Ok(ItemOffer { first, more })
}

// Adds the operations of an item, as long as there are fewer than 65.
fn unfold(ops: &mut Vec<Op>, offer: &SitedItem<'_>) -> Result<(), Refusal>
    requires { length ops.old.items ≤ 65 }
    ensures ok { OnOk result ((xs : List Operation) × (item_operations offer.now ≡ Ok xs)
        × (ops.new.items ≡ take 65 (ops.old.items ++ xs))) }
    ensures err { IfErr result (λ e. (e ≡ Memory) ⊎ (item_operations offer.now ≡ Err e)) }
{
    let first = check_clock(&offer.first)?;
    let sum = first.clock().sum();
    if count_characters(offer.more) > (MAX_SUM - sum) as usize {
        return Err(Refusal::BadClock);
    }
    unfold_run(ops, first, offer.more)
}
