//! Saving a snapshot: the text of a replica's log.
ghost use Rattle.std.specs.Prelude.{◌≡◌, ◌++◌, IfOk, IfErr, OnOk, string_bytes};
ghost use Rattle.opid.specs.declared.refusal.Refusal.TheVariants.{Memory};
ghost use Rattle.operation_json.specs.Text.{item_text, packed_text};
ghost use Rattle.snapshot.specs.Snapshot.{StandsFor, AreInRange, log_text};

use operation_json::{Item, check_op, write_item};
use opid::{MAX_OPERATIONS, Refusal};
use replica::Replica;
use std::alloc::Global;
use versions::Doc;

/// The one compact text of a replica's log, without a line feed, in format 2: packed into runs from the left. What is held back
/// isn't in it. `load_doc` reads it to the same log.
///
/// Refused with `Memory`. Takes time and memory in proportion to the text: it walks the log by `Doc::ops_from`, and writes each
/// run as soon as it ends.
pub fn save(alloc: Global, replica: &Replica) -> Result<String, Refusal>
    ensures text { IfOk result (λ s. string_bytes s ≡ log_text replica.now.log) }
    ensures stands { IfOk result (λ s. StandsFor (string_bytes s) replica.now.log) }
    ensures memory { IfErr result (λ e. e ≡ Memory) }
{
    let doc = replica.doc();
    let mut text = String::from_str(alloc, "{\"format\":2,\"ops\":")?;
    push_ops(alloc, &mut text, doc)?;
    text.push_str("}")?;
    prove!(doc.version() as usize <= MAX_OPERATIONS);
    prove!(text.as_str().len() == text.len());
    Ok(text)
}

// Writes the list of a log's operations, packed.
#[tactic(auto, using(versions::proofs::Left::left_after, versions::proofs::Left::some_left))]
fn push_ops(alloc: Global, text: &mut String, doc: &Doc) -> Result<(), Refusal>
    ensures text { OnOk result (string_bytes text.new ≡ string_bytes text.old ++ packed_text doc.now.log) }
    ensures in_range { OnOk result (AreInRange doc.now.log) }
    ensures memory { IfErr result (λ e. e ≡ Memory) }
{
    if doc.version() == 0 {
        text.push_str("[]")?;
        return Ok(());
    }
    text.push_str("[")?;
    let mut rest = doc.ops_from(0);
    let first = rest.next_op();
    check_op(&first);
    let mut item = Item::new(alloc, first);
    'packed: for _place in 1..doc.version() {
        let op = rest.next_op();
        check_op(&op);
        if item.is_joined_by(&op) {
            item.push(&op)?;
        } else {
            push_item(alloc, text, &item)?;
            text.push_str(",")?;
            item = Item::new(alloc, op);
        }
    }
    push_item(alloc, text, &item)?;
    text.push_str("]")?;
    Ok(())
}

fn push_item(alloc: Global, text: &mut String, item: &Item) -> Result<(), Refusal>
    ensures text { OnOk result (string_bytes text.new ≡ string_bytes text.old ++ item_text item.now) }
    ensures memory { IfErr result (λ e. e ≡ Memory) }
{
    let written = write_item(alloc, item)?;
    text.push_str(written.as_str())?;
    Ok(())
}
