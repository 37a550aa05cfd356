//! Loading a snapshot: the log that bytes stand for, as a document or as a replica's.
ghost use Rattle.std.specs.Prelude.{◌≡◌, ◌≤◌, ◌<◌, ◌+◌, ◌-◌, ◌++◌, ◌⊎◌, [], ◌∷◌, ℕ, true, false, Ok, List, length, IfOk, IfErr, OnOk};
ghost use Rattle.serde_json.specs.View.{view, items_view};
ghost use Rattle.opid.specs.declared.refusal.Refusal.TheVariants.{Memory, BadSnapshot, SiteUsed};
ghost use Rattle.opid.specs.Operations.{Operation};
ghost use Rattle.opid.specs.Lawful.{IsLawful, MayFollow, GoesOn};
ghost use Rattle.operation_json.specs.Operations.{items_told};
ghost use Rattle.snapshot.specs.Snapshot.{StandsFor, StandsForNone, LacksSite, HasSite, format_of, ops_told};
ghost use Rattle.snapshot.specs.Internal.Values.{value_told};

use crate::spelled::read_spelled;
use causal_clock::Op;
use operation_json::{check_keys, read_item_ops, read_list, read_number, read_op, read_value};
use opid::{MAX_OPERATIONS, Refusal, Site};
use replica::Replica;
use serde_json::Value;
use std::alloc::Global;
use versions::Doc;

/// The replica of a site over the log that the bytes stand for; it holds nothing back.
///
/// Refused with `BadSnapshot` exactly where `load_doc` is; else with `SiteUsed` exactly where the log has an operation of the
/// site, since one of that site's numbers would be given twice; and with `Memory` in the place of any answer. Takes the steps of
/// `load_doc` and those of `Replica::over_doc`.
pub fn load(alloc: Global, bytes: &[u8], site: Site) -> Result<Replica, Refusal>
    ensures stands { IfOk result (λ r. StandsFor bytes.now r.log) }
    ensures opened { IfOk result (λ r. r ≡ record { site = site; log = r.log; held = []; reserved = 0 }) }
    ensures unused { IfOk result (λ r. LacksSite site r.log) }
    ensures cause { IfErr result (λ e. (e ≡ Memory) ⊎ ((e ≡ BadSnapshot) × StandsForNone bytes.now)
        ⊎ ((e ≡ SiteUsed) × HasSite site bytes.now)) }
{
    let doc = load_doc(alloc, bytes)?;
    open_over(alloc, site, doc)
}

/// The replica of a site over the log of a document, which it takes; it holds nothing back.
///
/// Refused with `SiteUsed` exactly where the log has an operation of the site, since one of that site's numbers would be given twice;
/// and with `Memory` in the place of any answer. Takes the steps of `Replica::over_doc`.
pub fn open_over(alloc: Global, site: Site, doc: Doc) -> Result<Replica, Refusal>
    requires { doc.reserved ≡ 0 }
    ensures opened { IfOk result (λ r. r ≡ record { site = site; log = doc.log; held = []; reserved = 0 }) }
    ensures unused { OnOk result (LacksSite site doc.log) }
    ensures cause { IfErr result (λ e. (e ≡ Memory) ⊎ ((e ≡ SiteUsed) × (LacksSite site doc.log → ⊥))) }
{
    if !lacks_site(&doc, site) {
        return Err(Refusal::SiteUsed);
    }
    Replica::over_doc(alloc, site, doc)
}

/// The document over the log that the bytes stand for.
///
/// Refused with `BadSnapshot` exactly where they stand for none, and with `Memory` in the place of any answer. Takes time in
/// proportion to the bytes, and the steps of `Doc::integrate` for each operation: a logarithmic number. Nothing is integrated before
/// the whole text is read. One that is spelled as `save` and `write_op` spell, but for spaces and escapes, is read byte by byte, and
/// each of its objects is kept until all are integrated, in some 200 bytes and a copy of its text above 16 bytes; any other is read
/// as a JSON value, which is in memory as a whole.
pub fn load_doc(alloc: Global, bytes: &[u8]) -> Result<Doc, Refusal>
    ensures stands { IfOk result (λ doc. StandsFor bytes.now doc.log) }
    ensures unreserved { IfOk result (λ doc. doc.reserved ≡ 0) }
    ensures cause { IfErr result (λ e. (e ≡ Memory) ⊎ ((e ≡ BadSnapshot) × StandsForNone bytes.now)) }
{
    if let Some(doc) = read_spelled(alloc, bytes)? {
        return Ok(doc);
    }
    match read_doc(alloc, bytes) {
        Ok(doc) => Ok(doc),
        Err(Refusal::Memory) => Err(Refusal::Memory),
        Err(_) => Err(Refusal::BadSnapshot),
    }
}

// As `load_doc`, with what was found wrong.
fn read_doc(alloc: Global, bytes: &[u8]) -> Result<Doc, Refusal>
    ensures stands { IfOk result (λ doc. StandsFor bytes.now doc.log) }
    ensures unreserved { IfOk result (λ doc. doc.reserved ≡ 0) }
    ensures cause { IfErr result (λ e. (e ≡ Memory) ⊎ StandsForNone bytes.now) }
{
    let value = read_value(alloc, bytes)?;
    let runs = read_format(&value)?;
    let values = read_list(&value, "ops")?;
    integrate_all(alloc, values, runs)
}

// Whether the format is the one that has runs.
fn read_format(value: &Value) -> Result<bool, Refusal>
    ensures { result ≡ format_of (view value.now) }
{
    check_keys(value, &["format", "ops"])?;
    match read_number(value, "format")? {
        1 => Ok(false),
        2 => Ok(true),
        _ => Err(Refusal::BadField),
    }
}

// The document of the operations that the values tell, each after those before it.
fn integrate_all(alloc: Global, values: &[Value], runs: bool) -> Result<Doc, Refusal>
    ensures told { IfOk result (λ doc. ops_told runs (items_told (items_view values.now)) ≡ Ok doc.log) }
    ensures lawful { IfOk result (λ doc. IsLawful doc.log) }
    ensures few { IfOk result (λ doc. length doc.log ≤ MAX_OPERATIONS) }
    ensures unreserved { IfOk result (λ doc. doc.reserved ≡ 0) }
    ensures cause { IfErr result (λ e. (e ≡ Memory)
        ⊎ ((log : List Operation) → ops_told runs (items_told (items_view values.now)) ≡ Ok log → IsLawful log
        → length log ≤ MAX_OPERATIONS → ⊥)) }
{
    let mut doc = Doc::new(alloc);
    for value in values {
        append_value(alloc, &mut doc, value, runs)?;
    }
    prove!(doc.version() as usize <= MAX_OPERATIONS);
    Ok(doc)
}

// Appends the operations that a value tells, of which each may follow those before it.
fn append_value(alloc: Global, doc: &mut Doc, value: &Value, runs: bool) -> Result<(), Refusal>
    ensures grown { OnOk result ((xs : List Operation) × (value_told runs (view value.now) ≡ Ok xs) × (doc.new.log ≡ doc.old.log ++ xs)) }
    ensures unreserved { OnOk result (doc.old.reserved ≡ 0 → doc.new.reserved ≡ 0) }
    ensures cause { IfErr result (λ e. (e ≡ Memory) ⊎ ((xs : List Operation) → value_told runs (view value.now) ≡ Ok xs
        → GoesOn doc.old.log xs → length doc.old.log + length xs ≤ MAX_OPERATIONS → ⊥)) }
{
    if runs {
        let ops = read_item_ops(alloc, value)?;
        append_operations(doc, ops.as_slice())
    } else {
        let op = read_op(value)?;
        append_operations(doc, &[op])
    }
}

/// Appends operations to a document's log, of which each may follow those before it.
///
/// Refused with `Memory`, and with another refusal only where one may not follow, or the log would have more than 131,072; the
/// first of them may then have been appended. Takes the steps of `Doc::integrate` for each, and memory as it tells.
pub fn append_operations(doc: &mut Doc, ops: &[Op]) -> Result<(), Refusal>
    ensures grown { OnOk result (doc.new.log ≡ doc.old.log ++ ops.now) }
    ensures unreserved { OnOk result (doc.old.reserved ≡ 0 → doc.new.reserved ≡ 0) }
    ensures cause { IfErr result (λ e. (e ≡ Memory)
        ⊎ (GoesOn doc.old.log ops.now → length doc.old.log + length ops.now ≤ MAX_OPERATIONS → ⊥)) }
{
    for op in ops {
        append(doc, op)?;
    }
    Ok(())
}

// Appends an operation that may follow the log.
fn append(doc: &mut Doc, op: &Op) -> Result<(), Refusal>
    ensures grown { OnOk result (doc.new ≡ record { log = doc.old.log ++ op.now ∷ []; reserved = doc.old.reserved - 1 }) }
    ensures cause { IfErr result (λ e. (e ≡ Memory) ⊎ (MayFollow doc.old.log op.now → length doc.old.log < MAX_OPERATIONS → ⊥)) }
{
    let site = op.site();
    if !doc.known().ready(op) || op.stamp().sum <= doc.last_sum(site) {
        return Err(Refusal::BadSnapshot);
    }
    doc.integrate(op)?;
    Ok(())
}

/// Whether no operation of the document's log is the site's. Constant time.
pub fn lacks_site(doc: &Doc, site: Site) -> bool
    ensures yes { result ≡ true → LacksSite site doc.now.log }
    ensures no { result ≡ false → LacksSite site doc.now.log → ⊥ }
{
    prove!(site.number() < 32);
    doc.known().entry(site) == 0
}
