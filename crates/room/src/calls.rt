//! What each kind of call does with a room's document and its sessions.
ghost use Rattle.std.specs.Prelude.{◌≡◌, ◌+◌, ◌-◌, ◌<◌, ◌≤◌, ℕ, [], List, Some, None, false, IfOk, IsOk, OnErr, length};
ghost use Rattle.std.specs.Prelude.{vec_capacity, slice_get};
ghost use Rattle.opid.specs.Limits.{is_bad_count};
ghost use Rattle.opid.specs.Edits.{edits_in};
ghost use Rattle.opid.specs.Asked.{asked_insertions_in, asked_deletions_in};
ghost use Rattle.opid.specs.Places.{insertion_refusal_in, deletion_refusal_in, element_count};
ghost use Rattle.opid.specs.Delivered.{part_of};
ghost use Rattle.opid.specs.Delivered.{ReplicaState};
ghost use Rattle.opid.specs.Reading.{reading};
ghost use Rattle.opid.specs.Sessions.{Outbox, session_with, MayAccept};
ghost use Rattle.opid.specs.Sessions.{submission_of};
ghost use Rattle.room_model.specs.declared.call.Call.TheVariants.{Join, Ins, Del, Pull, Leave, Ops, Put, Read};
ghost use Rattle.room_model.specs.Deliveries.{outcome_of};
ghost use Rattle.room_model.specs.Machine.{counts_units, edits_between_in};
ghost use Rattle.room.specs.Internal.Parts.{Does, MayLackMemory, state_with, reply_at_once, Submits, Accepts, IsHandedOver};

use causal_clock::Op;
use opid::{Edit, MAX_COUNT, MAX_SESSIONS, Refusal, is_bad_count};
use replica::{Delivery, Replica};
use room_model::{Call, Characters, Edits, Operations, Outcome, Outcomes, Reply};
use session_outbox::{Sessions, Submission};
use std::alloc::{AllocError, Global};
use versions::Doc;

/// Carries out a call that is recorded.
pub(crate) fn perform(
    alloc: Global,
    replica: &mut Replica,
    outbox: &mut Sessions,
    call: &Call,
) -> Result<Reply, AllocError>
    requires { outbox.old.next_number < 4294967295 }
    ensures does { IfOk result (λ reply. Does replica.old outbox.old call.now reply replica.new outbox.new) }
    ensures numbers { outbox.new.next_number ≤ outbox.old.next_number + 1 }
    ensures memory { OnErr result ((count : ℕ) → MayLackMemory (state_with replica.old outbox.old count) call.now) }
    ensures err_replica { OnErr result (replica.new ≡ replica.old) }
    ensures err_outbox { OnErr result (outbox.new ≡ outbox.old) }
{
    match call {
        Call::Join { units } => join(replica, outbox, *units),
        Call::Ins { s, n, v, k, x } => insert(replica, outbox, *s, *n, *v, *k, x),
        Call::Del { s, n, v, k, c } => delete(replica, outbox, *s, *n, *v, *k, *c),
        Call::Pull { s, have, max } => pull(alloc, replica, outbox, *s, *have, *max),
        Call::Leave { s } => Ok(leave(outbox, *s)),
        Call::Ops { after, max } => part(replica, *after, *max),
        Call::Put(ops) => put(alloc, replica, ops),
        Call::Read => read(replica),
    }
}

// Opens a session, with its way of counting. Takes the steps of `reading` and a look-up, and one step where too many are there.
fn join(replica: &Replica, outbox: &mut Sessions, units: bool) -> Result<Reply, AllocError>
    requires { outbox.old.next_number < 4294967295 }
    ensures does { IfOk result (λ reply. Does replica.now outbox.old (Join units) reply replica.now outbox.new) }
    ensures numbers { outbox.new.next_number ≤ outbox.old.next_number + 1 }
    ensures err { OnErr result (outbox.new ≡ outbox.old) }
    ensures memory { OnErr result (length outbox.old.sessions < MAX_SESSIONS) }
{
    if outbox.is_full() {
        return Ok(Reply::No(Refusal::TooManySessions));
    }
    let v = replica.version();
    let x = reading(replica.doc())?;
    match outbox.join(v, units) {
        Ok(s) => Ok(Reply::Joined { s, v, x }),
        Err(_) => Err(AllocError),
    }
}

// Puts `x` in at place `k` of version `v`, as submission `n` of session `s` of this site.
#[allow(clippy::too_many_arguments)]
fn insert(
    replica: &mut Replica,
    outbox: &mut Sessions,
    s: u32,
    n: u32,
    v: u32,
    k: u32,
    x: &Characters,
) -> Result<Reply, AllocError>
    ensures does { IfOk result (λ reply. Does replica.old outbox.old (Ins s n v k x.now) reply replica.new outbox.new) }
    ensures numbers { outbox.new.next_number ≡ outbox.old.next_number }
    ensures err_replica { OnErr result (replica.new ≡ replica.old) }
    ensures err_outbox { OnErr result (outbox.new ≡ outbox.old) }
{
    if let Some(reply) = reply_at_once(outbox, s, n, v) {
        return Ok(reply);
    }
    let units = counts_units(outbox, s);
    accept(outbox, s, submit_insertion(replica, units, v, k, x))
}

// Puts `x` in at place `k` of version `v`, as the replica's own, where places count UTF-16 units, or else characters.
fn submit_insertion(
    replica: &mut Replica,
    units: bool,
    v: u32,
    k: u32,
    x: &Characters,
) -> Result<(u32, u32), Refusal>
    ensures { Submits (insertion_refusal_in units replica.old.log v k x.now) result replica.old
        (asked_insertions_in units replica.old.log replica.old.site v k x.now) (length x.now) replica.new }
{
    if units {
        replica.submit_ins_units(v, k, x.as_str())
    } else {
        replica.submit_ins(v, k, x.as_str())
    }
}

// Deletes what stands at `c` places from place `k` of version `v` on, as submission `n` of session `s` of this site.
#[allow(clippy::too_many_arguments)]
fn delete(
    replica: &mut Replica,
    outbox: &mut Sessions,
    s: u32,
    n: u32,
    v: u32,
    k: u32,
    c: u32,
) -> Result<Reply, AllocError>
    ensures does { IfOk result (λ reply. Does replica.old outbox.old (Del s n v k c) reply replica.new outbox.new) }
    ensures numbers { outbox.new.next_number ≡ outbox.old.next_number }
    ensures err_replica { OnErr result (replica.new ≡ replica.old) }
    ensures err_outbox { OnErr result (outbox.new ≡ outbox.old) }
{
    if let Some(reply) = reply_at_once(outbox, s, n, v) {
        return Ok(reply);
    }
    let units = counts_units(outbox, s);
    accept(outbox, s, submit_deletion(replica, units, v, k, c))
}

// Deletes what stands at `c` places from place `k` of version `v` on, as the replica's own, where places count UTF-16
// units, or else characters.
fn submit_deletion(
    replica: &mut Replica,
    units: bool,
    v: u32,
    k: u32,
    c: u32,
) -> Result<(u32, u32), Refusal>
    ensures { Submits (deletion_refusal_in units replica.old.log v k c) result replica.old
        (asked_deletions_in units replica.old.log replica.old.site v k c) (element_count units replica.old.log v k c) replica.new }
{
    if units {
        replica.submit_del_units(v, k, c)
    } else {
        replica.submit_del(v, k, c)
    }
}

// Whether the places of the session count UTF-16 units.
fn counts_units(outbox: &Sessions, s: u32) -> bool
    ensures { result ≡ counts_units s outbox.now }
{
    outbox.in_units(s).unwrap_or(false)
}

// The reply to a submission that isn't the session's next one: why it is refused, or the kept reply.
fn reply_at_once(outbox: &Sessions, s: u32, n: u32, v: u32) -> Option<Reply>
    ensures reply { result ≡ reply_at_once (submission_of (session_with s outbox.now.sessions) n v) }
    ensures acceptable { result ≡ None → MayAccept s outbox.now.sessions }
{
    match outbox.check_submit(s, n, v) {
        Ok(Submission::New) => None,
        Ok(Submission::Repeat(from, to)) => Some(Reply::Ok { from, to }),
        Err(e) => Some(Reply::No(e)),
    }
}

// Notes that a session's next submission led from a version to a version, unless it was refused, and replies so.
fn accept(
    outbox: &mut Sessions,
    s: u32,
    submitted: Result<(u32, u32), Refusal>,
) -> Result<Reply, AllocError>
    requires { MayAccept s outbox.old.sessions }
    ensures { Accepts s submitted outbox.old result outbox.new }
{
    match submitted {
        Ok((from, to)) => {
            outbox.accept(s, from, to);
            Ok(Reply::Ok { from, to })
        }
        Err(Refusal::Memory) => Err(AllocError),
        Err(e) => Ok(Reply::No(e)),
    }
}

// Sends session `s`, which has version `have`, the edits since, at most `max` of them. Takes two look-ups, and a step for each.
fn pull(
    alloc: Global,
    replica: &Replica,
    outbox: &mut Sessions,
    s: u32,
    have: u32,
    max: u32,
) -> Result<Reply, AllocError>
    ensures does { IfOk result (λ reply. Does replica.now outbox.old (Pull s have max) reply replica.now outbox.new) }
    ensures numbers { outbox.new.next_number ≡ outbox.old.next_number }
    ensures err { OnErr result (outbox.new ≡ outbox.old) }
{
    let version = replica.version();
    let units = counts_units(outbox, s);
    let most = max.min(MAX_COUNT).min(version.saturating_sub(have));
    let mut es = Vec::with_capacity(alloc, most as usize)?;
    match outbox.pull(s, have, max, version) {
        Ok((from, to)) => {
            add_edits(replica.doc(), units, from, to, &mut es);
            let es = Edits::new(es);
            Ok(Reply::Edits { from, es })
        }
        Err(e) => Ok(Reply::No(e)),
    }
}

// Ends session `s`.
fn leave(outbox: &mut Sessions, s: u32) -> Reply
    ensures does { (replica : ReplicaState) → Does replica outbox.old (Leave s) result replica outbox.new }
    ensures numbers { outbox.new.next_number ≡ outbox.old.next_number }
{
    match outbox.leave(s) {
        Ok(()) => Reply::Left,
        Err(e) => Reply::No(e),
    }
}

// Tells the operations of the log from number `after` on, at most `max`. Takes the steps of `Replica::ops`.
fn part(replica: &Replica, after: u32, max: u32) -> Result<Reply, AllocError>
    ensures does { IfOk result (λ reply. (outbox : Outbox) → Does replica.now outbox (Ops after max) reply replica.now outbox) }
    ensures memory { OnErr result (IsOk (part_of replica.now.log after max)) }
{
    match replica.ops(after, max) {
        Ok(ops) => {
            let ops = Operations::new(ops);
            Ok(Reply::Ops { from: after, ops })
        }
        Err(Refusal::BadRange) => Ok(Reply::No(Refusal::BadRange)),
        Err(_) => Err(AllocError),
    }
}

// Hands operations over, one after another. All memory is taken first.
fn put(alloc: Global, replica: &mut Replica, ops: &Operations) -> Result<Reply, AllocError>
    ensures does { IfOk result (λ reply. (outbox : Outbox) → Does replica.old outbox (Put ops.now) reply replica.new outbox) }
    ensures err { OnErr result (replica.new ≡ replica.old) }
    ensures memory { OnErr result (is_bad_count (length ops.now) ≡ false) }
{
    let ops = ops.as_slice();
    let count = ops.len();
    if is_bad_count(count) {
        return Ok(Reply::No(Refusal::BadCount));
    }
    let mut outcomes = Vec::with_capacity(alloc, count)?;
    match replica.reserve(replica.held() + count) {
        Ok(()) => {}
        Err(_) => return Err(AllocError),
    }
    hand_over(replica, ops, &mut outcomes);
    Ok(Reply::Put(Outcomes::new(outcomes)))
}

// Tells the newest version and its text. Takes the steps of `reading`.
fn read(replica: &Replica) -> Result<Reply, AllocError>
    ensures { IfOk result (λ reply. (outbox : Outbox) → Does replica.now outbox Read reply replica.now outbox) }
{
    let v = replica.version();
    let x = reading(replica.doc())?;
    Ok(Reply::Text { v, x })
}

// The text of the newest version. Takes the steps of `Doc::reading`.
fn reading(doc: &Doc) -> Result<Characters, AllocError>
    ensures { IfOk result (λ text. text ≡ reading doc.now.log) }
{
    match doc.reading(doc.version()) {
        Ok(text) => Ok(text),
        Err(_) => Err(AllocError),
    }
}

// Adds the edits that lead from one version to another, for which memory is reserved, as places are counted.
fn add_edits(doc: &Doc, units: bool, from: u32, to: u32, es: &mut Vec<Edit>)
    requires newest { to ≤ length doc.now.log }
    requires empty { es.old.items ≡ [] }
    requires reserved { to - from ≤ vec_capacity es.old }
    ensures { es.new.items ≡ edits_between_in units doc.now.log from to }
{
    for version in from..to {
        es.push_reserved(edit_in(doc, units, version + 1));
    }
}

// The edit of operation `n`, counted from 1, where places count UTF-16 units, or else characters.
fn edit_in(doc: &Doc, units: bool, n: u32) -> Edit
    requires first { 1 ≤ n }
    requires last { n ≤ length doc.now.log }
    ensures { slice_get (edits_in units doc.now.log) (n - 1) ≡ Some result }
{
    if units {
        doc.edit_units(n)
    } else {
        doc.edit(n)
    }
}

// Hands operations over for which memory is reserved, and adds their outcomes.
fn hand_over(replica: &mut Replica, ops: &[Op], outcomes: &mut Vec<Outcome>)
    requires empty { outcomes.old.items ≡ [] }
    requires capacity { length ops.now ≤ vec_capacity outcomes.old }
    requires reserved { length replica.old.held + length ops.now ≤ replica.old.reserved }
    ensures { IsHandedOver replica.old ops.now outcomes.new.items replica.new }
{
    for op in ops {
        let outcome = outcome_of(replica.put_copy(op));
        outcomes.push_reserved(outcome);
    }
}

// The outcome of a delivery.
fn outcome_of(delivery: Result<Delivery, Refusal>) -> Outcome
    ensures { result ≡ outcome_of delivery }
{
    match delivery {
        Ok(Delivery::Took { taken, dropped }) => Outcome::Took(taken, dropped),
        Ok(Delivery::Kept) => Outcome::Kept,
        Ok(Delivery::Again) => Outcome::Again,
        Err(e) => Outcome::No(e),
    }
}
