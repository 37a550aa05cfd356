//! Delivery of an operation: the checks in their order, and what becomes of the log and of what is held back.
ghost use Rattle.std.specs.Prelude.{◌≡◌, ◌≤◌, ◌-◌, ◌⊎◌, ◌++◌, [], ◌∷◌, true, None, Some, Ok, Err, length, IfOk, IfErr, OnErr};
ghost use Rattle.opid.specs.declared.refusal.Refusal.TheVariants.{Memory};
ghost use Rattle.opid.specs.Delivery.{is_ready};
ghost use Rattle.opid.specs.Lawful.{IsLawful};
ghost use Rattle.opid.specs.Held.{look_for};
ghost use Rattle.opid.specs.Delivered.{refusal_of};
ghost use Rattle.opid.specs.Delivered.{settle};
ghost use Rattle.opid.specs.Delivered.{claims_site, deliver, taken_by};
ghost use Rattle.replica.specs.Internal.Kept.{settling_of, HasReserved, AreReserved};

use crate::log::Log;
use crate::settle::{Tally, settle};
use causal_clock::Op;
use holdback::{Arrival, Held};
use opid::{Delivery, Refusal, Site};
use versions::MAX_OPERATIONS;

// Whether the operation claims to be one of the site's own that isn't in its log.
fn claims_site(site: Site, log: &Log, op: &Op) -> bool
    ensures value { result ≡ claims_site site log.now.log op.now }
    ensures lawful { IsLawful log.now.log }
{
    let (maker, sequence) = op.number();
    let own = log.doc().known().entry(site);
    maker == site && sequence > own
}

// Whether the operation is in the log. Refused with `Conflict` where another one with its number is. Takes the steps of
// `Log::find`.
fn look(log: &Log, op: &Op) -> Result<bool, Refusal>
    ensures { result ≡ look_for op.now log.now.log }
{
    match log.find(op.number()) {
        None => Ok(false),
        Some(known) => {
            if *op == known {
                Ok(true)
            } else {
                Err(Refusal::Conflict)
            }
        }
    }
}

// Integrates an operation that is ready, and lets settle what is held back. Memory is taken first, for it and for all
// that is held, as far as the log may grow.
fn integrate(log: &mut Log, held: &mut Held, reserved: usize, op: &Op) -> Result<Tally, Refusal>
    requires ready { is_ready log.old.log op.now ≡ true }
    requires enough { HasReserved reserved log.old }
    requires lawful { IsLawful log.old.log }
    ensures accepted { IfOk result (λ t. refusal_of log.old.log op.now ≡ None) }
    ensures settled { IfOk result (λ t. settling_of log.new held.new t
        ≡ settle (record { log = log.old.log ++ op.now ∷ []; held = held.old.ops; taken = 1; dropped = 0 })) }
    ensures cause { IfErr result (λ e. (refusal_of log.old.log op.now ≡ Some e) ⊎ ((e ≡ Memory) × (reserved ≤ length held.old.ops))) }
    ensures err { OnErr result ((log.new.log ≡ log.old.log) × (held.new ≡ held.old)) }
    ensures less_reserved { IfOk result (λ t. HasReserved (reserved - t.taken) log.new) }
    ensures same_reserved { OnErr result (HasReserved reserved log.new) }
    ensures held { held.new.reserved ≡ held.old.reserved }
    ensures lawful { IsLawful log.new.log }
{
    if reserved <= held.len() {
        let left = MAX_OPERATIONS - log.doc().version() as usize;
        log.reserve(left.min(held.len() + 1))?;
    }
    log.append(op)?;
    Ok(settle(log, held))
}

/// Delivers an operation to the replica of a site that has so much reserved.
///
/// Refused, in this order: `OwnSite`, `Conflict`; what isn't ready with `HoldFull`; what is with `Full`, `NotRising`,
/// `UnknownElement`, `NotOlder`. `Memory` may come in place of these, but not of the first two, and only where what is reserved
/// isn't above what is held.
pub(crate) fn deliver(
    site: Site,
    log: &mut Log,
    held: &mut Held,
    reserved: usize,
    op: &Op,
) -> Result<Delivery, Refusal>
    requires { AreReserved reserved log.old held.old }
    ensures delivered { IfOk result (λ d. deliver site log.old.log held.old.ops op.now
        ≡ record { outcome = Ok d; log = log.new.log; held = held.new.ops }) }
    ensures cause { IfErr result (λ e. ((deliver site log.old.log held.old.ops op.now).outcome ≡ Err e)
        ⊎ ((e ≡ Memory) × (reserved ≤ length held.old.ops))) }
    ensures err { OnErr result ((log.new.log ≡ log.old.log) × (held.new ≡ held.old)) }
    ensures less_reserved { IfOk result (λ d. AreReserved (reserved - taken_by d) log.new held.new) }
    ensures same_reserved { OnErr result (AreReserved reserved log.new held.new) }
    ensures lawful { IsLawful log.new.log }
{
    if claims_site(site, log, op) {
        return Err(Refusal::OwnSite);
    }
    if look(log, op)? {
        return Ok(Delivery::Again);
    }
    if !log.doc().known().ready(op) {
        return match held.offer(*op)? {
            Arrival::Kept => Ok(Delivery::Kept),
            Arrival::Again => Ok(Delivery::Again),
        };
    }
    if held.look(op)? {
        return Ok(Delivery::Again);
    }
    let tally = integrate(log, held, reserved, op)?;
    Ok(Delivery::Took {
        taken: tally.taken,
        dropped: tally.dropped,
    })
}
