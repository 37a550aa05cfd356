//! Two replicas, of which one types and the other one is given what it typed.
use opid::Refusal;
use replica::Replica;

/// Types a text at the head of a replica, and gives another one the operations.
pub fn type_in_both(from: &mut Replica, to: &mut Replica, text: &str) -> Result<(), Refusal> {
    let newest = from.version();
    from.submit_ins(newest, 0, text)?;
    for op in from.ops(newest, 64)? {
        to.put(op)?;
    }
    Ok(())
}
