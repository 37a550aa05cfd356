//! A connection that lacks memory. This test passes whatever allocation is refused: `tests/refused_memory` refuses each of them in turn.
use crate::halls::{Free, hall_of};
use crate::streams::{CLOSE, HEAD, OPEN, Record, serve_script};
use std::alloc::Global;
use std::sync::Wait;
use std::test::Fail;
use ws_server::ServeFault;

// How a connection ends that opens a room of a hall of its own, and closes. Where the hall finds no memory, so does it.
fn come_and_go<R: Wait>(rt: &R, alloc: Global) -> Result<(), ServeFault> {
    let Ok((hall, mut pass)) = hall_of(alloc, &["notes"]) else {
        return Err(ServeFault::Memory);
    };
    let parts = [HEAD, OPEN, CLOSE];
    serve_script(
        rt,
        alloc,
        &hall,
        &mut pass,
        &parts,
        &Record::new(0),
        &mut Free,
    )
}

// Where memory was wanting, from the handshake on, a second connection finds it. Where it was wanting for a field of the head,
// `tungstenite` takes the head for a wrong one, and so that ends with `Read`.
#[test]
fn a_connection(rt: HostRuntime) -> Result<(), Fail> {
    let mut end = come_and_go(&rt, rt.alloc());
    if matches!(&end, Err(ServeFault::Memory | ServeFault::Read)) {
        end = come_and_go(&rt, rt.alloc());
    }
    assert!(rt; end == Ok(()));
    Ok(())
}
