//! Requests of each kind but `put`, whose runs are tried apart, with the greatest numbers; and refused ones.
use opid::Refusal;
use room_model::Call;
use std::alloc::Global;
use std::test::Fail;
use wire_json::read_request;

// A text of 66 characters, of which 65 are kept.
const LONG: &str = "0123456789012345678901234567890123456789012345678901234567890123\u{e9}z";

const ASKED: [&str; 8] = [
    "{\"t\":\"join\"}",
    "{\"t\":\"join\",\"u\":16}",
    "{\"x\":\"0123456789012345678901234567890123456789012345678901234567890123\u{e9}z\",\"k\":4294967295,\"v\":70000,\"n\":2,\"s\":9,\"t\":\"ins\"}",
    "{\"t\":\"del\",\"s\":12,\"n\":3,\"v\":100000,\"k\":4294967295,\"c\":37}",
    "{\"t\":\"pull\",\"s\":4294967295,\"have\":70000,\"max\":0}",
    "{\"t\":\"leave\",\"s\":64}",
    "{\"t\":\"ops\",\"after\":131072,\"max\":64}",
    "{\"t\":\"read\"}",
];

// Whether the request at this place asks for this.
fn is_told(place: usize, call: &Call) -> bool {
    match call {
        Call::Join { units } => place == usize::from(*units),
        Call::Ins {
            s: 9,
            n: 2,
            v: 70_000,
            k: 4_294_967_295,
            x,
        } => place == 2 && LONG.strip_suffix("z") == Some(x.as_str()),
        Call::Del {
            s: 12,
            n: 3,
            v: 100_000,
            k: 4_294_967_295,
            c: 37,
        } => place == 3,
        Call::Pull {
            s: 4_294_967_295,
            have: 70_000,
            max: 0,
        } => place == 4,
        Call::Leave { s: 64 } => place == 5,
        Call::Ops {
            after: 131_072,
            max: 64,
        } => place == 6,
        Call::Read => place == 7,
        _ => false,
    }
}

// Whether each is told.
fn are_told(alloc: Global) -> Result<bool, Refusal> {
    let mut all = true;
    for (place, text) in ASKED.iter().enumerate() {
        all &= is_told(place, &read_request(alloc, text.as_bytes())?);
    }
    Ok(all)
}

#[test]
fn a_request_of_each_kind(rt: HostRuntime) -> Result<(), Fail> {
    assert!(rt; are_told(rt.alloc())?);
    for (text, why) in [
        ("", Refusal::BadJson),
        ("[]", Refusal::BadField),
        ("{\"t\":\"\"}", Refusal::UnknownKind),
        ("{\"t\":\"leave\",\"s\":4294967296}", Refusal::BadField),
    ] {
        assert!(rt; read_request(rt.alloc(), text.as_bytes()).err() == Some(why));
    }
    Ok(())
}
