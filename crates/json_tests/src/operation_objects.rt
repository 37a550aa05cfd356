//! Operation objects as JSON shows them.
use operation_json::{read_op, write_op};
use opid::Refusal;
use serde_json::Value;
use std::alloc::Global;
use std::test::Fail;

// The text of the operation that a text tells.
fn written_again(alloc: Global, text: &str) -> Result<String, Refusal> {
    let Ok(value) = Value::from_str(alloc, text) else {
        return Err(Refusal::BadJson);
    };
    let op = read_op(&value)?;
    write_op(alloc, &op)
}

#[test]
fn an_operation_is_written_as_it_was_read(rt: HostRuntime) -> Result<(), Fail> {
    for text in [
        "{\"c\":[[0,1]],\"k\":\"i\",\"p\":null,\"s\":0,\"x\":\"H\"}",
        "{\"c\":[[1,2],[2,1]],\"k\":\"i\",\"p\":[1,2],\"s\":1,\"x\":\"z\"}",
        "{\"c\":[[0,131071],[31,1]],\"k\":\"i\",\"p\":[4294967295,31],\"s\":31,\"x\":\"\u{e9}\"}",
        "{\"c\":[[1,2]],\"k\":\"d\",\"s\":1,\"t\":[1,0]}",
    ] {
        let written = written_again(rt.alloc(), text)?;
        assert!(rt; written.as_str() == text);
    }
    Ok(())
}
