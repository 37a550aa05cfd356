//! A call by which a session types.
ghost use Rattle.std.specs.Prelude.{◌≡◌, IfOk};
ghost use Rattle.std.specs.Str.{chars};
ghost use Rattle.room_model.specs.declared.call.Call.TheVariants as calls;

use room_model::{Call, Characters};
use std::alloc::{AllocError, Global};

/// The call by which session `s` types its first text at the head of version `v`.
pub fn first_typing(alloc: Global, s: u32, v: u32, text: &str) -> Result<Call, AllocError>
    ensures { IfOk result (λ call. call ≡ calls.Ins s 1 v 0 (chars text.now)) }
{
    let x = Characters::from_str(alloc, text)?;
    Ok(Call::Ins {
        s,
        n: 1,
        v,
        k: 0,
        x,
    })
}
