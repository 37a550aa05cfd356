//! What a client asks of a room.

ghost use Rattle.std.specs.Prelude.{◌≡◌};

use crate::operations::Operations;
use characters::Characters;
use std::alloc::AllocError;

/// A call. A place counts characters (Unicode scalar values), or UTF-16 units where the session joined so. An element is a
/// character that was ever put in, deleted or not.
///
/// Where several refusals hold, the call gets the first of them in the order below. `HistoryFull` is where 1,048,576
/// calls are recorded; it takes one step.
#[derive(Debug, Drop)]
pub enum Call {
    /// Opens a session, whose places count UTF-16 units if it says so, or else characters. Refused with `HistoryFull`, and
    /// with `TooManySessions` where 64 are there, in one step. Takes a look-up of the session, and the steps of `Read`.
    Join {
        units: bool,
    },
    /// Session `s`, as its submission number `n`, puts the characters `x` in at place `k` of version `v`. Its last
    /// accepted submission again is answered as before, whatever `v`, `k` and `x` are.
    ///
    /// Refused with `HistoryFull`; `NoSession`; `BadNumber` where `n` is neither the session's next number nor its last
    /// accepted one; `BadVersion` where `v` is below the session's first version or above its sent one; `BadText` where
    /// `x` has no character or more than 64; `BadPlace` where `k` is above the version's length, or inside a pair of units;
    /// and `Full` where the log would exceed 131,072 operations.
    ///
    /// A repeat, and what is refused up to `BadVersion`, takes one look-up of the session. All else takes at most three
    /// look-ups and a step for each character; and, unless it is refused with `BadText`, steps logarithmic in the number of
    /// elements, for the place and, where it is accepted, again for each character.
    Ins {
        s: u32,
        n: u32,
        v: u32,
        k: u32,
        x: Characters,
    },
    /// Session `s`, as its submission number `n`, deletes `c` characters, or the characters of `c` UTF-16 units, from place
    /// `k` of version `v` on. Its last accepted submission again is answered as before, whatever `v`, `k` and `c` are.
    ///
    /// Refused with `HistoryFull`; `NoSession`, `BadNumber` and `BadVersion` as for `Ins`; `BadCount` where `c` is 0 or
    /// above 64; `BadPlace` where `k` plus `c` is above the version's length, or an end is inside a pair of units; and
    /// `Full` where the log would exceed 131,072 operations.
    ///
    /// A repeat, and what is refused up to `BadVersion`, takes one look-up of the session; `BadCount` takes two. All else
    /// takes at most three, and steps logarithmic in the number of elements, for each place and again for each deletion.
    Del {
        s: u32,
        n: u32,
        v: u32,
        k: u32,
        c: u32,
    },
    /// Session `s`, which has version `have`, asks for the edits since, at most `max` of them. Refused with
    /// `HistoryFull`; `NoSession`; `BadCount` where `max` is 0 or above 64; and `BadHave` where `have` is below the
    /// session's first version or above its sent one. Takes two look-ups of the session, and a step for each edit.
    Pull {
        s: u32,
        have: u32,
        max: u32,
    },
    /// Ends session `s`. Refused with `HistoryFull` and with `NoSession`. Takes a look-up of the session, and a step for
    /// each of at most 63 others.
    Leave {
        s: u32,
    },
    /// Asks for the operations of the log from number `after` on, at most `max` of them. Refused with `HistoryFull`, and
    /// with `BadRange` where `after` is above the log's length, or `max` is 0 or above 64. Takes the steps of
    /// `Doc::copy_ops` for the operations that are told.
    Ops {
        after: u32,
        max: u32,
    },
    /// Hands over operations from elsewhere, which are taken in one after another, whatever became of those before.
    /// Refused with `HistoryFull`, and with `BadCount` where there are none or more than 64.
    ///
    /// The outcome of each is `Took`, `Kept`, `Again`, or `No` with the first of these: `OwnSite` where it claims to be
    /// one of the room's own that the room never made; `Conflict` where another operation with its number is integrated
    /// or held back; `HoldFull` where its causal past isn't there and 1,024 are held back; and where its past is there,
    /// `Full` with 131,072 operations, `NotRising` where its sum isn't above that of its site's last operation,
    /// `UnknownElement` where its parent or target is no element, `NotOlder` where its parent's stamp isn't smaller.
    ///
    /// Takes the steps of `Replica::put` for each: those of `Doc::op` where its number is in the log, or else at most two
    /// passes over what is held back, and one more for each operation that leaves it; and for each that is integrated or
    /// leaves what is held back steps logarithmic in the number of elements.
    Put(Operations),
    /// Asks for the newest version and its text. Refused with `HistoryFull`. Takes the steps of `Doc::reading`: at most 37
    /// for each character of the text, and seven more, however many elements are deleted.
    Read,
}

impl Clone for Call {
    ghost is_clone = { λ s t. t ≡ s };

    /// The same call once more. Takes the steps and the memory of the clone of its text or of its operations; constant time and no
    /// memory where it has neither.
    fn clone(&self) -> Result<Call, AllocError> {
        Ok(match self {
            Call::Join { units } => Call::Join { units: *units },
            Call::Ins { s, n, v, k, x } => Call::Ins {
                s: *s,
                n: *n,
                v: *v,
                k: *k,
                x: x.clone()?,
            },
            Call::Del { s, n, v, k, c } => Call::Del {
                s: *s,
                n: *n,
                v: *v,
                k: *k,
                c: *c,
            },
            Call::Pull { s, have, max } => Call::Pull {
                s: *s,
                have: *have,
                max: *max,
            },
            Call::Leave { s } => Call::Leave { s: *s },
            Call::Ops { after, max } => Call::Ops {
                after: *after,
                max: *max,
            },
            Call::Put(ops) => Call::Put(ops.clone()?),
            Call::Read => Call::Read,
        })
    }
}
