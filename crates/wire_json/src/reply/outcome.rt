//! The text of an outcome, put together from its end in a few bytes, so that it is copied once.
ghost use Rattle.std.specs.Prelude.{◌≡◌, ◌++◌, OnOk};
ghost use Rattle.wire_json.specs.Text.{IsOutcomeInRange, outcome_text};

use json_bytes::{put, put_all, put_number};
use room_model::Outcome;
use std::alloc::AllocError;

// Room for the text of any outcome: `["took",`, two numbers of at most 20 digits, a comma and a bracket take 50 bytes.
const MOST: usize = 64;

/// Appends the text of the outcome.
pub(crate) fn push_outcome(out: &mut Vec<u8>, outcome: Outcome) -> Result<(), AllocError>
    ensures text { OnOk result (out.new.items ≡ out.old.items ++ outcome_text outcome) }
    ensures in_range { IsOutcomeInRange outcome }
{
    match outcome {
        Outcome::Took(taken, dropped) => {
            let mut bytes = [0; MOST];
            let at = put(&mut bytes, MOST, b']');
            let at = put_number(&mut bytes, at, u64::from(dropped));
            let at = put(&mut bytes, at, b',');
            let at = put_number(&mut bytes, at, u64::from(taken));
            let at = put_all(&mut bytes, at, b"[\"took\",");
            out.extend_from_slice(&bytes[at..])
        }
        Outcome::Kept => out.extend_from_slice(b"[\"kept\"]"),
        Outcome::Again => out.extend_from_slice(b"[\"again\"]"),
        Outcome::No(why) => {
            let mut bytes = [0; MOST];
            let at = put(&mut bytes, MOST, b']');
            let at = put_number(&mut bytes, at, u64::from(why.number()));
            let at = put_all(&mut bytes, at, b"[\"no\",");
            out.extend_from_slice(&bytes[at..])
        }
    }
}
