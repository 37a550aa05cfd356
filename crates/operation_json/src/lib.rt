//! Operations and runs of them as JSON: what an object tells, or why it is refused, and the one text of each.
//!
//! - `read`: `members` of a JSON value; an `operation` object, or the `items` of a list, from values, as they are `offer`ed; what a `run`
//!   stands for; the same objects from `bytes`, with no tree.
//! - `write`: an `operation`, or `items` packed from the left, whose texts are put together as `bytes`.
//! - `laws`: what is written is read back.
#![tactic(auto)]

mod laws;
mod read;
mod write;

pub use laws::{
    different_operations, different_packed_operations, operations_read_back, packing_unfolds,
};
pub use read::bytes::{SpelledItem, is_closed, rest_of_item};
pub use read::items::{read_item_ops, read_items};
pub use read::members::{
    check_keys, is_among, number_in_range, read_list, read_number, read_text, read_value,
};
pub use read::operation::{check_site, read_op};
pub use read::run::{behind_first, next_op, unfold_run};
pub use write::items::{Item, push_packed, write_item};
pub use write::operation::{check_op, write_op};
