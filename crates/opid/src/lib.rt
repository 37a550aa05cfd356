//! The words that every other crate speaks: sites, stamps, kinds of operation, edits and refusals. Its
//! `specs/` define the document: operations, their order, what is visible, versions and edits.
#![tactic(auto)]

mod arrival;
mod delivery;
mod edit;
mod kind;
pub mod laws;
mod limits;
mod refusal;
mod site;
mod stamp;
mod submission;
pub mod worked;

pub use arrival::Arrival;
pub use delivery::Delivery;
pub use edit::Edit;
pub use kind::OpKind;
pub use limits::{
    MAX_CALLS, MAX_COUNT, MAX_HELD, MAX_OPERATIONS, MAX_REQUEST_BYTES, MAX_RUN, MAX_SESSIONS,
    count_characters, is_bad_count,
};
pub use refusal::Refusal;
pub use site::{SITES, Site};
pub use stamp::Stamp;
pub use submission::Submission;
