//! What the words of the program's command line ask for.
#![tactic(auto)]

mod serve_words;
mod words;

pub use words::plan;
