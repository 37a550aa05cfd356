//! What a word of the command line asks for.

use command_line::plan;
use plans::{Plan, PlanFault};
use std::alloc::Global;

/// What the program is asked for by one word, behind its name.
pub fn plan_of(alloc: Global, word: &str) -> Result<Plan, PlanFault> {
    let name = String::from_str(alloc, "rgatext")?;
    let word = String::from_str(alloc, word)?;
    plan(alloc, &[name, word])
}
