//! Why the program can do nothing.
use std::alloc::AllocError;
use thiserror::Error;

/// Why there is no plan.
#[derive(Debug, Drop, Error)]
pub enum PlanFault {
    /// Help was asked for: its text, for standard output.
    #[error("{0}")]
    Help(String),
    /// The words ask for nothing that the program does: what is wrong with them, for standard error.
    #[error("{0}")]
    Words(String),
    /// Memory was refused.
    #[error("rgatext: fault memory\n")]
    Memory,
}

impl From<AllocError> for PlanFault {
    ghost use Rattle.std.specs.Prelude.{◌≡◌};
    ghost use Rattle.plans.specs.declared.fault.PlanFault.TheVariants.{Memory};

    ghost from_gives = { λ _ e. e ≡ Memory };

    /// `Memory`. Constant time.
    fn from(_: AllocError) -> PlanFault {
        PlanFault::Memory
    }
}
