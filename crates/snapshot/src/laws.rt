//! Laws of the texts of logs: each is the contract of a function that does nothing, so that it is proved with the crate.
ghost use Rattle.std.specs.Prelude.{◌≡◌, ◌≤◌, ℕ, List, length};
ghost use Rattle.opid.specs.Operations.{Operation};
ghost use Rattle.opid.specs.Lawful.{IsLawful};
ghost use Rattle.snapshot.specs.Snapshot.{StandsFor, AreInRange, log_text};

use opid::MAX_OPERATIONS;

/// The text of a log stands for just that log.
pub fn logs_read_back()
    ensures { (log : List Operation) → AreInRange log → IsLawful log → length log ≤ MAX_OPERATIONS → StandsFor (log_text log) log }
{}

/// Two different logs have different texts.
pub fn different_logs()
    ensures { (a b : List Operation) → AreInRange a → AreInRange b → log_text a ≡ log_text b → a ≡ b }
{}

/// A text stands for at most one log.
pub fn one_log()
    ensures { (bytes : List ℕ) (a b : List Operation) → StandsFor bytes a → StandsFor bytes b → a ≡ b }
{}
