//! Laws of journals: each is the contract of a function that does nothing, so that it is proved with the crate.
ghost use Rattle.std.specs.Prelude.{◌≡◌, ◌≤◌, ◌++◌, [], ℕ, List, length, take};
ghost use Rattle.opid.specs.Operations.{Operation};
ghost use Rattle.opid.specs.Lawful.{IsLawful};
ghost use Rattle.wire_json.specs.Line.{IsLine};
ghost use Rattle.journal.specs.Journal.{IsEnded, EndsLines, StandsFor, AreLinesOf};

use opid::MAX_OPERATIONS;

/// No bytes stand for the empty log. What bytes stand for, their whole lines stand for. Where the lines of operations that follow a
/// log are appended to whole lines that stand for it, all are whole lines, and stand for the log with these operations.
pub fn journals_grow()
    ensures empty { StandsFor [] [] }
    ensures whole { (n : ℕ) (bytes : List ℕ) (log : List Operation) → EndsLines n bytes → StandsFor bytes log
        → StandsFor (take n bytes) log }
    ensures grown { (bytes more : List ℕ) (log ops : List Operation) → IsEnded bytes → StandsFor bytes log
        → AreLinesOf bytes (length log) ops more → IsLawful (log ++ ops) → length (log ++ ops) ≤ MAX_OPERATIONS
        → StandsFor (bytes ++ more) (log ++ ops) }
    ensures ended { (n : ℕ) (bytes more : List ℕ) (ops : List Operation) → IsEnded bytes → AreLinesOf bytes n ops more
        → IsEnded (bytes ++ more) }
{}

/// Bytes stand for at most one log.
pub fn one_log()
    ensures { (bytes : List ℕ) (a b : List Operation) → StandsFor bytes a → StandsFor bytes b → a ≡ b }
{}

/// What a crash may leave of a journal. A beginning of bytes that stand for a log stands for a beginning of the log. Bytes with no LF
/// behind bytes change nothing. What stands behind whole lines only adds to what they tell.
pub fn torn_journals()
    ensures fronts { (n : ℕ) (bytes : List ℕ) (log : List Operation) → StandsFor bytes log
        → (count : ℕ) × (count ≤ length log) × StandsFor (take n bytes) (take count log) }
    ensures behind { (bytes last : List ℕ) (log : List Operation) → IsLine last → StandsFor bytes log → StandsFor (bytes ++ last) log }
    ensures adds { (front rest : List ℕ) (log more : List Operation) → IsEnded front → StandsFor front log → StandsFor (front ++ rest) more
        → (length log ≤ length more) × (log ≡ take (length log) more) }
{}
