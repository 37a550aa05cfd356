//! The refusals and faults at which a run ends.
use line_engine::ServeFault;
use opid::Refusal;
use std::fmt;

/// Why a run stopped before its end.
#[derive(Clone, Copy, Debug, PartialEq, Eq)]
pub enum Stop {
    /// What was asked for is refused.
    Refused(Refusal),
    /// A read or a write failed, or memory was refused.
    Fault(ServeFault),
    /// A listener, a connection or a thread can't be had. No command of this crate ends so; the program's `serve` does.
    Socket,
    /// A folder or a file in it can't be had. No command of this crate ends so; the program's `serve` does.
    Files,
}

impl Stop {
    ghost use Rattle.std.specs.Prelude.{◌≡◌};
    ghost use Rattle.opid.specs.declared.refusal.Refusal.TheVariants.{Memory};
    ghost use Rattle.commands.specs.Played.{stop_of};

    /// Why a refusal stops a run: for want of memory it is a fault. Constant time.
    pub fn of(why: Refusal) -> Stop
        ensures { result ≡ stop_of why }
    {
        match why {
            Refusal::Memory => Stop::Fault(ServeFault::Memory),
            _ => Stop::Refused(why),
        }
    }
}

impl fmt::Display for Stop {
    /// Writes the text that is told. Takes time in proportion to it.
    fn fmt<W: fmt::Write>(&self, f: &mut fmt::Formatter<W>) -> fmt::Result {
        match self {
            Stop::Refused(why) => write!(f, "refused {} {}", why.number(), why.name()),
            Stop::Fault(why) => write!(f, "{why}"),
            Stop::Socket => f.write_str("fault socket"),
            Stop::Files => f.write_str("fault file"),
        }
    }
}
