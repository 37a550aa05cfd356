//! How the program ends: what it tells, on which stream, and with which status.
use crate::stop::Stop;
use line_engine::ServeFault;
use plans::PlanFault;
use std::fmt;

/// How the program ends.
#[derive(Debug, Drop)]
pub enum Ending {
    /// What its words ask for was done.
    Done,
    /// There is no plan.
    Unplanned(PlanFault),
    /// The plan's run stopped before its end.
    Stopped(Stop),
}

impl Ending {
    ghost use Rattle.std.specs.Prelude.{◌≡◌};
    ghost use Rattle.commands.specs.Endings.{ending_of, once_printed, status_of, is_output};

    /// How the run of a plan ends. Constant time.
    pub fn of(ran: Result<(), Stop>) -> Ending
        ensures { result ≡ ending_of ran }
    {
        match ran {
            Ok(()) => Ending::Done,
            Err(why) => Ending::Stopped(why),
        }
    }

    /// How the program ends, once it's known whether what it tells on standard output was printed: help that couldn't be is a
    /// write fault, and any other ending stays. Constant time.
    pub fn once_printed(self, is_printed: bool) -> Ending
        ensures { result ≡ once_printed is_printed self }
    {
        match self {
            Ending::Unplanned(PlanFault::Help(_)) if !is_printed => {
                Ending::Stopped(Stop::Fault(ServeFault::Write))
            }
            ending => ending,
        }
    }

    /// The status: 0 where all was done or help was asked for, 2 for bad words, and else 1. Constant time.
    pub fn status(&self) -> u8
        ensures { result ≡ status_of self.now }
    {
        match self {
            Ending::Done => 0,
            Ending::Unplanned(PlanFault::Help(_)) => 0,
            Ending::Unplanned(PlanFault::Words(_)) => 2,
            Ending::Unplanned(PlanFault::Memory) => 1,
            Ending::Stopped(_) => 1,
        }
    }

    /// Whether it is told on standard output: help that was asked for is, all else on standard error. There is nothing to tell
    /// where all was done. Constant time.
    pub fn is_output(&self) -> bool
        ensures { result ≡ is_output self.now }
    {
        match self {
            Ending::Unplanned(PlanFault::Help(_)) => true,
            Ending::Done | Ending::Unplanned(_) | Ending::Stopped(_) => false,
        }
    }
}

impl fmt::Display for Ending {
    /// Writes the text that is told. Takes time in proportion to it.
    fn fmt<W: fmt::Write>(&self, f: &mut fmt::Formatter<W>) -> fmt::Result {
        match self {
            Ending::Done => Ok(()),
            Ending::Unplanned(why) => write!(f, "{why}"),
            Ending::Stopped(why) => write!(f, "rgatext: {why}\n"),
        }
    }
}
