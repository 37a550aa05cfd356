//! The program: it takes its words, does what they ask for, and tells how it ends.
#![tactic(auto)]

ghost use Rattle.commands.specs.Plays.{IsPlayed};

mod beside;
mod ends;
mod host;
mod kept;
mod listener;
mod renewed;
mod renewing;
mod reopening;
mod room_path;
mod rooms;
mod runs;
mod serving;
mod sites;
mod state;
mod tending;
mod warnings;
mod watch;

use command_line::plan;
use commands::{Ending, Stop, play};
use host::host;
use line_engine::Counted;
use plans::{Plan, PlanFault};
use serving::Serving;
use std::alloc::AllocError;
use std::process::ExitCode;
use std::{env, io};

// The words of the command line, the program's name first.
fn words_of(rt: &HostRuntime) -> io::Result<Vec<String>> {
    let mut words = Vec::new(rt.alloc());
    for word in env::args(rt)? {
        words.push(word)?;
    }
    Ok(words)
}

// Why there are no words.
fn wordless(rt: &HostRuntime, why: &io::Error) -> Result<PlanFault, AllocError> {
    if why.kind() == io::ErrorKind::OutOfMemory {
        return Ok(PlanFault::Memory);
    }
    let text = "error: a word of the command line is no UTF-8\n";
    Ok(PlanFault::Words(String::from_str(rt.alloc(), text)?))
}

// What the words ask for.
fn asked(rt: &HostRuntime) -> Result<Plan, PlanFault> {
    match words_of(rt) {
        Ok(words) => plan(rt.alloc(), &words),
        Err(why) => Err(wordless(rt, &why).unwrap_or(PlanFault::Memory)),
    }
}

// Runs a plan other than `serve` from standard input to standard output.
fn play_streams(rt: &HostRuntime, plan: &Plan) -> Result<(), Stop>
    requires { IsPlayed plan.now }
{
    let mut input = Counted::new(rt.stdin());
    let mut output = Counted::new(rt.stdout());
    play(rt.alloc(), plan, &mut input, &mut output)
}

// Tells how the program ends, and gives the status. Whether standard error can be written changes nothing.
fn tell(rt: &HostRuntime, ending: Ending) -> ExitCode {
    let is_printed = !ending.is_output() || print!(rt; "{ending}").is_ok();
    let ending = ending.once_printed(is_printed);
    if !ending.is_output() {
        let _ = eprint!(rt; "{ending}");
    }
    ExitCode::from(ending.status())
}

fn main(rt: HostRuntime) -> ExitCode {
    let plan = match asked(&rt) {
        Ok(plan) => plan,
        Err(why) => return tell(&rt, Ending::Unplanned(why)),
    };
    let ran = match &plan {
        Plan::Serve {
            port,
            site,
            conns,
            keep,
            every,
            renew,
            origins,
            report,
            names,
        } => {
            let serving = Serving {
                port: *port,
                site: *site,
                conns: *conns,
                keep: keep.as_ref().map(|folder| folder.as_str()),
                every: *every,
                does_renew: *renew,
                origins,
                does_report: *report,
                names,
            };
            host(&rt, rt.alloc(), &serving)
        }
        _ => play_streams(&rt, &plan),
    };
    tell(&rt, Ending::of(ran))
}
