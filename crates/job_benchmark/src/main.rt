//! Plays jobs that users wait for, from bytes to bytes in memory, and prints of each how many runs it had, how many of them
//! stopped early, how often they wrote, how many of the writes began as refusals do, how many bytes they wrote, and a digest of
//! these. It prints no times: `bench/run` takes them.
#![tactic(auto)]

mod dice;
mod handing;
mod jobs;
mod log_text;
mod plays;
mod streams;
mod texts;
mod typing;
mod worlds;

use jobs::{JOBS, Job, Plan};
use std::alloc::Global;
use std::{env, io};

const USAGE: &str =
    "usage: job_benchmark JOB PERCENT SEED (a job's name or `all`; how large it is, 100 as it is timed; the inputs)";

fn print_job(rt: &HostRuntime, alloc: Global, job: Job, plan: Plan) -> io::Result<()> {
    let tally = job.run(alloc, plan)?;
    let name = job.name();
    let (runs, stops) = (tally.runs, tally.stops);
    let writes = tally.written.writes;
    let refusals = tally.written.refusals;
    let bytes = tally.written.bytes;
    let hash = tally.written.hash;
    println!(rt;
        "{name}: {runs} runs, {stops} stopped, {writes} writes, {refusals} refusals, {bytes} bytes, digest {hash}"
    )
}

fn main(rt: HostRuntime) -> io::Result<()> {
    let alloc: Global = rt.alloc();
    let mut words = env::args(&rt)?.skip(1);
    let (Some(name), Some(percent), Some(seed)) = (words.next(), words.next(), words.next()) else {
        println!(rt; "{USAGE}")?;
        return Ok(());
    };
    let (Ok(percent), Ok(seed)) = (percent.parse::<u32>(), seed.parse::<u32>()) else {
        println!(rt; "{USAGE}")?;
        return Ok(());
    };
    let plan = Plan {
        percent,
        seed: u64::from(seed),
    };
    for job in JOBS {
        if name.as_str() == "all" || name.as_str() == job.name() {
            print_job(&rt, alloc, job, plan)?;
        }
    }
    Ok(())
}
