//! The words of the command line: how `clap` is told of them, and the plan that is read of those that it took.
ghost use Rattle.std.specs.Prelude.{◌≡◌, [], Some, None, Option, ℕ, ◌≤◌, false, IfOk, IfErr, IfSome, IfNone, map, option_map, string_bytes};
ghost use Rattle.std.specs.Prelude.{codes};
ghost use Rattle.clap.specs.Words.{app_of, fault_of, found_of, kind_of, rows_of, rule_of, first_of, subcommand_of, subcommand_rows_of};
ghost use Rattle.clap.specs.Words.{new_app, with_subcommand};
ghost use Rattle.clap.specs.declared.builder.command.Command.TheViews.{out-Command};
ghost use Rattle.plans.specs.declared.plan.Plan.{Plan};
ghost use Rattle.command_line.specs.CommandLine.{rgatext, lines_command, text_command, world_command, valued_option, site_option};
ghost use Rattle.command_line.specs.CommandLine.{site_or_zero_option, version_option, sites_option, flag_option, AsksForPlan};
ghost use Rattle.command_line.specs.CommandLine.{AsksNothing, ReadsTo, Refuses, ToldBy, is_set};

use crate::serve_words::{serve_command, serve_plan};
use clap::error::ErrorKind;
use clap::{Arg, ArgAction, ArgMatches, Command, value_parser};
use opid::Site;
use plans::{Plan, PlanFault, Sites};
use std::alloc::{AllocError, Global};

// The program's version.
const VERSION: &str = "0.1.0";

/// The plan that the words ask for, of which the first is the program's own name.
///
/// `lines` serves standard input: `--site N` gives the room's site, 0 to 31, or 0 where it isn't given; with `--resume` the first line is a
/// snapshot, and with `--snapshot` one is written last. `text` prints a snapshot's reading: `--version V`, 0 to 4,294,967,295, names the
/// version, and else it is the newest. `world` plays the script on standard input: `--sites N` gives how many sites there are, 1 to 32, or
/// 2 where it isn't given. `serve` serves rooms of the names that follow: `--port P` gives the port, 1 to 65535; `--site N` the site, 0 to
/// 31; `--conns C`, 1 to 65,536, the number of connections; `--keep FOLDER` where the rooms' logs are kept; `--every SECONDS`, 1 to 3600,
/// how long a turn of keeping waits for the next, where answers don't wait for one; `--renew` that rooms begin anew; `--origin ORIGIN`,
/// again and again, whose pages may connect; and `--report` asks for a line each minute. `--help` and `help`, also of a subcommand, and
/// `--version` are answered by `Help`; all other words by `Words`, which says what is wrong with them; want of memory by `Memory`. Takes
/// time and memory in proportion to the words.
pub fn plan(alloc: Global, words: &[String]) -> Result<Plan, PlanFault>
    ensures planned { IfOk result (λ made. AsksForPlan (subcommand_of rgatext (map string_bytes words.now)) made) }
    ensures refused { IfErr result (Refuses (fault_of rgatext (map string_bytes words.now))
        (subcommand_of rgatext (map string_bytes words.now))) }
{
    match command(alloc)?.try_get_matches_from(words) {
        Ok(matches) => read_plan(alloc, &matches),
        Err(error) => Err(told(alloc, &error)),
    }
}

// The command line as `clap` is told of it.
fn command<'a>(alloc: Global) -> Result<Command<'a>, AllocError>
    ensures { IfOk result (λ made. app_of made ≡ rgatext) }
{
    let top = without_serve(alloc)?;
    let serve = serve_command(alloc)?;
    let top = top.subcommand(serve)?;
    Ok(top.subcommand_required(true).version(VERSION))
}

// The same without `serve`, and no subcommand has to be there.
fn without_serve<'a>(alloc: Global) -> Result<Command<'a>, AllocError>
    ensures { IfOk result (λ made. app_of made ≡ with_subcommand (with_subcommand (with_subcommand (new_app (codes "rgatext"))
        lines_command.top) text_command.top) world_command.top) }
{
    let lines = lines_command(alloc)?;
    let top = new_command(alloc, "rgatext", "A replicated text server");
    let top = top.subcommand(lines)?;
    let text = text_command(alloc)?;
    let top = top.subcommand(text)?;
    let world = world_command(alloc)?;
    top.subcommand(world)
}

// A command of which the name is told, and what it is about.
pub(crate) fn new_command<'a>(alloc: Global, name: &'a str, about: &'a str) -> Command<'a>
    ensures shape { app_of result ≡ new_app name.now }
    ensures local { (out-Command result).has_globals ≡ false }
{
    Command::new(alloc, name).about(about)
}

fn lines_command<'a>(alloc: Global) -> Result<Command<'a>, AllocError>
    ensures shape { IfOk result (λ made. app_of made ≡ lines_command) }
    ensures local { IfOk result (λ made. (out-Command made).has_globals ≡ false) }
{
    let lines = new_command(
        alloc,
        "lines",
        "Serves requests from standard input to standard output, one a line",
    );
    let lines = lines.arg(site_or_zero_arg(alloc))?;
    let lines = lines.arg(flag_arg(
        alloc,
        "resume",
        "The input's first line is a snapshot that the room opens over",
    ))?;
    lines.arg(flag_arg(
        alloc,
        "snapshot",
        "Writes the room's snapshot as the last line",
    ))
}

fn text_command<'a>(alloc: Global) -> Result<Command<'a>, AllocError>
    ensures shape { IfOk result (λ made. app_of made ≡ text_command) }
    ensures local { IfOk result (λ made. (out-Command made).has_globals ≡ false) }
{
    let version = version_arg(alloc);
    let text = bare_text(alloc);
    text.arg(version)
}

// The same without its option, of which `clap` would make no usage, since its long name is one of `clap`'s own.
fn bare_text<'a>(alloc: Global) -> Command<'a>
    ensures shape { app_of result ≡ new_app (codes "text") }
    ensures local { (out-Command result).has_globals ≡ false }
{
    Command::new(alloc, "text")
        .about("Prints the reading of the snapshot on standard input")
        .override_usage("rgatext text [OPTIONS]")
}

fn world_command<'a>(alloc: Global) -> Result<Command<'a>, AllocError>
    ensures shape { IfOk result (λ made. app_of made ≡ world_command) }
    ensures local { IfOk result (λ made. (out-Command made).has_globals ≡ false) }
{
    let sites = sites_arg(alloc);
    let world = new_command(
        alloc,
        "world",
        "Plays a script of events over sites that exchange operations",
    );
    world.arg(sites)
}

// The option `--NAME` with a value.
pub(crate) fn valued_arg<'a>(alloc: Global, name: &'a str, value: &'a str, help: &'a str) -> Arg<'a>
    ensures rule { rule_of result ≡ valued_option name.now }
    ensures local { result.global ≡ false }
{
    Arg::new(alloc, name)
        .long(name)
        .value_name(value)
        .help(help)
}

// `--site` alone.
pub(crate) fn site_arg<'a>(alloc: Global) -> Arg<'a>
    ensures rule { rule_of result ≡ site_option }
    ensures local { result.global ≡ false }
{
    let site = valued_arg(alloc, "site", "N", "The room's site number, 0 to 31");
    site.value_parser(value_parser!(u8).range(0..=31))
}

fn site_or_zero_arg<'a>(alloc: Global) -> Arg<'a>
    ensures rule { rule_of result ≡ site_or_zero_option }
    ensures local { result.global ≡ false }
{
    site_arg(alloc).default_value("0")
}

fn version_arg<'a>(alloc: Global) -> Arg<'a>
    ensures rule { rule_of result ≡ version_option }
    ensures local { result.global ≡ false }
{
    valued_arg(alloc, "number", "V", "The version, the newest unless given")
        .long("version")
        .value_parser(value_parser!(u32).range(0..=4294967295))
}

fn sites_arg<'a>(alloc: Global) -> Arg<'a>
    ensures rule { rule_of result ≡ sites_option }
    ensures local { result.global ≡ false }
{
    valued_arg(alloc, "sites", "N", "How many sites there are, 1 to 32")
        .value_parser(value_parser!(u8).range(1..=32))
        .default_value("2")
}

pub(crate) fn flag_arg<'a>(alloc: Global, name: &'a str, help: &'a str) -> Arg<'a>
    ensures rule { rule_of result ≡ flag_option name.now }
    ensures local { result.global ≡ false }
{
    Arg::new(alloc, name)
        .long(name)
        .action(ArgAction::SetTrue)
        .help(help)
}

// The plan of words that `clap` took.
fn read_plan(alloc: Global, matches: &ArgMatches<'_>) -> Result<Plan, PlanFault>
    ensures planned { IfOk result (λ made. AsksForPlan (subcommand_rows_of matches.now) made) }
    ensures refused { IfErr result (Refuses [] (subcommand_rows_of matches.now)) }
{
    match subcommand_plan(alloc, matches)? {
        Some(plan) => Ok(plan),
        None => Err(PlanFault::Words(String::from_str(alloc, "error: there is no plan\n")?)),
    }
}

fn subcommand_plan(alloc: Global, matches: &ArgMatches<'_>) -> Result<Option<Plan>, AllocError>
    ensures some { IfOk result (λ made. IfSome made (λ plan. AsksForPlan (subcommand_rows_of matches.now) plan)) }
    ensures none { IfOk result (λ made. IfNone made (AsksNothing (subcommand_rows_of matches.now))) }
{
    match matches.subcommand() {
        Some((name, used)) => plan_named(alloc, name, used),
        None => Ok(None),
    }
}

fn plan_named(alloc: Global, name: &str, used: &ArgMatches<'_>) -> Result<Option<Plan>, AllocError>
    ensures some { IfOk result (λ made. IfSome made (λ plan. AsksForPlan (Some (name.now, rows_of (found_of used.now))) plan)) }
    ensures none { IfOk result (λ made. IfNone made (AsksNothing (Some (name.now, rows_of (found_of used.now))))) }
{
    match name {
        "lines" => match site_in(used.get_str("site")) {
            Some(site) => Ok(Some(Plan::Lines {
                site,
                resume: flag(used, "resume"),
                snapshot: flag(used, "snapshot"),
            })),
            None => Ok(None),
        },
        "text" => match version_in(used.get_str("number")) {
            Some(version) => Ok(Some(Plan::Text { version })),
            None => Ok(None),
        },
        "world" => match sites_in(used.get_str("sites")) {
            Some(sites) => Ok(Some(Plan::World { sites })),
            None => Ok(None),
        },
        "serve" => serve_plan(alloc, used),
        _ => Ok(None),
    }
}

pub(crate) fn flag(used: &ArgMatches<'_>, name: &str) -> bool
    ensures { result ≡ is_set (first_of name.now (rows_of (found_of used.now))) }
{
    match used.get_str(name) {
        Some(text) => text == "true",
        None => false,
    }
}

pub(crate) fn site_in(text: Option<&str>) -> Option<Site>
    ensures some { IfSome result (λ site. ReadsTo 31 (option_map (λ t. t.now) text.entry) (Some site)) }
    ensures none { IfNone result ((site : ℕ) → ReadsTo 31 (option_map (λ t. t.now) text.entry) (Some site) → ⊥) }
{
    match text {
        Some(text) => match text.parse::<u8>() {
            Ok(number) => Site::new(number).ok(),
            Err(_) => None,
        },
        None => None,
    }
}

fn version_in(text: Option<&str>) -> Option<Option<u32>>
    ensures some { IfSome result (λ version. ReadsTo 4294967295 (option_map (λ t. t.now) text.entry) version) }
    ensures none { IfNone result ((version : Option ℕ) → ReadsTo 4294967295 (option_map (λ t. t.now) text.entry) version → ⊥) }
{
    match text {
        Some(text) => match text.parse::<u32>() {
            Ok(number) => Some(Some(number)),
            Err(_) => None,
        },
        None => Some(None),
    }
}

fn sites_in(text: Option<&str>) -> Option<Sites>
    ensures some { IfSome result (λ sites. (1 ≤ sites) × ReadsTo 32 (option_map (λ t. t.now) text.entry) (Some sites)) }
    ensures none { IfNone result ((sites : ℕ) → 1 ≤ sites → ReadsTo 32 (option_map (λ t. t.now) text.entry) (Some sites) → ⊥) }
{
    match text {
        Some(text) => match text.parse::<u8>() {
            Ok(count) => Sites::new(count),
            Err(_) => None,
        },
        None => None,
    }
}

// The fault of words that `clap` refused.
fn told(alloc: Global, error: &clap::Error) -> PlanFault
    ensures { ToldBy (kind_of error.now) result }
{
    match error.kind() {
        ErrorKind::OutOfMemory => PlanFault::Memory,
        ErrorKind::DisplayHelp | ErrorKind::DisplayVersion => match text_of(alloc, error) {
            Ok(text) => PlanFault::Help(text),
            Err(_) => PlanFault::Memory,
        },
        _ => match text_of(alloc, error) {
            Ok(text) => PlanFault::Words(text),
            Err(_) => PlanFault::Memory,
        },
    }
}

fn text_of(alloc: Global, error: &clap::Error) -> Result<String, AllocError> {
    format!(in alloc; "{error}")
}
