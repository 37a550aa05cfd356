//! The words of `serve`.
ghost use Rattle.std.specs.Prelude.{◌≡◌, ◌≤◌, Some, Option, ℕ, false, IfOk, IfSome, IfNone, map, option_map, string_bytes};
ghost use Rattle.std.specs.Prelude.{codes, []};
ghost use Rattle.std.specs.Option.{unwrap_or};
ghost use Rattle.clap.specs.Words.{app_of, found_of, rows_of, rule_of, new_app, with_rule};
ghost use Rattle.clap.specs.declared.builder.command.Command.TheViews.{out-Command};
ghost use Rattle.plans.specs.declared.plan.Plan.{Plan};
ghost use Rattle.command_line.specs.CommandLine.{serve_command, port_option, site_option, conns_option, keep_option, every_option};
ghost use Rattle.command_line.specs.CommandLine.{origin_option, flag_option};
ghost use Rattle.command_line.specs.CommandLine.{name_words, AsksIn, AsksNothing, ReadsTo};

use crate::words::{flag, flag_arg, new_command, site_arg, site_in, valued_arg};
use clap::{Arg, ArgAction, ArgMatches, Command, value_parser};
use opid::Site;
use plans::Plan;
use std::alloc::{AllocError, Global};

// The subcommand as `clap` is told of it.
pub(crate) fn serve_command<'a>(alloc: Global) -> Result<Command<'a>, AllocError>
    ensures shape { IfOk result (λ made. app_of made ≡ serve_command) }
    ensures local { IfOk result (λ made. (out-Command made).has_globals ≡ false) }
{
    let serve = kept_command(alloc)?;
    let serve = serve.arg(origin_arg(alloc))?;
    let serve = serve.arg(flag_arg(
        alloc,
        "report",
        "Tells each minute on standard error how the rooms are",
    ))?;
    serve.arg(name_arg(alloc))
}

// The subcommand with what it is told of its connections and of keeping alone.
fn kept_command<'a>(alloc: Global) -> Result<Command<'a>, AllocError>
    ensures shape { IfOk result (λ made. app_of made
        ≡ with_rule (with_rule (with_rule (with_rule (with_rule (with_rule (new_app (codes "serve")) port_option) site_option) conns_option)
        keep_option) every_option) (flag_option (codes "renew"))) }
    ensures local { IfOk result (λ made. (out-Command made).has_globals ≡ false) }
{
    let serve = line_command(alloc)?;
    let serve = serve.arg(keep_arg(alloc))?;
    let serve = serve.arg(every_arg(alloc))?;
    serve.arg(flag_arg(
        alloc,
        "renew",
        "With --keep a room begins anew with its text where it nears its limits",
    ))
}

// The subcommand with what it is told of its connections alone.
fn line_command<'a>(alloc: Global) -> Result<Command<'a>, AllocError>
    ensures shape { IfOk result (λ made. app_of made
        ≡ with_rule (with_rule (with_rule (new_app (codes "serve")) port_option) site_option) conns_option) }
    ensures local { IfOk result (λ made. (out-Command made).has_globals ≡ false) }
{
    let serve = new_command(alloc, "serve", "Serves rooms over WebSockets");
    let serve = serve.arg(port_arg(alloc))?;
    let serve = serve.arg(site_arg(alloc).help(
        "The rooms' site number, 0 to 31: 0, or with --keep the least that each room's log has no operation of",
    ))?;
    serve.arg(conns_arg(alloc))
}

fn port_arg<'a>(alloc: Global) -> Arg<'a>
    ensures rule { rule_of result ≡ port_option }
    ensures local { result.global ≡ false }
{
    valued_arg(alloc, "port", "P", "The port of 127.0.0.1, 1 to 65535")
        .required(true)
        .value_parser(value_parser!(u16).range(1..=65535))
}

fn conns_arg<'a>(alloc: Global) -> Arg<'a>
    ensures rule { rule_of result ≡ conns_option }
    ensures local { result.global ≡ false }
{
    valued_arg(
        alloc,
        "conns",
        "C",
        "How many connections are accepted in all, 1 to 65536; unless it is named 65536, with --keep at one time",
    )
    .value_parser(value_parser!(u32).range(1..=65536))
}

fn keep_arg<'a>(alloc: Global) -> Arg<'a>
    ensures rule { rule_of result ≡ keep_option }
    ensures local { result.global ≡ false }
{
    valued_arg(
        alloc,
        "keep",
        "FOLDER",
        "The folder in which the rooms' logs are kept",
    )
}

fn every_arg<'a>(alloc: Global) -> Arg<'a>
    ensures rule { rule_of result ≡ every_option }
    ensures local { result.global ≡ false }
{
    valued_arg(
        alloc,
        "every",
        "SECONDS",
        "Answers don't wait until they are kept: how many seconds pass between two turns of keeping, 1 to 3600",
    )
    .value_parser(value_parser!(u32).range(1..=3600))
}

fn origin_arg<'a>(alloc: Global) -> Arg<'a>
    ensures rule { rule_of result ≡ origin_option }
    ensures local { result.global ≡ false }
{
    valued_arg(
        alloc,
        "origin",
        "ORIGIN",
        "A page's origin that may connect too, or * for all; pages of this machine may",
    )
    .action(ArgAction::Append)
}

fn name_arg<'a>(alloc: Global) -> Arg<'a>
    ensures rule { rule_of result ≡ name_words }
    ensures local { result.global ≡ false }
{
    Arg::new(alloc, "name")
        .action(ArgAction::Append)
        .required(true)
        .value_name("NAME")
        .help("The rooms' names: 1 to 64 of them, each 1 to 32 of a-z, 0-9 and -")
}

// The plan that the subcommand's rows ask for.
pub(crate) fn serve_plan(alloc: Global, used: &ArgMatches<'_>) -> Result<Option<Plan>, AllocError>
    ensures some { IfOk result (λ made. IfSome made (λ plan. AsksIn (codes "serve") (rows_of (found_of used.now)) plan)) }
    ensures none { IfOk result (λ made. IfNone made (AsksNothing (Some (codes "serve", rows_of (found_of used.now))))) }
{
    let Some(port) = port_in(used.get_str("port")) else {
        return Ok(None);
    };
    let Some(site) = asked_site_in(used.get_str("site")) else {
        return Ok(None);
    };
    let Some(conns) = asked_count_in(used.get_str("conns"), 65_536) else {
        return Ok(None);
    };
    let Some(every) = asked_count_in(used.get_str("every"), 3600) else {
        return Ok(None);
    };
    let Some(words) = used.get_strs("name") else {
        return Ok(None);
    };
    let keep = owned_word(alloc, used.get_str("keep"))?;
    let names = owned(alloc, words)?;
    let origins = owned_or_none(alloc, used.get_strs("origin"))?;
    Ok(Some(Plan::Serve {
        port,
        site,
        conns,
        keep,
        every,
        renew: flag(used, "renew"),
        origins,
        report: flag(used, "report"),
        names,
    }))
}

// The word, as a text of its own.
fn owned_word(alloc: Global, word: Option<&str>) -> Result<Option<String>, AllocError>
    ensures { IfOk result (λ text. option_map string_bytes text ≡ option_map (λ w. w.now) word.entry) }
{
    match word {
        Some(word) => Ok(Some(String::from_str(alloc, word)?)),
        None => Ok(None),
    }
}

// The words, as texts of their own.
fn owned(alloc: Global, words: &[&str]) -> Result<Vec<String>, AllocError>
    ensures { IfOk result (λ names. map string_bytes names.items ≡ map (λ w. w.now) words.now) }
{
    let mut names = Vec::new(alloc);
    for word in words {
        names.push(String::from_str(alloc, word)?)?;
    }
    Ok(names)
}

// The words, if there are any, as texts of their own.
fn owned_or_none(alloc: Global, words: Option<&[&str]>) -> Result<Vec<String>, AllocError>
    ensures { IfOk result (λ texts. map string_bytes texts.items
        ≡ unwrap_or (option_map (λ all. map (λ w. w.now) all.now) words.entry) []) }
{
    match words {
        Some(words) => owned(alloc, words),
        None => Ok(Vec::new(alloc)),
    }
}

fn port_in(text: Option<&str>) -> Option<u16>
    ensures some { IfSome result (λ port. (1 ≤ port) × ReadsTo 65535 (option_map (λ t. t.now) text.entry) (Some port)) }
    ensures none { IfNone result ((port : ℕ) → 1 ≤ port → ReadsTo 65535 (option_map (λ t. t.now) text.entry) (Some port) → ⊥) }
{
    match text?.parse::<u16>() {
        Ok(port) if 1 <= port => Some(port),
        _ => None,
    }
}

fn asked_site_in(text: Option<&str>) -> Option<Option<Site>>
    ensures some { IfSome result (λ site. ReadsTo 31 (option_map (λ t. t.now) text.entry) site) }
    ensures none { IfNone result ((site : Option ℕ) → ReadsTo 31 (option_map (λ t. t.now) text.entry) site → ⊥) }
{
    if text.is_none() {
        return Some(None);
    }
    match site_in(text) {
        Some(site) => Some(Some(site)),
        None => None,
    }
}

// A number from 1 to the most, if there is a text.
fn asked_count_in(text: Option<&str>, most: u32) -> Option<Option<u32>>
    ensures some { IfSome result (λ asked. IfSome asked (λ count. 1 ≤ count)
        × ReadsTo most (option_map (λ t. t.now) text.entry) asked) }
    ensures none { IfNone result ((asked : Option ℕ) → IfSome asked (λ count. 1 ≤ count)
        → ReadsTo most (option_map (λ t. t.now) text.entry) asked → ⊥) }
{
    if text.is_none() {
        return Some(None);
    }
    match count_in(text, most) {
        Some(count) => Some(Some(count)),
        None => None,
    }
}

fn count_in(text: Option<&str>, most: u32) -> Option<u32>
    ensures some { IfSome result (λ count. (1 ≤ count) × ReadsTo most (option_map (λ t. t.now) text.entry) (Some count)) }
    ensures none { IfNone result ((count : ℕ) → 1 ≤ count → ReadsTo most (option_map (λ t. t.now) text.entry) (Some count) → ⊥) }
{
    match text?.parse::<u32>() {
        Ok(count) if 1 <= count && count <= most => Some(count),
        _ => None,
    }
}
