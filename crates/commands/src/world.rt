//! Runs `world`: a script of events, and then what each site reads.
ghost use Rattle.std.specs.Prelude.{◌≡◌, ◌^◌, ◌<◌, ◌++◌, ℕ, List, IfOk, decimal, string_bytes};
ghost use Rattle.std.specs.Io.KnownBytes.{Appends, Consumes};
ghost use Rattle.line_engine.specs.Counting.{Rises};
ghost use Rattle.line_engine.specs.Lines.{ended};
ghost use Rattle.commands.specs.Script.{spaced};
ghost use Rattle.room_model.specs.World.{room_of};
ghost use Rattle.commands.specs.Worlds.{readings, site_lines};
ghost use Rattle.commands.specs.Played.{PlaysWorld, Writes, served_end};
ghost use Rattle.json.specs.Print as print;

use crate::scripts::Scripts;
use crate::sending::send;
use crate::stop::Stop;
use line_engine::{Counted, ServeFault, Source, Window, serve};
use opid::Site;
use plans::Sites;
use replica_world::World;
use serde_json::json;
use std::alloc::{AllocError, Global};
use std::io::Write;

/// Answers the events of a script over a world of empty rooms at the first sites, one a line, and then writes a line for
/// each site: its number, its version and its text.
///
/// An error is a fault of the engine, of the last write or of memory. Takes the time of the engine and of the events, and memory
/// for the engine's buffer and the rooms; the last lines are in memory as a whole.
pub fn play_world<R: Source, W: Write>(
    alloc: Global,
    sites: Sites,
    input: &mut Counted<R>,
    output: &mut Counted<W>,
) -> Result<(), Stop>
    requires few_reads_failed { input.old.failures < 2 ^ 63 }
    requires few_writes_failed { output.old.failures < 2 ^ 63 }
    ensures plays { (got : List ℕ) × (written : List ℕ)
        × Consumes (R.remaining input.old.inner) (R.remaining input.new.inner) got
        × Appends (W.contents output.old.inner) (W.contents output.new.inner) written
        × PlaysWorld sites got (R.remaining input.new.inner) written result }
    ensures counted { Rises input.old.failures input.new.failures output.old.failures output.new.failures (served_end result) }
{
    let Ok(mut window) = Window::new(alloc) else {
        return Err(Stop::Fault(ServeFault::Memory));
    };
    let Ok(mut world) = World::new(alloc, sites.count()) else {
        return Err(Stop::Fault(ServeFault::Memory));
    };
    match serve::<Scripts, R, W>(alloc, &mut window, &mut world, input, output) {
        Ok(()) => write_readings(alloc, &world, output),
        Err(why) => Err(Stop::Fault(why)),
    }
}

// Writes what each site reads.
fn write_readings<W: Write>(
    alloc: Global,
    world: &World,
    output: &mut Counted<W>,
) -> Result<(), Stop>
    requires few_failed { output.old.failures < 2 ^ 63 }
    ensures writes { (last : List ℕ) × Appends (W.contents output.old.inner) (W.contents output.new.inner) last
        × Writes (readings world.now) last result }
    ensures counted { Rises 0 0 output.old.failures output.new.failures (served_end result) }
{
    match readings(alloc, world) {
        Ok(text) => send(output, text.as_bytes()),
        Err(_) => Err(Stop::Fault(ServeFault::Memory)),
    }
}

// A line for each site that has a room, by rising sites.
fn readings(alloc: Global, world: &World) -> Result<String, AllocError>
    ensures { IfOk result (λ text. string_bytes text ≡ readings world.now) }
{
    let mut text = String::new(alloc);
    for number in 0..32 {
        push_site(alloc, &mut text, world, number)?;
    }
    Ok(text)
}

// Appends the site's line, where it has a room.
fn push_site(alloc: Global, text: &mut String, world: &World, number: u8) -> Result<(), AllocError>
    requires { number < 32 }
    ensures { IfOk result (λ _. string_bytes text.new ≡ string_bytes text.old ++ site_lines (room_of number world.now)) }
{
    let Ok(site) = Site::new(number) else {
        unreachable!()
    };
    let Ok(version) = world.version(site) else {
        return Ok(());
    };
    let Ok(reading) = world.reading(site) else {
        return Err(AllocError);
    };
    let line = site_line(alloc, number, version, reading.as_str())?;
    text.push_str(line.as_str())
}

// A site's number, its version and its text in quotes.
fn site_line(alloc: Global, number: u8, version: u32, reading: &str) -> Result<String, AllocError>
    ensures { IfOk result (λ line. string_bytes line
        ≡ ended (spaced (decimal number) (spaced (decimal version) (print.quoted reading.now)))) }
{
    let text = quoted(alloc, reading)?;
    format!(in alloc; "{number} {version} {text}\n")
}

// A text in quotes, as replies have it.
fn quoted(alloc: Global, text: &str) -> Result<String, AllocError>
    ensures { IfOk result (λ made. string_bytes made ≡ print.quoted text.now) }
{
    let value = json!(in alloc; text)?;
    value.to_string(alloc)
}
