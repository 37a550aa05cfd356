//! A line of a script, and the event that it asks for.
ghost use Rattle.std.specs.Prelude.{◌≡◌, ℕ, ◌+◌, ◌^◌, ◌<◌, ◌↔◌, List, Result, Err, IsTrue, IfSome, IfNone, codes, decimal, length};
ghost use Rattle.opid.specs.declared.refusal.Refusal.{Refusal};
ghost use Rattle.opid.specs.declared.refusal.Refusal.TheVariants.{TooLong};
ghost use Rattle.room_model.specs.declared.event.Event.{Event};
ghost use Rattle.operation_json.specs.Results.{Gives, same};
ghost use Rattle.commands.specs.declared.script.Form.{Form};
ghost use Rattle.commands.specs.Script.{IsForm, spaced, event_of, Asks};
ghost use Rattle.commands.specs.Internal.Words.{IsWord, IsPlainNumber};

use memchr::memchr;
use operation_json::check_site;
use opid::Refusal;
use replica_world::Event;
use std::alloc::Global;
use std::str;
use wire_json::RequestReader;

/// The most bytes of a script's line, without its LF.
pub(crate) const MAX_LINE_BYTES: usize = 65_600;

/// What a line says, in one of the three forms of scripts.
#[derive(Clone, Copy, Debug)]
pub(crate) enum Form<'a> {
    /// `call SITE REQUEST`: a request at a site.
    Call { site: u32, request: &'a [u8] },
    /// `carry FROM N TO`: operation `n`, counted from 0, of the log of `from` is put at `to`.
    Carry { from: u32, n: u32, to: u32 },
    /// `fork NEW FROM N`: the site `new` opens over the first `n` operations of the log of `from`.
    Fork { new: u32, from: u32, n: u32 },
}

/// The event that a line asks for.
///
/// Refused with `TooLong` above 65,600 bytes, with `BadField` where the line has none of the forms, with `BadSite` where
/// it names a site above 31, which is seen before the request is read, as a `RequestReader` refuses the request, and with
/// `Memory`. Takes time and memory in proportion to the line.
pub(crate) fn read_event(
    alloc: Global,
    reader: &mut RequestReader,
    line: &[u8],
) -> Result<Event, Refusal>
    ensures asked { (asked : Result Event Refusal) × Asks line.now asked × Gives same result asked }
    ensures too_long { 65600 < length line.now → result ≡ Err TooLong }
{
    if line.len() > MAX_LINE_BYTES {
        return Err(Refusal::TooLong);
    }
    match read_form(line) {
        Some(form) => event_of(alloc, reader, form),
        None => Err(Refusal::BadField),
    }
}

fn event_of(alloc: Global, reader: &mut RequestReader, form: Form<'_>) -> Result<Event, Refusal>
    ensures { Gives same result (event_of form.entry) }
{
    match form {
        Form::Call { site, request } => {
            let at = check_site(site)?;
            let call = reader.read(alloc, request)?;
            Ok(Event::Call(at, call))
        }
        Form::Carry { from, n, to } => {
            let from = check_site(from)?;
            let to = check_site(to)?;
            Ok(Event::Carry { from, n, to })
        }
        Form::Fork { new, from, n } => {
            let new = check_site(new)?;
            let from = check_site(from)?;
            Ok(Event::Fork { new, from, n })
        }
    }
}

fn read_form(line: &[u8]) -> Option<Form<'_>>
    ensures some { IfSome result (λ form. IsForm line.now form) }
    ensures none { IfNone result ((form : Form) → IsForm line.now form → ⊥) }
{
    let (name, rest) = split_word(line)?;
    if name == b"call".as_slice() {
        read_call(rest)
    } else if name == b"carry".as_slice() {
        read_carry(rest)
    } else if name == b"fork".as_slice() {
        read_fork(rest)
    } else {
        None
    }
}

// What follows the word `call`.
fn read_call(rest: &[u8]) -> Option<Form<'_>>
    ensures some { IfSome result (λ form. IsForm (spaced (codes "call") rest.now) form) }
    ensures none { IfNone result ((form : Form) → IsForm (spaced (codes "call") rest.now) form → ⊥) }
{
    let (site, request) = split_number(rest)?;
    Some(Form::Call { site, request })
}

// What follows the word `carry`.
fn read_carry(rest: &[u8]) -> Option<Form<'_>>
    ensures some { IfSome result (λ form. IsForm (spaced (codes "carry") rest.now) form) }
    ensures none { IfNone result ((form : Form) → IsForm (spaced (codes "carry") rest.now) form → ⊥) }
{
    let (from, n, to) = read_numbers(rest)?;
    Some(Form::Carry { from, n, to })
}

// What follows the word `fork`.
fn read_fork(rest: &[u8]) -> Option<Form<'_>>
    ensures some { IfSome result (λ form. IsForm (spaced (codes "fork") rest.now) form) }
    ensures none { IfNone result ((form : Form) → IsForm (spaced (codes "fork") rest.now) form → ⊥) }
{
    let (new, from, n) = read_numbers(rest)?;
    Some(Form::Fork { new, from, n })
}

// Three numbers, with one space between.
fn read_numbers(bytes: &[u8]) -> Option<(u32, u32, u32)>
    ensures some { IfSome result (λ p. bytes.now ≡ spaced (decimal p.0) (spaced (decimal p.1) (decimal p.2))) }
    ensures none { IfNone result ((a b c : ℕ) → a < 2 ^ 32 → b < 2 ^ 32 → c < 2 ^ 32
        → bytes.now ≡ spaced (decimal a) (spaced (decimal b) (decimal c)) → ⊥) }
{
    let (first, rest) = split_number(bytes)?;
    let (second, last) = split_number(rest)?;
    let third = read_number(last)?;
    Some((first, second, third))
}

// A number, and what follows its space.
fn split_number(bytes: &[u8]) -> Option<(u32, &[u8])>
    ensures some { IfSome result (λ p. (p.0 < 2 ^ 32) × (bytes.now ≡ spaced (decimal p.0) p.1.now)) }
    ensures none { IfNone result ((n : ℕ) (rest : List ℕ) → n < 2 ^ 32 → bytes.now ≡ spaced (decimal n) rest → ⊥) }
{
    let (word, rest) = split_word(bytes)?;
    let number = read_number(word)?;
    Some((number, rest))
}

// The bytes before the first space, and those after it.
fn split_word(bytes: &[u8]) -> Option<(&[u8], &[u8])>
    ensures some { IfSome result (λ p. IsWord p.0.now × (bytes.now ≡ spaced p.0.now p.1.now)) }
    ensures none { IfNone result (IsWord bytes.now) }
{
    let at = memchr(b' ', bytes)?;
    Some((&bytes[..at], &bytes[at + 1..]))
}

// A number in decimal, without leading zeros.
fn read_number(word: &[u8]) -> Option<u32>
    ensures some { IfSome result (λ n. word.now ≡ decimal n) }
    ensures none { IfNone result ((n : ℕ) → n < 2 ^ 32 → word.now ≡ decimal n → ⊥) }
{
    if !is_plain_number(word) {
        return None;
    }
    match str::from_utf8(word) {
        Ok(text) => text.parse::<u32>().ok(),
        Err(_) => None,
    }
}

// Whether a numeral of this form has neither a sign nor a leading zero.
fn is_plain_number(word: &[u8]) -> bool
    ensures { IsTrue result ↔ IsPlainNumber word.now }
{
    match word.first() {
        Some(b'+') => false,
        Some(b'0') => word.len() == 1,
        _ => true,
    }
}
