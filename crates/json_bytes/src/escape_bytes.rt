//! Characters as they stand in quotes in JSON (RFC 8259, section 7), appended byte by byte, or put together from their end.
ghost use Rattle.std.specs.Prelude.{◌≡◌, ◌≢◌, ◌<◌, ◌≤◌, ◌+◌, ◌++◌, [], ◌∷◌, drop, OnOk, encode_utf8, encode_utf8_all};
ghost use Rattle.std.specs.Char.{digit_char};
ghost use Rattle.json.specs.Print.{escape, escape_letter};
ghost use Rattle.json_bytes.specs.Quote.{quote};

use crate::byte_writing::put;
use std::alloc::AllocError;

/// Appends characters in quotes, in UTF-8, with JSON's shortest escapes. Takes time in proportion to them, and memory where the bytes
/// grow. An error is for want of it.
pub fn push_quoted(out: &mut Vec<u8>, first: char, more: &[char]) -> Result<(), AllocError>
    ensures { OnOk result (out.new.items ≡ out.old.items ++ quote (first ∷ more.now)) }
{
    out.push(b'"')?;
    push_escape(out, first)?;
    push_escapes(out, more)?;
    out.push(b'"')?;
    Ok(())
}

fn push_escapes(out: &mut Vec<u8>, chars: &[char]) -> Result<(), AllocError>
    ensures { OnOk result (out.new.items ≡ out.old.items ++ escape (encode_utf8_all chars.now)) }
{
    for ch in chars {
        push_escape(out, *ch)?;
    }
    Ok(())
}

#[inline(always)]
fn push_escape(out: &mut Vec<u8>, ch: char) -> Result<(), AllocError>
    ensures { OnOk result (out.new.items ≡ out.old.items ++ escape (encode_utf8 ch)) }
{
    if ch >= ' ' && ch < '\u{80}' && ch != '"' && ch != '\\' {
        out.push(ch as u8)?;
        return Ok(());
    }
    push_other(out, ch)
}

// Appends a character that isn't a byte that stands for itself.
fn push_other(out: &mut Vec<u8>, ch: char) -> Result<(), AllocError>
    ensures { OnOk result (out.new.items ≡ out.old.items ++ escape (encode_utf8 ch)) }
{
    if ch >= '\u{80}' {
        return out.extend_from_slice(ch.encode_utf8(&mut [0; 4]).as_bytes());
    }
    let letter = short_escape(ch);
    if letter > 0 {
        return out.extend_from_slice(&[b'\\', letter]);
    }
    if ch >= ' ' {
        out.push(ch as u8)?;
        return Ok(());
    }
    let code = ch as u32;
    out.extend_from_slice(&[b'\\', b'u', b'0', b'0', hex(code / 16), hex(code % 16)])
}

// The letter of the character's short escape, or 0 where it has none.
fn short_escape(ch: char) -> u8
    ensures { result ≡ escape_letter ch }
{
    match ch {
        '"' => b'"',
        '\\' => b'\\',
        '\u{8}' => b'b',
        '\u{c}' => b'f',
        '\n' => b'n',
        '\r' => b'r',
        '\t' => b't',
        _ => 0,
    }
}

/// Puts a character of ASCII in quotes before a place, with JSON's shortest escapes, and gives its own: eight bytes at most. Constant
/// time.
#[inline(always)]
pub fn put_quoted<const N: usize>(bytes: &mut [u8; N], at: usize, ch: char) -> usize
    requires free { 8 ≤ at }
    requires within { at ≤ N }
    requires ascii { ch < 128 }
    ensures told { drop result bytes.new ≡ quote (ch ∷ []) ++ drop at bytes.old }
    ensures place { at ≤ result + 8 }
    ensures before { result ≤ at }
{
    if ch >= ' ' && ch != '"' && ch != '\\' {
        return put_plain(bytes, at, ch as u8);
    }
    let letter = short_escape(ch);
    if letter > 0 {
        return put_escaped(bytes, at, ch, letter);
    }
    put_by_number(bytes, at, ch)
}

// A byte that stands for itself, in quotes.
#[inline(always)]
fn put_plain<const N: usize>(bytes: &mut [u8; N], at: usize, byte: u8) -> usize
    requires free { 8 ≤ at }
    requires within { at ≤ N }
    requires small { byte < 128 }
    requires space { 32 ≤ byte }
    requires quote { byte ≢ 34 }
    requires backslash { byte ≢ 92 }
    ensures told { drop result bytes.new ≡ quote (byte ∷ []) ++ drop at bytes.old }
    ensures place { result + 3 ≡ at }
{
    let at = put(bytes, at, b'"');
    let at = put(bytes, at, byte);
    put(bytes, at, b'"')
}

// A character that has a short escape, in quotes.
fn put_escaped<const N: usize>(bytes: &mut [u8; N], at: usize, ch: char, letter: u8) -> usize
    requires free { 8 ≤ at }
    requires within { at ≤ N }
    requires small { ch < 128 }
    requires escape { escape_letter ch ≡ letter }
    requires some { 0 < letter }
    ensures told { drop result bytes.new ≡ quote (ch ∷ []) ++ drop at bytes.old }
    ensures place { result + 4 ≡ at }
{
    let at = put(bytes, at, b'"');
    let at = put(bytes, at, letter);
    let at = put(bytes, at, b'\\');
    put(bytes, at, b'"')
}

// A control character that has no short escape, in quotes.
fn put_by_number<const N: usize>(bytes: &mut [u8; N], at: usize, ch: char) -> usize
    requires free { 8 ≤ at }
    requires within { at ≤ N }
    requires small { ch < 32 }
    requires long { escape_letter ch ≡ 0 }
    ensures told { drop result bytes.new ≡ quote (ch ∷ []) ++ drop at bytes.old }
    ensures place { result + 8 ≡ at }
{
    let code = ch as u32;
    let at = put(bytes, at, b'"');
    let at = put(bytes, at, hex(code % 16));
    let at = put(bytes, at, hex(code / 16));
    let at = put(bytes, at, b'0');
    let at = put(bytes, at, b'0');
    let at = put(bytes, at, b'u');
    let at = put(bytes, at, b'\\');
    put(bytes, at, b'"')
}

// The hexadecimal digit.
fn hex(digit: u32) -> u8
    requires { digit < 16 }
    ensures { result ≡ digit_char digit }
{
    match char::from_digit(digit, 16) {
        Some(ch) => ch as u8,
        None => unreachable!(),
    }
}
