//! The content of a JSON text read byte by byte, its escapes by a letter and by a number among it (RFC 8259, section 7).
ghost use Rattle.std.specs.Prelude.{◌≡◌, ◌≤◌, ◌<◌, ◌+◌, ◌-◌, [], true, length, take, drop, slice_index, Some, IfSome};
ghost use Rattle.std.specs.Char.{digit_value, is_digit};
ghost use Rattle.std.specs.List.{list_all};
ghost use Rattle.std.specs.Str.{IsCharBoundary};
ghost use Rattle.json.specs.Lex.{in_string, in_escape};
ghost use Rattle.json.specs.Text.{short_escape, after_backslash, after_u};
ghost use Rattle.json_bytes.specs.Plain.{is_plain};
ghost use Rattle.json_bytes.specs.Internal.Places.{WritesText, WritesUnit, WritesCharacter};

use crate::plain::{MAX_TEXT, peek};
use arrayvec::ArrayString;

// Puts in what a text tells from a place on, behind its opening quote, and gives the place of the closing one.
pub(crate) fn text_at(text: &str, at: usize, into: &mut ArrayString<MAX_TEXT>) -> Option<usize>
    requires within { at ≤ length text.now }
    requires boundary { IsCharBoundary text.now at }
    requires empty { into.old.bytes ≡ [] }
    ensures { IfSome result (λ end. WritesText text.now at into.new.bytes end) }
{
    let bytes = text.as_bytes();
    let mut at = at;
    'parts: while at < bytes.len() {
        let end = behind_plain(bytes, at);
        if end - at > MAX_TEXT {
            return None;
        }
        let Ok(()) = into.try_push_str(&text[at..end]) else {
            return None;
        };
        match peek(bytes, end) {
            b'"' => return Some(end),
            b'\\' => {
                let (ch, next) = escape_at(bytes, end + 1)?;
                let Ok(()) = into.try_push(ch) else {
                    return None;
                };
                at = next;
            }
            _ => return None,
        }
    }
    None
}

// Behind the bytes from a place on that stand for themselves, of which no more are passed than show that they are too many.
#[inline(always)]
fn behind_plain(bytes: &[u8], at: usize) -> usize
    requires { at ≤ length bytes.now }
    ensures plain { list_all is_plain (take (result - at) (drop at bytes.now)) ≡ true }
    ensures stops { result - at ≤ MAX_TEXT → result < length bytes.now → slice_index bytes.now result < 128 }
    ensures order { at ≤ result }
    ensures within { result ≤ length bytes.now }
{
    let most = bytes.len().min(at + MAX_TEXT + 1);
    let mut end = at;
    while end < most && is_plain(bytes[end]) {
        end += 1;
    }
    end
}

#[inline(always)]
fn is_plain(byte: u8) -> bool
    ensures { result ≡ is_plain byte }
{
    byte >= 32 && byte != b'"' && byte != b'\\'
}

// The character that is written from a place on, behind its backslash, and the place behind it.
fn escape_at(bytes: &[u8], at: usize) -> Option<(char, usize)>
    requires { at ≤ length bytes.now }
    ensures { IfSome result (λ p. WritesCharacter after_backslash in_escape bytes.now at p.0 p.1) }
{
    if at == bytes.len() {
        return None;
    }
    if bytes[at] == b'u' {
        return numbered_at(bytes, at + 1);
    }
    let ch = short_escape(bytes[at])?;
    Some((ch, at + 1))
}

// The character that a letter stands for.
#[tactic(auto, unfolding(json::specs::Text::short_escape))]
fn short_escape(letter: u8) -> Option<char>
    ensures told { IfSome result (λ c. short_escape letter ≡ Some c) }
    ensures small { IfSome result (λ c. c < 128) }
    ensures ascii { IfSome result (λ c. letter < 128) }
{
    match letter {
        b'"' => Some('"'),
        b'\\' => Some('\\'),
        b'/' => Some('/'),
        b'n' => Some('\n'),
        b't' => Some('\t'),
        b'r' => Some('\r'),
        b'b' => Some('\u{8}'),
        b'f' => Some('\u{c}'),
        _ => None,
    }
}

// The character whose number is written from a place on, as one code unit, or as the two of a pair of surrogates. None for a
// surrogate alone.
fn numbered_at(bytes: &[u8], at: usize) -> Option<(char, usize)>
    requires { at ≤ length bytes.now }
    ensures { IfSome result (λ p. WritesCharacter after_u in_string bytes.now at p.0 p.1) }
{
    let unit = unit_at(bytes, at)?;
    if unit >= 0xd800 && unit < 0xdc00 {
        return paired_at(bytes, at, unit);
    }
    let ch = char::from_u32(unit)?;
    Some((ch, at + 4))
}

// The character whose number is written from a place on as a pair of surrogates, the first of which is this one.
fn paired_at(bytes: &[u8], at: usize, high: u32) -> Option<(char, usize)>
    requires first { WritesUnit bytes.now at high }
    requires low { 0xd800 ≤ high }
    requires below { high < 0xdc00 }
    ensures { IfSome result (λ p. WritesCharacter after_u in_string bytes.now at p.0 p.1) }
{
    if bytes.len() - at < 6 || bytes[at + 4] != b'\\' || bytes[at + 5] != b'u' {
        return None;
    }
    let low = unit_at(bytes, at + 6)?;
    if low < 0xdc00 || low >= 0xe000 {
        return None;
    }
    let ch = char::from_u32(0x10000 + (high - 0xd800) * 0x400 + (low - 0xdc00))?;
    Some((ch, at + 10))
}

// The code unit that four hex digits spell from a place on.
fn unit_at(bytes: &[u8], at: usize) -> Option<u32>
    requires { at ≤ length bytes.now }
    ensures { IfSome result (λ unit. WritesUnit bytes.now at unit) }
{
    if bytes.len() - at < 4 {
        return None;
    }
    let a = hex_value(bytes[at])?;
    let b = hex_value(bytes[at + 1])?;
    let c = hex_value(bytes[at + 2])?;
    let d = hex_value(bytes[at + 3])?;
    Some(a * 0x1000 + b * 0x100 + c * 0x10 + d)
}

// The value of a hex digit.
fn hex_value(byte: u8) -> Option<u32>
    ensures value { IfSome result (λ v. v ≡ digit_value byte) }
    ensures digit { IfSome result (λ v. is_digit byte 16 ≡ true) }
    ensures small { IfSome result (λ v. v < 16) }
    ensures plain { IfSome result (λ v. is_plain byte ≡ true) }
    ensures ascii { IfSome result (λ v. byte < 128) }
{
    match byte {
        b'0'..=b'9' => Some(u32::from(byte - b'0')),
        b'a'..=b'f' => Some(u32::from(byte - b'a') + 10),
        b'A'..=b'F' => Some(u32::from(byte - b'A') + 10),
        _ => None,
    }
}
