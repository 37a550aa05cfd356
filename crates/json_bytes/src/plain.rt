//! A JSON text read byte by byte, as far as it is plain: whole numbers of at most nine digits, texts that tell at most 256 bytes,
//! lists, objects and `null`, with at most 64 spaces in a row, but none before a colon. What isn't plain is read elsewhere.
ghost use Rattle.std.specs.Prelude.{◌≡◌, ◌≤◌, ◌<◌, ◌+◌, ◌^◌, ◌≢◌, [], ◌∷◌, true};
ghost use Rattle.std.specs.Prelude.{false, length, take, drop, slice_index, Some, IfSome, ◌==◌, ◌-◌};
ghost use Rattle.std.specs.List.{list_all};
ghost use Rattle.std.specs.Str.{IsCharBoundary};
ghost use Rattle.json.specs.Token.{begin_object, end_object, begin_array, end_array, key, null};
ghost use Rattle.json.specs.Lex.{Place as Spot, after_value, may_begin, may_close, between, lex, begins_colon, tokens};
ghost use Rattle.json.specs.Word.{is_space, ends_word};
ghost use Rattle.json.specs.Text.{short_escape};
ghost use Rattle.serde_json.specs.Data as tree;
ghost use Rattle.serde_json.specs.Data.{unsigned};
ghost use Rattle.json_bytes.specs.Plain.{Comes, is_plain};
ghost use Rattle.json_bytes.specs.Internal.Places.{tokens_behind, spot_of, WritesNumber, WritesText};

use crate::plain_number::{is_word_end, number_at};
use crate::plain_text::text_at;
use arrayvec::ArrayString;
use std::marker::Model;

/// The most bytes of a text that is read here: 64 characters fit.
pub const MAX_TEXT: usize = 256;

// The most spaces in a row that are passed one by one. Longer stretches are passed by words elsewhere.
const MOST_SPACES: usize = 64;

// Where a reader stands.
#[derive(Clone, Copy, Drop)]
pub(crate) enum Place {
    Fresh,
    AfterValue,
    AfterComma,
}

impl Place {
    fn may_begin(self) -> bool
        ensures { result ≡ may_begin (spot_of self) }
    {
        !matches!(self, Place::AfterValue)
    }

    fn may_close(self) -> bool
        ensures { result ≡ may_close (spot_of self) }
    {
        !matches!(self, Place::AfterComma)
    }
}

/// What is left of a text. A clause sees its tokens.
#[derive(Drop)]
pub struct PlainReader<'a> {
    text: &'a str,
    at: usize,
    place: Place,
}

impl<'a> Model for PlainReader<'a> {
    ghost use Rattle.std.specs.Prelude.{List, ◌≤◌, length, drop};
    ghost use Rattle.json.specs.Token.{Token as Sign, tokens_code};

    ghost Value = { List Sign };

    ghost coded = { tokens_code };

    ghost use Rattle.json_bytes.specs.Internal.Places.{tokens_behind, spot_of};

    ghost view = { λ r. tokens_behind (spot_of r.place) (drop r.at r.text.now) };

    ghost invariant = { λ r. r.at ≤ length r.text.now };
}

// The byte at the place, 0 behind the last.
#[inline(always)]
pub(crate) fn peek(bytes: &[u8], at: usize) -> u8
    ensures { result ≡ slice_index bytes.now at }
{
    if at < bytes.len() { bytes[at] } else { 0 }
}

#[inline(always)]
fn is_space(byte: u8) -> bool
    ensures { result ≡ is_space byte }
{
    byte == b' ' || byte == b'\t' || byte == b'\n' || byte == b'\r'
}

// Behind the spaces from a place on. Mostly there are none, and then just one byte is compared, or there is one blank, and then two are.
#[inline(always)]
fn behind_spaces(bytes: &[u8], at: usize) -> usize
    requires { at ≤ length bytes.now }
    ensures same { lex between (drop result bytes.now) ≡ lex between (drop at bytes.now) }
    ensures within { result ≤ length bytes.now }
{
    let next = peek(bytes, at);
    if next > b' ' {
        return at;
    }
    if next == b' ' && peek(bytes, at + 1) > b' ' {
        return at + 1;
    }
    behind_each_space(bytes, at)
}

// The same where there may be more of them, of which at most so many are passed: then a space comes next, which no reader takes.
#[inline(never)]
fn behind_each_space(bytes: &[u8], at: usize) -> usize
    requires { at ≤ length bytes.now }
    ensures same { lex between (drop result bytes.now) ≡ lex between (drop at bytes.now) }
    ensures within { result ≤ length bytes.now }
{
    let most = bytes.len().min(at + MOST_SPACES);
    let mut at = at;
    while at < most && is_space(bytes[at]) {
        at += 1;
    }
    at
}

// Behind what stands between a value and what comes next, spaces and a comma if there is one, and where one stands then. Mostly there
// is just the comma, or just a bracket comes: then at most two bytes are compared.
#[inline(always)]
fn behind_value(bytes: &[u8], at: usize) -> (usize, Place)
    requires { at ≤ length bytes.now }
    ensures same { tokens_behind (spot_of result.1) (drop result.0 bytes.now) ≡ tokens_behind after_value (drop at bytes.now) }
    ensures within { result.0 ≤ length bytes.now }
{
    let next = peek(bytes, at);
    if next > b',' {
        return (at, Place::AfterValue);
    }
    if next == b',' {
        return (behind_spaces(bytes, at + 1), Place::AfterComma);
    }
    behind_spaced_value(bytes, at)
}

// The same, where spaces may stand before the comma.
#[inline(never)]
fn behind_spaced_value(bytes: &[u8], at: usize) -> (usize, Place)
    requires { at ≤ length bytes.now }
    ensures same { tokens_behind (spot_of result.1) (drop result.0 bytes.now) ≡ tokens_behind after_value (drop at bytes.now) }
    ensures within { result.0 ≤ length bytes.now }
{
    let end = behind_spaces(bytes, at);
    if peek(bytes, end) == b',' {
        (behind_spaces(bytes, end + 1), Place::AfterComma)
    } else {
        (end, Place::AfterValue)
    }
}

// Whether what ends a value comes next, behind spaces.
#[inline(always)]
fn is_value_end(bytes: &[u8], at: usize) -> bool
    requires { at ≤ length bytes.now }
    ensures { result ≡ true → begins_colon (lex between (drop at bytes.now)) ≡ false }
{
    let end = behind_spaces(bytes, at);
    matches!(peek(bytes, end), b',' | b']' | b'}')
}

// Whether what stands behind an `n` makes it `null`.
fn is_null_behind(bytes: &[u8], at: usize) -> bool
    requires { at < length bytes.now }
    ensures within { result ≡ true → at + 4 ≤ length bytes.now }
    ensures told { result ≡ true → drop (at + 1) bytes.now ≡ 117 ∷ 108 ∷ 108 ∷ drop (at + 4) bytes.now }
    ensures ended { result ≡ true → ends_word (drop (at + 4) bytes.now) ≡ true }
{
    let end = at + 4;
    if end > bytes.len()
        || bytes[at + 1] != b'u'
        || bytes[at + 2] != b'l'
        || bytes[at + 3] != b'l'
    {
        return false;
    }
    is_word_end(bytes, end)
}

// Whether the two are one.
#[inline(always)]
fn is_same(a: &[u8], b: &[u8]) -> bool
    ensures { result ≡ true → a.now ≡ b.now }
{
    a == b
}

impl<'a> PlainReader<'a> {
    /// What the whole text has. Passes its first spaces.
    pub fn new(text: &'a str) -> PlainReader<'a>
        ensures { result ≡ tokens text.now }
    {
        let at = behind_spaces(text.as_bytes(), 0);
        PlainReader {
            text,
            at,
            place: Place::Fresh,
        }
    }

    /// Takes the bracket that opens a list, if it is next. Passes the spaces behind it.
    #[inline(always)]
    pub fn take_begin_array(&mut self) -> bool
        ensures yes { result ≡ true → self.old ≡ begin_array ∷ self.new }
        ensures no { result ≡ false → self.new ≡ self.old }
    {
        let bytes = self.text.as_bytes();
        if !self.place.may_begin() || peek(bytes, self.at) != b'[' {
            return false;
        }
        self.at = behind_spaces(bytes, self.at + 1);
        self.place = Place::Fresh;
        true
    }

    /// Takes the bracket that opens an object, if it is next. Passes the spaces behind it.
    #[inline(always)]
    pub fn take_begin_object(&mut self) -> bool
        ensures yes { result ≡ true → self.old ≡ begin_object ∷ self.new }
        ensures no { result ≡ false → self.new ≡ self.old }
    {
        let bytes = self.text.as_bytes();
        if !self.place.may_begin() || peek(bytes, self.at) != b'{' {
            return false;
        }
        self.at = behind_spaces(bytes, self.at + 1);
        self.place = Place::Fresh;
        true
    }

    /// Takes the bracket that closes a list, if it is next. Passes what stands between it and what is next.
    #[inline(always)]
    pub fn take_end_array(&mut self) -> bool
        ensures yes { result ≡ true → self.old ≡ end_array ∷ self.new }
        ensures no { result ≡ false → self.new ≡ self.old }
    {
        let bytes = self.text.as_bytes();
        if !self.place.may_close() || peek(bytes, self.at) != b']' {
            return false;
        }
        let (at, place) = behind_value(bytes, self.at + 1);
        self.at = at;
        self.place = place;
        true
    }

    /// Takes the bracket that closes an object, if it is next. Passes what stands between it and what is next.
    #[inline(always)]
    pub fn take_end_object(&mut self) -> bool
        ensures yes { result ≡ true → self.old ≡ end_object ∷ self.new }
        ensures no { result ≡ false → self.new ≡ self.old }
    {
        let bytes = self.text.as_bytes();
        if !self.place.may_close() || peek(bytes, self.at) != b'}' {
            return false;
        }
        let (at, place) = behind_value(bytes, self.at + 1);
        self.at = at;
        self.place = place;
        true
    }

    /// Takes `null`, if it is next. Passes what stands between it and what is next.
    #[inline(always)]
    pub fn take_null(&mut self) -> bool
        ensures yes { result ≡ true → self.old ≡ null ∷ self.new }
        ensures no { result ≡ false → self.new ≡ self.old }
    {
        let bytes = self.text.as_bytes();
        if !self.place.may_begin()
            || peek(bytes, self.at) != b'n'
            || !is_null_behind(bytes, self.at)
        {
            return false;
        }
        let (at, place) = behind_value(bytes, self.at + 4);
        self.at = at;
        self.place = place;
        true
    }

    /// Takes the key with its colon right behind it, if it is next. Passes the spaces behind both.
    #[inline(always)]
    pub fn take_key(&mut self, name: &str) -> bool
        requires { list_all is_plain name.now ≡ true }
        ensures yes { result ≡ true → self.old ≡ key name.now ∷ self.new }
        ensures no { result ≡ false → self.new ≡ self.old }
    {
        let bytes = self.text.as_bytes();
        if !self.place.may_begin()
            || peek(bytes, self.at) != b'"'
            || name.len() >= bytes.len() - self.at
        {
            return false;
        }
        let end = self.at + 1 + name.len();
        if !is_same(&bytes[self.at + 1..end], name.as_bytes())
            || peek(bytes, end) != b'"'
            || peek(bytes, end + 1) != b':'
        {
            return false;
        }
        self.at = behind_spaces(bytes, end + 2);
        self.place = Place::Fresh;
        true
    }

    /// Takes the text, if it is next, with no escapes, and a comma or a closing bracket comes behind it. Passes what stands between it
    /// and what is next.
    #[inline(always)]
    pub fn take_text(&mut self, name: &str) -> bool
        requires { list_all is_plain name.now ≡ true }
        ensures yes { result ≡ true → Comes 1 self.old (tree.string name.now) self.new }
        ensures no { result ≡ false → self.new ≡ self.old }
    {
        let bytes = self.text.as_bytes();
        if !self.place.may_begin()
            || peek(bytes, self.at) != b'"'
            || name.len() >= bytes.len() - self.at
        {
            return false;
        }
        let end = self.at + 1 + name.len();
        if end == bytes.len()
            || !is_same(&bytes[self.at + 1..end], name.as_bytes())
            || bytes[end] != b'"'
            || !is_value_end(bytes, end + 1)
        {
            return false;
        }
        let (at, place) = behind_value(bytes, end + 1);
        self.at = at;
        self.place = place;
        true
    }

    /// The next number, where it is a whole one of at most nine digits. Passes what stands between it and what is next.
    #[inline(always)]
    pub fn next_number(&mut self) -> Option<u32>
        ensures { IfSome result (λ n. Comes 1 self.old (tree.number (unsigned n)) self.new × (n < 2 ^ 32)) }
    {
        let bytes = self.text.as_bytes();
        if !self.place.may_begin() {
            return None;
        }
        let Some((n, end)) = number_at(bytes, self.at) else {
            return None;
        };
        let (at, place) = behind_value(bytes, end);
        self.at = at;
        self.place = place;
        Some(n)
    }

    /// Puts in the next text, in place of what was there, where it tells at most so many bytes, and a comma or a closing bracket
    /// comes behind it. Passes what stands between it and what is next.
    #[inline(always)]
    pub fn next_text(&mut self, into: &mut ArrayString<MAX_TEXT>) -> bool
        ensures { result ≡ true → Comes 1 self.old (tree.string into.new.bytes) self.new }
    {
        let bytes = self.text.as_bytes();
        into.clear();
        if !self.place.may_begin() || peek(bytes, self.at) != b'"' {
            return false;
        }
        let Some(end) = text_at(self.text, self.at + 1, into) else {
            return false;
        };
        if !is_value_end(bytes, end + 1) {
            return false;
        }
        let (at, place) = behind_value(bytes, end + 1);
        self.at = at;
        self.place = place;
        true
    }

    /// Whether nothing is left behind a value. Constant time.
    pub fn is_over(&self) -> bool
        ensures { result ≡ true → self.now ≡ [] }
    {
        self.at == self.text.len() && matches!(self.place, Place::AfterValue)
    }
}
