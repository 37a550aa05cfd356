//! JSON objects whose members are whole numbers and texts, read token by token, with no tree.
ghost use Rattle.std.specs.Prelude.{◌≡◌, ◌≤◌, ◌∷◌, [], length, true, Some, Ok, IfSome, slice_index, ◌==◌};
ghost use Rattle.serde_json.specs.Data.{unsigned};
ghost use Rattle.serde_json.specs.Read.{number_of};
ghost use Rattle.json.specs.Token.{begin_object};
ghost use Rattle.operation_json.specs.Members.{json_of};
ghost use Rattle.json_bytes.specs.Internal.Coming.{value_of_tokens};
ghost use Rattle.wire_json.specs.Internal.Flat.{flat_data, IsPrimitive, ReadsNext, ReadsMember};
ghost use Rattle.json.specs.Reads.{token_of};

use arrayvec::ArrayVec;
use fast_float::Numeral;
use json::{Reader, Scratch, Token};
use json_bytes::leading_number;

// The most members of such an object.
const MAX_MEMBERS: usize = 8;

/// A member's value.
#[derive(Clone, Copy, Drop)]
pub(crate) enum Primitive<'a> {
    /// A whole number, written with no sign, fraction or exponent.
    Number(u64),
    Text(&'a str),
}

impl<'a> Default for Primitive<'a> {
    ghost is_default = { λ value. Unit {0} };

    fn default() -> Primitive<'a> {
        Primitive::Number(0)
    }
}

/// A key and its value.
#[derive(Clone, Copy, Default, Drop)]
pub(crate) struct Member<'a> {
    pub key: &'a str,
    pub value: Primitive<'a>,
}

// The next member, or why there is none.
#[derive(Clone, Copy, Drop)]
enum Next<'a> {
    Member(Member<'a>),
    End,
    Other,
}

/// Puts in the members of the object that the text is, if each is a whole number or a text and there are at most eight, and tells
/// whether that is so. False too where the scratch has too little room and memory is refused. Time in proportion to the text. The
/// members are written where the caller keeps them, since each move of all eight would be a copy.
pub(crate) fn read_flat<'a>(
    scratch: &'a mut Scratch,
    text: &'a str,
    members: &mut ArrayVec<Member<'a>, MAX_MEMBERS>,
) -> bool
    requires { members.old.items ≡ [] }
    ensures { result ≡ true → json_of text.now ≡ Ok (flat_data members.new.items) }
{
    let Ok(mut reader) = Reader::new(text, scratch) else {
        return false;
    };
    read_members(&mut reader, members)
}

// Puts in the members of the one object that the reader has, and tells whether each is a whole number or a text and there are at
// most eight.
fn read_members<'a>(
    reader: &mut Reader<'a>,
    members: &mut ArrayVec<Member<'a>, MAX_MEMBERS>,
) -> bool
    requires { members.old.items ≡ [] }
    ensures { result ≡ true → value_of_tokens reader.old ≡ Some (flat_data members.new.items) }
{
    let Some(Token::BeginObject) = reader.next() else {
        return false;
    };
    for _ in 0..=MAX_MEMBERS {
        match read_member(reader) {
            Next::Member(member) => {
                if members.is_full() {
                    return false;
                }
                members.push(member);
            }
            Next::End => return true,
            Next::Other => return false,
        }
    }
    false
}

fn read_member<'a>(reader: &mut Reader<'a>) -> Next<'a>
    ensures { ReadsNext reader.old result reader.new }
{
    match reader.next() {
        Some(Token::Key(key)) => read_primitive(reader, key),
        Some(Token::EndObject) => match reader.next() {
            None => Next::End,
            Some(_) => Next::Other,
        },
        _ => Next::Other,
    }
}

// The member with this key, whose value comes next.
fn read_primitive<'a>(reader: &mut Reader<'a>, key: &'a str) -> Next<'a>
    ensures { ReadsMember key.now reader.old result reader.new }
{
    let Some(token) = reader.next() else {
        return Next::Other;
    };
    match primitive_of(token) {
        Some(value) => Next::Member(Member { key, value }),
        None => Next::Other,
    }
}

// The value that a token is by itself, if it is a whole number or a text.
fn primitive_of<'a>(token: Token<'a>) -> Option<Primitive<'a>>
    ensures { IfSome result (λ value. IsPrimitive (token_of token.entry) value) }
{
    match token {
        Token::String(text) => Some(Primitive::Text(text)),
        Token::Number(text) => match whole_number(text) {
            Some(n) => Some(Primitive::Number(n)),
            None => None,
        },
        _ => None,
    }
}

// The number that a token writes, if it is whole and written by digits alone.
fn whole_number(text: &str) -> Option<u64>
    ensures { IfSome result (λ n. number_of text.now ≡ Some (unsigned n)) }
{
    let bytes = text.as_bytes();
    if let Some(n) = few_digits(bytes) {
        return Some(n);
    }
    if has_minus(bytes) {
        return None;
    }
    Numeral::scan(bytes).to_u64()
}

// The number that one to nine digits write, and nothing else, as nearly all numbers are written.
#[inline(always)]
fn few_digits(bytes: &[u8]) -> Option<u64>
    ensures { IfSome result (λ n. number_of bytes.now ≡ Some (unsigned n)) }
{
    let (n, count) = leading_number(bytes);
    if count == 0 || count < bytes.len() {
        return None;
    }
    Some(u64::from(n))
}

fn has_minus(bytes: &[u8]) -> bool
    ensures { result ≡ (slice_index bytes.now 0 == 45) }
{
    !bytes.is_empty() && bytes[0] == b'-'
}
