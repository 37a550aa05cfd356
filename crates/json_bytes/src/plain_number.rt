//! A whole number of at most nine digits in a JSON text, read byte by byte (RFC 8259, section 6).
ghost use Rattle.std.specs.Prelude.{◌≡◌, ◌≤◌, ◌<◌, ◌+◌, ◌==◌, true, false, length, take, drop, slice_index, IfSome};
ghost use Rattle.std.specs.Str.Parse.{AllDigits, digits_value};
ghost use Rattle.json.specs.Word.{ends_word};
ghost use Rattle.json_bytes.specs.Internal.Places.{WritesNumber};

// So many digits write a number that fits 32 bits.
const MOST_DIGITS: usize = 9;

// Whether a word ends at the place.
#[inline(always)]
pub(crate) fn is_word_end(bytes: &[u8], at: usize) -> bool
    requires { at ≤ length bytes.now }
    ensures { result ≡ true → ends_word (drop at bytes.now) ≡ true }
{
    at == bytes.len() || matches!(bytes[at], b',' | b']' | b'}' | b' ' | b'\n' | b'\r' | b'\t')
}

// The number of at most nine digits that is written from a place on, and the place behind it.
#[inline(always)]
pub(crate) fn number_at(bytes: &[u8], at: usize) -> Option<(u32, usize)>
    requires { at ≤ length bytes.now }
    ensures { IfSome result (λ p. WritesNumber bytes.now at p.0 p.1) }
{
    let (n, count) = leading_number(&bytes[at..]);
    let end = at + count;
    if count == 0 || !is_word_end(bytes, end) {
        return None;
    }
    if begins_with_zero(bytes, at, count) {
        return None;
    }
    Some((n, end))
}

/// The number that the digits write with which the bytes begin, at most nine of them, and how many they are: 0 and none where the
/// first is no digit. Takes time in proportion to the digits.
#[inline(always)]
pub fn leading_number(bytes: &[u8]) -> (u32, usize)
    ensures within { result.1 ≤ length bytes.now }
    ensures few { result.1 ≤ 9 }
    ensures digits { AllDigits 10 (take result.1 bytes.now) }
    ensures value { result.0 ≡ digits_value 10 (take result.1 bytes.now) }
{
    let most = bytes.len().min(MOST_DIGITS);
    let mut n: u32 = 0;
    let mut count = 0;
    while count < most && bytes[count] >= b'0' && bytes[count] <= b'9' {
        n = n * 10 + u32::from(bytes[count] - b'0');
        count += 1;
    }
    (n, count)
}

// Whether the first of several digits is a zero: then they write no number.
#[inline(always)]
fn begins_with_zero(bytes: &[u8], at: usize, count: usize) -> bool
    requires { at + count ≤ length bytes.now }
    ensures { result ≡ false → 1 < count → (slice_index bytes.now at == 48) ≡ false }
{
    count > 1 && bytes[at] == b'0'
}
