//! Texts put together from their end in a few bytes on the stack, so that each is copied once. What is put begins at the place
//! that is given back, and what was there before it is as it was.
ghost use Rattle.std.specs.Prelude.{◌≡◌, ◌+◌, ◌<◌, ◌≤◌, ◌∷◌, ◌++◌, length, drop, decimal};

use itoa::write_digits;

/// Puts a byte before a place, and gives its own. Constant time.
#[inline(always)]
pub fn put<const N: usize>(bytes: &mut [u8; N], at: usize, byte: u8) -> usize
    requires first { 0 < at }
    requires within { at ≤ N }
    ensures told { drop result bytes.new ≡ byte ∷ drop at bytes.old }
    ensures place { result + 1 ≡ at }
{
    bytes[at - 1] = byte;
    at - 1
}

/// Puts bytes before a place, and gives their own. Copies each of them once.
#[inline(always)]
pub fn put_all<const N: usize>(bytes: &mut [u8; N], at: usize, piece: &[u8]) -> usize
    requires free { length piece.now ≤ at }
    requires within { at ≤ N }
    ensures told { drop result bytes.new ≡ piece.now ++ drop at bytes.old }
    ensures place { result + length piece.now ≡ at }
{
    let start = at - piece.len();
    let all = &mut bytes[..];
    all[start..at].copy_from_slice(piece);
    start
}

/// Puts a number in decimal before a place, and gives its own: 20 digits at most, as JSON has them (RFC 8259, section 6). Takes time in
/// proportion to them.
#[inline(always)]
pub fn put_number<const N: usize>(bytes: &mut [u8; N], at: usize, n: u64) -> usize
    requires free { 20 ≤ at }
    requires within { at ≤ N }
    ensures told { drop result bytes.new ≡ decimal n ++ drop at bytes.old }
    ensures place { at ≤ result + 20 }
    ensures before { result ≤ at }
{
    write_digits(n, bytes, at)
}

/// The same of a number of 32 bits, which has 10 digits at most.
#[inline(always)]
pub fn put_small<const N: usize>(bytes: &mut [u8; N], at: usize, n: u32) -> usize
    requires free { 10 ≤ at }
    requires within { at ≤ N }
    ensures told { drop result bytes.new ≡ decimal n ++ drop at bytes.old }
    ensures place { at ≤ result + 10 }
    ensures before { result ≤ at }
{
    write_digits(u64::from(n), bytes, at)
}
