//! What the server limits, and to how much.
ghost use Rattle.std.specs.Prelude.{◌≡◌, length};
ghost use Rattle.std.specs.Str.{chars};
ghost use Rattle.opid.specs.Limits.{is_bad_count};

/// A log takes at most so many operations; a clock's sum is at most that.
pub const MAX_OPERATIONS: usize = 131_072;

/// A room's history records at most so many calls.
pub const MAX_CALLS: u32 = 1_048_576;

/// A room has at most so many sessions at one time.
pub const MAX_SESSIONS: usize = 64;

/// A replica holds at most so many operations until those have come that they know.
pub const MAX_HELD: usize = 1024;

/// At most so many characters, edits or operations are asked for by one call.
pub const MAX_COUNT: u32 = 64;

/// One item of JSON stands for at most so many operations, typed one behind another.
pub const MAX_RUN: usize = 64;

/// A request has at most so many bytes.
pub const MAX_REQUEST_BYTES: usize = 65_536;

/// Whether none or more than 64 are asked for. Constant time.
pub fn is_bad_count(count: usize) -> bool
    ensures { result ≡ is_bad_count count }
{
    count == 0 || count > MAX_COUNT as usize
}

/// How many characters a text has. Takes a step for each.
pub fn count_characters(text: &str) -> usize
    ensures { result ≡ length (chars text.now) }
{
    text.chars().count()
}
