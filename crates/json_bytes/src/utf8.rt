//! Bytes that are known to be UTF-8, as a text: the one place with an `unsafe`.
ghost use Rattle.std.specs.Prelude.{◌≡◌, string_bytes};
ghost use Rattle.std.specs.Str.{IsUtf8};

/// The text of these bytes, which are UTF-8. Constant time: none of them is looked at. Takes no memory.
pub fn text_of_bytes(bytes: Vec<u8>) -> String
    requires { IsUtf8 bytes.items }
    ensures { string_bytes result ≡ bytes.items }
{
    // They are UTF-8, by the `requires`.
    unsafe { String::from_utf8_unchecked(bytes) }
}
