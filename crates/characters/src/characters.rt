//! The text of a version, or of a call.
ghost use Rattle.std.specs.Prelude.{◌≡◌, ◌≤◌, length, IsTrue, IfOk, IsOk, encode_utf8_all, string_bytes};
ghost use Rattle.std.specs.Str.{all_scalars, chars};
ghost use Rattle.characters.specs.Internal.KeptText.{bytes_of};

use arrayvec::ArrayString;
use std::alloc::{AllocError, Global};
use std::marker::Model;

// A text as it is kept.
#[derive(Debug, Drop)]
enum KeptText {
    // In place, as what one types is.
    Short(ArrayString<16>),
    Long(String),
}

/// A text, seen by contracts as the list of its characters (Unicode scalar values). One of at most 16 bytes that `from_str` made
/// takes no memory but its own 32 bytes.
#[derive(Debug, Drop)]
pub struct Characters {
    text: KeptText,
}

const _: () = prove!(size_of::<Characters>() == 32);

impl Model for Characters {
    ghost use Rattle.std.specs.Prelude.{ℕ, List};
    ghost use Rattle.std.specs.Str.{chars};
    ghost use Rattle.characters.specs.Internal.KeptText.{bytes_of};

    ghost Value = { List ℕ };

    ghost view = { λ c. chars (bytes_of c.text) };
}

impl Clone for Characters {
    ghost is_clone = { λ s t. t ≡ s };

    /// The same characters once more. Takes a step for each byte; one of at most 16 bytes that `from_str`
    /// made takes no memory.
    fn clone(&self) -> Result<Characters, AllocError> {
        let text = match &self.text {
            KeptText::Short(text) => KeptText::Short(*text),
            KeptText::Long(text) => KeptText::Long(text.clone()?),
        };
        Ok(Characters { text })
    }
}

impl Characters {
    /// The characters of a text, which is kept as it is. Constant time; takes no memory.
    pub fn new(text: String) -> Self
        ensures { result ≡ chars (string_bytes text) }
    {
        let text = KeptText::Long(text);
        Characters { text }
    }

    /// The characters of a text, which is copied. Takes a step for each byte. An error is for want of memory; at most 16
    /// bytes take none.
    pub fn from_str(alloc: Global, text: &str) -> Result<Self, AllocError>
        ensures value { IfOk result (λ c. c ≡ chars text.now) }
        ensures short { length text.now ≤ 16 → IsOk result }
    {
        let text = match ArrayString::from(text) {
            Ok(short) => KeptText::Short(short),
            Err(_) => KeptText::Long(String::from_str(alloc, text)?),
        };
        Ok(Characters { text })
    }

    /// The characters in UTF-8. Constant time.
    pub fn as_str(&self) -> &str
        ensures bytes { result.now ≡ encode_utf8_all self.now }
        ensures value { chars result.now ≡ self.now }
        ensures scalars { IsTrue (all_scalars self.now) }
    {
        self.text.as_str()
    }
}

impl KeptText {
    fn as_str(&self) -> &str
        ensures { result.now ≡ bytes_of self.now }
    {
        match self {
            KeptText::Short(text) => text.as_str(),
            KeptText::Long(text) => text.as_str(),
        }
    }
}
