//! Pieces of JSON for inputs.
use crate::dice::Dice;
use itoa::Buffer;
use std::alloc::AllocError;

// Characters as a JSON text has them: mostly letters and spaces, some beyond ASCII, and some that are escaped.
const LETTERS: [&str; 64] = [
    "e", "t", "a", "o", "i", "n", "s", "h", "r", "d", "l", "u", "c", "m", "f", "w", "y", "p", "v",
    "b", "g", "k", "q", "j", "x", "z", " ", " ", " ", " ", " ", " ", "e", "t", "a", "o", "i", "n",
    "s", "h", "r", "d", "l", "u", "E", "T", "A", "S", "0", "1", "2", ",", ".", "-", "(", ")", "ä",
    "é", "ß", "ж", "語", "€", "\\\"", "\\n",
];

// Characters of two UTF-16 units.
const PAIRS: [&str; 8] = ["😀", "😂", "🎉", "👍", "🚀", "𝒳", "𐍈", "🌍"];

/// Appends a number in decimal.
pub(crate) fn push_number(text: &mut String, n: u32) -> Result<(), AllocError> {
    let mut buffer = Buffer::new();
    text.push_str(buffer.format(n))
}

/// Appends so many characters as a JSON text has them: pairs of UTF-16 units, or mostly others.
pub(crate) fn push_characters(
    text: &mut String,
    dice: &mut Dice,
    count: u32,
    pairs: bool,
) -> Result<(), AllocError> {
    for _ in 0..count {
        let character = if pairs {
            PAIRS.get(dice.below(8) as usize)
        } else {
            LETTERS.get(dice.below(64) as usize)
        };
        text.push_str(character.copied().unwrap_or("-"))?;
    }
    Ok(())
}
