//! Texts of links, and names, as words give them.

use paths::Name;
use std::alloc::{AllocError, Global};
use std::str;

/// The byte at that place of a text that is filled. None is NUL, and each differs from the ones 4,096 bytes later.
fn filling(place: u64) -> u8 {
    (place % 251) as u8 + 1
}

/// A text of so many bytes.
fn filled(alloc: Global, count: u64) -> Result<Vec<u8>, AllocError> {
    let mut text = Vec::new(alloc);
    for place in 0..count {
        text.push(filling(place))?;
    }
    Ok(text)
}

/// How many of the bytes are those with which a text is filled.
pub fn count_filled(text: &[u8]) -> u64 {
    let mut place = 0u64;
    let mut right = 0u64;
    for byte in text {
        if *byte == filling(place) {
            right = right.saturating_add(1);
        }
        place = place.saturating_add(1);
    }
    right
}

/// The bytes that the text spells with two digits each.
fn spelt(alloc: Global, text: &str) -> Result<Vec<u8>, AllocError> {
    let mut bytes = Vec::new(alloc);
    let mut high = None;
    for digit in text.chars() {
        let value = (digit.to_digit(16).unwrap_or(0) % 16) as u8;
        match high {
            None => high = Some(value),
            Some(first) => {
                bytes.push(first % 16 * 16 + value)?;
                high = None;
            }
        }
    }
    Ok(bytes)
}

/// Before the digits of a name that is no text, two for each byte.
const SPELT: &str = "x:";

/// The name that the word gives.
pub fn name_of(alloc: Global, word: &str) -> Result<Name, AllocError> {
    match word.strip_prefix(SPELT) {
        Some(digits) => Name::copy_of(alloc, &spelt(alloc, digits)?),
        None => Name::from_text(alloc, word),
    }
}

/// The word that gives the name.
pub fn name_text(alloc: Global, name: &Name) -> Result<String, AllocError> {
    if let Ok(text) = str::from_utf8(name.as_bytes()) {
        return String::from_str(alloc, text);
    }
    let mut text = String::from_str(alloc, SPELT)?;
    for byte in name.as_bytes() {
        text.push_str(format!(in alloc; "{byte:02x}")?.as_str())?;
    }
    Ok(text)
}

/// The text of the link that the call with that name makes: the word itself, the bytes that it spells, or so many.
pub fn text_of(alloc: Global, name: &str, word: &str) -> Result<Vec<u8>, AllocError> {
    match name {
        "link-hex" => spelt(alloc, word),
        "link-fill" => filled(alloc, word.parse::<u64>().unwrap_or(0)),
        _ => Vec::from_slice(alloc, word.as_bytes()),
    }
}
