//! Bytes as hexadecimal digits.

use std::alloc::Global;
use std::test::Fail;

/// Sixteen bytes of zero.
pub const SIXTEEN: &str = "00000000000000000000000000000000";

/// The bytes that these texts spell, one after another. Spaces are only for readability.
pub fn bytes_of(alloc: Global, texts: &[&str]) -> Result<Vec<u8>, Fail> {
    let mut digits = Vec::new(alloc);
    for text in texts {
        for byte in text.as_bytes() {
            if *byte != b' ' {
                digits.push(*byte)?;
            }
        }
    }
    Ok(hex::decode(alloc, digits)?)
}

/// Checks that what was written are the bytes that these texts spell. An error says what was written.
pub fn expect_bytes(alloc: Global, written: &[u8], texts: &[&str], what: &str) -> Result<(), Fail> {
    let wanted = bytes_of(alloc, texts)?;
    if written == wanted.as_slice() {
        return Ok(());
    }
    Err(Fail::from(("other bytes", what)))
}
