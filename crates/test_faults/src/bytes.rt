//! Bytes from hexadecimal digits.

use std::alloc::Global;
use std::test::Fail;

/// The bytes that the digits give. Spaces are ignored.
pub fn bytes_of(alloc: Global, digits: &str) -> Result<Vec<u8>, Fail> {
    let mut found = Vec::new(alloc);
    for byte in digits.as_bytes() {
        if *byte != b' ' {
            found.push(*byte)?;
        }
    }
    Ok(hex::decode(alloc, &found)?)
}

/// The bytes of several lines, one after another.
pub fn joined(alloc: Global, lines: &[&str]) -> Result<Vec<u8>, Fail> {
    let mut all = Vec::new(alloc);
    for line in lines {
        all.extend_from_slice(&bytes_of(alloc, line)?)?;
    }
    Ok(all)
}

/// The bytes of several lines, each line apart.
pub fn apart(alloc: Global, lines: &[&str]) -> Result<Vec<Vec<u8>>, Fail> {
    let mut all = Vec::new(alloc);
    for line in lines {
        all.push(bytes_of(alloc, line)?)?;
    }
    Ok(all)
}
