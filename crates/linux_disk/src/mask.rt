//! Which permission bits the process's mask takes.

use crate::returned::{count_of, owned};
use std::os::fd::AsRawFd;

/// What the system tells of the process.
const STATUS: &[u8] = b"/proc/self/status";

/// What stands before the mask, in a line of its own.
const LABEL: &[u8] = b"Umask:";

/// The mask stands in the second line.
const ROOM: usize = 512;

/// All bits that a mask may take.
const ALL: u32 = 0o777;

/// The process's mask: `open`, `read` and `close`. Where the system does not tell it, it may take all bits.
pub fn read_mask() -> u32 {
    let Ok(fd) = owned(os::open_with(STATUS, libc::O_RDONLY, 0)) else {
        return ALL;
    };
    let mut status = [0u8; ROOM];
    match count_of(libc::read(fd.as_raw_fd(), &mut status)) {
        Ok(n) => mask_in(&status[..n]),
        Err(_) => ALL,
    }
}

/// The mask that the text tells.
fn mask_in(status: &[u8]) -> u32 {
    for line in status.split(|byte| *byte == b'\n') {
        if let Some(digits) = line.strip_prefix(LABEL) {
            return octal(digits).unwrap_or(ALL);
        }
    }
    ALL
}

/// The octal number behind blanks, as many of its lowest bits as a mask has.
fn octal(text: &[u8]) -> Option<u32> {
    let mut value = None;
    for byte in text {
        match *byte {
            b' ' | b'\t' => {}
            b'0'..=b'7' => {
                let digit = u32::from(*byte - b'0');
                value = Some(value.unwrap_or(0u32).wrapping_mul(8).wrapping_add(digit));
            }
            _ => return None,
        }
    }
    match value {
        Some(mask) => Some(mask & ALL),
        None => None,
    }
}
