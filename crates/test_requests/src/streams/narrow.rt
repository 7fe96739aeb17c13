//! A writer that takes a limited number of bytes, and counts its writes.

use std::alloc::Global;
use std::io;
use std::io::{ErrorKind, Write};

#[derive(Drop)]
pub struct Narrow {
    /// What it was given.
    pub bytes: Vec<u8>,
    /// How many bytes it still takes.
    pub left: usize,
    /// Whether a flush succeeds.
    pub is_flushed: bool,
    /// How many bytes each write had.
    pub writes: Vec<usize>,
}

/// A writer that takes that many bytes.
pub fn make_narrow(alloc: Global, left: usize, is_flushed: bool) -> Narrow {
    Narrow {
        bytes: Vec::new(alloc),
        left,
        is_flushed,
        writes: Vec::new(alloc),
    }
}

impl Write for Narrow {
    fn write(&mut self, buf: &[u8]) -> io::Result<usize> {
        if self.left == 0 {
            return Err(io::Error::from(ErrorKind::BrokenPipe));
        }
        let count = buf.len().min(self.left);
        self.bytes.extend_from_slice(&buf[..count])?;
        self.writes.push(count)?;
        self.left -= count;
        Ok(count)
    }

    fn flush(&mut self) -> io::Result<()> {
        if self.is_flushed {
            Ok(())
        } else {
            Err(io::Error::from(ErrorKind::BrokenPipe))
        }
    }
}
