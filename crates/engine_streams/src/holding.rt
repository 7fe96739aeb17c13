//! A writer that holds small writes back until it is flushed.

ghost use Rattle.std.specs.Prelude.{◌≡◌, [], OnOk};
ghost use Rattle.std.specs.Io.KnownBytes.{Keeps};
ghost use Rattle.engine_streams.specs.Holding.{contents_of};

use crate::joining::{JOINED, SMALL};
use crate::writing::write_parts;
use std::alloc::Global;
use std::io;
use std::io::Write;
use wire::Window;

/// A writer that keeps up to 65,536 bytes of what it is given, and writes them with one call when it is flushed. A
/// write of more than 16,384 bytes, or for which there is no room, is made directly after what was kept. Its buffer
/// never gets shorter, so removing bytes costs nothing; the library's buffered writer removes them one by one.
#[derive(Drop)]
pub struct Holding<W: Write> {
    writer: W,
    held: Window,
}

impl<W: Write> Holding<W> {
    /// A writer that holds nothing back yet. It does not allocate.
    pub fn new(alloc: Global, writer: W) -> Holding<W>
        ensures { Keeps (W.contents writer) (contents_of W.contents result) }
    {
        Holding {
            writer,
            held: Window::new(alloc),
        }
    }

    /// The writer below.
    pub fn writer(&self) -> &W
        ensures { result.now ≡ self.now.writer }
    {
        &self.writer
    }

    /// Writes what it holds. If that fails, it keeps what was not written.
    fn hand_on(&mut self) -> io::Result<()>
        ensures none { OnOk result (self.new.held ≡ []) }
        ensures kept { Keeps (contents_of W.contents self.old) (contents_of W.contents self.new) }
    {
        match write_parts(&mut self.writer, self.held.as_slice()) {
            Ok(()) => {
                self.held.skip(self.held.len());
                Ok(())
            }
            Err(fault) => {
                self.held.skip(fault.written);
                Err(fault.error)
            }
        }
    }
}

impl<W: Write> Write for Holding<W> {
    ghost contents = { contents_of W.contents };

    fn write(&mut self, buf: &[u8]) -> io::Result<usize> {
        if buf.len() <= SMALL
            && self.held.len() <= JOINED - buf.len()
            && self.held.push(buf).is_ok()
        {
            return Ok(buf.len());
        }
        self.hand_on()?;
        self.writer.write(buf)
    }

    fn flush(&mut self) -> io::Result<()> {
        self.hand_on()?;
        self.writer.flush()
    }
}
