//! Writing in such a way that it is known what was written, even if it fails.

ghost use Rattle.std.specs.Prelude.{◌≡◌, ◌≤◌, length, take, IfErr, OnOk};
ghost use Rattle.std.specs.Io.KnownBytes.{Appends, Keeps};
ghost use Rattle.engine_streams.specs.Writing.{AppendsFirst, AppendsPart};

use std::io;
use std::io::{ErrorKind, Write};

/// A write that failed.
#[derive(Drop)]
pub struct WriteFault {
    /// How many of its bytes were written, and no others were.
    pub written: usize,
    pub error: io::Error,
}

/// Writes all of the bytes. If that fails, the error says how many were written. It makes the writes itself, since
/// `write_all` does not say what was written before an error. A write that is interrupted by a signal is made again.
pub fn write_parts<W: Write>(writer: &mut W, bytes: &[u8]) -> Result<(), WriteFault>
    ensures whole { OnOk result (Appends (W.contents writer.old) (W.contents writer.new) bytes.now) }
    ensures part { IfErr result (λ fault. AppendsFirst fault.written (W.contents writer.old) (W.contents writer.new) bytes.now) }
{
    let mut written = 0usize;
    for _try in 0..u64::MAX {
        if written == bytes.len() {
            return Ok(());
        }
        match writer.write(&bytes[written..]) {
            Ok(0) => {
                let error = io::Error::from(ErrorKind::WriteZero);
                return Err(WriteFault { written, error });
            }
            Ok(count) => written += count,
            Err(error) => {
                if error.kind() != ErrorKind::Interrupted {
                    return Err(WriteFault { written, error });
                }
            }
        }
    }
    let error = io::Error::from(ErrorKind::Interrupted);
    Err(WriteFault { written, error })
}

/// Writes all of the bytes, which the writer may hold back. If that fails, some first part of them may have been
/// written, and nothing else.
pub fn write_ahead<W: Write>(writer: &mut W, bytes: &[u8]) -> io::Result<()>
    ensures whole { OnOk result (Appends (W.contents writer.old) (W.contents writer.new) bytes.now) }
    ensures part { AppendsPart (W.contents writer.old) (W.contents writer.new) bytes.now }
{
    match write_parts(writer, bytes) {
        Ok(()) => Ok(()),
        Err(fault) => Err(fault.error),
    }
}

/// Writes all of the bytes and flushes them. If that fails, the error says how many were written.
pub fn write_counted<W: Write>(writer: &mut W, bytes: &[u8]) -> Result<(), WriteFault>
    ensures whole { OnOk result (Appends (W.contents writer.old) (W.contents writer.new) bytes.now) }
    ensures part { IfErr result (λ fault. AppendsFirst fault.written (W.contents writer.old) (W.contents writer.new) bytes.now) }
{
    write_parts(writer, bytes)?;
    match writer.flush() {
        Ok(()) => Ok(()),
        Err(error) => Err(WriteFault {
            written: bytes.len(),
            error,
        }),
    }
}

/// Writes all of the bytes and flushes them. If that fails, some first part of them may have been written, and nothing
/// else.
pub fn write_flushed<W: Write>(writer: &mut W, bytes: &[u8]) -> io::Result<()>
    ensures whole { OnOk result (Appends (W.contents writer.old) (W.contents writer.new) bytes.now) }
    ensures part { AppendsPart (W.contents writer.old) (W.contents writer.new) bytes.now }
{
    match write_counted(writer, bytes) {
        Ok(()) => Ok(()),
        Err(fault) => Err(fault.error),
    }
}
