//! Why a program ends with a status other than 0, and its one line about that.

ghost use Rattle.std.specs.Prelude.{◌≡◌, true};
ghost use Rattle.std.specs.Io.KnownBytes.{Appends};
ghost use Rattle.mirrord_commands.specs.Faults.{line_of, status_of};
ghost use Rattle.mirrord_commands.specs.declared.faults.Fault.TheVariants.{Memory};

use crate::refusals::OptionsRefusal;
use std::alloc::AllocError;
use std::error::Error;
use std::fmt::Display;
use std::io::Write;
use std::{fmt, io};

/// Why a session stopped before its input ended.
#[derive(Clone, Copy, Debug, PartialEq, Eq)]
pub enum Fault {
    /// A frame begins with a length that no frame may have.
    FrameLength { len: u32 },
    /// This line of the input, counted from 1, does not consist of pairs of hexadecimal digits only.
    Line { line: u64 },
    /// A read or a write failed.
    Link,
    /// Memory was refused.
    Memory,
    /// The system does not let the process reach what it has open by `/proc/self/fd`.
    Descriptors,
    /// The system gives no random bytes.
    Seed,
    /// There were no directories for threads to serve, or more than four.
    Workers,
}

/// Why a program failed.
#[derive(Clone, Copy, Debug, PartialEq, Eq)]
pub enum Failure<'a> {
    /// Its session was stopped, or memory was refused before it began.
    Stopped(Fault),
    /// What it should serve is not a folder that can be opened.
    NoFolder { root: &'a str },
    /// It cannot wait for a client at this path.
    NoSocket { path: &'a str },
    /// Standard input should be the kernel's FUSE device, but is not a character device.
    NoDevice,
    /// Its options cannot be used.
    Refused(OptionsRefusal),
}

impl<'a> Failure<'a> {
    /// The program's exit status (own).
    pub fn status(self) -> u8
        ensures { result ≡ status_of self.entry }
    {
        match self {
            Failure::Refused(_) | Failure::NoDevice => 2,
            Failure::Stopped(Fault::FrameLength { .. }) => 3,
            Failure::Stopped(
                Fault::Line { .. }
                | Fault::Link
                | Fault::Memory
                | Fault::Descriptors
                | Fault::Seed
                | Fault::Workers,
            )
            | Failure::NoFolder { .. }
            | Failure::NoSocket { .. } => 4,
        }
    }
}

// Both are written out, since a contract names what is written.
impl Display for Fault {
    ghost use Rattle.std.specs.Prelude.{Some};
    ghost use Rattle.mirrord_commands.specs.Faults.{fault_message};

    ghost output = { λ fault. Some (fault_message fault) };

    fn fmt<W: fmt::Write>(&self, f: &mut fmt::Formatter<W>) -> fmt::Result {
        match self {
            Fault::FrameLength { len } => {
                write!(f, "frame length {len} is not between 40 and 69632")
            }
            Fault::Line { line } => write!(f, "line {line} is not hexadecimal"),
            Fault::Link => f.write_str("the link failed"),
            Fault::Memory => f.write_str("out of memory"),
            Fault::Descriptors => f.write_str("/proc/self/fd cannot be used"),
            Fault::Seed => f.write_str("no random seed"),
            Fault::Workers => f.write_str("1 to 4 workers can serve"),
        }
    }
}

impl<'a> Display for Failure<'a> {
    ghost use Rattle.std.specs.Prelude.{Some};
    ghost use Rattle.mirrord_commands.specs.Faults.{message};

    ghost output = { λ failure. Some (message failure) };

    fn fmt<W: fmt::Write>(&self, f: &mut fmt::Formatter<W>) -> fmt::Result {
        match self {
            Failure::Stopped(fault) => write!(f, "{fault}"),
            Failure::NoFolder { root } => write!(f, "{root} is not a folder"),
            Failure::NoSocket { path } => write!(f, "cannot listen on {path}"),
            Failure::NoDevice => f.write_str("standard input is not a character device"),
            Failure::Refused(refusal) => write!(f, "{refusal}"),
        }
    }
}

impl Error for Fault {}

impl From<AllocError> for Fault {
    ghost from_gives = { λ _ fault. fault ≡ Memory };

    fn from(_refused: AllocError) -> Fault {
        Fault::Memory
    }
}

impl From<io::Error> for Fault {
    ghost use Rattle.std.specs.IoError.{error_kind};
    ghost use Rattle.mirrord_commands.specs.Faults.{fault_by};

    ghost from_gives = { λ error fault. fault ≡ fault_by (error_kind error) };

    fn from(error: io::Error) -> Fault {
        match error.kind() {
            io::ErrorKind::OutOfMemory => Fault::Memory,
            _ => Fault::Link,
        }
    }
}

/// Writes a failure as one line. False means that the writer failed.
pub fn tell<F: Write>(faults: &mut F, failure: Failure<'_>) -> bool
    ensures { result ≡ true → Appends (F.contents faults.old) (F.contents faults.new) (line_of failure.entry) }
{
    writeln!(faults, "mirrord: {failure}").is_ok()
}
