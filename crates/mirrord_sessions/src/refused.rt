//! Runs that serve nothing.

ghost use Rattle.clap.specs.Words.{kind_of};
ghost use Rattle.mirrord_sessions.specs.Runs.{IsRefusedBy, IsUnserved};

use crate::ended::ProgramEnd;
use clap::error::ErrorKind;
use mirrord_commands::{Failure, Fault, OptionsRefusal, tell};
use std::io::Write;

/// Writes clap's message: help and the version go to the output, and an error to standard error.
pub fn explain<O: Write + Drop, F: Write>(
    error: &clap::Error,
    mut output: O,
    faults: &mut F,
) -> ProgramEnd<O>
    ensures { IsUnserved (kind_of error.now) (O.contents output) (O.contents result.output) (F.contents faults.old) (F.contents faults.new) result.status result.told }
{
    if error.kind() == ErrorKind::OutOfMemory {
        let told = tell(faults, Failure::Stopped(Fault::Memory));
        return ProgramEnd {
            status: 4,
            told,
            output,
        };
    }
    if error.use_stderr() {
        let told = write!(faults, "{error}").is_ok();
        return ProgramEnd {
            status: 2,
            told,
            output,
        };
    }
    let told = write!(output, "{error}").is_ok();
    ProgramEnd {
        status: 0,
        told,
        output,
    }
}

/// Writes why the options cannot be used.
pub fn refuse<O: Write + Drop, F: Write>(
    refusal: OptionsRefusal,
    output: O,
    faults: &mut F,
) -> ProgramEnd<O>
    ensures { IsRefusedBy refusal (O.contents output) (O.contents result.output) (F.contents faults.old) (F.contents faults.new) result.status result.told }
{
    let failure = Failure::Refused(refusal);
    ProgramEnd {
        status: failure.status(),
        told: tell(faults, failure),
        output,
    }
}
