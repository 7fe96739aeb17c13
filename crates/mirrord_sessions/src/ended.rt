//! The ends of programs.

ghost use Rattle.std.specs.Prelude.{◌≡◌};
ghost use Rattle.mirrord_sessions.specs.Ends.{exit_of, failure_after, failure_of, Tells};

use crate::folder::Unserved;
use engine::SessionEnd;
use mirrord_commands::{Failure, Fault, tell};
use std::io::Write;

/// The result of a run.
#[derive(Drop)]
pub struct ProgramEnd<O: Drop> {
    /// The exit status.
    pub status: u8,
    /// Whether its line could be written to standard error, if there was one.
    pub told: bool,
    /// The writer of the output, returned.
    pub output: O,
}

/// The failure with which a session ended; `cause` says why its link broke.
pub fn failure_of<'a>(end: SessionEnd, cause: Option<Fault>) -> Option<Failure<'a>>
    ensures { result ≡ failure_of end cause }
{
    match end {
        SessionEnd::Closed { .. } | SessionEnd::Destroyed => None,
        SessionEnd::BadLength { len } => Some(Failure::Stopped(Fault::FrameLength { len })),
        SessionEnd::LinkBroken => Some(Failure::Stopped(cause.unwrap_or(Fault::Link))),
        SessionEnd::Memory => Some(Failure::Stopped(Fault::Memory)),
        SessionEnd::NoWorkers => Some(Failure::Stopped(Fault::Workers)),
    }
}

/// The failure with which serving the folder `root` ended, for a client that was expected at `path`.
pub fn failure_after<'a>(
    ended: Result<SessionEnd, Unserved>,
    root: &'a str,
    path: &'a str,
) -> Option<Failure<'a>>
    ensures { result ≡ failure_after ended root.entry path.entry }
{
    match ended {
        Ok(end) => failure_of(end, None),
        Err(Unserved::NoFolder) => Some(Failure::NoFolder { root }),
        Err(Unserved::NoDescriptors) => Some(Failure::Stopped(Fault::Descriptors)),
        Err(Unserved::NoSeed) => Some(Failure::Stopped(Fault::Seed)),
        Err(Unserved::NoSocket) => Some(Failure::NoSocket { path }),
        Err(Unserved::Memory) => Some(Failure::Stopped(Fault::Memory)),
    }
}

/// The exit status after a failure, or without one.
pub fn status_after(failure: Option<Failure<'_>>) -> u8
    ensures { result ≡ exit_of failure.entry }
{
    match failure {
        Some(failure) => failure.status(),
        None => 0,
    }
}

/// Writes one line about a failure, if there was one. False means that the writer failed.
pub fn tell_any<F: Write>(faults: &mut F, failure: Option<Failure<'_>>) -> bool
    ensures { Tells failure.entry result (F.contents faults.old) (F.contents faults.new) }
{
    match failure {
        Some(failure) => tell(faults, failure),
        None => true,
    }
}
