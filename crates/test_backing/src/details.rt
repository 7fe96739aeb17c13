//! Words for the calls that set details, and details as text.

use backing::{Answer, Call, NewTime};
use paths::Path;
use payload::Time;
use std::alloc::{AllocError, Global};

/// Permission bits in octal, if there are any.
pub fn octal(text: &str) -> Option<u32> {
    u32::from_str_radix(text, 8).ok()
}

/// An owner or a group, or none for `-`.
fn owner(text: &str) -> Option<u32> {
    text.parse::<u32>().ok()
}

/// Seconds and nanoseconds, separated by a `.`.
fn time(text: &str) -> Option<Time> {
    let (seconds, nanos) = text.split_once('.')?;
    Some(Time {
        seconds: seconds.parse::<u64>().ok()?,
        nanos: nanos.parse::<u32>().ok()?,
    })
}

/// The value that a time is set to: `now`, a time, or none for `-`.
fn new_time(text: &str) -> Option<NewTime> {
    if text == "now" {
        return Some(NewTime::Now);
    }
    Some(NewTime::At(time(text)?))
}

/// The call with that name which sets details of what is at the path.
pub fn call_that_sets<'a>(
    name: &str,
    path: &'a Path,
    first: &str,
    second: &str,
) -> Option<Call<'a>> {
    Some(match name {
        "chmod" => Call::SetPermissions {
            path,
            permissions: octal(first)?,
        },
        "chown" => Call::SetOwner {
            path,
            uid: owner(first),
            gid: owner(second),
        },
        "utimes" => Call::SetTimes {
            path,
            accessed: new_time(first),
            modified: new_time(second),
        },
        _ => return None,
    })
}

/// The permission bits in a STAT, in octal.
pub fn mode_told(alloc: Global, answer: Answer) -> Result<String, AllocError> {
    match answer {
        Answer::Stat { details, .. } => format!(in alloc; "{:o}", details.permissions),
        Answer::Fault(errno) => format!(in alloc; "fault {errno}"),
        _ => String::from_str(alloc, "no mode"),
    }
}

/// The owner and the group in a STAT.
pub fn owner_told(alloc: Global, answer: Answer) -> Result<String, AllocError> {
    match answer {
        Answer::Stat { details, .. } => format!(in alloc; "{} {}", details.uid, details.gid),
        Answer::Fault(errno) => format!(in alloc; "fault {errno}"),
        _ => String::from_str(alloc, "no owner"),
    }
}

/// How many names it has, by a STAT.
pub fn names_told(alloc: Global, answer: Answer) -> Result<String, AllocError> {
    match answer {
        Answer::Stat { details, .. } => format!(in alloc; "{}", details.links),
        Answer::Fault(errno) => format!(in alloc; "fault {errno}"),
        _ => String::from_str(alloc, "no names"),
    }
}

/// The times of the last read and the last change in a STAT.
pub fn times_told(alloc: Global, answer: Answer) -> Result<String, AllocError> {
    match answer {
        Answer::Stat { details, .. } => {
            let (accessed, modified) = (details.accessed, details.modified);
            format!(in alloc;
                "{}.{} {}.{}",
                accessed.seconds, accessed.nanos, modified.seconds, modified.nanos
            )
        }
        Answer::Fault(errno) => format!(in alloc; "fault {errno}"),
        _ => String::from_str(alloc, "no times"),
    }
}
