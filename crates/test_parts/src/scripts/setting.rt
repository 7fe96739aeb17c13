//! What a request sets, and the permission bits of what it makes, by numbers: a part of the slow program.

use crate::scripts::asks::Ask;
use backing::NewTime;
use ops::Settings;
use payload::Time;
use terms::{AttributeSource, Kinds, Names};
use wire::NewAttributes;

/// Fixed attributes of files and folders alone.
pub const FIXED: Settings = Settings {
    attributes: AttributeSource::Fixed {
        uid: 1000,
        gid: 100,
    },
    kinds: Kinds::Plain,
    names: Names::Text,
};

/// The host's attributes of all kinds of files.
pub const HOST: Settings = Settings {
    attributes: AttributeSource::Host,
    kinds: Kinds::All,
    names: Names::Bytes,
};

/// The value, if all of these bits are set.
fn part<T: Copy>(valid: u32, bits: u32, value: T) -> Option<T> {
    if valid & bits == bits {
        Some(value)
    } else {
        None
    }
}

/// The value that a time is set to: the current time takes precedence over a given one.
fn new_time(valid: u32, bit: u32, now: u32, time: Time) -> Option<NewTime> {
    match part(valid, now, NewTime::Now) {
        Some(present) => Some(present),
        None => part(valid, bit, NewTime::At(time)),
    }
}

/// The calls of a SETATTR before its Stat, in order, by the bits of its `valid` as in `fuse.h`: MODE is 1, UID 2, GID
/// 4, SIZE 8, ATIME 16, MTIME 32, ATIME_NOW 128 and MTIME_NOW 256.
pub fn asks_to_set(valid: u32, size: u64, new: NewAttributes) -> [Option<Ask>; 4] {
    let mode = part(valid, 1, Ask::SetPermissions(new.mode % 4096));
    let uid = part(valid, 2, new.uid);
    let gid = part(valid, 4, new.gid);
    let owner = match (uid, gid) {
        (None, None) => None,
        _ => Some(Ask::SetOwner(uid, gid)),
    };
    let accessed = new_time(valid, 16, 128, new.accessed);
    let modified = new_time(valid, 32, 256, new.modified);
    let times = match (accessed, modified) {
        (None, None) => None,
        _ => Some(Ask::SetTimes(accessed, modified)),
    };
    [mode, owner, part(valid, 8, Ask::SetLen(size)), times]
}

/// The permission bits of a new file or folder.
pub fn made_with(settings: Settings, mode: u32, umask: u32) -> Option<u32> {
    if settings.attributes == AttributeSource::Host {
        Some(mode % 4096 & !umask)
    } else {
        None
    }
}
