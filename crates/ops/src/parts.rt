//! What a SETATTR sets, and the permission bits of a new file or folder.

ghost use Rattle.std.specs.Prelude.{◌≡◌, ◌<◌, ◌==◌};
ghost use Rattle.std.specs.Int.{bit_at};
ghost use Rattle.ops.specs.Parts.{counted, made_with, new_time, parts_of, permissions_of};

use backing::NewTime;
use payload::Time;
use terms::AttributeSource;
use wire::NewAttributes;

/// The parts of a node's attributes that are to be set.
#[derive(Clone, Copy, Debug, PartialEq, Eq)]
pub struct NewParts {
    /// The lowest twelve bits of a mode.
    pub permissions: Option<u32>,
    pub uid: Option<u32>,
    pub gid: Option<u32>,
    /// The lowest twelve bits of a mode, set after the owner, which may clear some.
    pub again: Option<u32>,
    /// In bytes.
    pub size: Option<u64>,
    pub accessed: Option<NewTime>,
    pub modified: Option<NewTime>,
}

/// The bits of SETATTR's `valid`, counted from 0 (`FATTR_MODE`, `FATTR_UID` and so on of `fuse.h`).
const MODE: u32 = 0;

const UID: u32 = 1;

const GID: u32 = 2;

const SIZE: u32 = 3;

const ACCESSED: u32 = 4;

const MODIFIED: u32 = 5;

const ACCESSED_NOW: u32 = 7;

const MODIFIED_NOW: u32 = 8;

/// The permission bits of a mode, with `setuid`, `setgid` and the sticky bit.
const PERMISSIONS: u32 = 0o7777;

/// Whether the bit is set.
fn is_set(valid: u32, bit: u32) -> bool
    requires { bit < 32 }
    ensures { result ≡ (bit_at valid bit == 1) }
{
    valid & (1 << bit) != 0
}

/// The value, if its bit is set.
fn counted<T: Copy>(valid: u32, bit: u32, value: T) -> Option<T>
    requires { bit < 32 }
    ensures { result ≡ counted valid bit value }
{
    if is_set(valid, bit) {
        Some(value)
    } else {
        None
    }
}

/// The current time if its bit is set, or else the given time if the bit for that is set.
fn new_time(valid: u32, bit: u32, now_bit: u32, time: Time) -> Option<NewTime>
    requires bit { bit < 32 }
    requires now_bit { now_bit < 32 }
    ensures { result ≡ new_time valid bit now_bit time }
{
    if is_set(valid, now_bit) {
        return Some(NewTime::Now);
    }
    counted(valid, bit, NewTime::At(time))
}

/// The permission bits of a mode.
fn permissions_of(mode: u32) -> u32
    ensures { result ≡ permissions_of mode }
{
    mode & PERMISSIONS
}

/// What a SETATTR sets, by its `valid`.
pub(crate) fn parts_of(valid: u32, size: u64, new: NewAttributes) -> NewParts
    ensures { result ≡ parts_of valid size new }
{
    NewParts {
        permissions: counted(valid, MODE, new.mode).map(permissions_of),
        uid: counted(valid, UID, new.uid),
        gid: counted(valid, GID, new.gid),
        again: None,
        size: counted(valid, SIZE, size),
        accessed: new_time(valid, ACCESSED, ACCESSED_NOW, new.accessed),
        modified: new_time(valid, MODIFIED, MODIFIED_NOW, new.modified),
    }
}

/// The permission bits of a new file or folder: with the host's attributes those of the requested mode without the
/// umask, and otherwise none, so that the directory decides.
pub(crate) fn made_with(source: AttributeSource, mode: u32, umask: u32) -> Option<u32>
    ensures { result ≡ made_with source mode umask }
{
    match source {
        AttributeSource::Fixed { .. } => None,
        // The umask is the client's: the mask of the server's process is not applied.
        AttributeSource::Host => Some(permissions_of(mode) & !umask),
    }
}
