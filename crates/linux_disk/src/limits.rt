//! How much the system lets the process have.

ghost use Rattle.std.specs.Prelude.{◌≤◌};

use libc::types::rlimit;

/// How many descriptors the process may have open where the system does not tell it.
const FEW: u64 = 256;

/// How many descriptors are left for what is no file or folder below the one that is served, and for those that a call opens.
const OTHERS: u64 = 16;

/// How many files and folders are kept open at least and at most.
const LEAST: u64 = 8;

const MOST: u64 = 4_096;

/// How many descriptors the process may have open at once: `getrlimit`. The kit has no call that raises that limit to the one that the
/// system allows.
fn descriptor_limit() -> u64 {
    let mut limit = rlimit {
        rlim_cur: 0,
        rlim_max: 0,
    };
    if libc::getrlimit(libc::RLIMIT_NOFILE, &mut limit) == 0 {
        limit.rlim_cur
    } else {
        FEW
    }
}

/// How many files and folders the process may keep open: seven eighths of the descriptors that it may have, less 16 for others, and from
/// 8 to 4,096 (own).
pub fn room_for_open() -> usize
    ensures least { 8 ≤ result }
    ensures most { result ≤ 4096 }
{
    let limit = descriptor_limit();
    let room = (limit - limit / 8).saturating_sub(OTHERS);
    room.clamp(LEAST, MOST) as usize
}
