//! Requests that set attributes or create something with a mode. The root is open as file 1.

use crate::scripts::compare::{Row, compare};
use crate::scripts::rows::OF_THE_ROOT;
use crate::scripts::setting::{FIXED, HOST};
use ops::Settings;
use payload::Time;
use std::test::Fail;
use wire::NewAttributes;
use wire::Operation::{Create, MakeDir, SetAttr};

/// The mode has more than permission bits, and no two numbers are equal.
pub const NEW: NewAttributes = NewAttributes {
    mode: 0o104751,
    uid: 1001,
    gid: 101,
    accessed: Time {
        seconds: 5,
        nanos: 999_999_999,
    },
    modified: Time {
        seconds: 0xffffffffffffffff,
        nanos: 6,
    },
};

/// A SETATTR: the settings, its `valid`, and how many calls succeed before each list of answers.
#[derive(Clone, Copy)]
struct Set(Settings, u32, u32);

const SETS: &[Set] = &[
    // The size, the lock owner, both, and nothing.
    Set(FIXED, 8, 0),
    Set(FIXED, 0x200, 0),
    Set(FIXED, 0x208, 0),
    Set(FIXED, 0, 0),
    // With a handle.
    Set(FIXED, 0x48, 0),
    // Nothing, and each bit alone.
    Set(HOST, 0, 0),
    Set(HOST, 1, 0),
    Set(HOST, 2, 0),
    Set(HOST, 4, 0),
    Set(HOST, 8, 0),
    Set(HOST, 0x10, 0),
    Set(HOST, 0x20, 0),
    Set(HOST, 0x40, 0),
    Set(HOST, 0x80, 0),
    Set(HOST, 0x100, 0),
    Set(HOST, 0x200, 0),
    Set(HOST, 0x400, 0),
    // An owner and a group.
    Set(HOST, 6, 0),
    // Both times.
    Set(HOST, 0x30, 0),
    // The current time and a given time, of one and of both.
    Set(HOST, 0x90, 0),
    Set(HOST, 0x120, 0),
    Set(HOST, 0x180, 0),
    Set(HOST, 0x1b0, 0),
    // The current time of one, and a given time of the other.
    Set(HOST, 0xa0, 0),
    Set(HOST, 0x110, 0),
    // All at once, from the first call on, and from the third.
    Set(HOST, 0x7ff, 0),
    Set(HOST, 0x7ff, 2),
];

#[test]
fn what_is_set(rt: HostRuntime) -> Result<(), Fail> {
    for Set(settings, valid, done) in SETS {
        let row = Row {
            operation: SetAttr {
                valid: *valid,
                fh: 1,
                size: 7,
                attributes: NEW,
            },
            settings: *settings,
            done: *done,
            ..OF_THE_ROOT
        };
        compare(&rt, &row)?;
    }
    Ok(())
}

/// A mode and a umask.
const MODES: &[(u32, u32)] = &[
    (0o100644, 0o022),
    (0o1777, 0),
    (0xffffffff, 0o027),
    (0o6755, 0xffffffff),
    (0, 0),
];

/// A folder and a file that are made so.
fn compare_made(rt: &HostRuntime, settings: Settings, mode: u32, umask: u32) -> Result<(), Fail> {
    let name = b"a";
    let flags = 2;
    let makes = [
        MakeDir { name, mode, umask },
        Create {
            name,
            flags,
            mode,
            umask,
        },
    ];
    for operation in makes {
        let row = Row {
            operation,
            settings,
            ..OF_THE_ROOT
        };
        compare(rt, &row)?;
    }
    Ok(())
}

#[test]
fn what_is_made(rt: HostRuntime) -> Result<(), Fail> {
    for settings in [FIXED, HOST] {
        for (mode, umask) in MODES {
            compare_made(&rt, settings, *mode, *umask)?;
        }
    }
    Ok(())
}
