//! Who made a request: the user and the group in its header. After them come the process and bytes without meaning.

use crate::protocol::frames::{Row, are_read, are_read_and_written};
use std::test::Fail;
use wire::Caller;
use wire::Operation::{Destroy, Lookup, MakeDir};

/// No two bytes are equal.
const CALLER: Caller = Caller {
    uid: 0x04030201,
    gid: 0x08070605,
};

/// Read whatever the operation is.
const READ: &[Row] = &[
    Row(
        &[
            "2a000000 01000000 0700000000000000 0100000000000000",
            "01020304 05060708 090a0b0c 0d0e0f10",
            "6100",
        ],
        7,
        1,
        Lookup { name: b"a" },
    ),
    Row(
        &[
            "28000000 26000000 0200000000000000 0000000000000000",
            "01020304 05060708 ffffffff ffffffff",
        ],
        2,
        0,
        Destroy,
    ),
];

/// Written with zeros after them.
const WRITTEN: &[Row] = &[Row(
    &[
        "32000000 09000000 0400000000000000 0100000000000000",
        "01020304 05060708 00000000 00000000",
        "f8030000 12000000 6d00",
    ],
    4,
    1,
    MakeDir {
        name: b"m",
        mode: 0o1770,
        umask: 0o022,
    },
)];

/// A user without a group, and a group without a user.
const LONE_USER: &[Row] = &[Row(
    &[
        "28000000 26000000 0200000000000000 0000000000000000",
        "e8030000 00000000 00000000 00000000",
    ],
    2,
    0,
    Destroy,
)];

const LONE_GROUP: &[Row] = &[Row(
    &[
        "28000000 26000000 0200000000000000 0000000000000000",
        "00000000 64000000 00000000 00000000",
    ],
    2,
    0,
    Destroy,
)];

#[test]
fn callers_of_requests(rt: HostRuntime) -> Result<(), Fail> {
    let alloc = rt.alloc();
    are_read(alloc, CALLER, READ)?;
    for (caller, rows) in [
        (CALLER, WRITTEN),
        (Caller { uid: 1000, gid: 0 }, LONE_USER),
        (Caller { uid: 0, gid: 100 }, LONE_GROUP),
    ] {
        are_read_and_written(alloc, caller, rows)?;
    }
    Ok(())
}
