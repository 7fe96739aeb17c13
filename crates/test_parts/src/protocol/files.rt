//! Frames of requests about open files, read and written.

use crate::protocol::bytes::SIXTEEN;
use crate::protocol::frames::{ALL_ONES, NOBODY, ONES, Row, are_read, are_read_and_written};
use std::test::Fail;
use wire::Operation::{Create, Flush, Open, Read, Release, Sync, Write};

/// Frames in which the bytes that are not read are zero.
const WRITTEN: &[Row] = &[
    Row(
        &[
            "30000000 0e000000 0200000000000000 0300000000000000",
            SIXTEEN,
            "01800000 00000000",
        ],
        2,
        3,
        Open { flags: 32769 },
    ),
    Row(
        &[
            "50000000 0f000000 0300000000000000 0300000000000000",
            SIXTEEN,
            "0100000000000000 0200000000000000 00000200 00000000",
            SIXTEEN,
        ],
        3,
        3,
        Read {
            fh: 1,
            offset: 2,
            size: 131072,
        },
    ),
    Row(
        &[
            "52000000 10000000 0400000000000000 0300000000000000",
            SIXTEEN,
            "0100000000000000 0300000000000000 02000000 00000000",
            SIXTEEN,
            "6465",
        ],
        4,
        3,
        Write {
            fh: 1,
            offset: 3,
            data: b"de",
        },
    ),
    Row(
        &[
            "50000000 10000000 0500000000000000 0300000000000000",
            SIXTEEN,
            "0100000000000000 0000000000000000 00000000 00000000",
            SIXTEEN,
        ],
        5,
        3,
        Write {
            fh: 1,
            offset: 0,
            data: b"",
        },
    ),
    Row(
        &[
            "40000000 12000000 0600000000000000 0300000000000000",
            SIXTEEN,
            "0100000000000000",
            SIXTEEN,
        ],
        6,
        3,
        Release { fh: 1 },
    ),
    Row(
        &[
            "38000000 14000000 0700000000000000 0300000000000000",
            SIXTEEN,
            "0100000000000000 0000000000000000",
        ],
        7,
        3,
        Sync { fh: 1 },
    ),
    Row(
        &[
            "40000000 19000000 0800000000000000 0300000000000000",
            SIXTEEN,
            "0100000000000000",
            SIXTEEN,
        ],
        8,
        3,
        Flush { fh: 1 },
    ),
    Row(
        &[
            "3a000000 23000000 0300000000000000 0100000000000000",
            SIXTEEN,
            "02000000 00000000 00000000 00000000 6e00",
        ],
        3,
        1,
        Create {
            name: b"n",
            flags: 2,
            mode: 0,
            umask: 0,
        },
    ),
];

/// Frames in which bytes that are not read are not zero: flags of READ, WRITE, RELEASE and FSYNC, lock owners, and
/// unused fields.
const READ: &[Row] = &[
    Row(
        &[
            "30000000 0e000000 0200000000000000 0300000000000000",
            ONES,
            "03000000 ffffffff",
        ],
        2,
        3,
        Open { flags: 3 },
    ),
    Row(
        &[
            "50000000 0f000000 0300000000000000 0300000000000000",
            ONES,
            "0100000000000000 0200000000000000 00000000 ffffffff",
            ONES,
        ],
        3,
        3,
        Read {
            fh: 1,
            offset: 2,
            size: 0,
        },
    ),
    Row(
        &[
            "51000000 10000000 0400000000000000 0300000000000000",
            ONES,
            "0100000000000000 0300000000000000 01000000 ffffffff",
            ONES,
            "00",
        ],
        4,
        3,
        Write {
            fh: 1,
            offset: 3,
            data: b"\0",
        },
    ),
    Row(
        &[
            "40000000 12000000 0600000000000000 0300000000000000",
            ONES,
            "0100000000000000",
            ONES,
        ],
        6,
        3,
        Release { fh: 1 },
    ),
    Row(
        &[
            "38000000 14000000 0700000000000000 0300000000000000",
            ONES,
            "0100000000000000 ffffffff ffffffff",
        ],
        7,
        3,
        Sync { fh: 1 },
    ),
    Row(
        &[
            "40000000 19000000 0800000000000000 0300000000000000",
            ONES,
            "0100000000000000",
            ONES,
        ],
        8,
        3,
        Flush { fh: 1 },
    ),
    Row(
        &[
            "3a000000 23000000 0300000000000000 0100000000000000",
            ONES,
            "03000000 a4810000 12000000 ffffffff 6e00",
        ],
        3,
        1,
        Create {
            name: b"n",
            flags: 3,
            mode: 0o100644,
            umask: 0o022,
        },
    ),
];

#[test]
fn frames_of_open_files(rt: HostRuntime) -> Result<(), Fail> {
    are_read_and_written(rt.alloc(), NOBODY, WRITTEN)?;
    are_read(rt.alloc(), ALL_ONES, READ)
}
