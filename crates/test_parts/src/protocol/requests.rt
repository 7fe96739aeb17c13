//! Reading and writing the frames of requests.

use crate::protocol::bytes::SIXTEEN;
use crate::protocol::frames::{ALL_ONES, NOBODY, NOTHING_NEW, Row, are_read, are_read_and_written};
use crate::protocol::unread::READ;
use std::test::Fail;
use wire::Operation::{
    BatchForget, Destroy, Forget, GetAttr, Init, Interrupt, Lookup, MakeDir, OpenDir, ReadDir,
    ReadDirPlus, ReleaseDir, RemoveDir, Rename, Rename2, SetAttr, StatFs, SyncDir, Unlink,
};

/// Frames in which the bytes that are not read are zero.
const WRITTEN: &[Row] = &[
    Row(
        &[
            "2a000000 01000000 0700000000000000 0100000000000000",
            SIXTEEN,
            "6100",
        ],
        7,
        1,
        Lookup { name: b"a" },
    ),
    Row(
        &[
            "30000000 02000000 0900000000000000 0200000000000000",
            SIXTEEN,
            "0500000000000000",
        ],
        9,
        2,
        Forget { nlookup: 5 },
    ),
    Row(
        &[
            "38000000 03000000 0300000000000000 0200000000000000",
            SIXTEEN,
            SIXTEEN,
        ],
        3,
        2,
        GetAttr,
    ),
    Row(
        &[
            "80000000 04000000 0900000000000000 0200000000000000",
            SIXTEEN,
            "48000000 00000000 0500000000000000 5802000000000000",
            SIXTEEN,
            SIXTEEN,
            SIXTEEN,
            SIXTEEN,
        ],
        9,
        2,
        SetAttr {
            valid: 72,
            fh: 5,
            size: 600,
            attributes: NOTHING_NEW,
        },
    ),
    Row(
        &[
            "32000000 09000000 0400000000000000 0100000000000000",
            SIXTEEN,
            "00000000 00000000 6d00",
        ],
        4,
        1,
        MakeDir {
            name: b"m",
            mode: 0,
            umask: 0,
        },
    ),
    Row(
        &[
            "2a000000 0a000000 0600000000000000 0100000000000000",
            SIXTEEN,
            "6100",
        ],
        6,
        1,
        Unlink { name: b"a" },
    ),
    Row(
        &[
            "2a000000 0b000000 0700000000000000 0300000000000000",
            SIXTEEN,
            "6d00",
        ],
        7,
        3,
        RemoveDir { name: b"m" },
    ),
    Row(
        &[
            "34000000 0c000000 0500000000000000 0100000000000000",
            SIXTEEN,
            "0100000000000000 6100 6200",
        ],
        5,
        1,
        Rename {
            name: b"a",
            new_parent: 1,
            new_name: b"b",
        },
    ),
    Row(
        &[
            "37000000 0c000000 0500000000000000 0200000000000000",
            SIXTEEN,
            "0300000000000000 6100 6c6f6e6700",
        ],
        5,
        2,
        Rename {
            name: b"a",
            new_parent: 3,
            new_name: b"long",
        },
    ),
    Row(
        &[
            "3c000000 2d000000 0b00000000000000 0100000000000000",
            SIXTEEN,
            "0100000000000000 01000000 00000000 6100 6500",
        ],
        11,
        1,
        Rename2 {
            name: b"a",
            new_parent: 1,
            flags: 1,
            new_name: b"e",
        },
    ),
    Row(
        &[
            "3f000000 2d000000 0c00000000000000 0200000000000000",
            SIXTEEN,
            "0300000000000000 04030201 00000000 6100 6c6f6e6700",
        ],
        12,
        2,
        Rename2 {
            name: b"a",
            new_parent: 3,
            flags: 0x01020304,
            new_name: b"long",
        },
    ),
    Row(
        &[
            "28000000 11000000 0800000000000000 0100000000000000",
            SIXTEEN,
        ],
        8,
        1,
        StatFs,
    ),
    Row(
        &[
            "38000000 1a000000 0100000000000000 0000000000000000",
            SIXTEEN,
            "07000000 1f000000 00000200 21204400",
        ],
        1,
        0,
        Init {
            major: 7,
            minor: 31,
            max_readahead: 131072,
            flags: 0x442021,
        },
    ),
    Row(
        &[
            "28000000 24000000 0600000000000000 0000000000000000",
            SIXTEEN,
        ],
        6,
        0,
        Interrupt,
    ),
    Row(
        &[
            "28000000 26000000 0200000000000000 0000000000000000",
            SIXTEEN,
        ],
        2,
        0,
        Destroy,
    ),
    Row(
        &[
            "30000000 1b000000 0200000000000000 0100000000000000",
            SIXTEEN,
            "00000000 00000000",
        ],
        2,
        1,
        OpenDir,
    ),
    Row(
        &[
            "50000000 1c000000 0300000000000000 0100000000000000",
            SIXTEEN,
            "0500000000000000 0201000000000000 00000200 00000000",
            SIXTEEN,
        ],
        3,
        1,
        ReadDir {
            fh: 5,
            offset: 258,
            size: 131072,
        },
    ),
    Row(
        &[
            "40000000 1d000000 0400000000000000 0100000000000000",
            SIXTEEN,
            "0500000000000000",
            SIXTEEN,
        ],
        4,
        1,
        ReleaseDir { fh: 5 },
    ),
    Row(
        &[
            "38000000 1e000000 0500000000000000 0100000000000000",
            SIXTEEN,
            "0500000000000000 00000000 00000000",
        ],
        5,
        1,
        SyncDir { fh: 5 },
    ),
    Row(
        &[
            "30000000 2a000000 0600000000000000 0000000000000000",
            SIXTEEN,
            "00000000 00000000",
        ],
        6,
        0,
        BatchForget { pairs: b"" },
    ),
    Row(
        &[
            "50000000 2a000000 0600000000000000 0000000000000000",
            SIXTEEN,
            "02000000 00000000 0200000000000000 0100000000000000 0900000000000000 0500000000000000",
        ],
        6,
        0,
        BatchForget {
            pairs: b"\x02\0\0\0\0\0\0\0\x01\0\0\0\0\0\0\0\x09\0\0\0\0\0\0\0\x05\0\0\0\0\0\0\0",
        },
    ),
    Row(
        &[
            "50000000 2c000000 0700000000000000 0100000000000000",
            SIXTEEN,
            "0500000000000000 0200000000000000 40010000 00000000",
            SIXTEEN,
        ],
        7,
        1,
        ReadDirPlus {
            fh: 5,
            offset: 2,
            size: 320,
        },
    ),
];

#[test]
fn frames_of_requests(rt: HostRuntime) -> Result<(), Fail> {
    are_read_and_written(rt.alloc(), NOBODY, WRITTEN)?;
    are_read(rt.alloc(), ALL_ONES, READ)
}
