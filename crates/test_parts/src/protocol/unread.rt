//! Frames of requests with bytes that are not read.

use crate::protocol::frames::{ONES, Row};
use payload::Time;
use wire::NewAttributes;
use wire::Operation::{
    BatchForget, GetAttr, Init, Interrupt, OpenDir, ReadDir, Rename2, SetAttr, SyncDir,
};

/// Frames in which bytes that are not read are not zero: pid and padding; for GETATTR the flags and the
/// handle; for SETATTR its padding, the lock owner, the time of the last change and unused fields; for INIT what
/// follows its flags; for INTERRUPT everything; for RENAME2 its padding; and for requests about open folders flags and
/// lock owners.
pub const READ: &[Row] = &[
    Row(
        &[
            "38000000 03000000 0300000000000000 0200000000000000",
            ONES,
            ONES,
        ],
        3,
        2,
        GetAttr,
    ),
    Row(
        &[
            "80000000 04000000 0900000000000000 0200000000000000",
            ONES,
            "01000000 ffffffff 0500000000000000 5802000000000000",
            "ffffffffffffffff 0100000000000000 0200000000000000 ffffffffffffffff",
            "03000000 04000000 ffffffff ff0f0000 ffffffff 05000000 06000000 ffffffff",
        ],
        9,
        2,
        SetAttr {
            valid: 1,
            fh: 5,
            size: 600,
            attributes: NewAttributes {
                mode: 0o7777,
                uid: 5,
                gid: 6,
                accessed: Time {
                    seconds: 1,
                    nanos: 3,
                },
                modified: Time {
                    seconds: 2,
                    nanos: 4,
                },
            },
        },
    ),
    Row(
        &[
            "39000000 1a000000 0100000000000000 0000000000000000",
            ONES,
            "08000000 00000000 00000000 01000000 ff",
        ],
        1,
        0,
        Init {
            major: 8,
            minor: 0,
            max_readahead: 0,
            flags: 1,
        },
    ),
    Row(
        &[
            "31000000 24000000 0600000000000000 0200000000000000",
            ONES,
            "0700000000000000 ff",
        ],
        6,
        2,
        Interrupt,
    ),
    Row(
        &[
            "3c000000 2d000000 0b00000000000000 0100000000000000",
            ONES,
            "0100000000000000 02000000 ffffffff 6100 6500",
        ],
        11,
        1,
        Rename2 {
            name: b"a",
            new_parent: 1,
            flags: 2,
            new_name: b"e",
        },
    ),
    Row(
        &[
            "30000000 1b000000 0200000000000000 0100000000000000",
            ONES,
            "ffffffff ffffffff",
        ],
        2,
        1,
        OpenDir,
    ),
    Row(
        &[
            "50000000 1c000000 0300000000000000 0100000000000000",
            ONES,
            "0500000000000000 0200000000000000 00000000 ffffffff",
            ONES,
        ],
        3,
        1,
        ReadDir {
            fh: 5,
            offset: 2,
            size: 0,
        },
    ),
    Row(
        &[
            "38000000 1e000000 0500000000000000 0100000000000000",
            ONES,
            "0500000000000000 ffffffff ffffffff",
        ],
        5,
        1,
        SyncDir { fh: 5 },
    ),
    Row(
        &[
            "30000000 2a000000 0600000000000000 0000000000000000",
            ONES,
            "00000000 ffffffff",
        ],
        6,
        0,
        BatchForget { pairs: b"" },
    ),
];
