//! Open files, byte for byte.

use crate::frames::{ENTRY_A, LOOKUP_A};
use crate::row::{NOTHING, Row, run_rows};
use std::test::Fail;

/// CREATE `n` in the root, for reading and writing, unique 3.
pub const CREATE_N: &str =
    "3a000000 23000000 0300000000000000 0100000000000000 00000000 00000000 00000000 00000000 \
    02000000 00000000 00000000 00000000 6e00";

/// The entry of `n`: node 2, generation 0, an empty file; and the first handle.
pub const CREATED_N: &str = "a0000000 00000000 0300000000000000 \
    0200000000000000 0000000000000000 0100000000000000 0100000000000000 00000000 00000000 \
    0200000000000000 0000000000000000 0000000000000000 \
    0000000000000000 0000000000000000 0000000000000000 00000000 00000000 00000000 \
    a4810000 01000000 00000000 00000000 00000000 00100000 00000000 \
    0100000000000000 00000000 00000000";

/// OPEN of node 2 for reading, unique 8.
pub const OPEN_A: &str =
    "30000000 0e000000 0800000000000000 0200000000000000 00000000 00000000 00000000 00000000 00000000 00000000";

/// READ of ten bytes with handle 1 of node 2, unique 5.
pub const READ_TEN: &str =
    "50000000 0f000000 0500000000000000 0200000000000000 00000000 00000000 00000000 00000000 \
    0100000000000000 0000000000000000 0a000000 00000000 0000000000000000 00000000 00000000";

/// FLUSH with handle 1 of node 2, unique 6.
pub const FLUSH: &str =
    "40000000 19000000 0600000000000000 0200000000000000 00000000 00000000 00000000 00000000 \
    0100000000000000 00000000 00000000 0000000000000000";

/// EBADF for unique 6.
pub const FLUSH_REFUSED: &str = "10000000 f7ffffff 0600000000000000";

/// WRITE of `de` at byte 3 with handle 1 of node 2, unique 4.
const WRITE_DE: &str =
    "52000000 10000000 0400000000000000 0200000000000000 00000000 00000000 00000000 00000000 \
    0100000000000000 0300000000000000 02000000 00000000 0000000000000000 00000000 00000000 6465";

/// FSYNC with handle 1 of node 2, unique 6.
const FSYNC: &str =
    "38000000 14000000 0600000000000000 0200000000000000 00000000 00000000 00000000 00000000 \
    0100000000000000 00000000 00000000";

/// Replies to requests about an open file.
const ROWS: &[Row] = &[
    Row {
        says: "a file is made, written, read, brought to the disk and closed once",
        lines: &[CREATE_N, WRITE_DE, READ_TEN, FSYNC, FLUSH],
        replies: &[
            CREATED_N,
            "18000000 00000000 0400000000000000 02000000 00000000",
            "15000000 00000000 0500000000000000 000000 6465",
            "10000000 00000000 0600000000000000",
            "10000000 00000000 0600000000000000",
        ],
        ..NOTHING
    },
    Row {
        says: "a file is opened for reading, and not written",
        lines: &[LOOKUP_A, OPEN_A, READ_TEN, WRITE_DE, READ_TEN],
        replies: &[
            ENTRY_A,
            "20000000 00000000 0800000000000000 0100000000000000 00000000 00000000",
            "13000000 00000000 0500000000000000 616263",
            "10000000 f7ffffff 0400000000000000",
            "13000000 00000000 0500000000000000 616263",
        ],
        ..NOTHING
    },
    Row {
        says: "no file is open",
        lines: &[LOOKUP_A, READ_TEN, WRITE_DE, FSYNC, FLUSH],
        replies: &[
            ENTRY_A,
            "10000000 f7ffffff 0500000000000000",
            "10000000 f7ffffff 0400000000000000",
            "10000000 f7ffffff 0600000000000000",
            FLUSH_REFUSED,
        ],
        ..NOTHING
    },
];

#[test]
fn open_file_frames(rt: HostRuntime) -> Result<(), Fail> {
    run_rows(&rt, rt.alloc(), ROWS)
}

/// WRITE that says four bytes and has three, unique 9; and READ with the same handle.
const WRITE_SIZE: &[Row] = &[Row {
    says: "nothing is written",
    lines: &[
        CREATE_N,
        "53000000 10000000 0900000000000000 0200000000000000 00000000 00000000 00000000 00000000 \
        0100000000000000 0000000000000000 04000000 00000000 0000000000000000 00000000 00000000 616263",
        READ_TEN,
    ],
    replies: &[
        CREATED_N,
        "10000000 eaffffff 0900000000000000",
        "10000000 00000000 0500000000000000",
    ],
    ..NOTHING
}];

#[test]
fn write_size_differs(rt: HostRuntime) -> Result<(), Fail> {
    run_rows(&rt, rt.alloc(), WRITE_SIZE)
}
