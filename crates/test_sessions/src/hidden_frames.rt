//! Files that are removed or replaced while they are open, byte for byte.

use crate::file_frames::{OPEN_A, READ_TEN};
use crate::frames::{ENTRY_A, LOOKUP_A};
use crate::row::{NOTHING, Row, run_rows};
use std::test::Fail;

/// The first handle, from OPEN_A.
const OPENED: &str = "20000000 00000000 0800000000000000 0100000000000000 00000000 00000000";

/// OPEN of node 2 for reading, unique 9; and the second handle.
const OPEN_AGAIN: &str =
    "30000000 0e000000 0900000000000000 0200000000000000 00000000 00000000 00000000 00000000 00000000 00000000";

const OPENED_AGAIN: &str = "20000000 00000000 0900000000000000 0200000000000000 00000000 00000000";

/// UNLINK `a` in the root, unique 10.
const UNLINK_A: &str =
    "2a000000 0a000000 0a00000000000000 0100000000000000 00000000 00000000 00000000 00000000 6100";

/// RELEASE of handle 1 of node 2, unique 11.
const RELEASE_ONE: &str =
    "40000000 12000000 0b00000000000000 0200000000000000 00000000 00000000 00000000 00000000 \
    0100000000000000 00000000 00000000 0000000000000000";

/// RELEASE of handle 2 of node 2, unique 12.
const RELEASE_TWO: &str =
    "40000000 12000000 0c00000000000000 0200000000000000 00000000 00000000 00000000 00000000 \
    0200000000000000 00000000 00000000 0000000000000000";

/// RENAME `e` to `a` in the root, unique 13.
const RENAME_E_TO_A: &str =
    "34000000 0c000000 0d00000000000000 0100000000000000 00000000 00000000 00000000 00000000 \
    0100000000000000 6500 6100";

/// The three bytes of `a`, for READ_TEN.
const OLD_BYTES: &str = "13000000 00000000 0500000000000000 616263";

/// The entry of `e` at `a`: node 3, generation 0, an empty file.
const ENTRY_E_AT_A: &str = "90000000 00000000 0700000000000000 \
    0300000000000000 0000000000000000 0100000000000000 0100000000000000 00000000 00000000 \
    0300000000000000 0000000000000000 0000000000000000 \
    0000000000000000 0000000000000000 0000000000000000 00000000 00000000 00000000 \
    a4810000 01000000 00000000 00000000 00000000 00100000 00000000";

/// Files that lose their name while they are open.
const ROWS: &[Row] = &[
    Row {
        says: "a file that is removed is read until its last handle is given up",
        lines: &[
            LOOKUP_A,
            OPEN_A,
            OPEN_AGAIN,
            UNLINK_A,
            READ_TEN,
            RELEASE_ONE,
            RELEASE_TWO,
            RELEASE_TWO,
        ],
        replies: &[
            ENTRY_A,
            OPENED,
            OPENED_AGAIN,
            "10000000 00000000 0a00000000000000",
            OLD_BYTES,
            "10000000 00000000 0b00000000000000",
            "10000000 00000000 0c00000000000000",
            "10000000 f7ffffff 0c00000000000000",
        ],
        ..NOTHING
    },
    Row {
        says: "a file that another takes the place of is read by its handle",
        lines: &[LOOKUP_A, OPEN_A, RENAME_E_TO_A, LOOKUP_A, READ_TEN],
        replies: &[
            ENTRY_A,
            OPENED,
            "10000000 00000000 0d00000000000000",
            ENTRY_E_AT_A,
            OLD_BYTES,
        ],
        ..NOTHING
    },
];

#[test]
fn hidden_frames(rt: HostRuntime) -> Result<(), Fail> {
    run_rows(&rt, rt.alloc(), ROWS)
}
