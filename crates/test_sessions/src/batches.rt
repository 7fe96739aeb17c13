//! Lookups that are forgotten in batches, byte for byte.

use crate::frames::{ABSENT, ENTRY_A, ENTRY_E_REBORN, LOOKUP_A, LOOKUP_E, LOOKUP_ZZ};
use crate::row::{NOTHING, Row, run_rows};
use std::test::Fail;

/// BATCH_FORGET of two nodes in three pairs. It gets no reply.
const ROWS: &[Row] = &[
    Row {
        says: "a BATCH_FORGET of (2, 1), (2, 5) and (9, 1) where node 2 has count 3: it is gone",
        lines: &[
            LOOKUP_A,
            LOOKUP_A,
            LOOKUP_A,
            "60000000 2a000000 0900000000000000 0000000000000000 00000000 00000000 00000000 00000000 \
            03000000 00000000 0200000000000000 0100000000000000 0200000000000000 0500000000000000 \
            0900000000000000 0100000000000000",
            LOOKUP_E,
        ],
        replies: &[ENTRY_A, ENTRY_A, ENTRY_A, ENTRY_E_REBORN],
        ..NOTHING
    },
    Row {
        says: "the same with the count 4 does nothing",
        lines: &[
            LOOKUP_A,
            "60000000 2a000000 0900000000000000 0000000000000000 00000000 00000000 00000000 00000000 \
            04000000 00000000 0200000000000000 0100000000000000 0200000000000000 0500000000000000 \
            0900000000000000 0100000000000000",
            LOOKUP_A,
            LOOKUP_ZZ,
        ],
        replies: &[ENTRY_A, ENTRY_A, ABSENT],
        ..NOTHING
    },
];

#[test]
fn batch_forget(rt: HostRuntime) -> Result<(), Fail> {
    run_rows(&rt, rt.alloc(), ROWS)
}
