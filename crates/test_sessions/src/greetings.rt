//! The beginning and the end of a session: INIT, DESTROY, and frames before and after them.

use crate::frames::{ABSENT, AGREED, DESTROY, INIT, LOOKUP_A, LOOKUP_ZZ};
use crate::row::{NOTHING, Row, run_row, run_rows};
use std::test::Fail;

/// No INIT comes before these lines.
const UNGREETED: Row = Row {
    greets: false,
    ..NOTHING
};

/// INIT 8.0 is answered with the highest version, 7.40 agrees on 7.31 with its four flags, and a third INIT is EIO.
const INITS: Row = Row {
    says: "three times INIT",
    lines: &[
        "38000000 1a000000 0100000000000000 0000000000000000 00000000 00000000 00000000 00000000 \
        08000000 00000000 00000000 00000000",
        "38000000 1a000000 0200000000000000 0000000000000000 00000000 00000000 00000000 00000000 \
        07000000 28000000 00000200 20204400",
        "38000000 1a000000 0300000000000000 0000000000000000 00000000 00000000 00000000 00000000 \
        07000000 1f000000 00000200 00000000",
    ],
    replies: &[
        "50000000 00000000 0100000000000000 07000000 1f000000 \
        0000000000000000 0000000000000000 0000000000000000 0000000000000000 \
        0000000000000000 0000000000000000 0000000000000000",
        "50000000 00000000 0200000000000000 07000000 1f000000 00000100 20204400 \
        0c00 0900 00000100 01000000 1000 0000 \
        0000000000000000 0000000000000000 0000000000000000 0000000000000000",
        "10000000 fbffffff 0300000000000000",
    ],
    ..UNGREETED
};

#[test]
fn init_answers(rt: HostRuntime) -> Result<(), Fail> {
    run_row(&rt, rt.alloc(), &INITS)
}

/// EIO for unique 7 and for unique 2.
const EARLY: &str = "10000000 fbffffff 0700000000000000";

const EARLY_DESTROY: &str = "10000000 fbffffff 0200000000000000";

const BEGINNINGS: &[Row] = &[
    Row {
        says: "minor 22 is EPROTO, and another INIT may follow",
        lines: &[
            "38000000 1a000000 0100000000000000 0000000000000000 00000000 00000000 00000000 00000000 \
            07000000 16000000 00000200 00000000",
            INIT,
            LOOKUP_ZZ,
        ],
        replies: &["10000000 b9ffffff 0100000000000000", AGREED, ABSENT],
        ..UNGREETED
    },
    Row {
        says: "LOOKUP before INIT",
        lines: &[LOOKUP_A],
        replies: &[EARLY],
        ..UNGREETED
    },
    Row {
        says: "DESTROY before INIT is EIO, and the session goes on",
        lines: &[DESTROY, INIT, LOOKUP_ZZ],
        replies: &[EARLY_DESTROY, AGREED, ABSENT],
        ..UNGREETED
    },
    Row {
        says: "an opcode that is not served, before INIT",
        lines: &[
            "28000000 05000000 0700000000000000 0100000000000000 00000000 00000000 00000000 00000000",
        ],
        replies: &[EARLY],
        ..UNGREETED
    },
    Row {
        says: "an INIT of fifteen bytes is EINVAL, and another may follow",
        lines: &[
            "37000000 1a000000 0100000000000000 0000000000000000 00000000 00000000 00000000 00000000 \
            07000000 1f000000 00000200 000000",
            INIT,
        ],
        replies: &["10000000 eaffffff 0100000000000000", AGREED],
        ..UNGREETED
    },
    Row {
        says: "an INIT of fifteen bytes after INIT is EIO",
        lines: &[
            "37000000 1a000000 0700000000000000 0000000000000000 00000000 00000000 00000000 00000000 \
            07000000 1f000000 00000200 000000",
        ],
        replies: &[EARLY],
        ..NOTHING
    },
];

#[test]
fn before_init(rt: HostRuntime) -> Result<(), Fail> {
    run_rows(&rt, rt.alloc(), BEGINNINGS)
}

/// INTERRUPT and BATCH_FORGET, and a FORGET without its count.
const SILENT: &[&str] = &[
    "28000000 24000000 0600000000000000 0100000000000000 00000000 00000000 00000000 00000000",
    "30000000 24000000 0600000000000000 0100000000000000 00000000 00000000 00000000 00000000 0700000000000000",
    "30000000 2a000000 0600000000000000 0100000000000000 00000000 00000000 00000000 00000000 0000000000000000",
    "28000000 02000000 0600000000000000 0100000000000000 00000000 00000000 00000000 00000000",
];

const ENDINGS: &[Row] = &[
    Row {
        says: "what gets no reply, before INIT",
        lines: SILENT,
        ..UNGREETED
    },
    Row {
        says: "what gets no reply",
        lines: SILENT,
        ..NOTHING
    },
    Row {
        says: "DESTROY ends the session, and what follows is dropped",
        lines: &[DESTROY, LOOKUP_ZZ, "27000000", "no digits"],
        replies: &["10000000 00000000 0200000000000000"],
        ..NOTHING
    },
    Row {
        says: "a DESTROY with a body is EINVAL, and the session goes on",
        lines: &[
            "29000000 26000000 0200000000000000 0000000000000000 00000000 00000000 00000000 00000000 00",
            LOOKUP_ZZ,
        ],
        replies: &["10000000 eaffffff 0200000000000000", ABSENT],
        ..NOTHING
    },
];

#[test]
fn silent_frames_and_the_end(rt: HostRuntime) -> Result<(), Fail> {
    run_rows(&rt, rt.alloc(), ENDINGS)
}
