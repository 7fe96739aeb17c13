//! Symbolic and hard links, byte for byte, and what is answered where no link is shown.

use crate::row::{NOTHING, Row, run_rows};
use crate::sampled::{Lines, tell_lines};
use std::test::Fail;
use test_support::ALL;

/// SYMLINK `l` in the root with the text `a/b`, unique 3, and its entry: node 2, generation 0, a link of three bytes.
const SYMLINK_L: &str =
    "2e000000 06000000 0300000000000000 0100000000000000 00000000 00000000 00000000 00000000 6c00 612f6200";

const ENTRY_L: &str = "90000000 00000000 0300000000000000 \
    0200000000000000 0000000000000000 0100000000000000 0100000000000000 00000000 00000000 \
    0200000000000000 0300000000000000 0100000000000000 \
    0000000000000000 0000000000000000 0000000000000000 00000000 00000000 00000000 \
    ffa10000 01000000 00000000 00000000 00000000 00100000 00000000";

/// READLINK of node 2, unique 4, without a body and with one, which is not read.
const READLINK_L: &str =
    "28000000 05000000 0400000000000000 0200000000000000 00000000 00000000 00000000 00000000";

const READLINK_MORE: &str =
    "2c000000 05000000 0400000000000000 0200000000000000 00000000 00000000 00000000 00000000 ffffffff";

const TEXT_OF_L: &str = "13000000 00000000 0400000000000000 612f62";

/// LINK of node 2 to `h` in the root, unique 7.
const LINK_H: &str =
    "32000000 0d000000 0700000000000000 0100000000000000 00000000 00000000 00000000 00000000 0200000000000000 6800";

/// What is made is told and read. The name is followed by the text, each with a zero byte behind it.
/// A tree in memory gives no further name.
const SHOWN: Lines = Lines {
    settings: ALL,
    lines: &[
        SYMLINK_L,
        READLINK_L,
        READLINK_MORE,
        // OPENDIR of the root, unique 5, and READDIR from index 5 on, unique 6.
        "30000000 1b000000 0500000000000000 0100000000000000 00000000 00000000 00000000 00000000 00000000 00000000",
        "50000000 1c000000 0600000000000000 0100000000000000 00000000 00000000 00000000 00000000 \
        0100000000000000 0500000000000000 00100000 00000000 0000000000000000 00000000 00000000",
        LINK_H,
    ],
    replies: &[
        ENTRY_L,
        TEXT_OF_L,
        TEXT_OF_L,
        "20000000 00000000 0500000000000000 0100000000000000 00000000 00000000",
        "30000000 00000000 0600000000000000 \
        ffffffff00000000 0600000000000000 01000000 0a000000 6c00000000000000",
        NOT_ALLOWED,
    ],
};

/// Bodies of a SYMLINK, unique 7: none, a name alone, `..`, a text without a zero byte, and an empty text; and a READLINK of the root.
/// LINK without a name, of the root, and of node 2, which there is not.
const UNLAWFUL: &[&str] = &[
    "28000000 06000000 0700000000000000 0100000000000000 00000000 00000000 00000000 00000000",
    "2a000000 06000000 0700000000000000 0100000000000000 00000000 00000000 00000000 00000000 6c00",
    "2d000000 06000000 0700000000000000 0100000000000000 00000000 00000000 00000000 00000000 2e2e00 6100",
    "2b000000 06000000 0700000000000000 0100000000000000 00000000 00000000 00000000 00000000 6c00 61",
    "2b000000 06000000 0700000000000000 0100000000000000 00000000 00000000 00000000 00000000 6c00 00",
    "28000000 05000000 0700000000000000 0100000000000000 00000000 00000000 00000000 00000000",
    "30000000 0d000000 0700000000000000 0100000000000000 00000000 00000000 00000000 00000000 0200000000000000",
    "32000000 0d000000 0700000000000000 0100000000000000 00000000 00000000 00000000 00000000 0100000000000000 6800",
    LINK_H,
];

/// EINVAL, ENOENT, EPERM, ESTALE and ENOSYS for unique 7.
const INVALID: &str = "10000000 eaffffff 0700000000000000";

const ABSENT: &str = "10000000 feffffff 0700000000000000";

const NOT_ALLOWED: &str = "10000000 ffffffff 0700000000000000";

const STALE: &str = "10000000 8cffffff 0700000000000000";

const UNSERVED: &str = "10000000 daffffff 0700000000000000";

const REFUSED: Lines = Lines {
    settings: ALL,
    lines: UNLAWFUL,
    replies: &[
        INVALID,
        INVALID,
        INVALID,
        INVALID,
        ABSENT,
        INVALID,
        INVALID,
        NOT_ALLOWED,
        STALE,
    ],
};

#[test]
fn frames_of_links(rt: HostRuntime) -> Result<(), Fail> {
    for told in [SHOWN, REFUSED] {
        tell_lines(&rt, rt.alloc(), told)?;
    }
    Ok(())
}

/// Where only files and folders are shown.
const PLAIN: &[Row] = &[
    Row {
        says: "whatever their bodies are",
        lines: UNLAWFUL,
        replies: &[
            UNSERVED, UNSERVED, UNSERVED, UNSERVED, UNSERVED, UNSERVED, UNSERVED, UNSERVED,
            UNSERVED,
        ],
        ..NOTHING
    },
    Row {
        says: "a lawful SYMLINK, and READLINK with a body",
        lines: &[SYMLINK_L, READLINK_MORE],
        replies: &[
            "10000000 daffffff 0300000000000000",
            "10000000 daffffff 0400000000000000",
        ],
        ..NOTHING
    },
];

#[test]
fn unserved_frames(rt: HostRuntime) -> Result<(), Fail> {
    run_rows(&rt, rt.alloc(), PLAIN)
}
