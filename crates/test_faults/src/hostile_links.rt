//! Invalid requests of links, where links are shown and where they are not.

use crate::hostile::Frame::{self, Filled, Whole};
use crate::hostile::Row;
use ledger::Posting;
use terms::Kinds;

/// READLINK of the root, and of node 9, which there is not, with a body of four bytes. SYMLINK without a body, with a name alone, of `..`,
/// of a name of 256 bytes, with an empty text, with a text without a zero byte, with bytes behind it, and with a text of 4,096 bytes.
const UNLAWFUL: &[Frame] = &[
    Whole(
        "28000000 05000000 0700000000000000 0100000000000000 00000000 00000000 00000000 00000000",
    ),
    Whole(
        "2c000000 05000000 0700000000000000 0900000000000000 00000000 00000000 00000000 00000000 ffffffff",
    ),
    Whole(
        "28000000 06000000 0700000000000000 0100000000000000 00000000 00000000 00000000 00000000",
    ),
    Whole(
        "2a000000 06000000 0700000000000000 0100000000000000 00000000 00000000 00000000 00000000 6c00",
    ),
    Whole(
        "2d000000 06000000 0700000000000000 0100000000000000 00000000 00000000 00000000 00000000 2e2e00 6100",
    ),
    Filled(
        "2b010000 06000000 0700000000000000 0100000000000000 00000000 00000000 00000000 00000000",
        b'n',
        256,
        "00 6100",
    ),
    Whole(
        "2b000000 06000000 0700000000000000 0100000000000000 00000000 00000000 00000000 00000000 6c00 00",
    ),
    Whole(
        "2b000000 06000000 0700000000000000 0100000000000000 00000000 00000000 00000000 00000000 6c00 61",
    ),
    Whole(
        "2d000000 06000000 0700000000000000 0100000000000000 00000000 00000000 00000000 00000000 6c00 610061",
    ),
    Filled(
        "2b100000 06000000 0700000000000000 0100000000000000 00000000 00000000 00000000 00000000 6c00",
        b't',
        4096,
        "00",
    ),
];

/// LINK without a body, with seven bytes of one, without a name, without a zero byte behind the name, with two of them,
/// with an empty name, with `..`, and with a name of 256 bytes; LINK of the root to `l` and to `.fuse_hiddenx`, and of
/// node 9, which there is not, to `.fuse_hiddenx` and to `l`.
const UNLAWFUL_NAMES: &[Frame] = &[
    Whole(
        "28000000 0d000000 0700000000000000 0100000000000000 00000000 00000000 00000000 00000000",
    ),
    Whole(
        "2f000000 0d000000 0700000000000000 0100000000000000 00000000 00000000 00000000 00000000 \
        02000000000000",
    ),
    Whole(
        "30000000 0d000000 0700000000000000 0100000000000000 00000000 00000000 00000000 00000000 \
        0200000000000000",
    ),
    Whole(
        "31000000 0d000000 0700000000000000 0100000000000000 00000000 00000000 00000000 00000000 \
        0200000000000000 6c",
    ),
    Whole(
        "33000000 0d000000 0700000000000000 0100000000000000 00000000 00000000 00000000 00000000 \
        0200000000000000 6c0000",
    ),
    Whole(
        "31000000 0d000000 0700000000000000 0100000000000000 00000000 00000000 00000000 00000000 \
        0200000000000000 00",
    ),
    Whole(
        "33000000 0d000000 0700000000000000 0100000000000000 00000000 00000000 00000000 00000000 \
        0200000000000000 2e2e00",
    ),
    Filled(
        "31010000 0d000000 0700000000000000 0100000000000000 00000000 00000000 00000000 00000000 \
        0200000000000000",
        b'n',
        256,
        "00",
    ),
    Whole(
        "32000000 0d000000 0700000000000000 0100000000000000 00000000 00000000 00000000 00000000 \
        0100000000000000 6c00",
    ),
    Whole(
        "3e000000 0d000000 0700000000000000 0100000000000000 00000000 00000000 00000000 00000000 \
        0100000000000000 2e667573655f68696464656e7800",
    ),
    Whole(
        "3e000000 0d000000 0700000000000000 0100000000000000 00000000 00000000 00000000 00000000 \
        0900000000000000 2e667573655f68696464656e7800",
    ),
    Whole(
        "32000000 0d000000 0700000000000000 0100000000000000 00000000 00000000 00000000 00000000 \
        0900000000000000 6c00",
    ),
];

/// EINVAL, ESTALE, ENAMETOOLONG, ENOENT, EPERM and ENOSYS for unique 7.
const INVALID: &str = "10000000 eaffffff 0700000000000000";

const STALE: &str = "10000000 8cffffff 0700000000000000";

const TOO_LONG: &str = "10000000 dcffffff 0700000000000000";

const ABSENT: &str = "10000000 feffffff 0700000000000000";

const NOT_ALLOWED: &str = "10000000 ffffffff 0700000000000000";

const UNSERVED: &str = "10000000 daffffff 0700000000000000";

pub const LAWLESS_LINKS: Row = Row {
    says: "lawless links",
    kinds: Kinds::All,
    frames: UNLAWFUL,
    replies: &[
        INVALID, STALE, INVALID, INVALID, INVALID, TOO_LONG, ABSENT, INVALID, INVALID, TOO_LONG,
    ],
    ledger: &[],
};

pub const LINKS_NOT_SHOWN: Row = Row {
    says: "links that are not shown",
    kinds: Kinds::Plain,
    frames: UNLAWFUL,
    replies: &[
        UNSERVED, UNSERVED, UNSERVED, UNSERVED, UNSERVED, UNSERVED, UNSERVED, UNSERVED, UNSERVED,
        UNSERVED,
    ],
    ledger: &[],
};

pub const LAWLESS_HARD_LINKS: Row = Row {
    says: "lawless hard links",
    kinds: Kinds::All,
    frames: UNLAWFUL_NAMES,
    replies: &[
        INVALID,
        INVALID,
        INVALID,
        INVALID,
        INVALID,
        INVALID,
        INVALID,
        TOO_LONG,
        NOT_ALLOWED,
        NOT_ALLOWED,
        NOT_ALLOWED,
        STALE,
    ],
    ledger: &[],
};

pub const HARD_LINKS_NOT_SERVED: Row = Row {
    says: "hard links that are not served",
    kinds: Kinds::Plain,
    frames: UNLAWFUL_NAMES,
    replies: &[
        UNSERVED, UNSERVED, UNSERVED, UNSERVED, UNSERVED, UNSERVED, UNSERVED, UNSERVED, UNSERVED,
        UNSERVED, UNSERVED, UNSERVED,
    ],
    ledger: &[],
};

/// SYMLINK of the longest text, of 4,095 bytes, and the entry of the link, which is node 2.
pub const LONGEST_LINK: Row = Row {
    says: "the longest text of a link",
    kinds: Kinds::All,
    frames: &[Filled(
        "2a100000 06000000 0700000000000000 0100000000000000 00000000 00000000 00000000 00000000 6c00",
        b't',
        4095,
        "00",
    )],
    replies: &[
        "90000000 00000000 0700000000000000 \
        0200000000000000 0000000000000000 0100000000000000 0100000000000000 00000000 00000000 \
        0200000000000000 ff0f000000000000 0800000000000000 \
        0000000000000000 0000000000000000 0000000000000000 00000000 00000000 00000000 \
        ffa10000 01000000 00000000 00000000 00000000 00100000 00000000",
    ],
    ledger: &[
        Posting::Born {
            number: 2,
            generation: 0,
        },
        Posting::Entry {
            number: 2,
            generation: 0,
        },
    ],
};
