//! Invalid names, sizes and handles, and lookups that were never given.

use crate::frames::{ENTRY_A, ENTRY_E, LOOKUP_A, LOOKUP_E, OPEN_A, OPENED};
use crate::hostile::Frame::{self, Filled, Whole};
use crate::hostile::Row;
use crate::hostile_links::{
    HARD_LINKS_NOT_SERVED, LAWLESS_HARD_LINKS, LAWLESS_LINKS, LINKS_NOT_SHOWN, LONGEST_LINK,
};
use ledger::Posting;
use terms::Kinds;

/// EINVAL, ENOENT, ENAMETOOLONG, EPERM and EBADF for unique 7, and done.
const INVALID: &str = "10000000 eaffffff 0700000000000000";

const ABSENT: &str = "10000000 feffffff 0700000000000000";

const TOO_LONG: &str = "10000000 dcffffff 0700000000000000";

const NOT_ALLOWED: &str = "10000000 ffffffff 0700000000000000";

const BAD_HANDLE: &str = "10000000 f7ffffff 0700000000000000";

const DONE: &str = "10000000 00000000 0700000000000000";

/// LOOKUP of a name of 255 bytes, and of 256 bytes.
const LONG_NAMES: Row = Row {
    says: "long names",
    kinds: Kinds::Plain,
    frames: &[
        Filled(
            "28010000 01000000 0700000000000000 0100000000000000 00000000 00000000 00000000 00000000",
            b'n',
            255,
            "00",
        ),
        Filled(
            "29010000 01000000 0700000000000000 0100000000000000 00000000 00000000 00000000 00000000",
            b'n',
            256,
            "00",
        ),
    ],
    replies: &[ABSENT, TOO_LONG],
    ledger: &[],
};

/// LOOKUP of `..` and of the byte `ff`, and RENAME with only one zero byte.
const LAWLESS_NAMES: Row = Row {
    says: "lawless names",
    kinds: Kinds::Plain,
    frames: &[
        Whole(
            "2b000000 01000000 0700000000000000 0100000000000000 00000000 00000000 00000000 00000000 2e2e00",
        ),
        Whole(
            "2a000000 01000000 0700000000000000 0100000000000000 00000000 00000000 00000000 00000000 ff00",
        ),
        Whole(
            "32000000 0c000000 0700000000000000 0100000000000000 00000000 00000000 00000000 00000000 \
            0100000000000000 6100",
        ),
    ],
    replies: &[INVALID, INVALID, INVALID],
    ledger: &[],
};

/// LOOKUP of `.fuse_hiddenx`, and CREATE of it with access mode 3, which is not valid.
const RESERVED_NAMES: Row = Row {
    says: "reserved names",
    kinds: Kinds::Plain,
    frames: &[
        Whole(
            "36000000 01000000 0700000000000000 0100000000000000 00000000 00000000 00000000 00000000 \
            2e667573655f68696464656e7800",
        ),
        Whole(
            "46000000 23000000 0700000000000000 0100000000000000 00000000 00000000 00000000 00000000 \
            03000000 00000000 00000000 00000000 2e667573655f68696464656e7800",
        ),
    ],
    replies: &[ABSENT, NOT_ALLOWED],
    ledger: &[],
};

/// One lookup of `a`.
const ONE_ENTRY: &[Posting] = &[
    Posting::Born {
        number: 2,
        generation: 0,
    },
    Posting::Entry {
        number: 2,
        generation: 0,
    },
];

/// READ of 131,072 bytes and of 131,073, and WRITE of 65,536 bytes and of 65,537, with data of that size.
const SIZES: Row = Row {
    says: "sizes",
    kinds: Kinds::Plain,
    frames: &[
        Whole(LOOKUP_A),
        Whole(OPEN_A),
        Whole(
            "50000000 0f000000 0700000000000000 0200000000000000 00000000 00000000 00000000 00000000 \
            0100000000000000 0000000000000000 00000200 00000000 0000000000000000 00000000 00000000",
        ),
        Whole(
            "50000000 0f000000 0700000000000000 0200000000000000 00000000 00000000 00000000 00000000 \
            0100000000000000 0000000000000000 01000200 00000000 0000000000000000 00000000 00000000",
        ),
        Filled(
            "50000100 10000000 0700000000000000 0200000000000000 00000000 00000000 00000000 00000000 \
            0100000000000000 0000000000000000 00000100 00000000 0000000000000000 00000000 00000000",
            b'w',
            65536,
            "",
        ),
        Filled(
            "51000100 10000000 0700000000000000 0200000000000000 00000000 00000000 00000000 00000000 \
            0100000000000000 0000000000000000 01000100 00000000 0000000000000000 00000000 00000000",
            b'w',
            65537,
            "",
        ),
    ],
    replies: &[
        ENTRY_A,
        OPENED,
        "13000000 00000000 0700000000000000 616263",
        INVALID,
        "18000000 00000000 0700000000000000 00000100 00000000",
        INVALID,
    ],
    ledger: ONE_ENTRY,
};

/// RELEASE of handle 1 of node 2.
const RELEASE_ONE: Frame = Whole(
    "40000000 12000000 0700000000000000 0200000000000000 00000000 00000000 00000000 00000000 \
    0100000000000000 00000000 00000000 0000000000000000",
);

/// READ of node 3 by handle 1, of node 2 by handle 2, which is open only for writing, and RELEASE twice.
const HANDLES: Row = Row {
    says: "handles",
    kinds: Kinds::Plain,
    frames: &[
        Whole(LOOKUP_A),
        Whole(OPEN_A),
        Whole(LOOKUP_E),
        Whole(
            "50000000 0f000000 0700000000000000 0300000000000000 00000000 00000000 00000000 00000000 \
            0100000000000000 0000000000000000 0a000000 00000000 0000000000000000 00000000 00000000",
        ),
        Whole(
            "30000000 0e000000 0700000000000000 0200000000000000 00000000 00000000 00000000 00000000 01000000 00000000",
        ),
        Whole(
            "50000000 0f000000 0700000000000000 0200000000000000 00000000 00000000 00000000 00000000 \
            0200000000000000 0000000000000000 0a000000 00000000 0000000000000000 00000000 00000000",
        ),
        RELEASE_ONE,
        RELEASE_ONE,
    ],
    replies: &[
        ENTRY_A,
        OPENED,
        ENTRY_E,
        BAD_HANDLE,
        "20000000 00000000 0700000000000000 0200000000000000 00000000 00000000",
        BAD_HANDLE,
        DONE,
        BAD_HANDLE,
    ],
    ledger: &[
        Posting::Born {
            number: 2,
            generation: 0,
        },
        Posting::Entry {
            number: 2,
            generation: 0,
        },
        Posting::Born {
            number: 3,
            generation: 0,
        },
        Posting::Entry {
            number: 3,
            generation: 0,
        },
    ],
};

/// FORGET of 2^64 - 1 lookups of node 2, whose count is 3, and of 9 lookups of the root. The first forgets three
/// lookups, the second none.
const FORGETS: Row = Row {
    says: "forgets",
    kinds: Kinds::Plain,
    frames: &[
        Whole(LOOKUP_A),
        Whole(LOOKUP_A),
        Whole(LOOKUP_A),
        Whole(
            "30000000 02000000 0700000000000000 0200000000000000 00000000 00000000 00000000 00000000 ffffffffffffffff",
        ),
        Whole(
            "30000000 02000000 0700000000000000 0100000000000000 00000000 00000000 00000000 00000000 0900000000000000",
        ),
    ],
    replies: &[ENTRY_A, ENTRY_A, ENTRY_A],
    ledger: &[
        Posting::Born {
            number: 2,
            generation: 0,
        },
        Posting::Entry {
            number: 2,
            generation: 0,
        },
        Posting::Entry {
            number: 2,
            generation: 0,
        },
        Posting::Entry {
            number: 2,
            generation: 0,
        },
        Posting::Forget {
            number: 2,
            generation: 0,
            amount: 3,
        },
    ],
};

pub const ROWS: &[Row] = &[
    LONG_NAMES,
    LAWLESS_NAMES,
    RESERVED_NAMES,
    SIZES,
    HANDLES,
    FORGETS,
    LAWLESS_LINKS,
    LINKS_NOT_SHOWN,
    LAWLESS_HARD_LINKS,
    HARD_LINKS_NOT_SERVED,
    LONGEST_LINK,
];
