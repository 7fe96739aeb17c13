//! Reading from open files, and writing to them.

use crate::requests::CREATE_N;
use crate::stories::Says::{Attributes, Bytes, Created, Done, Entry, Failed, Opened, Wrote};
use crate::stories::Stands::{File, Nothing};
use crate::stories::{NOTHING, Story, tell_all};
use backing::PlannedFault::{After, Before};
use errno::{EACCES, EFBIG, EIO, ENOENT, ENOSPC};
use std::test::Fail;
use wire::Operation::{Flush, GetAttr, Lookup, Open, Read, Rename, Sync, Write};

/// Bytes that are read and written.
const BYTES: &[Story] = &[
    Story {
        says: "what was written is read, from any offset",
        asks: &[
            (1, CREATE_N),
            (
                2,
                Write {
                    fh: 1,
                    offset: 0,
                    data: b"hello",
                },
            ),
            (
                2,
                Read {
                    fh: 1,
                    offset: 0,
                    size: 131072,
                },
            ),
            (
                2,
                Read {
                    fh: 1,
                    offset: 1,
                    size: 3,
                },
            ),
            (
                2,
                Read {
                    fh: 1,
                    offset: 4,
                    size: 9,
                },
            ),
            (
                2,
                Read {
                    fh: 1,
                    offset: 5,
                    size: 9,
                },
            ),
            (
                2,
                Read {
                    fh: 1,
                    offset: 18446744073709551615,
                    size: 9,
                },
            ),
            (
                2,
                Read {
                    fh: 1,
                    offset: 0,
                    size: 0,
                },
            ),
            (
                2,
                Write {
                    fh: 1,
                    offset: 0,
                    data: b"",
                },
            ),
            (2, GetAttr),
        ],
        replies: &[
            Created(2, 1),
            Wrote(5),
            Bytes(b"hello"),
            Bytes(b"ell"),
            Bytes(b"o"),
            Bytes(b""),
            Bytes(b""),
            Bytes(b""),
            Wrote(0),
            Attributes(2, File(5)),
        ],
        after: &[(&["n"], File(5))],
        ..NOTHING
    },
    Story {
        says: "a gap is filled with zeros, and no file is longer than a million bytes",
        asks: &[
            (1, Lookup { name: b"a" }),
            (2, Open { flags: 2 }),
            (
                2,
                Write {
                    fh: 1,
                    offset: 5,
                    data: b"xy",
                },
            ),
            (
                2,
                Read {
                    fh: 1,
                    offset: 0,
                    size: 9,
                },
            ),
            (
                2,
                Write {
                    fh: 1,
                    offset: 1048575,
                    data: b"xy",
                },
            ),
            (
                2,
                Write {
                    fh: 1,
                    offset: 18446744073709551615,
                    data: b"xy",
                },
            ),
            (
                2,
                Write {
                    fh: 1,
                    offset: 1048576,
                    data: b"",
                },
            ),
        ],
        replies: &[
            Entry(2, File(3)),
            Opened(1),
            Wrote(2),
            Bytes(b"abc\0\0xy"),
            Failed(EFBIG),
            Failed(EFBIG),
            Wrote(0),
        ],
        after: &[(&["a"], File(7))],
        ..NOTHING
    },
    Story {
        says: "it is brought to the disk, and the descriptor closed",
        asks: &[
            (1, Lookup { name: b"a" }),
            (2, Open { flags: 0 }),
            (2, Sync { fh: 1 }),
            (2, Sync { fh: 1 }),
            (2, Flush { fh: 1 }),
            (2, Flush { fh: 1 }),
        ],
        faults: &[(4, After(EIO))],
        replies: &[Entry(2, File(3)), Opened(1), Done, Failed(EIO), Done, Done],
        after: &[(&["a"], File(3))],
        ..NOTHING
    },
    Story {
        says: "the directory fails a read and a write",
        asks: &[
            (1, Lookup { name: b"a" }),
            (2, Open { flags: 2 }),
            (
                2,
                Read {
                    fh: 1,
                    offset: 0,
                    size: 3,
                },
            ),
            (
                2,
                Write {
                    fh: 1,
                    offset: 0,
                    data: b"xyzt",
                },
            ),
            (
                2,
                Read {
                    fh: 1,
                    offset: 0,
                    size: 4,
                },
            ),
        ],
        faults: &[(3, Before(EACCES)), (4, Before(ENOSPC))],
        replies: &[
            Entry(2, File(3)),
            Opened(1),
            Failed(EACCES),
            Failed(ENOSPC),
            Bytes(b"abc"),
        ],
        after: &[(&["a"], File(3))],
        ..NOTHING
    },
    Story {
        says: "an open file is moved, and is read and written still",
        asks: &[
            (1, Lookup { name: b"a" }),
            (2, Open { flags: 2 }),
            (
                1,
                Rename {
                    name: b"a",
                    new_parent: 1,
                    new_name: b"b",
                },
            ),
            (
                2,
                Write {
                    fh: 1,
                    offset: 3,
                    data: b"de",
                },
            ),
            (
                2,
                Read {
                    fh: 1,
                    offset: 0,
                    size: 9,
                },
            ),
            (1, Lookup { name: b"b" }),
            (1, Lookup { name: b"a" }),
        ],
        replies: &[
            Entry(2, File(3)),
            Opened(1),
            Done,
            Wrote(2),
            Bytes(b"abcde"),
            Entry(2, File(5)),
            Failed(ENOENT),
        ],
        after: &[(&["a"], Nothing), (&["b"], File(5))],
        ..NOTHING
    },
];

#[test]
fn bytes_of_files(rt: HostRuntime) -> Result<(), Fail> {
    tell_all(&rt, rt.alloc(), BYTES)
}
