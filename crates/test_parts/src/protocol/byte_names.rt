//! Names of bytes that are no UTF-8: taken where names are bytes, and a fault where they are texts.

use crate::protocol::bytes::SIXTEEN;
use crate::protocol::faults::Piece::{Bytes, Each};
use crate::protocol::faults::{Row as Faulty, are_told, are_told_by};
use crate::protocol::frames::{NOBODY, Row, are_read_by, are_written};
use std::alloc::Global;
use std::test::Fail;
use terms::Names;
use wire::Operation::{Create, Link, Lookup, MakeDir, MakeLink, Rename, Rename2, Unlink};
use wire::WireFault::{Body, NameBad, NameLong};
use wire::{CREATE, LINK, LOOKUP, MKDIR, RENAME, RENAME2, RMDIR, SYMLINK, UNLINK};

/// Each byte of a name is read, and written, as it came: a lone 255, half of a character, and 1 and 127.
const WRITTEN: &[Row] = &[
    Row(
        &[
            "2c000000 01000000 0700000000000000 0100000000000000",
            SIXTEEN,
            "61ff6200",
        ],
        7,
        1,
        Lookup { name: b"a\xffb" },
    ),
    Row(
        &[
            "30000000 06000000 0400000000000000 0100000000000000",
            SIXTEEN,
            "c3 28 00 2fff2e2e00",
        ],
        4,
        1,
        MakeLink {
            name: b"\xc3(",
            text: b"/\xff..",
        },
    ),
    Row(
        &[
            "33000000 09000000 0400000000000000 0100000000000000",
            SIXTEEN,
            "00000000 00000000 c37f00",
        ],
        4,
        1,
        MakeDir {
            name: b"\xc3\x7f",
            mode: 0,
            umask: 0,
        },
    ),
    Row(
        &[
            "2b000000 0a000000 0600000000000000 0100000000000000",
            SIXTEEN,
            "800100",
        ],
        6,
        1,
        Unlink { name: b"\x80\x01" },
    ),
    Row(
        &[
            "36000000 0c000000 0500000000000000 0100000000000000",
            SIXTEEN,
            "0300000000000000 ff00 fefdfc00",
        ],
        5,
        1,
        Rename {
            name: b"\xff",
            new_parent: 3,
            new_name: b"\xfe\xfd\xfc",
        },
    ),
    Row(
        &[
            "33000000 0d000000 0500000000000000 0300000000000000",
            SIXTEEN,
            "0200000000000000 eda000",
        ],
        5,
        3,
        Link {
            old_node: 2,
            name: b"\xed\xa0",
        },
    ),
    Row(
        &[
            "3a000000 23000000 0300000000000000 0100000000000000",
            SIXTEEN,
            "02000000 00000000 00000000 00000000 ff00",
        ],
        3,
        1,
        Create {
            name: b"\xff",
            flags: 2,
            mode: 0,
            umask: 0,
        },
    ),
    Row(
        &[
            "3c000000 2d000000 0b00000000000000 0100000000000000",
            SIXTEEN,
            "0100000000000000 00000000 00000000 6100 ff00",
        ],
        11,
        1,
        Rename2 {
            name: b"a",
            new_parent: 1,
            flags: 0,
            new_name: b"\xff",
        },
    ),
];

/// A fault where names are texts, and none where they are bytes: no byte of 0x80 to 0xff alone is a text, nor a character
/// that is cut or spelled too long, nor half of a pair.
const UNSPELLED: &[Faulty] = &[
    Faulty(LOOKUP, &[Bytes(b"\xff\0")], Some(NameBad)),
    Faulty(LOOKUP, &[Bytes(b"a\xe4\0")], Some(NameBad)),
    Faulty(LOOKUP, &[Bytes(b"\xc3\xa4\xc3\0")], Some(NameBad)),
    Faulty(LOOKUP, &[Bytes(b"\xc0\xaf\0")], Some(NameBad)),
    Faulty(LOOKUP, &[Bytes(b"\xed\xa0\x80\0")], Some(NameBad)),
    Faulty(LOOKUP, &[Each(0xff, 255), Each(0, 1)], Some(NameBad)),
    Faulty(SYMLINK, &[Bytes(b"\xff\0a\0")], Some(NameBad)),
    Faulty(MKDIR, &[Each(0, 8), Bytes(b"\xff\0")], Some(NameBad)),
    Faulty(UNLINK, &[Bytes(b"\xff\0")], Some(NameBad)),
    Faulty(RMDIR, &[Bytes(b"\xff\0")], Some(NameBad)),
    Faulty(RENAME, &[Each(0, 8), Bytes(b"\xff\0b\0")], Some(NameBad)),
    Faulty(RENAME, &[Each(0, 8), Bytes(b"a\0\xff\0")], Some(NameBad)),
    Faulty(LINK, &[Each(0, 8), Bytes(b"\xff\0")], Some(NameBad)),
    Faulty(CREATE, &[Each(0, 16), Bytes(b"\xff\0")], Some(NameBad)),
    Faulty(RENAME2, &[Each(0, 16), Bytes(b"\xff\0b\0")], Some(NameBad)),
    Faulty(RENAME2, &[Each(0, 16), Bytes(b"a\0\xff\0")], Some(NameBad)),
];

/// The same whichever names are taken: a text is taken, and neither an empty name, nor one with a slash, nor one of a
/// folder itself, nor one of more than 255 bytes. The first fault is told: a body's comes before a name's.
const EITHER: &[Faulty] = &[
    Faulty(LOOKUP, &[Bytes(b"\xc3\xa4\0")], None),
    Faulty(LOOKUP, &[Bytes(b"\x01\x7f\0")], None),
    Faulty(LOOKUP, &[Each(b'n', 255), Each(0, 1)], None),
    Faulty(LOOKUP, &[Each(b'n', 256), Each(0, 1)], Some(NameLong)),
    Faulty(LOOKUP, &[Each(0xff, 256), Each(0, 1)], Some(NameLong)),
    Faulty(LOOKUP, &[Each(0, 1)], Some(NameBad)),
    Faulty(LOOKUP, &[Bytes(b".\0")], Some(NameBad)),
    Faulty(LOOKUP, &[Bytes(b"..\0")], Some(NameBad)),
    Faulty(LOOKUP, &[Bytes(b"/\0")], Some(NameBad)),
    Faulty(LOOKUP, &[Bytes(b"\xff/\0")], Some(NameBad)),
    Faulty(LOOKUP, &[Bytes(b"\xff\0\0")], Some(Body)),
    Faulty(LOOKUP, &[Bytes(b"\xff")], Some(Body)),
    Faulty(RENAME, &[Each(0, 8), Bytes(b"..\0\xff\0")], Some(NameBad)),
    Faulty(RENAME, &[Each(0, 8), Bytes(b"a\0..\0")], Some(NameBad)),
];

/// Each is read as its request where names are bytes, and written.
fn are_bytes<'a>(alloc: Global, rows: &[Row<'a>]) -> Result<(), Fail> {
    are_read_by(alloc, Names::Bytes, NOBODY, rows)?;
    are_written(alloc, NOBODY, rows)
}

#[test]
fn names_that_are_no_text(rt: HostRuntime) -> Result<(), Fail> {
    are_bytes(rt.alloc(), WRITTEN)
}

/// Each has its fault where names are texts, and none where they are bytes.
fn are_no_texts(alloc: Global, rows: &[Faulty]) -> Result<(), Fail> {
    are_told(alloc, rows)?;
    for row in rows {
        are_told_by(alloc, Names::Bytes, &[Faulty(row.0, row.1, None)])?;
    }
    Ok(())
}

#[test]
fn names_that_only_one_takes(rt: HostRuntime) -> Result<(), Fail> {
    are_no_texts(rt.alloc(), UNSPELLED)
}

/// Each is told whichever names are taken.
fn are_told_alike(alloc: Global, rows: &[Faulty]) -> Result<(), Fail> {
    are_told(alloc, rows)?;
    are_told_by(alloc, Names::Bytes, rows)
}

#[test]
fn names_that_both_take_or_refuse(rt: HostRuntime) -> Result<(), Fail> {
    are_told_alike(rt.alloc(), EITHER)
}
