//! Frames of requests about symbolic links, read and written, and their faults.

use crate::protocol::bytes::SIXTEEN;
use crate::protocol::faults::Piece::{Bytes, Each};
use crate::protocol::faults::{Row as Faulty, are_told};
use crate::protocol::frames::{ALL_ONES, NOBODY, ONES, Row, are_read, are_read_and_written};
use std::test::Fail;
use wire::Operation::{MakeLink, ReadLink};
use wire::WireFault::{Body, NameBad, NameLong};
use wire::{READLINK, SYMLINK};

/// Frames in which the bytes that are not read are zero. Of the two texts of a SYMLINK the name comes first. The text of
/// the link may be empty, may be no UTF-8, and may have bytes that no name has.
const WRITTEN: &[Row] = &[
    Row(
        &[
            "28000000 05000000 0300000000000000 0200000000000000",
            SIXTEEN,
        ],
        3,
        2,
        ReadLink,
    ),
    Row(
        &[
            "2e000000 06000000 0400000000000000 0100000000000000",
            SIXTEEN,
            "6100 6d2f6e00",
        ],
        4,
        1,
        MakeLink {
            name: b"a",
            text: b"m/n",
        },
    ),
    Row(
        &[
            "33000000 06000000 0500000000000000 0300000000000000",
            SIXTEEN,
            "6c6f6e6700 2fff2e2efe00",
        ],
        5,
        3,
        MakeLink {
            name: b"long",
            text: b"/\xff..\xfe",
        },
    ),
    Row(
        &[
            "2b000000 06000000 0600000000000000 0100000000000000",
            SIXTEEN,
            "6100 00",
        ],
        6,
        1,
        MakeLink {
            name: b"a",
            text: b"",
        },
    ),
];

/// The process in the header is not read, and of a READLINK nothing is that comes after it.
const READ: &[Row] = &[
    Row(
        &["28000000 05000000 0300000000000000 0200000000000000", ONES],
        3,
        2,
        ReadLink,
    ),
    Row(
        &[
            "31000000 05000000 0600000000000000 0200000000000000",
            ONES,
            "0700000000000000 ff",
        ],
        6,
        2,
        ReadLink,
    ),
    Row(
        &[
            "2d000000 06000000 0400000000000000 0100000000000000",
            ONES,
            "6100 6d2f00",
        ],
        4,
        1,
        MakeLink {
            name: b"a",
            text: b"m/",
        },
    ),
];

/// There are not two zero bytes, or the second is not the last byte. That is found before the name is tested.
const BODIES: &[Faulty] = &[
    Faulty(READLINK, &[], None),
    Faulty(READLINK, &[Each(0xff, 9)], None),
    Faulty(SYMLINK, &[], Some(Body)),
    Faulty(SYMLINK, &[Bytes(b"a")], Some(Body)),
    Faulty(SYMLINK, &[Bytes(b"a\0")], Some(Body)),
    Faulty(SYMLINK, &[Bytes(b"a\0b")], Some(Body)),
    Faulty(SYMLINK, &[Bytes(b"a\0b\0c")], Some(Body)),
    Faulty(SYMLINK, &[Bytes(b"a\0b\0\0")], Some(Body)),
    Faulty(SYMLINK, &[Bytes(b"/\0b")], Some(Body)),
];

/// The text of a link is no name: it may be empty, not UTF-8, and longer than any name. Its first text is its name.
const TEXTS: &[Faulty] = &[
    Faulty(SYMLINK, &[Bytes(b"a\0b\0")], None),
    Faulty(SYMLINK, &[Bytes(b"a\0\0")], None),
    Faulty(SYMLINK, &[Bytes(b"a\0../\xff\0")], None),
    Faulty(
        SYMLINK,
        &[Bytes(b"a\0"), Each(b'n', 65536), Each(0, 1)],
        None,
    ),
    Faulty(SYMLINK, &[Bytes(b"\0b\0")], Some(NameBad)),
    Faulty(SYMLINK, &[Bytes(b"m/n\0a\0")], Some(NameBad)),
    Faulty(SYMLINK, &[Bytes(b"\xff\0a\0")], Some(NameBad)),
    Faulty(SYMLINK, &[Each(b'n', 256), Bytes(b"\0a\0")], Some(NameLong)),
];

#[test]
fn frames_about_links(rt: HostRuntime) -> Result<(), Fail> {
    are_read_and_written(rt.alloc(), NOBODY, WRITTEN)?;
    are_read(rt.alloc(), ALL_ONES, READ)
}

#[test]
fn faulty_frames_about_links(rt: HostRuntime) -> Result<(), Fail> {
    are_told(rt.alloc(), BODIES)?;
    are_told(rt.alloc(), TEXTS)
}
