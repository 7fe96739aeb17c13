//! Frames of LINK, read and written, and their faults.

use crate::protocol::bytes::SIXTEEN;
use crate::protocol::faults::Piece::{Bytes, Each};
use crate::protocol::faults::{Row as Faulty, are_told};
use crate::protocol::frames::{ALL_ONES, NOBODY, ONES, Row, are_read, are_read_and_written};
use std::test::Fail;
use wire::LINK;
use wire::Operation::Link;
use wire::WireFault::{Body, NameBad, NameLong};

/// Frames in which the bytes that are not read are zero. The header has the folder of the new name, and the body the
/// node that gets it, of any number.
const WRITTEN: &[Row] = &[
    Row(
        &[
            "32000000 0d000000 0400000000000000 0100000000000000",
            SIXTEEN,
            "0200000000000000 6100",
        ],
        4,
        1,
        Link {
            old_node: 2,
            name: b"a",
        },
    ),
    Row(
        &[
            "35000000 0d000000 0500000000000000 0300000000000000",
            SIXTEEN,
            "0102030405060708 6c6f6e6700",
        ],
        5,
        3,
        Link {
            old_node: 0x0807060504030201,
            name: b"long",
        },
    ),
    Row(
        &[
            "33000000 0d000000 0600000000000000 0200000000000000",
            SIXTEEN,
            "0000000000000000 c3bc00",
        ],
        6,
        2,
        Link {
            old_node: 0,
            name: b"\xc3\xbc",
        },
    ),
];

/// The process in the header is not read.
const READ: &[Row] = &[Row(
    &[
        "32000000 0d000000 0700000000000000 0100000000000000",
        ONES,
        "ffffffffffffffff 6d00",
    ],
    7,
    1,
    Link {
        old_node: 0xffffffffffffffff,
        name: b"m",
    },
)];

/// The number has fewer than eight bytes, or after it there is no zero byte, or the first is not the last byte. That is
/// found before the name is tested.
const BODIES: &[Faulty] = &[
    Faulty(LINK, &[], Some(Body)),
    Faulty(LINK, &[Each(0, 7)], Some(Body)),
    Faulty(LINK, &[Bytes(b"a\0")], Some(Body)),
    Faulty(LINK, &[Each(0, 8)], Some(Body)),
    Faulty(LINK, &[Each(0, 8), Bytes(b"a")], Some(Body)),
    Faulty(LINK, &[Each(0, 8), Bytes(b"a\0b")], Some(Body)),
    Faulty(LINK, &[Each(0, 8), Bytes(b"a\0\0")], Some(Body)),
    Faulty(LINK, &[Each(0, 8), Bytes(b"a\0b\0")], Some(Body)),
    Faulty(LINK, &[Each(0, 8), Bytes(b"/")], Some(Body)),
    Faulty(LINK, &[Each(0, 8), Bytes(b".\0.\0")], Some(Body)),
    Faulty(LINK, &[Each(0, 8), Each(b'n', 256)], Some(Body)),
];

/// The name is tested as any other, and the number of the old node is not.
const NAMES: &[Faulty] = &[
    Faulty(LINK, &[Each(0, 8), Bytes(b"a\0")], None),
    Faulty(LINK, &[Each(0xff, 8), Bytes(b"...\0")], None),
    Faulty(LINK, &[Each(0, 8), Each(b'n', 255), Each(0, 1)], None),
    Faulty(
        LINK,
        &[Each(0, 8), Each(b'n', 256), Each(0, 1)],
        Some(NameLong),
    ),
    Faulty(
        LINK,
        &[Each(0, 8), Each(b'/', 256), Each(0, 1)],
        Some(NameLong),
    ),
    Faulty(LINK, &[Each(0, 9)], Some(NameBad)),
    Faulty(LINK, &[Each(0, 8), Bytes(b".\0")], Some(NameBad)),
    Faulty(LINK, &[Each(0, 8), Bytes(b"..\0")], Some(NameBad)),
    Faulty(LINK, &[Each(0, 8), Bytes(b"/\0")], Some(NameBad)),
    Faulty(LINK, &[Each(0, 8), Bytes(b"m/n\0")], Some(NameBad)),
    Faulty(LINK, &[Each(0, 8), Bytes(b"a\xff\0")], Some(NameBad)),
];

#[test]
fn frames_of_hard_links(rt: HostRuntime) -> Result<(), Fail> {
    are_read_and_written(rt.alloc(), NOBODY, WRITTEN)?;
    are_read(rt.alloc(), ALL_ONES, READ)
}

#[test]
fn faulty_frames_of_hard_links(rt: HostRuntime) -> Result<(), Fail> {
    are_told(rt.alloc(), BODIES)?;
    are_told(rt.alloc(), NAMES)
}
