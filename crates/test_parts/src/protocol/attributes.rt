//! Attributes of the host in requests and in replies.

use crate::protocol::bytes::SIXTEEN;
use crate::protocol::dirents::expect_plus_dirent;
use crate::protocol::frames::{NOBODY, Row, are_read_and_written};
use crate::protocol::replies::Says::{Attr, Created, Given};
use crate::protocol::replies::{OF_A_FILE, Row as Told, are_told};
use payload::{Details, Kind, Time};
use std::test::Fail;
use wire::Operation::{Create, MakeDir, SetAttr};
use wire::{Attributes, Entry, NewAttributes};

/// No two fields that are read have the same bytes.
const ASKED: &[Row] = &[
    Row(
        &[
            "80000000 04000000 0900000000000000 0200000000000000",
            SIXTEEN,
            "ff070000 00000000 0500000000000000 5802000000000000 0000000000000000",
            "0807060504030201 ffffffffffffffff 0000000000000000 ffc99a3b 07000000 00000000",
            "a0810000 00000000 e8030000 64000000 00000000",
        ],
        9,
        2,
        SetAttr {
            valid: 2047,
            fh: 5,
            size: 600,
            attributes: NewAttributes {
                mode: 0o100640,
                uid: 1000,
                gid: 100,
                accessed: Time {
                    seconds: 0x0102030405060708,
                    nanos: 999999999,
                },
                modified: Time {
                    seconds: 0xffffffffffffffff,
                    nanos: 7,
                },
            },
        },
    ),
    Row(
        &[
            "32000000 09000000 0400000000000000 0100000000000000",
            SIXTEEN,
            "f8030000 12000000 6d00",
        ],
        4,
        1,
        MakeDir {
            name: b"m",
            mode: 0o1770,
            umask: 0o022,
        },
    ),
    Row(
        &[
            "3a000000 23000000 0300000000000000 0100000000000000",
            SIXTEEN,
            "02000000 a4810000 3f000000 00000000 6e00",
        ],
        3,
        1,
        Create {
            name: b"n",
            flags: 2,
            mode: 0o100644,
            umask: 0o077,
        },
    ),
];

/// The attributes of a file of 1,025 bytes, which takes three blocks. No two numbers are equal.
const OF_THE_HOST: Attributes = Attributes {
    kind: Kind::File,
    size: 1025,
    details: Details {
        ino: 0x0102030405060708,
        permissions: 0o4751,
        links: 9,
        uid: 1000,
        gid: 100,
        accessed: Time {
            seconds: 0x11,
            nanos: 999999999,
        },
        modified: Time {
            seconds: 0xffffffffffffffff,
            nanos: 0x22,
        },
        changed: Time {
            seconds: 0x6925b6c0,
            nanos: 0x33,
        },
    },
};

/// Its inode number, its size, its blocks and the seconds of its times.
const LONG: &str =
    "0807060504030201 0104000000000000 0300000000000000 1100000000000000 ffffffffffffffff c0b6256900000000";

/// Its nanoseconds, its mode, its links, its owner and its group, and what is the same of all.
const SHORT: &str =
    "ffc99a3b 22000000 33000000 e9890000 09000000 e8030000 64000000 00000000 00100000 00000000";

/// The entry of node 2.
const ENTRY: Entry = Entry {
    node: 2,
    generation: 1,
    attributes: OF_THE_HOST,
};

/// What comes before its attributes.
const NODE: &str =
    "0200000000000000 0100000000000000 0100000000000000 0100000000000000 00000000 00000000";

/// A folder with all permission bits set: the lowest twelve are reported.
const OPEN_FOLDER: Attributes = Attributes {
    kind: Kind::Folder,
    size: 0,
    details: Details {
        ino: 7,
        permissions: 0xffffffff,
        ..OF_A_FILE
    },
};

const TOLD: &[Told] = &[
    Told(
        9,
        Attr(OF_THE_HOST),
        &[
            "78000000 00000000 0900000000000000 0100000000000000 00000000 00000000",
            LONG,
            SHORT,
        ],
    ),
    Told(
        8,
        Attr(OPEN_FOLDER),
        &[
            "78000000 00000000 0800000000000000 0100000000000000 00000000 00000000",
            "0700000000000000",
            SIXTEEN,
            SIXTEEN,
            SIXTEEN,
            "00000000 ff4f0000 01000000 00000000 00000000 00000000 00100000 00000000",
        ],
    ),
    Told(
        7,
        Given(ENTRY),
        &["90000000 00000000 0700000000000000", NODE, LONG, SHORT],
    ),
    Told(
        6,
        Created(ENTRY, 5),
        &[
            "a0000000 00000000 0600000000000000",
            NODE,
            LONG,
            SHORT,
            "0500000000000000 00000000 00000000",
        ],
    ),
];

#[test]
fn attributes_that_are_asked_for(rt: HostRuntime) -> Result<(), Fail> {
    are_read_and_written(rt.alloc(), NOBODY, ASKED)
}

#[test]
fn attributes_that_are_told(rt: HostRuntime) -> Result<(), Fail> {
    are_told(rt.alloc(), TOLD)
}

/// The entry of READDIRPLUS has the inode number twice, and the node number once.
#[test]
fn inode_number_of_an_entry(rt: HostRuntime) -> Result<(), Fail> {
    let texts = [
        NODE,
        LONG,
        SHORT,
        "0807060504030201 0300000000000000 01000000 08000000 6100000000000000",
    ];
    expect_plus_dirent(rt.alloc(), Some(ENTRY), Kind::File, &texts, "its number")
}
