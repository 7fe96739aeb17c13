//! What is told of each kind: its attributes, with the type bits of the mode and the device number, and its entry in a
//! folder.

use crate::protocol::dirents::{expect_dirent, expect_plus_dirent};
use crate::protocol::replies::Says::{Attr, Given};
use crate::protocol::replies::{OF_A_FILE, Row as Told, TIMES, are_told};
use payload::Special::{Block, Character, Pipe, Socket};
use payload::{Details, Kind};
use std::alloc::Global;
use std::test::Fail;
use wire::{Attributes, Entry};

/// A kind, and in digits its mode with the permissions rw-r--r--, its device number and the type of its entry.
#[derive(Clone, Copy)]
struct Row<'a>(Kind, &'a str, &'a str, &'a str);

/// The devices are 136:5, 259:300 and, with all bits set, 4095:1048575.
const KINDS: &[Row] = &[
    Row(Kind::Folder, "a4410000", "00000000", "04000000"),
    Row(Kind::File, "a4810000", "00000000", "08000000"),
    Row(Kind::Link, "a4a10000", "00000000", "0a000000"),
    Row(Kind::Special(Pipe), "a4110000", "00000000", "01000000"),
    Row(Kind::Special(Socket), "a4c10000", "00000000", "0c000000"),
    Row(
        Kind::Special(Character(0x8805)),
        "a4210000",
        "05880000",
        "02000000",
    ),
    Row(
        Kind::Special(Block(0x11032c)),
        "a4610000",
        "2c031100",
        "06000000",
    ),
    Row(
        Kind::Special(Character(0xffffffff)),
        "a4210000",
        "ffffffff",
        "02000000",
    ),
];

/// What comes before the attributes of node 2.
const NODE: &str =
    "0200000000000000 0100000000000000 0100000000000000 0100000000000000 00000000 00000000";

/// The inode number, the size and the blocks of what is empty.
const EMPTY: &str = "0200000000000000 0000000000000000 0000000000000000";

/// The attributes of a link whose text has five bytes. It has a size as a file has one.
const LINK: Attributes = Attributes {
    kind: Kind::Link,
    size: 5,
    details: Details {
        permissions: 0o777,
        ..OF_A_FILE
    },
};

/// Its attributes in digits.
const OF_A_LINK: &str = "0200000000000000 0500000000000000 0100000000000000";

const TOLD: &[Told] = &[
    Told(
        9,
        Attr(LINK),
        &[
            "78000000 00000000 0900000000000000 0100000000000000 00000000 00000000",
            OF_A_LINK,
            TIMES,
            "ffa10000 01000000 00000000 00000000 00000000 00100000 00000000",
        ],
    ),
    Told(
        8,
        Given(Entry {
            node: 2,
            generation: 1,
            attributes: LINK,
        }),
        &[
            "90000000 00000000 0800000000000000",
            NODE,
            OF_A_LINK,
            TIMES,
            "ffa10000 01000000 00000000 00000000 00000000 00100000 00000000",
        ],
    ),
];

#[test]
fn attributes_of_a_link(rt: HostRuntime) -> Result<(), Fail> {
    are_told(rt.alloc(), TOLD)
}

/// Checks the entry of a kind.
fn expect_entry(alloc: Global, row: Row) -> Result<(), Fail> {
    let Row(kind, _, _, told) = row;
    let texts = [
        "ffffffff00000000 0300000000000000 01000000",
        told,
        "6100000000000000",
    ];
    expect_dirent(alloc, kind, &texts, told)
}

/// The same with its node.
fn expect_node(alloc: Global, row: Row) -> Result<(), Fail> {
    let Row(kind, mode, rdev, told) = row;
    let texts = [
        NODE,
        EMPTY,
        TIMES,
        mode,
        "01000000 00000000 00000000",
        rdev,
        "00100000 00000000",
        "0200000000000000 0300000000000000 01000000",
        told,
        "6100000000000000",
    ];
    let entry = Entry {
        node: 2,
        generation: 1,
        attributes: Attributes {
            kind,
            size: 0,
            details: OF_A_FILE,
        },
    };
    expect_plus_dirent(alloc, Some(entry), kind, &texts, mode)
}

#[test]
fn entries_of_each_kind(rt: HostRuntime) -> Result<(), Fail> {
    for row in KINDS {
        expect_entry(rt.alloc(), *row)?;
    }
    Ok(())
}

#[test]
fn nodes_of_each_kind(rt: HostRuntime) -> Result<(), Fail> {
    for row in KINDS {
        expect_node(rt.alloc(), *row)?;
    }
    Ok(())
}
