//! Directory entries as READDIR and READDIRPLUS return them, and the lookups that a BATCH_FORGET forgets.

use crate::protocol::bytes::{SIXTEEN, bytes_of, expect_bytes};
use crate::protocol::replies::{OF_A_FILE, expect_reply};
use payload::{Kind, Payload};
use std::alloc::{AllocError, Global};
use std::test::Fail;
use wire::{
    Attributes, Entry, ForgetOne, NO_INO, Reply, ReplyBody, encode_dirent, encode_plus_dirent,
    split_pair,
};

/// The offset of the next entry, its type, its name, and its bytes in digits.
#[derive(Clone, Copy)]
struct Row<'a>(u64, Kind, &'a [u8], &'a [&'a str]);

/// Names of 1, 7, 8 and 9 bytes: the one of 8 needs no padding. A name may be no UTF-8.
const NAMES: &[Row] = &[
    Row(
        1,
        Kind::Folder,
        b".",
        &["ffffffff00000000 0100000000000000 01000000 04000000 2e00000000000000"],
    ),
    Row(
        3,
        Kind::File,
        b"a",
        &["ffffffff00000000 0300000000000000 01000000 08000000 6100000000000000"],
    ),
    Row(
        258,
        Kind::File,
        b"seven--",
        &["ffffffff00000000 0201000000000000 07000000 08000000 736576656e2d2d00"],
    ),
    Row(
        4,
        Kind::Folder,
        b"eight---",
        &["ffffffff00000000 0400000000000000 08000000 04000000 65696768742d2d2d"],
    ),
    Row(
        5,
        Kind::File,
        b"nine-----",
        &["ffffffff00000000 0500000000000000 09000000 08000000 6e696e652d2d2d2d 2d00000000000000"],
    ),
    Row(
        6,
        Kind::File,
        b"\xff\xc3\x01",
        &["ffffffff00000000 0600000000000000 03000000 08000000 ffc3010000000000"],
    ),
];

/// The node that is given with the entry `a`, if any, and the bytes.
struct PlusRow<'a>(Option<Entry>, &'a [&'a str]);

const PLUS: &[PlusRow] = &[
    PlusRow(
        None,
        &[
            SIXTEEN,
            SIXTEEN,
            SIXTEEN,
            SIXTEEN,
            SIXTEEN,
            SIXTEEN,
            SIXTEEN,
            SIXTEEN,
            "ffffffff00000000 0300000000000000 01000000 08000000 6100000000000000",
        ],
    ),
    PlusRow(
        Some(Entry {
            node: 2,
            generation: 1,
            attributes: Attributes {
                kind: Kind::File,
                size: 3,
                details: OF_A_FILE,
            },
        }),
        &[
            "0200000000000000 0100000000000000 0100000000000000 0100000000000000 00000000 00000000",
            "0200000000000000 0300000000000000 0100000000000000",
            SIXTEEN,
            SIXTEEN,
            "00000000",
            "a4810000 01000000 00000000 00000000 00000000 00100000 00000000",
            "0200000000000000 0300000000000000 01000000 08000000 6100000000000000",
        ],
    ),
];

/// Puts the entry behind those before it, and checks that their bytes are there.
fn put_entry(alloc: Global, out: &mut Vec<u8>, wanted: &mut Vec<u8>, row: Row) -> Result<(), Fail> {
    let Row(next, kind, name, bytes) = row;
    wanted.extend_from_slice(&bytes_of(alloc, bytes)?)?;
    encode_dirent(out, NO_INO, next, kind, name)?;
    if out.as_slice() == wanted.as_slice() {
        return Ok(());
    }
    Err(Fail::from(("the entry before", next)))
}

fn put_entries(alloc: Global, out: &mut Vec<u8>, wanted: &mut Vec<u8>) -> Result<(), Fail> {
    for row in NAMES {
        put_entry(alloc, out, wanted, *row)?;
    }
    Ok(())
}

/// Each entry comes after those before it.
#[test]
fn names_of_a_folder(rt: HostRuntime) -> Result<(), Fail> {
    let alloc = rt.alloc();
    put_entries(alloc, &mut Vec::new(alloc), &mut Vec::new(alloc))
}

/// Checks the bytes of the entry `a` that is before offset 3.
pub fn expect_dirent(alloc: Global, kind: Kind, texts: &[&str], what: &str) -> Result<(), Fail> {
    let mut out = Vec::new(alloc);
    encode_dirent(&mut out, NO_INO, 3, kind, b"a")?;
    expect_bytes(alloc, &out, texts, what)
}

/// The same where the entry is given with its node, if any.
pub fn expect_plus_dirent(
    alloc: Global,
    entry: Option<Entry>,
    kind: Kind,
    texts: &[&str],
    what: &str,
) -> Result<(), Fail> {
    let mut out = Vec::new(alloc);
    encode_plus_dirent(&mut out, entry, 3, kind, b"a")?;
    expect_bytes(alloc, &out, texts, what)
}

#[test]
fn names_with_their_nodes(rt: HostRuntime) -> Result<(), Fail> {
    for PlusRow(entry, texts) in PLUS {
        let what = if entry.is_some() { "a node" } else { "no node" };
        expect_plus_dirent(rt.alloc(), *entry, Kind::File, texts, what)?;
    }
    Ok(())
}

/// The entry `.` as the only one of a page.
fn page_of_dot(alloc: Global) -> Result<Vec<u8>, AllocError> {
    let mut page = Vec::new(alloc);
    encode_dirent(&mut page, NO_INO, 1, Kind::Folder, b".")?;
    Ok(page)
}

/// The reply to a READDIR of a folder with only `a` and `b`, from its beginning, in at most 32 bytes.
#[test]
fn first_dirent(rt: HostRuntime) -> Result<(), Fail> {
    const TEXTS: &[&str] = &[
        "30000000 00000000 0700000000000000",
        "ffffffff00000000 0100000000000000 01000000 04000000 2e00000000000000",
    ];
    let page = page_of_dot(rt.alloc())?;
    let reply = Reply {
        unique: 7,
        body: ReplyBody::Data(Payload::new(page)),
    };
    expect_reply(rt.alloc(), &reply, TEXTS)
}

/// Checks that these are all pairs of the batch.
fn expect_pairs(batch: &[u8], pairs: &[ForgetOne]) -> Result<(), Fail> {
    let mut rest = batch;
    for wanted in pairs {
        match split_pair(rest) {
            Some((pair, more)) if pair == *wanted => rest = more,
            _ => return Err(Fail::from(("the pair of", wanted.node))),
        }
    }
    if split_pair(rest).is_none() {
        return Ok(());
    }
    Err(Fail::from("a further pair"))
}

#[test]
fn pairs_of_a_batch(rt: HostRuntime) -> Result<(), Fail> {
    const PAIRS: &[ForgetOne] = &[
        ForgetOne {
            node: 2,
            nlookup: 1,
        },
        ForgetOne {
            node: 9,
            nlookup: 256,
        },
    ];
    let batch = bytes_of(
        rt.alloc(),
        &["0200000000000000 0100000000000000 0900000000000000 0001000000000000 ff"],
    )?;
    expect_pairs(&batch, PAIRS)
}
