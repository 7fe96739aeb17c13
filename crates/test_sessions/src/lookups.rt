//! LOOKUP and FORGET from bytes to bytes. Each run ends with status 0.

use crate::frames::{
    ABSENT, ENTRY_A, ENTRY_D, ENTRY_E_REBORN, FORGET_FIVE, LOOKUP_A, LOOKUP_D, LOOKUP_E, LOOKUP_ZZ,
};
use crate::row::{NOTHING, Row, run_bytes, run_row};
use std::alloc::{AllocError, Global};
use std::random::RandomSource;
use std::sync::Wait;
use std::test::Fail;

/// Frames and their replies.
fn expect<'a>(
    rt: &(impl Wait + RandomSource),
    alloc: Global,
    lines: &'a [&'a str],
    replies: &'a [&'a str],
) -> Result<(), Fail> {
    let row = Row {
        says: "frames and their replies",
        lines,
        replies,
        ..NOTHING
    };
    run_row(rt, alloc, &row)
}

#[test]
fn fresh_lookup(rt: HostRuntime) -> Result<(), Fail> {
    expect(&rt, rt.alloc(), &[LOOKUP_A], &[ENTRY_A])
}

#[test]
fn folder_lookup(rt: HostRuntime) -> Result<(), Fail> {
    expect(&rt, rt.alloc(), &[LOOKUP_D], &[ENTRY_D])
}

#[test]
fn absent_name(rt: HostRuntime) -> Result<(), Fail> {
    expect(&rt, rt.alloc(), &[LOOKUP_ZZ], &[ABSENT])
}

/// A FORGET gets no reply.
#[test]
fn lookup_then_forget(rt: HostRuntime) -> Result<(), Fail> {
    let lines = [LOOKUP_A, FORGET_FIVE, LOOKUP_ZZ];
    expect(&rt, rt.alloc(), &lines, &[ENTRY_A, ABSENT])
}

/// A FORGET of more than the count takes the whole count: the node is dropped, and its number is born again.
#[test]
fn forget_above_count(rt: HostRuntime) -> Result<(), Fail> {
    let lines = [LOOKUP_A, LOOKUP_A, FORGET_FIVE, LOOKUP_E];
    expect(&rt, rt.alloc(), &lines, &[ENTRY_A, ENTRY_A, ENTRY_E_REBORN])
}

/// Opcode 5, unique 6: ENOSYS.
#[test]
fn unknown_opcode(rt: HostRuntime) -> Result<(), Fail> {
    let lines = [
        "28000000 05000000 0600000000000000 0100000000000000 00000000 00000000 00000000 00000000",
    ];
    expect(
        &rt,
        rt.alloc(),
        &lines,
        &["10000000 daffffff 0600000000000000"],
    )
}

/// A FORGET without its count, an INTERRUPT and a BATCH_FORGET are never answered.
#[test]
fn no_reply_to_faulty_forgets(rt: HostRuntime) -> Result<(), Fail> {
    let lines = [
        "28000000 02000000 0600000000000000 0100000000000000 00000000 00000000 00000000 00000000",
        "28000000 24000000 0600000000000000 0100000000000000 00000000 00000000 00000000 00000000",
        "28000000 2a000000 0600000000000000 0100000000000000 00000000 00000000 00000000 00000000",
        LOOKUP_ZZ,
    ];
    expect(&rt, rt.alloc(), &lines, &[ABSENT])
}

/// An empty name and `..` are EINVAL.
#[test]
fn lawless_names(rt: HostRuntime) -> Result<(), Fail> {
    let lines = [
        "29000000 01000000 0700000000000000 0100000000000000 00000000 00000000 00000000 00000000 00",
        "2b000000 01000000 0700000000000000 0100000000000000 00000000 00000000 00000000 00000000 2e2e00",
    ];
    let invalid = "10000000 eaffffff 0700000000000000";
    expect(&rt, rt.alloc(), &lines, &[invalid, invalid])
}

/// A LOOKUP in the root, unique 7, of a name with that many bytes. Its frame is 41 bytes longer, and begins with its
/// length.
fn long_lookup(alloc: Global, len: &[u8], bytes: usize) -> Result<Vec<u8>, AllocError> {
    let mut line = Vec::new(alloc);
    line.extend_from_slice(len)?;
    line.extend_from_slice(AFTER_LENGTH)?;
    for _byte in 0..bytes {
        line.extend_from_slice(b"6e")?;
    }
    line.extend_from_slice(b"00\n")?;
    Ok(line)
}

/// The header of that frame after its length.
const AFTER_LENGTH: &[u8] =
    b"010000000700000000000000010000000000000000000000000000000000000000000000";

/// A name may have 255 bytes, and this one does not exist.
#[test]
fn longest_name(rt: HostRuntime) -> Result<(), Fail> {
    let line = long_lookup(rt.alloc(), b"28010000", 255)?;
    run_bytes(&rt, rt.alloc(), line.as_slice(), &[ABSENT])
}

/// ENAMETOOLONG.
const TOO_LONG: &str = "10000000 dcffffff 0700000000000000";

/// It may not have 256 bytes.
#[test]
fn too_long_name(rt: HostRuntime) -> Result<(), Fail> {
    let line = long_lookup(rt.alloc(), b"29010000", 256)?;
    run_bytes(&rt, rt.alloc(), line.as_slice(), &[TOO_LONG])
}

/// LOOKUP `.fuse_hiddenx` in the root, and in an unknown folder: ENOENT before anything else is looked at.
#[test]
fn reserved_name(rt: HostRuntime) -> Result<(), Fail> {
    let lines = [
        "36000000 01000000 0700000000000000 0100000000000000 00000000 00000000 00000000 00000000 2e667573655f68696464656e7800",
        "36000000 01000000 0700000000000000 0900000000000000 00000000 00000000 00000000 00000000 2e667573655f68696464656e7800",
    ];
    expect(&rt, rt.alloc(), &lines, &[ABSENT, ABSENT])
}

/// LOOKUP `a` in node 9, which is unknown: ESTALE.
#[test]
fn unknown_parent(rt: HostRuntime) -> Result<(), Fail> {
    let lines = [
        "2a000000 01000000 0700000000000000 0900000000000000 00000000 00000000 00000000 00000000 6100",
    ];
    expect(
        &rt,
        rt.alloc(),
        &lines,
        &["10000000 8cffffff 0700000000000000"],
    )
}

/// LOOKUP `a` in node 2.
const LOOKUP_BELOW: &str =
    "2a000000 01000000 0700000000000000 0200000000000000 00000000 00000000 00000000 00000000 6100";

/// Node 2 is the file `a`: ENOTDIR. Then it is the folder `d`: ENOENT.
#[test]
fn lookup_below_a_name(rt: HostRuntime) -> Result<(), Fail> {
    expect(
        &rt,
        rt.alloc(),
        &[LOOKUP_A, LOOKUP_BELOW],
        &[ENTRY_A, "10000000 ecffffff 0700000000000000"],
    )?;
    expect(
        &rt,
        rt.alloc(),
        &[LOOKUP_D, LOOKUP_BELOW],
        &[ENTRY_D, ABSENT],
    )
}
