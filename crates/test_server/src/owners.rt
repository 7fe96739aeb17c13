//! Whose is what another user than the server's makes, with attributes of the host, and what is told of a hidden file.

use crate::frames::{AGREED, DESTROY, DESTROYED, INIT};
use crate::host::Host;
use crate::host_attributes::{are_told, known_of};
use crate::pipes::run_words;
use crate::sample_folders::{new_folder, place_of};
use std::os::unix::fs::MetadataExt;
use std::test::Fail;
use std::{fs, io};

/// CREATE `n` in the root by user 1000 and group 100, for reading and writing, unique 3, with mode 0o104755 and no umask.
const CREATE_N: &str = "3a000000 23000000 0300000000000000 0100000000000000 \
    e8030000 64000000 00000000 00000000 02000000 ed890000 00000000 00000000 6e00";

/// MKDIR `m` by the same, unique 4, with mode 0o42755.
const MAKE_M: &str = "32000000 09000000 0400000000000000 0100000000000000 \
    e8030000 64000000 00000000 00000000 ed450000 00000000 6d00";

/// SYMLINK `l` by the same, unique 5, with the text `no/where`.
const SYMLINK_L: &str = "33000000 06000000 0500000000000000 0100000000000000 \
    e8030000 64000000 00000000 00000000 6c00 6e6f2f776865726500";

/// CREATE `k` by user 0 and group 0, unique 9, with mode 0o100644.
const CREATE_K: &str = "3a000000 23000000 0900000000000000 0100000000000000 \
    00000000 00000000 00000000 00000000 02000000 a4810000 00000000 00000000 6b00";

/// UNLINK `k`, which is open, unique 10.
const UNLINK_K: &str =
    "2a000000 0a000000 0a00000000000000 0100000000000000 00000000 00000000 00000000 00000000 6b00";

/// GETATTR of node 5, unique 6.
const ATTRIBUTES_OF_K: &str = "38000000 03000000 0600000000000000 0500000000000000 \
    00000000 00000000 00000000 00000000 00000000 00000000 0000000000000000";

const ASKS: &[&str] = &[
    INIT,
    CREATE_N,
    MAKE_M,
    SYMLINK_L,
    CREATE_K,
    UNLINK_K,
    ATTRIBUTES_OF_K,
    DESTROY,
];

/// The expected replies, with letters for digits that the host has chosen (`are_told`); the file is `n`. All that was
/// made has one owner, and the bits that were asked for, but that `mkdir(2)` sets no set-group-ID bit.
const TOLD: &[&str] = &[
    AGREED,
    "a0000000 00000000 0300000000000000 \
    0200000000000000 0000000000000000 0100000000000000 0100000000000000 00000000 00000000 \
    iiiiiiiiiiiiiiii 0000000000000000 0000000000000000 \
    ................ ................ ................ ........ ........ ........ \
    ed890000 01000000 oooooooo oooooooo 00000000 00100000 00000000 \
    0100000000000000 00000000 00000000",
    "90000000 00000000 0400000000000000 \
    0300000000000000 0000000000000000 0100000000000000 0100000000000000 00000000 00000000 \
    ................ 0000000000000000 0000000000000000 \
    ................ ................ ................ ........ ........ ........ \
    ed410000 ........ oooooooo oooooooo 00000000 00100000 00000000",
    "90000000 00000000 0500000000000000 \
    0400000000000000 0000000000000000 0100000000000000 0100000000000000 00000000 00000000 \
    ................ 0800000000000000 0100000000000000 \
    ................ ................ ................ ........ ........ ........ \
    ffa10000 01000000 oooooooo oooooooo 00000000 00100000 00000000",
    "a0000000 00000000 0900000000000000 \
    0500000000000000 0000000000000000 0100000000000000 0100000000000000 00000000 00000000 \
    ................ 0000000000000000 0000000000000000 \
    ................ ................ ................ ........ ........ ........ \
    a4810000 01000000 ........ ........ 00000000 00100000 00000000 \
    0200000000000000 00000000 00000000",
    "10000000 00000000 0a00000000000000",
    // It is open still, and no name leads to it.
    "78000000 00000000 0600000000000000 0100000000000000 00000000 00000000 \
    ................ 0000000000000000 0000000000000000 \
    ................ ................ ................ ........ ........ ........ \
    a4810000 00000000 ........ ........ 00000000 00100000 00000000",
    DESTROYED,
];

/// The user and the group of what stands there.
fn owner_of(rt: &impl Host, root: &str, name: &str) -> io::Result<(u32, u32)> {
    let place = place_of(rt.alloc(), root, name)?;
    let found = fs::symlink_metadata(rt, place.as_str())?;
    Ok((found.uid(), found.gid()))
}

/// Runs `pipe` on that folder. Returns its status, whether the replies are the expected ones, and whether it wrote
/// nothing to standard error.
fn told_in(rt: &impl Host, host: &HostRuntime, root: &str) -> Result<(u8, bool, bool), Fail> {
    let words = [
        "mirrord",
        "pipe",
        "--root",
        root,
        "--kinds=all",
        "--attributes=host",
    ];
    let out = run_words(rt, host, &words, ASKS, Vec::new(rt.alloc()))?;
    let digits = hex::encode(rt.alloc(), out.output.as_slice())?;
    let known = known_of(rt, root, "n")?;
    let is_told = are_told(&digits, TOLD, &known);
    Ok((out.status, is_told, out.faults.is_empty()))
}

/// To whom it belongs: to the caller, where the server is user 0, and else to the server, whose is `a`.
#[test]
fn what_is_made_belongs_to_its_caller(rt: HostRuntime) -> Result<(), Fail> {
    let root = new_folder(&rt, "owners")?;
    let told = told_in(&rt, &rt, root.as_str())?;
    assert_eq!(rt; told, (0, true, true));
    let wanted = match owner_of(&rt, root.as_str(), "a")? {
        (0, 0) => (1000, 100),
        (0, gid) => (1000, gid),
        own => own,
    };
    for name in ["n", "m", "l"] {
        assert_eq!(rt; owner_of(&rt, root.as_str(), name)?, wanted);
    }
    Ok(())
}
