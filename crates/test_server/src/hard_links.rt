//! Further names for files of a folder that is served: one file at two names, or none where links are not shown.

use crate::devices::{Run, run_row};
use crate::frames::{
    AGREED, ATTRIBUTES, ATTRIBUTES_OF_THREE, DESTROY, DESTROYED, ENTRY_A, ENTRY_OF_M_ALONE, INIT,
    LOOKUP_A, MAKE_M,
};
use crate::host::Host;
use crate::host_attributes::{are_told, known_of};
use crate::links::{ENTRY_S, LOOKUP_S, is_link, linked_folder, tell};
use crate::pipes::run_words;
use crate::sample_folders::{Shown, expect, new_folder};
use std::test::Fail;

/// LINK of node 2 to `l` in the root, unique 3, and its entry: node 3, generation 0, a file of three bytes, of user 1000
/// and group 100.
const LINK_L: &str =
    "32000000 0d000000 0300000000000000 0100000000000000 00000000 00000000 00000000 00000000 \
    0200000000000000 6c00";

const ENTRY_L: &str = "90000000 00000000 0300000000000000 \
    0300000000000000 0000000000000000 0100000000000000 0100000000000000 00000000 00000000 \
    0300000000000000 0300000000000000 0100000000000000 \
    0000000000000000 0000000000000000 0000000000000000 00000000 00000000 00000000 \
    a4810000 01000000 e8030000 64000000 00000000 00100000 00000000";

/// The same LINK again, unique 13, and EEXIST.
const LINK_AGAIN: &str =
    "32000000 0d000000 0d00000000000000 0100000000000000 00000000 00000000 00000000 00000000 \
    0200000000000000 6c00";

const TAKEN: &str = "10000000 efffffff 0d00000000000000";

/// The attributes of node 3, unique 6.
const ARE_OF_L: &str = "78000000 00000000 0600000000000000 0100000000000000 00000000 00000000 \
    0300000000000000 0300000000000000 0100000000000000 \
    0000000000000000 0000000000000000 0000000000000000 00000000 00000000 00000000 \
    a4810000 01000000 e8030000 64000000 00000000 00100000 00000000";

/// OPEN of node 3 for reading and writing, unique 14, and the first handle.
const OPEN_L: &str =
    "30000000 0e000000 0e00000000000000 0300000000000000 00000000 00000000 00000000 00000000 02000000 00000000";

const OPENED_L: &str = "20000000 00000000 0e00000000000000 0100000000000000 00000000 00000000";

/// READ of ten bytes by handle 1 of node 3, unique 15, and `abc`.
const READ_L: &str = "50000000 0f000000 0f00000000000000 0300000000000000 \
    00000000 00000000 00000000 00000000 0100000000000000 0000000000000000 0a000000 00000000 \
    0000000000000000 00000000 00000000";

const BYTES_OF_L: &str = "13000000 00000000 0f00000000000000 616263";

/// WRITE of `de` at byte 3 by handle 1 of node 3, unique 16, and two bytes.
const WRITE_L: &str = "52000000 10000000 1000000000000000 0300000000000000 \
    00000000 00000000 00000000 00000000 0100000000000000 0300000000000000 02000000 00000000 \
    0000000000000000 00000000 00000000 6465";

const WROTE_L: &str = "18000000 00000000 1000000000000000 02000000 00000000";

/// GETATTR of node 2, unique 17: what was written at the other name.
const ATTRIBUTES_OF_A: &str = "38000000 03000000 1100000000000000 0200000000000000 \
    00000000 00000000 00000000 00000000 00000000 00000000 00000000 00000000";

const ARE_FIVE_BYTES: &str =
    "78000000 00000000 1100000000000000 0100000000000000 00000000 00000000 \
    0200000000000000 0500000000000000 0100000000000000 \
    0000000000000000 0000000000000000 0000000000000000 00000000 00000000 00000000 \
    a4810000 01000000 e8030000 64000000 00000000 00100000 00000000";

/// RELEASE of handle 1 of node 3, unique 18, which is done.
const RELEASE_L: &str = "40000000 12000000 1200000000000000 0300000000000000 \
    00000000 00000000 00000000 00000000 0100000000000000 00000000 00000000 0000000000000000";

const RELEASED_L: &str = "10000000 00000000 1200000000000000";

/// UNLINK `a` in the root, unique 4, which is done.
const UNLINK_A: &str =
    "2a000000 0a000000 0400000000000000 0100000000000000 00000000 00000000 00000000 00000000 6100";

const UNLINKED: &str = "10000000 00000000 0400000000000000";

/// LOOKUP `l` in the root, unique 8, and its entry: still node 3, a file of five bytes.
const LOOKUP_L: &str =
    "2a000000 01000000 0800000000000000 0100000000000000 00000000 00000000 00000000 00000000 6c00";

const ENTRY_OF_FIVE: &str = "90000000 00000000 0800000000000000 \
    0300000000000000 0000000000000000 0100000000000000 0100000000000000 00000000 00000000 \
    0300000000000000 0500000000000000 0100000000000000 \
    0000000000000000 0000000000000000 0000000000000000 00000000 00000000 00000000 \
    a4810000 01000000 e8030000 64000000 00000000 00100000 00000000";

/// LINK of node 2, which has no name any more, to `m`, unique 9, and ESTALE.
const LINK_M: &str =
    "32000000 0d000000 0900000000000000 0100000000000000 00000000 00000000 00000000 00000000 \
    0200000000000000 6d00";

const STALE: &str = "10000000 8cffffff 0900000000000000";

#[test]
fn a_file_at_two_names(rt: HostRuntime) -> Result<(), Fail> {
    let root = new_folder(&rt, "hard-links")?;
    tell(
        &rt,
        &rt,
        root.as_str(),
        "--kinds=all",
        &[
            INIT,
            LOOKUP_A,
            LINK_L,
            LINK_AGAIN,
            ATTRIBUTES_OF_THREE,
            OPEN_L,
            READ_L,
            WRITE_L,
            ATTRIBUTES_OF_A,
            RELEASE_L,
            UNLINK_A,
            LOOKUP_L,
            LINK_M,
            DESTROY,
        ],
        &[
            AGREED,
            ENTRY_A,
            ENTRY_L,
            TAKEN,
            ARE_OF_L,
            OPENED_L,
            BYTES_OF_L,
            WROTE_L,
            ARE_FIVE_BYTES,
            RELEASED_L,
            UNLINKED,
            ENTRY_OF_FIVE,
            STALE,
            DESTROYED,
        ],
    )?;
    // One name is gone, and the file is at the other.
    expect(
        &rt,
        root.as_str(),
        &[
            ("a", Shown::Nothing),
            ("l", Shown::File(5)),
            ("m", Shown::Nothing),
        ],
    )
}

/// The entry of `l` if node 2 is a link of one byte, which is not followed.
const ENTRY_OF_A_LINK: &str = "90000000 00000000 0300000000000000 \
    0300000000000000 0000000000000000 0100000000000000 0100000000000000 00000000 00000000 \
    0300000000000000 0100000000000000 0100000000000000 \
    0000000000000000 0000000000000000 0000000000000000 00000000 00000000 00000000 \
    ffa10000 01000000 e8030000 64000000 00000000 00100000 00000000";

#[test]
fn a_link_at_two_names(rt: HostRuntime) -> Result<(), Fail> {
    let root = linked_folder(&rt, "linked-links")?;
    tell(
        &rt,
        &rt,
        root.as_str(),
        "--kinds=all",
        &[INIT, LOOKUP_S, LINK_L, DESTROY],
        &[AGREED, ENTRY_S, ENTRY_OF_A_LINK, DESTROYED],
    )?;
    assert!(rt; is_link(&rt, root.as_str(), "s")?);
    assert!(rt; is_link(&rt, root.as_str(), "l")?);
    Ok(())
}

/// EPERM and ENOSYS for unique 3.
const NOT_ALLOWED: &str = "10000000 ffffffff 0300000000000000";

const NOT_SERVED: &str = "10000000 daffffff 0300000000000000";

#[test]
fn no_further_name(rt: HostRuntime) -> Result<(), Fail> {
    // What is not served, and a folder, which the system refuses.
    for (kinds, ask, entry, told) in [
        ("--kinds=files", LOOKUP_A, ENTRY_A, NOT_SERVED),
        ("--kinds=all", MAKE_M, ENTRY_OF_M_ALONE, NOT_ALLOWED),
    ] {
        let root = new_folder(&rt, "no-hard-links")?;
        tell(
            &rt,
            &rt,
            root.as_str(),
            kinds,
            &[INIT, ask, LINK_L, DESTROY],
            &[AGREED, entry, told, DESTROYED],
        )?;
        expect(
            &rt,
            root.as_str(),
            &[("a", Shown::File(3)), ("l", Shown::Nothing)],
        )?;
    }
    Ok(())
}

/// What is told with attributes of the host, with letters for digits that it has chosen (`are_told`); the file is `l`.
/// Both nodes have its inode number, and how many names it has is counted.
const TOLD_OF_HOST: &[&str] = &[
    AGREED,
    "90000000 00000000 0700000000000000 \
    0200000000000000 0000000000000000 0100000000000000 0100000000000000 00000000 00000000 \
    iiiiiiiiiiiiiiii 0300000000000000 0100000000000000 \
    ................ ................ ................ ........ ........ ........ \
    ........ 01000000 oooooooo oooooooo 00000000 00100000 00000000",
    "90000000 00000000 0300000000000000 \
    0300000000000000 0000000000000000 0100000000000000 0100000000000000 00000000 00000000 \
    iiiiiiiiiiiiiiii 0300000000000000 0100000000000000 \
    ................ ................ ................ ........ ........ ........ \
    ........ 02000000 oooooooo oooooooo 00000000 00100000 00000000",
    "78000000 00000000 0600000000000000 0100000000000000 00000000 00000000 \
    iiiiiiiiiiiiiiii 0300000000000000 0100000000000000 \
    ................ ................ ................ ........ ........ ........ \
    ........ 02000000 oooooooo oooooooo 00000000 00100000 00000000",
    UNLINKED,
    "78000000 00000000 0600000000000000 0100000000000000 00000000 00000000 \
    iiiiiiiiiiiiiiii 0300000000000000 0100000000000000 \
    ................ ................ ................ ........ ........ ........ \
    ........ 01000000 oooooooo oooooooo 00000000 00100000 00000000",
    DESTROYED,
];

/// Runs `pipe` on that folder. Returns its status, whether the replies are the expected ones, and whether it wrote
/// nothing to standard error.
fn told_in(rt: &impl Host, host: &HostRuntime, root: &str) -> Result<(u8, bool, bool), Fail> {
    let words = [
        "mirrord",
        "pipe",
        "--root",
        root,
        "--kinds=all",
        "--attributes=host",
    ];
    let asks = [
        INIT,
        LOOKUP_A,
        LINK_L,
        ATTRIBUTES,
        UNLINK_A,
        ATTRIBUTES_OF_THREE,
        DESTROY,
    ];
    let out = run_words(rt, host, &words, &asks, Vec::new(rt.alloc()))?;
    let digits = hex::encode(rt.alloc(), out.output.as_slice())?;
    let known = known_of(rt, root, "l")?;
    let is_told = are_told(&digits, TOLD_OF_HOST, &known);
    Ok((out.status, is_told, out.faults.is_empty()))
}

#[test]
fn names_are_counted(rt: HostRuntime) -> Result<(), Fail> {
    let root = new_folder(&rt, "counted-names")?;
    let told = told_in(&rt, &rt, root.as_str())?;
    assert_eq!(rt; told, (0, true, true));
    Ok(())
}

// A device serves it where nothing is said, by one thread and by a worker.
#[test]
fn hard_links_over_a_device(rt: HostRuntime) -> Result<(), Fail> {
    let row = Run {
        says: "a file gets a further name",
        reads: &[Ok(INIT), Ok(LOOKUP_A), Ok(LINK_L)],
        writes: &[],
        told: &[AGREED, ENTRY_A, ENTRY_L],
        status: 0,
        fault: "",
    };
    for by in ["-s", "--workers=1"] {
        let root = new_folder(&rt, "device-hard-links")?;
        run_row(&rt, &rt, root.as_str(), by, &row)?;
    }
    Ok(())
}
