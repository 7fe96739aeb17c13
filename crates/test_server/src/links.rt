//! Symbolic links in a folder that is served: shown, made, moved and removed, or not shown.

use crate::devices::{Run, run_row};
use crate::frames::{ABSENT, AGREED, DESTROY, DESTROYED, INIT, RENAMED, bytes_of};
use crate::host::Host;
use crate::pipes::run_words;
use crate::sample_folders::{Shown, expect, new_folder, place_of};
use std::os::unix::fs::symlink;
use std::test::Fail;
use std::{fs, io};

/// LOOKUP `s` in the root, unique 7, and its entry: node 2, a link of one byte, of user 1000 and group 100.
pub const LOOKUP_S: &str =
    "2a000000 01000000 0700000000000000 0100000000000000 00000000 00000000 00000000 00000000 7300";

pub const ENTRY_S: &str = "90000000 00000000 0700000000000000 \
    0200000000000000 0000000000000000 0100000000000000 0100000000000000 00000000 00000000 \
    0200000000000000 0100000000000000 0100000000000000 \
    0000000000000000 0000000000000000 0000000000000000 00000000 00000000 00000000 \
    ffa10000 01000000 e8030000 64000000 00000000 00100000 00000000";

/// READLINK of node 2, unique 8, and the text `a`.
const READLINK_S: &str =
    "28000000 05000000 0800000000000000 0200000000000000 00000000 00000000 00000000 00000000";

const TEXT_OF_S: &str = "11000000 00000000 0800000000000000 61";

/// SYMLINK `l` in the root with the text `no/where`, unique 3, and its entry: node 3, a link of eight bytes.
const SYMLINK_L: &str =
    "33000000 06000000 0300000000000000 0100000000000000 00000000 00000000 00000000 00000000 \
    6c00 6e6f2f776865726500";

const ENTRY_L: &str = "90000000 00000000 0300000000000000 \
    0300000000000000 0000000000000000 0100000000000000 0100000000000000 00000000 00000000 \
    0300000000000000 0800000000000000 0100000000000000 \
    0000000000000000 0000000000000000 0000000000000000 00000000 00000000 00000000 \
    ffa10000 01000000 e8030000 64000000 00000000 00100000 00000000";

/// RENAME `l` to `a` in the root, unique 5.
const RENAME_L: &str =
    "34000000 0c000000 0500000000000000 0100000000000000 00000000 00000000 00000000 00000000 \
    0100000000000000 6c00 6100";

/// READLINK of node 3, unique 9, and its text.
const READLINK_L: &str =
    "28000000 05000000 0900000000000000 0300000000000000 00000000 00000000 00000000 00000000";

const TEXT_OF_L: &str = "18000000 00000000 0900000000000000 6e6f2f7768657265";

/// UNLINK `s` in the root, unique 4, which is done.
const UNLINK_S: &str =
    "2a000000 0a000000 0400000000000000 0100000000000000 00000000 00000000 00000000 00000000 7300";

const UNLINKED: &str = "10000000 00000000 0400000000000000";

/// A new folder with the file `a` and the link `s` to it.
pub fn linked_folder(rt: &HostRuntime, name: &str) -> io::Result<String> {
    let root = new_folder(rt, name)?;
    let place = place_of(rt.alloc(), root.as_str(), "s")?;
    symlink(rt, "a", place.as_str())?;
    Ok(root)
}

/// Whether a link is at the name.
pub fn is_link(rt: &impl Host, root: &str, name: &str) -> io::Result<bool> {
    let place = place_of(rt.alloc(), root, name)?;
    let found = fs::symlink_metadata(rt, place.as_str())?;
    Ok(found.file_type().is_symlink())
}

/// Runs `pipe` on that folder, and fails if the replies are not these.
pub fn tell(
    rt: &impl Host,
    host: &HostRuntime,
    root: &str,
    kinds: &str,
    asks: &[&str],
    told: &[&str],
) -> Result<(), Fail> {
    let words = [
        "mirrord",
        "pipe",
        "--root",
        root,
        kinds,
        "--uid=1000",
        "--gid=100",
    ];
    let out = run_words(rt, host, &words, asks, Vec::new(rt.alloc()))?;
    let told = bytes_of(rt.alloc(), told)?;
    let is_told = out.output.as_slice() == told.as_slice();
    if !is_told || out.status != 0 || !out.faults.is_empty() {
        return Err(Fail::from((is_told, out.status)));
    }
    Ok(())
}

#[test]
fn links_are_shown_and_made(rt: HostRuntime) -> Result<(), Fail> {
    let root = linked_folder(&rt, "links")?;
    tell(
        &rt,
        &rt,
        root.as_str(),
        "--kinds=all",
        &[
            INIT, LOOKUP_S, READLINK_S, SYMLINK_L, READLINK_L, RENAME_L, READLINK_L, UNLINK_S,
            DESTROY,
        ],
        &[
            AGREED, ENTRY_S, TEXT_OF_S, ENTRY_L, TEXT_OF_L, RENAMED, TEXT_OF_L, UNLINKED, DESTROYED,
        ],
    )?;
    // The link has replaced the file, and the other one is gone.
    assert!(rt; is_link(&rt, root.as_str(), "a")?);
    expect(
        &rt,
        root.as_str(),
        &[("l", Shown::Nothing), ("s", Shown::Nothing)],
    )
}

/// ENOSYS for unique 8 and unique 3.
const NOT_READ: &str = "10000000 daffffff 0800000000000000";

const NOT_MADE: &str = "10000000 daffffff 0300000000000000";

#[test]
fn links_are_not_shown(rt: HostRuntime) -> Result<(), Fail> {
    let root = linked_folder(&rt, "no-links")?;
    tell(
        &rt,
        &rt,
        root.as_str(),
        "--kinds=files",
        &[INIT, LOOKUP_S, READLINK_S, SYMLINK_L, DESTROY],
        &[AGREED, ABSENT, NOT_READ, NOT_MADE, DESTROYED],
    )?;
    assert!(rt; is_link(&rt, root.as_str(), "s")?);
    expect(
        &rt,
        root.as_str(),
        &[("a", Shown::File(3)), ("l", Shown::Nothing)],
    )
}

// A device shows them where nothing is said, by one thread and by workers.
#[test]
fn links_over_a_device(rt: HostRuntime) -> Result<(), Fail> {
    let row = Run {
        says: "a link is looked up",
        reads: &[Ok(INIT), Ok(LOOKUP_S)],
        writes: &[],
        told: &[AGREED, ENTRY_S],
        status: 0,
        fault: "",
    };
    for by in ["-s", "--workers=1", "--workers=4"] {
        let root = linked_folder(&rt, "device-links")?;
        run_row(&rt, &rt, root.as_str(), by, &row)?;
    }
    Ok(())
}
