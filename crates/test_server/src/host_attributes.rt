//! Attributes of the host over a pipe: what is set or made is reported, and is so in the folder.

use crate::frames::{AGREED, ATTRIBUTES, DESTROY, DESTROYED, FORGET_A, INIT, RELEASE, RENAMED};
use crate::host::Host;
use crate::pipes::run_words;
use crate::sample_folders::{Shown, expect, new_folder, place_of};
use std::os::unix::fs::MetadataExt;
use std::test::Fail;
use std::{fs, io};

/// CREATE `n` in the root, for reading and writing, unique 3, with mode 0o100600 and no umask.
const CREATE_N: &str = "3a000000 23000000 0300000000000000 0100000000000000 \
    00000000 00000000 00000000 00000000 02000000 80810000 00000000 00000000 6e00";

/// SETATTR of node 2, unique 4: only the mode, 0o100640. The size, the times and the owner in the request are ignored.
const SET_MODE: &str = "80000000 04000000 0400000000000000 0200000000000000 \
    00000000 00000000 00000000 00000000 \
    01000000 00000000 0000000000000000 6300000000000000 0000000000000000 \
    0100000000000000 0200000000000000 0300000000000000 04000000 05000000 06000000 \
    a0810000 00000000 e8030000 64000000 00000000";

/// The same, unique 7: only the two times, to 1,000,000,000 seconds and 123,456,789 nanoseconds, and to 1,764,079,296
/// and 999,999,999.
const SET_TIMES: &str = "80000000 04000000 0700000000000000 0200000000000000 \
    00000000 00000000 00000000 00000000 \
    30000000 00000000 0000000000000000 6300000000000000 0000000000000000 \
    00ca9a3b00000000 c0b6256900000000 0300000000000000 15cd5b07 ffc99a3b 06000000 \
    ffffffff 00000000 e8030000 64000000 00000000";

/// The same by handle 1, unique 10: the mode 0o100604, the size 600, and both times, to 5 seconds and 6 nanoseconds,
/// and to 7 and 8.
const SET_MOST: &str = "80000000 04000000 0a00000000000000 0200000000000000 \
    00000000 00000000 00000000 00000000 \
    79000000 00000000 0100000000000000 5802000000000000 0000000000000000 \
    0500000000000000 0700000000000000 0300000000000000 06000000 08000000 06000000 \
    84810000 00000000 e8030000 64000000 00000000";

/// LOOKUP `n` in the root, unique 8.
const LOOKUP_N: &str =
    "2a000000 01000000 0800000000000000 0100000000000000 00000000 00000000 00000000 00000000 6e00";

/// MKDIR `m` in the root, unique 12, with mode 0o41777 and umask 0o002.
const MAKE_M: &str = "32000000 09000000 0c00000000000000 0100000000000000 \
    00000000 00000000 00000000 00000000 ff430000 02000000 6d00";

const ASKS: &[&str] = &[
    INIT, CREATE_N, SET_MODE, SET_TIMES, ATTRIBUTES, SET_MOST, RELEASE, FORGET_A, LOOKUP_N, MAKE_M,
    DESTROY,
];

/// The expected replies, with letters for digits that the host has chosen (`are_told`); the file is `n`.
const TOLD: &[&str] = &[
    AGREED,
    // Node 2, an empty file, and the first handle.
    "a0000000 00000000 0300000000000000 \
    0200000000000000 0000000000000000 0100000000000000 0100000000000000 00000000 00000000 \
    iiiiiiiiiiiiiiii 0000000000000000 0000000000000000 \
    ................ ................ ................ ........ ........ ........ \
    80810000 01000000 oooooooo oooooooo 00000000 00100000 00000000 \
    0100000000000000 00000000 00000000",
    "78000000 00000000 0400000000000000 0100000000000000 00000000 00000000 \
    iiiiiiiiiiiiiiii 0000000000000000 0000000000000000 \
    ................ ................ ................ ........ ........ ........ \
    a0810000 01000000 oooooooo oooooooo 00000000 00100000 00000000",
    "78000000 00000000 0700000000000000 0100000000000000 00000000 00000000 \
    iiiiiiiiiiiiiiii 0000000000000000 0000000000000000 \
    00ca9a3b00000000 c0b6256900000000 ................ 15cd5b07 ffc99a3b ........ \
    a0810000 01000000 oooooooo oooooooo 00000000 00100000 00000000",
    "78000000 00000000 0600000000000000 0100000000000000 00000000 00000000 \
    iiiiiiiiiiiiiiii 0000000000000000 0000000000000000 \
    00ca9a3b00000000 c0b6256900000000 ................ 15cd5b07 ffc99a3b ........ \
    a0810000 01000000 oooooooo oooooooo 00000000 00100000 00000000",
    // 600 bytes in two blocks. The times are set after the size.
    "78000000 00000000 0a00000000000000 0100000000000000 00000000 00000000 \
    iiiiiiiiiiiiiiii 5802000000000000 0200000000000000 \
    0500000000000000 0700000000000000 ................ 06000000 08000000 ........ \
    84810000 01000000 oooooooo oooooooo 00000000 00100000 00000000",
    RENAMED,
    // Number 2 is born again, for the same file.
    "90000000 00000000 0800000000000000 \
    0200000000000000 0100000000000000 0100000000000000 0100000000000000 00000000 00000000 \
    iiiiiiiiiiiiiiii 5802000000000000 0200000000000000 \
    0500000000000000 0700000000000000 ................ 06000000 08000000 ........ \
    84810000 01000000 oooooooo oooooooo 00000000 00100000 00000000",
    // Node 3, a folder of mode 0o41775.
    "90000000 00000000 0c00000000000000 \
    0300000000000000 0000000000000000 0100000000000000 0100000000000000 00000000 00000000 \
    ................ 0000000000000000 0000000000000000 \
    ................ ................ ................ ........ ........ ........ \
    fd430000 ........ oooooooo oooooooo 00000000 00100000 00000000",
    DESTROYED,
];

/// Digits of numbers, eight bytes each, that the system reports for a file.
#[derive(Drop)]
pub struct Known {
    ino: String,
    /// Its owner and its group.
    owner: String,
}

pub fn known_of(rt: &impl Host, root: &str, name: &str) -> io::Result<Known> {
    let place = place_of(rt.alloc(), root, name)?;
    let found = fs::metadata(rt, place.as_str())?;
    let [a, b, c, d] = found.uid().to_le_bytes();
    let [e, f, g, h] = found.gid().to_le_bytes();
    Ok(Known {
        ino: hex::encode(rt.alloc(), found.ino().to_le_bytes())?,
        owner: hex::encode(rt.alloc(), [a, b, c, d, e, f, g, h])?,
    })
}

/// The digit that is expected at the letter with that number. Sixteen such letters in a row are all the digits.
fn known_at(digits: &str, number: usize) -> Option<u8> {
    digits.as_bytes().get(number % 16).copied()
}

/// Whether these are the expected digits. In what is expected, `.` is a digit that depends on the host, `i` is a digit of
/// the file's inode number, and `o` is a digit of the numbers of its owner and group.
pub fn are_told(digits: &str, told: &[&str], known: &Known) -> bool {
    let (mut at, mut inos, mut owners) = (0usize, 0usize, 0usize);
    for piece in told {
        for wanted in piece.as_bytes() {
            if *wanted == b' ' {
                continue;
            }
            let digit = digits.as_bytes().get(at).copied();
            at = at.saturating_add(1);
            let due = match *wanted {
                b'.' => digit,
                b'i' => {
                    inos = inos.saturating_add(1);
                    known_at(&known.ino, inos.saturating_sub(1))
                }
                b'o' => {
                    owners = owners.saturating_add(1);
                    known_at(&known.owner, owners.saturating_sub(1))
                }
                other => Some(other),
            };
            if digit.is_none() || digit != due {
                return false;
            }
        }
    }
    at == digits.len()
}

/// Runs `pipe` on that folder. Returns its status, whether the replies are the expected ones, and whether it wrote
/// nothing to standard error.
fn told_in(rt: &impl Host, host: &HostRuntime, root: &str) -> Result<(u8, bool, bool), Fail> {
    let words = ["mirrord", "pipe", "--root", root, "--attributes", "host"];
    let out = run_words(rt, host, &words, ASKS, Vec::new(rt.alloc()))?;
    let digits = hex::encode(rt.alloc(), out.output.as_slice())?;
    let known = known_of(rt, root, "n")?;
    let is_told = are_told(&digits, TOLD, &known);
    Ok((out.status, is_told, out.faults.is_empty()))
}

#[test]
fn attributes_of_the_host_over_a_pipe(rt: HostRuntime) -> Result<(), Fail> {
    let root = new_folder(&rt, "attributes")?;
    let told = told_in(&rt, &rt, root.as_str())?;
    assert_eq!(rt; told, (0, true, true));
    expect(
        &rt,
        root.as_str(),
        &[
            ("a", Shown::File(3)),
            ("n", Shown::File(600)),
            ("m", Shown::Folder),
        ],
    )
}
