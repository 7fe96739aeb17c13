//! A name that is no UTF-8 over a device: taken where nothing is said, and refused where names are texts.

use crate::devices::{Run, run_row};
use crate::frames::{AGREED, ENTRY_OF_M_ALONE, INIT};
use crate::sample_folders::new_folder;
use std::test::Fail;

/// MKDIR of the byte 255 in the root, unique 4. It is node 2, as `m` alone would be.
const MAKE: &str = "32000000 09000000 0400000000000000 0100000000000000 \
    00000000 00000000 00000000 00000000 00000000 00000000 ff00";

/// LOOKUP of it, unique 7, its entry, and EINVAL.
const LOOKUP: &str =
    "2a000000 01000000 0700000000000000 0100000000000000 00000000 00000000 00000000 00000000 ff00";

const ENTRY: &str = "90000000 00000000 0700000000000000 \
    0200000000000000 0000000000000000 0100000000000000 0100000000000000 00000000 00000000 \
    0200000000000000 0000000000000000 0000000000000000 \
    0000000000000000 0000000000000000 0000000000000000 00000000 00000000 00000000 \
    ed410000 02000000 e8030000 64000000 00000000 00100000 00000000";

const INVALID: &str = "10000000 eaffffff 0700000000000000";

/// How it is served, and a session. The first makes the name that the others ask for.
const RUNS: &[(&str, Run)] = &[
    (
        "-s",
        Run {
            says: "a folder is made and looked up",
            reads: &[Ok(INIT), Ok(MAKE), Ok(LOOKUP)],
            writes: &[],
            told: &[AGREED, ENTRY_OF_M_ALONE, ENTRY],
            status: 0,
            fault: "",
        },
    ),
    (
        "--workers=4",
        Run {
            says: "it is looked up by workers",
            reads: &[Ok(INIT), Ok(LOOKUP)],
            writes: &[],
            told: &[AGREED, ENTRY],
            status: 0,
            fault: "",
        },
    ),
    (
        "--names=bytes",
        Run {
            says: "it is looked up where names are bytes",
            reads: &[Ok(INIT), Ok(LOOKUP)],
            writes: &[],
            told: &[AGREED, ENTRY],
            status: 0,
            fault: "",
        },
    ),
    (
        "--names=text",
        Run {
            says: "it is looked up where names are texts",
            reads: &[Ok(INIT), Ok(LOOKUP)],
            writes: &[],
            told: &[AGREED, INVALID],
            status: 0,
            fault: "",
        },
    ),
];

#[test]
fn a_name_that_is_no_text_over_a_device(rt: HostRuntime) -> Result<(), Fail> {
    let root = new_folder(&rt, "byte-names")?;
    for (by, row) in RUNS {
        run_row(&rt, &rt, root.as_str(), by, row)?;
    }
    Ok(())
}
