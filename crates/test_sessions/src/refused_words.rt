//! Command lines that can be read, and say of a folder what nothing is.

use crate::frames::run_words;
use mirrord_programs::{Options, OptionsRefusal, read_options};
use std::test::Fail;

/// A command line that can be read but is refused, why, and what is written on standard error.
#[derive(Clone, Copy)]
struct Refused(&'static [&'static str], OptionsRefusal, &'static str);

const WITH_OWNER: &str = "mirrord: with --attributes host there is no --uid and no --gid\n";

const NEITHER: &str = "mirrord: --attributes is fixed or host\n";

const NO_KINDS: &str = "mirrord: --kinds is files or all\n";

const NO_NAMES: &str = "mirrord: --names is text or bytes\n";

const NO_COUNTS: &str = "mirrord: --counts is bounded or free\n";

const REFUSED: &[Refused] = &[
    Refused(
        &[
            "mirrord",
            "pipe",
            "--root=/",
            "--attributes=host",
            "--uid=1",
        ],
        OptionsRefusal::Owner,
        WITH_OWNER,
    ),
    // The owner that is used by default.
    Refused(
        &[
            "mirrord",
            "pipe",
            "--root=/",
            "--uid=0",
            "--attributes=host",
        ],
        OptionsRefusal::Owner,
        WITH_OWNER,
    ),
    Refused(
        &[
            "mirrord",
            "serve",
            "--root=/",
            "--socket=/s",
            "--attributes",
            "host",
            "--gid",
            "1",
        ],
        OptionsRefusal::Owner,
        WITH_OWNER,
    ),
    Refused(
        &["mirrord", "pipe", "--root=/", "--attributes", "other"],
        OptionsRefusal::Attributes,
        NEITHER,
    ),
    Refused(
        &["mirrord", "pipe", "--root=/", "--attributes="],
        OptionsRefusal::Attributes,
        NEITHER,
    ),
    // A refusal because of the attributes comes before one because of an owner.
    Refused(
        &[
            "mirrord",
            "serve",
            "--root=/",
            "--socket=/s",
            "--attributes=Host",
            "--uid=1",
        ],
        OptionsRefusal::Attributes,
        NEITHER,
    ),
    Refused(
        &["mirrord", "pipe", "--root=/", "--counts", "Free"],
        OptionsRefusal::Counts,
        NO_COUNTS,
    ),
    Refused(
        &["mirrord", "serve", "--root=/", "--socket=/s", "--counts="],
        OptionsRefusal::Counts,
        NO_COUNTS,
    ),
    Refused(
        &["mirrord", "pipe", "--root=/", "--kinds", "All"],
        OptionsRefusal::Kinds,
        NO_KINDS,
    ),
    Refused(
        &["mirrord", "hex", "--kinds="],
        OptionsRefusal::Kinds,
        NO_KINDS,
    ),
    Refused(
        &["mirrord", "device", "--root=/", "--kinds=links"],
        OptionsRefusal::Kinds,
        NO_KINDS,
    ),
    Refused(
        &["mirrord", "pipe", "--root=/", "--names", "Text"],
        OptionsRefusal::Names,
        NO_NAMES,
    ),
    Refused(
        &["mirrord", "serve", "--root=/", "--socket=/s", "--names="],
        OptionsRefusal::Names,
        NO_NAMES,
    ),
    Refused(
        &["mirrord", "device", "--root=/", "--names=utf8"],
        OptionsRefusal::Names,
        NO_NAMES,
    ),
    // A refusal because of the kinds comes before one because of the names, and that before one because of the counts.
    Refused(
        &[
            "mirrord",
            "pipe",
            "--root=/",
            "--names=none",
            "--kinds=none",
        ],
        OptionsRefusal::Kinds,
        NO_KINDS,
    ),
    Refused(
        &[
            "mirrord",
            "pipe",
            "--root=/",
            "--counts=none",
            "--names=none",
        ],
        OptionsRefusal::Names,
        NO_NAMES,
    ),
    // A refusal because of the attributes comes before one because of the kinds, and that before one because of the counts.
    Refused(
        &[
            "mirrord",
            "pipe",
            "--root=/",
            "--kinds=none",
            "--attributes=none",
        ],
        OptionsRefusal::Attributes,
        NEITHER,
    ),
    Refused(
        &[
            "mirrord",
            "pipe",
            "--root=/",
            "--counts=none",
            "--kinds=none",
        ],
        OptionsRefusal::Kinds,
        NO_KINDS,
    ),
    // A refusal because of the attributes comes before one because of the counts.
    Refused(
        &[
            "mirrord",
            "pipe",
            "--root=/",
            "--counts=all",
            "--attributes=host",
            "--gid=1",
        ],
        OptionsRefusal::Owner,
        WITH_OWNER,
    ),
];

#[test]
fn refused_options(rt: HostRuntime) -> Result<(), Fail> {
    let mut row = 0u32;
    for Refused(words, refusal, line) in REFUSED {
        let is_refused = read_options(rt.alloc(), words)? == Options::Refused(*refusal);
        let run = run_words(&rt, &rt, words, &["no digits"])?;
        let is_told = run.faults.as_slice() == line.as_bytes() && run.output.is_empty();
        if !is_refused || run.status != 2 || !is_told {
            return Err(Fail::from(("not refused", row)));
        }
        row = row.saturating_add(1);
    }
    Ok(())
}
