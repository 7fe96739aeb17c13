//! Command lines.

use clap::error::ErrorKind;
use mirrord_programs::{Options, read_options};
use mirrord_sessions::{Bounds, Terms, Unserved};
use std::alloc::Global;
use std::test::Fail;
use table::Counts;
use terms::{AttributeSource, Kinds, Names, Settings};

/// A command line, and what it asks for.
#[derive(Clone, Copy)]
struct Asked(&'static [&'static str], Options<'static>);

/// Files and folders alone, whose names are texts, which belong to user 0 and group 0, in a table that may grow as far as it does by default.
const DEFAULT: Terms = Terms {
    settings: Settings {
        attributes: AttributeSource::Fixed { uid: 0, gid: 0 },
        kinds: Kinds::Plain,
        names: Names::Text,
    },
    bounds: Bounds {
        nodes: 65_536,
        files: 4_096,
        requests: 64,
        postings: 1_048_576,
        counts: Counts::Bounded,
    },
};

/// The greatest numbers that there may be.
const MOST: Terms = Terms {
    settings: Settings {
        attributes: AttributeSource::Fixed {
            uid: 4_294_967_295,
            gid: 7,
        },
        kinds: Kinds::Plain,
        names: Names::Text,
    },
    bounds: Bounds {
        nodes: 16_777_216,
        files: 1_048_576,
        requests: 65_536,
        postings: 4_294_967_295,
        counts: Counts::Free,
    },
};

/// The least ones.
const LEAST: Terms = Terms {
    settings: Settings {
        attributes: AttributeSource::Fixed { uid: 0, gid: 1 },
        kinds: Kinds::Plain,
        names: Names::Text,
    },
    bounds: Bounds {
        nodes: 2,
        files: 1,
        requests: 1,
        postings: 1,
        counts: Counts::Bounded,
    },
};

const ASKED: &[Asked] = &[
    Asked(
        &["mirrord", "hex"],
        Options::Hex {
            sample: false,
            kinds: Kinds::Plain,
            postings: 1_048_576,
        },
    ),
    Asked(
        &[
            "mirrord",
            "hex",
            "--sample",
            "--kinds=all",
            "--postings",
            "6",
        ],
        Options::Hex {
            sample: true,
            kinds: Kinds::All,
            postings: 6,
        },
    ),
    Asked(
        &[
            "mirrord",
            "serve",
            "--root",
            "/srv",
            "--socket",
            "/tmp/s",
            "--workers",
            "4",
            "-s",
            "--uid",
            "4294967295",
            "--gid=7",
            "--nodes=16777216",
            "--files",
            "1048576",
            "--requests=65536",
            "--postings=4294967295",
            "--counts=free",
        ],
        Options::Serve {
            root: "/srv",
            socket: "/tmp/s",
            workers: 4,
            single: true,
            terms: MOST,
        },
    ),
    Asked(
        &["mirrord", "serve", "--socket=/tmp/s", "--root=/srv"],
        Options::Serve {
            root: "/srv",
            socket: "/tmp/s",
            workers: 2,
            single: false,
            terms: DEFAULT,
        },
    ),
    Asked(
        &[
            "mirrord",
            "pipe",
            "--gid",
            "1",
            "--root",
            "/srv",
            "--nodes",
            "2",
            "--files=1",
            "--requests=1",
            "--postings=1",
            "--counts",
            "bounded",
        ],
        Options::Pipe {
            root: "/srv",
            terms: LEAST,
        },
    ),
];

#[test]
fn what_is_asked_for(rt: HostRuntime) -> Result<(), Fail> {
    let mut row = 0u32;
    for Asked(words, options) in ASKED {
        if read_options(rt.alloc(), words)? != *options {
            return Err(Fail::from(("other options", row)));
        }
        row = row.saturating_add(1);
    }
    Ok(())
}

/// Checks that the words are refused by an error of this kind, on standard error with status 2 or else with status 0.
fn expect_refused(alloc: Global, words: &[&str], kind: Option<ErrorKind>) -> Result<(), Fail> {
    let Err(error) = read_options(alloc, words) else {
        return Err(Fail::from("it is served"));
    };
    let (is_told, status) = match kind {
        Some(kind) => (error.kind() == kind && !error.use_stderr(), 0),
        None => (error.use_stderr(), 2),
    };
    if is_told && error.exit_code() == status {
        return Ok(());
    }
    Err(Fail::from(("another refusal", error.exit_code())))
}

// Help and the version end with status 0, and are written to standard output.
#[test]
fn help_and_version(rt: HostRuntime) -> Result<(), Fail> {
    for word in ["--help", "-h", "help"] {
        expect_refused(rt.alloc(), &["mirrord", word], Some(ErrorKind::DisplayHelp))?;
    }
    for word in ["--version", "-V"] {
        expect_refused(
            rt.alloc(),
            &["mirrord", word],
            Some(ErrorKind::DisplayVersion),
        )?;
    }
    Ok(())
}

// A command line that is not understood ends with status 2, and a message on standard error.
#[test]
fn bad_command_lines(rt: HostRuntime) -> Result<(), Fail> {
    let bad: [&[&str]; 20] = [
        &["mirrord"],
        &["mirrord", "mount"],
        &["mirrord", "hex", "--smaple"],
        &["mirrord", "hex", "a"],
        &["mirrord", "hex", "--names", "text"],
        &["mirrord", "pipe", "--root", "/", "--names"],
        &["mirrord", "pipe"],
        &["mirrord", "pipe", "--root"],
        &["mirrord", "pipe", "--root", "/", "--uid", "4294967296"],
        &["mirrord", "pipe", "--root", "/", "--gid", "-1"],
        &["mirrord", "hex", "--postings", "0"],
        &["mirrord", "hex", "--postings", "4294967296"],
        &["mirrord", "pipe", "--root", "/", "--nodes", "1"],
        &["mirrord", "pipe", "--root", "/", "--nodes", "16777217"],
        &["mirrord", "pipe", "--root", "/", "--files", "0"],
        &["mirrord", "pipe", "--root", "/", "--requests", "65537"],
        &["mirrord", "serve", "--root", "/"],
        &["mirrord", "serve", "--socket", "/s"],
        &[
            "mirrord",
            "serve",
            "--root",
            "/",
            "--socket",
            "/s",
            "--workers",
            "0",
        ],
        &[
            "mirrord",
            "serve",
            "--root",
            "/",
            "--socket",
            "/s",
            "--workers",
            "5",
        ],
    ];
    for words in bad {
        expect_refused(rt.alloc(), words, None)?;
    }
    Ok(())
}

/// What each reason is worded as.
const REASONS: &[(Unserved, &str)] = &[
    (Unserved::NoFolder, "the folder cannot be opened"),
    (Unserved::NoDescriptors, "/proc/self/fd cannot be used"),
    (Unserved::NoSeed, "no random seed"),
    (Unserved::NoSocket, "no client can be awaited at the path"),
    (Unserved::Memory, "out of memory"),
];

#[test]
fn why_nothing_was_served(rt: HostRuntime) -> Result<(), Fail> {
    for (why, words) in REASONS {
        let told = format!(in rt.alloc(); "{why}")?;
        assert_eq!(rt; told.as_str(), *words);
    }
    Ok(())
}
