//! Command lines that say what is shown of a folder.

use mirrord_programs::{Options, read_options};
use std::alloc::Global;
use std::test::Fail;
use terms::{AttributeSource, Kinds, Names, Settings};
use test_support::{ALL, ALL_OF_HOST, FIXED, OF_HOST};

/// A command line, and the settings that it leads to.
#[derive(Clone, Copy)]
struct Served(&'static [&'static str], Settings);

/// Fixed attributes of user 5, and of group 7.
const OWNER_FIVE: Settings = Settings {
    attributes: AttributeSource::Fixed { uid: 5, gid: 0 },
    kinds: Kinds::Plain,
    names: Names::Text,
};

const GROUP_SEVEN: Settings = Settings {
    attributes: AttributeSource::Fixed { uid: 0, gid: 7 },
    kinds: Kinds::Plain,
    names: Names::Text,
};

/// Names of any bytes, of files and folders alone, and of all.
const NAMED: Settings = Settings {
    names: Names::Bytes,
    ..FIXED
};

const NAMED_OF_HOST: Settings = Settings {
    names: Names::Bytes,
    ..OF_HOST
};

const ALL_NAMED: Settings = Settings {
    names: Names::Bytes,
    ..ALL
};

const ALL_NAMED_OF_HOST: Settings = Settings {
    names: Names::Bytes,
    ..ALL_OF_HOST
};

const SERVED: &[Served] = &[
    Served(&["mirrord", "pipe", "--root", "/srv"], FIXED),
    Served(
        &["mirrord", "pipe", "--root", "/srv", "--uid", "5"],
        OWNER_FIVE,
    ),
    Served(
        &[
            "mirrord",
            "pipe",
            "--root",
            "/srv",
            "--attributes",
            "fixed",
            "--uid",
            "5",
        ],
        OWNER_FIVE,
    ),
    Served(
        &[
            "mirrord",
            "serve",
            "--gid=7",
            "--attributes=fixed",
            "--root=/srv",
            "--socket=/s",
        ],
        GROUP_SEVEN,
    ),
    Served(
        &["mirrord", "pipe", "--root", "/srv", "--attributes", "host"],
        OF_HOST,
    ),
    Served(
        &[
            "mirrord",
            "serve",
            "--attributes=host",
            "--root=/srv",
            "--socket=/s",
        ],
        OF_HOST,
    ),
    Served(
        &["mirrord", "pipe", "--root", "/srv", "--kinds", "files"],
        FIXED,
    ),
    Served(
        &["mirrord", "pipe", "--root", "/srv", "--kinds", "all"],
        ALL,
    ),
    Served(
        &[
            "mirrord",
            "serve",
            "--kinds=all",
            "--root=/srv",
            "--socket=/s",
            "--attributes=host",
        ],
        ALL_OF_HOST,
    ),
    Served(
        &["mirrord", "pipe", "--root", "/srv", "--names", "text"],
        FIXED,
    ),
    Served(
        &["mirrord", "pipe", "--root", "/srv", "--names", "bytes"],
        NAMED,
    ),
    Served(
        &[
            "mirrord",
            "serve",
            "--names=bytes",
            "--root=/srv",
            "--socket=/s",
        ],
        NAMED,
    ),
    // A kernel is shown all, of the host, under any names.
    Served(&["mirrord", "device", "--root", "/srv"], ALL_NAMED_OF_HOST),
    Served(
        &["mirrord", "device", "--root", "/srv", "--kinds=files"],
        NAMED_OF_HOST,
    ),
    Served(
        &["mirrord", "device", "--root", "/srv", "--attributes=fixed"],
        ALL_NAMED,
    ),
    Served(
        &["mirrord", "device", "--root", "/srv", "--names=text"],
        ALL_OF_HOST,
    ),
    Served(
        &["mirrord", "device", "--root", "/srv", "--names=bytes"],
        ALL_NAMED_OF_HOST,
    ),
];

/// The settings of a command line that serves a folder.
fn settings_of(alloc: Global, words: &[&str]) -> Option<Settings> {
    match read_options(alloc, words) {
        Ok(
            Options::Serve { terms, .. }
            | Options::Pipe { terms, .. }
            | Options::Device { terms, .. },
        ) => Some(terms.settings),
        _ => None,
    }
}

#[test]
fn what_is_shown(rt: HostRuntime) -> Result<(), Fail> {
    let mut row = 0u32;
    for Served(words, settings) in SERVED {
        if settings_of(rt.alloc(), words) != Some(*settings) {
            return Err(Fail::from(("other settings", row)));
        }
        row = row.saturating_add(1);
    }
    Ok(())
}
