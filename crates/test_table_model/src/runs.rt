//! Ten thousand steps on both tables.

use crate::both_runs::{Drive, Manner, drive_both};
use crate::draws::Draws;
use crate::tallies::Came;
use errno::{EAGAIN, EBADF, EINVAL, ENAMETOOLONG, ENFILE, ENOTEMPTY, ESTALE};
use std::test::Fail;
use table::{Counts, Limits};

const STEPS: usize = 10_000;

/// The limits for runs that are not about limits.
const DEFAULT: Limits = Limits {
    nodes: 65_536,
    postings: 1_048_576,
    counts: Counts::Bounded,
    flights: 64,
    files: 4_096,
};

/// Few nodes, requests and open files, so that they run out.
const FEW: Limits = Limits {
    nodes: 8,
    flights: 6,
    files: 5,
    ..DEFAULT
};

/// All results of requests and their ends, except for paths that are too long.
const MUCH: &[Came] = &[
    Came::Begun,
    Came::BegunLink,
    Came::Same,
    Came::MayHide,
    Came::Last,
    Came::Busy,
    Came::Refused(EBADF),
    Came::Refused(ESTALE),
    Came::Refused(EINVAL),
    Came::Refused(ENOTEMPTY),
    Came::Refused(ENFILE),
    Came::Refused(EAGAIN),
    Came::Ended,
    Came::Opened,
    Came::Settled,
    Came::Untaken,
    Came::Forgotten,
];

/// Names of one byte, with that seed.
fn short(seed: u64) -> Draws {
    Draws {
        x: seed,
        longest: 1,
    }
}

#[test]
fn any_steps(rt: HostRuntime) -> Result<(), Fail> {
    drive_both(
        &rt,
        Drive {
            limits: DEFAULT,
            manner: Manner::Any,
            draws: short(1),
            steps: STEPS,
            expected: &[
                Came::Begun,
                Came::BegunLink,
                Came::Ended,
                Came::Settled,
                Came::Refused(ESTALE),
            ],
        },
    )
}

#[test]
fn biased_steps(rt: HostRuntime) -> Result<(), Fail> {
    drive_both(
        &rt,
        Drive {
            limits: FEW,
            manner: Manner::Biased,
            draws: short(1),
            steps: STEPS,
            expected: MUCH,
        },
    )
}

/// Names so long that a path can have at most two of them.
#[test]
fn biased_steps_with_long_names(rt: HostRuntime) -> Result<(), Fail> {
    drive_both(
        &rt,
        Drive {
            limits: FEW,
            manner: Manner::Biased,
            draws: Draws {
                x: 2,
                longest: 1_900,
            },
            steps: STEPS,
            expected: &[Came::Refused(ENAMETOOLONG), Came::MayHide, Came::Last],
        },
    )
}

/// Few postings, which run out.
#[test]
fn biased_steps_with_few_postings(rt: HostRuntime) -> Result<(), Fail> {
    drive_both(
        &rt,
        Drive {
            limits: Limits {
                postings: 200,
                ..DEFAULT
            },
            manner: Manner::Biased,
            draws: short(3),
            steps: 3_000,
            expected: &[Came::Refused(ENFILE), Came::Untaken],
        },
    )
}

/// Free counts, with periods so short that they end for lack of room.
#[test]
fn biased_steps_with_free_counts(rt: HostRuntime) -> Result<(), Fail> {
    drive_both(
        &rt,
        Drive {
            limits: Limits {
                postings: 30,
                counts: Counts::Free,
                ..FEW
            },
            manner: Manner::Biased,
            draws: short(4),
            steps: 3_000,
            expected: &[Came::Refused(ENFILE), Came::Untaken, Came::Forgotten],
        },
    )
}
