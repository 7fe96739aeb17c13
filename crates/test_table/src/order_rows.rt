//! The order of a begin's tests: the nodes, long paths, moves onto own prefixes, conflicts, room, and the requests in
//! flight. Most steps fail two tests that directly follow each other.

use crate::long_rows::long_name;
use crate::story::Asks::{Move, Name, Node, Remove};
use crate::story::Told::{Busy, Ended, Given, Go, Refused};
use crate::story::{DEFAULT, Outcome, ROOT, Step, Story, Sum};
use crate::teller::run;
use errno::{EAGAIN, EINVAL, ENAMETOOLONG, ENFILE, ENOTEMPTY, ESTALE};
use std::test::Fail;
use table::Limits;

#[test]
fn error_numbers(rt: HostRuntime) {
    assert_eq!(rt;
        (EAGAIN, EINVAL, ENFILE, ENAMETOOLONG, ENOTEMPTY, ESTALE),
        (11, 22, 23, 36, 39, 116)
    );
}

/// Nodes come before conflicts, and these before the requests in flight.
const BUSY_BEFORE_FLIGHTS: Story = Story {
    limits: Limits {
        flights: 1,
        ..DEFAULT
    },
    steps: &[
        Step::Begin(1, Remove(ROOT, "a"), Go),
        Step::Begin(2, Name(ROOT, "e"), Refused(EAGAIN)),
        Step::Begin(2, Remove(ROOT, "e"), Refused(EAGAIN)),
        Step::Begin(2, Move(ROOT, "e", ROOT, "b"), Refused(EAGAIN)),
        Step::Begin(2, Node(ROOT), Refused(EAGAIN)),
        Step::Begin(2, Name(9, "e"), Refused(ESTALE)),
        Step::Begin(2, Remove(9, "e"), Refused(ESTALE)),
        Step::Begin(2, Node(9), Refused(ESTALE)),
        Step::Begin(2, Name(ROOT, "a"), Busy),
        Step::Begin(2, Remove(ROOT, "a"), Busy),
        Step::Begin(2, Move(ROOT, "b", ROOT, "a"), Busy),
    ],
    gathers: Sum::All(0, 0, 0, 0),
};

#[test]
fn order_of_tests(rt: HostRuntime) -> Result<(), Fail> {
    run(&rt, &BUSY_BEFORE_FLIGHTS)
}

/// A conflict is reported before the limit on nodes.
const BUSY_BEFORE_ROOM: Story = Story {
    limits: Limits {
        nodes: 1,
        ..DEFAULT
    },
    steps: &[
        Step::Begin(1, Remove(ROOT, "a"), Go),
        Step::Begin(2, Name(ROOT, "e"), Refused(ENFILE)),
        Step::Begin(2, Name(ROOT, "a"), Busy),
        Step::Finish(1, Outcome::Failed, Ended),
        Step::Begin(2, Name(ROOT, "a"), Refused(ENFILE)),
    ],
    gathers: Sum::All(0, 0, 0, 0),
};

#[test]
fn busy_before_nodes(rt: HostRuntime) -> Result<(), Fail> {
    run(&rt, &BUSY_BEFORE_ROOM)
}

/// If both the limits on nodes and on requests in flight would be exceeded, that on nodes is reported.
const NODES_BEFORE_FLIGHTS: Story = Story {
    limits: Limits {
        nodes: 2,
        flights: 1,
        ..DEFAULT
    },
    steps: &[
        Step::Begin(1, Name(ROOT, "a"), Go),
        Step::Begin(2, Name(ROOT, "e"), Refused(ENFILE)),
        Step::Begin(2, Remove(ROOT, "e"), Refused(EAGAIN)),
        Step::Begin(2, Name(9, "e"), Refused(ESTALE)),
    ],
    gathers: Sum::All(0, 0, 0, 0),
};

/// The same for the limit on postings.
const POSTINGS_BEFORE_FLIGHTS: Story = Story {
    limits: Limits {
        postings: 3,
        flights: 1,
        ..DEFAULT
    },
    steps: &[
        Step::Begin(1, Name(ROOT, "a"), Go),
        Step::Begin(2, Name(ROOT, "a"), Refused(ENFILE)),
        Step::Begin(2, Remove(ROOT, "e"), Refused(EAGAIN)),
    ],
    gathers: Sum::All(0, 0, 0, 0),
};

#[test]
fn nodes_before_flights(rt: HostRuntime) -> Result<(), Fail> {
    for story in [&NODES_BEFORE_FLIGHTS, &POSTINGS_BEFORE_FLIGHTS] {
        run(&rt, story)?;
    }
    Ok(())
}

/// A request for one name: its node, its path, and then a conflict.
#[test]
fn order_of_tests_of_a_name(rt: HostRuntime) -> Result<(), Fail> {
    let name = long_name(rt.alloc(), 4_096)?;
    let long = name.as_str();
    let steps = [
        Step::LookUp(ROOT, "d", Given(2, 0)),
        Step::Begin(1, Remove(ROOT, "d"), Go),
        Step::Begin(2, Name(9, long), Refused(ESTALE)),
        Step::Begin(2, Remove(9, long), Refused(ESTALE)),
        Step::Begin(2, Name(2, long), Refused(ENAMETOOLONG)),
        Step::Begin(2, Remove(2, long), Refused(ENAMETOOLONG)),
        Step::Begin(2, Name(2, "e"), Busy),
        Step::Begin(2, Remove(2, "e"), Busy),
        Step::Begin(2, Node(2), Busy),
    ];
    let story = Story {
        limits: DEFAULT,
        steps: steps.as_slice(),
        gathers: Sum::All(1, 1, 0, 0),
    };
    run(&rt, &story)
}

/// A move: its nodes, its paths, whether one is a prefix of the other, and then a conflict.
#[test]
fn order_of_tests_of_a_move(rt: HostRuntime) -> Result<(), Fail> {
    let name = long_name(rt.alloc(), 4_096)?;
    let long = name.as_str();
    let steps = [
        Step::LookUp(ROOT, "d", Given(2, 0)),
        Step::LookUp(2, "x", Given(3, 0)),
        Step::Begin(1, Move(9, "a", 2, long), Refused(ESTALE)),
        Step::Begin(1, Move(2, long, 9, "a"), Refused(ESTALE)),
        Step::Begin(1, Move(2, long, ROOT, "d"), Refused(ENAMETOOLONG)),
        Step::Begin(1, Move(ROOT, "d", 2, long), Refused(ENAMETOOLONG)),
        Step::Begin(1, Name(ROOT, "d"), Go),
        Step::Begin(2, Move(ROOT, "d", 3, "y"), Refused(EINVAL)),
        Step::Begin(2, Move(2, "y", ROOT, "d"), Refused(ENOTEMPTY)),
        Step::Begin(2, Move(ROOT, "d", ROOT, "f"), Busy),
        Step::Begin(2, Move(ROOT, "f", ROOT, "d"), Busy),
        Step::Begin(2, Name(ROOT, "b"), Refused(ENFILE)),
        Step::Begin(2, Move(ROOT, "e", ROOT, "f"), Go),
    ];
    let story = Story {
        limits: Limits {
            nodes: 3,
            ..DEFAULT
        },
        steps: steps.as_slice(),
        gathers: Sum::All(2, 2, 0, 0),
    };
    run(&rt, &story)
}
