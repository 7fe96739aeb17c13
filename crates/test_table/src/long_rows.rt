//! Paths of the maximum length, which is 4,096 bytes, counting one more byte for each name.

use crate::story::Asks::{Link, Move, Name, Node, Remove};
use crate::story::Told::{Ended, Given, Go, NotGiven, Refused, Settled};
use crate::story::{DEFAULT, Outcome, ROOT, Reply, Step, Story, Sum};
use crate::teller::run;
use errno::{ENAMETOOLONG, ESTALE};
use std::alloc::{AllocError, Global};
use std::test::Fail;

/// A name of that many bytes.
pub fn long_name(alloc: Global, bytes: usize) -> Result<String, AllocError> {
    let mut name = String::new(alloc);
    for _byte in 0..bytes {
        name.push('n')?;
    }
    Ok(name)
}

/// The first bytes of a name.
pub fn first(name: &str, bytes: usize) -> &str {
    name.get(..bytes).unwrap_or("")
}

/// A LOOKUP of the name in the root, and then in each folder that was found.
fn one_below_another(alloc: Global, name: &str) -> Result<Vec<Step<'_>>, AllocError> {
    let mut steps = Vec::new(alloc);
    for parent in 1..17u64 {
        steps.push(Step::LookUp(parent, name, Given(parent + 1, 0)))?;
    }
    Ok(steps)
}

/// Below 16 nested folders whose names have 255 bytes each, a path has 16 times 256 bytes, which is 4,096.
const BELOW_THE_LAST: &[Step] = &[
    Step::Begin(1, Name(17, "e"), Refused(ENAMETOOLONG)),
    Step::Begin(1, Remove(17, "e"), Refused(ENAMETOOLONG)),
    Step::Begin(1, Name(18, "e"), Refused(ESTALE)),
    Step::Begin(1, Node(17), Go),
];

#[test]
fn long_path(rt: HostRuntime) -> Result<(), Fail> {
    let name = long_name(rt.alloc(), 255)?;
    let mut steps = one_below_another(rt.alloc(), name.as_str())?;
    steps.extend_from_slice(BELOW_THE_LAST)?;
    let story = Story {
        limits: DEFAULT,
        steps: steps.as_slice(),
        gathers: Sum::All(16, 16, 0, 0),
    };
    run(&rt, &story)
}

/// A name of 4,095 bytes in the root, and one of 4,093 bytes in the folder `d`. For a move both paths are tested.
#[test]
fn longest_names(rt: HostRuntime) -> Result<(), Fail> {
    let name = long_name(rt.alloc(), 4_096)?;
    let long = name.as_str();
    let (fits, below, above) = (first(long, 4_095), first(long, 4_093), first(long, 4_094));
    let steps = [
        Step::LookUp(ROOT, "d", Given(2, 0)),
        Step::LookUp(ROOT, fits, Given(3, 0)),
        Step::Begin(1, Name(ROOT, long), Refused(ENAMETOOLONG)),
        Step::LookUp(2, below, Given(4, 0)),
        Step::Begin(1, Name(2, above), Refused(ENAMETOOLONG)),
        Step::Begin(1, Remove(2, above), Refused(ENAMETOOLONG)),
        Step::Begin(1, Move(2, above, ROOT, "a"), Refused(ENAMETOOLONG)),
        Step::Begin(1, Move(ROOT, "a", 2, above), Refused(ENAMETOOLONG)),
        Step::Begin(1, Move(ROOT, "a", 2, below), Go),
    ];
    let story = Story {
        limits: DEFAULT,
        steps: steps.as_slice(),
        gathers: Sum::All(3, 3, 0, 0),
    };
    run(&rt, &story)
}

/// For a LINK both paths are tested: that of its name, and that of its node, which gets too long when the folder `d` is
/// moved to a longer name.
#[test]
fn long_paths_of_links(rt: HostRuntime) -> Result<(), Fail> {
    let name = long_name(rt.alloc(), 4_096)?;
    let long = name.as_str();
    let (fits, below, above) = (first(long, 4_095), first(long, 4_093), first(long, 4_094));
    let steps = [
        Step::LookUp(ROOT, "d", Given(2, 0)),
        Step::LookUp(2, below, Given(3, 0)),
        Step::Begin(1, Link(2, ROOT, long), Refused(ENAMETOOLONG)),
        Step::Begin(1, Link(2, 2, above), Refused(ENAMETOOLONG)),
        Step::Begin(1, Link(9, 2, above), Refused(ESTALE)),
        Step::Begin(1, Link(3, ROOT, fits), Go),
        Step::Finish(1, Outcome::Failed, NotGiven),
        Step::Settle(1, Reply::Taken, Settled(0)),
        Step::Begin(2, Move(ROOT, "d", ROOT, "dd"), Go),
        Step::Finish(2, Outcome::Done, Ended),
        Step::Settle(2, Reply::Taken, Settled(0)),
        Step::Begin(3, Link(3, ROOT, "a"), Refused(ENAMETOOLONG)),
        Step::Begin(3, Link(3, 9, "a"), Refused(ESTALE)),
        Step::Begin(3, Link(2, ROOT, "a"), Go),
    ];
    let story = Story {
        limits: DEFAULT,
        steps: steps.as_slice(),
        gathers: Sum::All(2, 2, 0, 0),
    };
    run(&rt, &story)
}
