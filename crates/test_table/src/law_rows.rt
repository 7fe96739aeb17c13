//! The law of what requests hold, tested on images made by hand.

use crate::shows::path_of;
use crate::story::{Holding, ROOT};
use holds::{GivenPath, GivenPaths, Held, Paths};
use ledger::{Posting, Totals};
use paths::Name;
use std::alloc::{AllocError, Global};
use std::test::Fail;
use table_image::ImageStage::{Answered, Working};
use table_image::{
    Births, Hold, Holds, Image, ImageStage, Nodes, Numbers, OpenFiles, Postings, Record, Records,
};
use tree::{Key, Node, Place};

/// A request that pins node 2: how far it is, a number and the path that was recorded for it, the paths that it shares,
/// and those that it holds exclusively.
#[derive(Clone, Copy)]
struct Made<'a>(ImageStage, u64, &'a str, &'a [&'a str], &'a [&'a str]);

/// An image with these requests, what they hold, and the folder `a`, which is node 2 and was given once.
struct Case<'a> {
    says: &'a str,
    requests: &'a [Made<'a>],
    holds: &'a [Holding<'a>],
    is_lawful: bool,
}

fn paths_of(alloc: Global, texts: &[&str]) -> Result<Paths, AllocError> {
    let mut paths = Vec::new(alloc);
    for text in texts {
        paths.push(path_of(alloc, text)?)?;
    }
    Ok(Paths::from_vec(paths))
}

fn record_of(alloc: Global, id: u64, made: &Made) -> Result<Record, AllocError> {
    let Made(stage, number, path, shared, exclusive) = *made;
    let mut pins = Numbers::new(alloc);
    pins.add(2)?;
    let path = path_of(alloc, path)?;
    Ok(Record {
        id,
        unique: 9,
        stage,
        pins,
        held: Held {
            given: GivenPaths::from_vec(vec![in alloc; GivenPath { number, path }]?),
            shared: paths_of(alloc, shared)?,
            exclusive: paths_of(alloc, exclusive)?,
        },
    })
}

fn records_of(alloc: Global, requests: &[Made]) -> Result<Records, AllocError> {
    let mut records = Vec::new(alloc);
    let mut id = 5u64;
    for made in requests {
        records.push(record_of(alloc, id, made)?)?;
        id = id.saturating_add(1);
    }
    Ok(Records::from(records))
}

fn holds_of(alloc: Global, holdings: &[Holding]) -> Result<Holds, AllocError> {
    let mut holds = Vec::new(alloc);
    for holding in holdings {
        let Holding(text, shared, exclusive) = *holding;
        let path = path_of(alloc, text)?;
        holds.push(Hold {
            path,
            shared,
            exclusive,
        })?;
    }
    Ok(Holds::from(holds))
}

fn node(number: u64, place: Place, count: u64) -> Node {
    Node {
        number,
        generation: 0,
        place,
        count,
        hidden: false,
    }
}

/// The root and the folder `a`.
fn nodes(alloc: Global) -> Result<Nodes, AllocError> {
    let key = Key {
        parent: ROOT,
        name: Name::from_text(alloc, "a")?,
    };
    let mut nodes = Nodes::new(alloc);
    nodes.add(node(ROOT, Place::Root, 0))?;
    nodes.add(node(2, Place::Named(key), 1))?;
    Ok(nodes)
}

/// The folder was born, and given once.
const POSTINGS: &[Posting] = &[
    Posting::Born {
        number: 2,
        generation: 0,
    },
    Posting::Entry {
        number: 2,
        generation: 0,
    },
];

fn image_of(alloc: Global, case: &Case) -> Result<Image, AllocError> {
    Ok(Image {
        nodes: nodes(alloc)?,
        births: Births::new(alloc),
        closed: Totals::nothing(),
        postings: Postings::from(Vec::from_slice(alloc, POSTINGS)?),
        records: records_of(alloc, case.requests)?,
        holds: holds_of(alloc, case.holds)?,
        files: OpenFiles::new(alloc),
        counter: 0,
        last_handle: 0,
    })
}

/// Fails at the first case with another verdict.
fn judge(alloc: Global, cases: &[Case]) -> Result<(), Fail> {
    for case in cases {
        if image_of(alloc, case)?.lawful() != case.is_lawful {
            return Err(Fail::from(("judged otherwise", case.says)));
        }
    }
    Ok(())
}

/// It removes `b` in `a`.
const REMOVAL: Made = Made(Working, 2, "a", &["a"], &["a/b"]);

const COUNTED: &[Case] = &[
    Case {
        says: "each path with its two numbers",
        requests: &[REMOVAL],
        holds: &[Holding("a", 1, 0), Holding("a/b", 0, 1)],
        is_lawful: true,
    },
    Case {
        says: "one request shares `a`, and not two",
        requests: &[REMOVAL],
        holds: &[Holding("a", 2, 0), Holding("a/b", 0, 1)],
        is_lawful: false,
    },
    Case {
        says: "`a/b` is held alone, and not shared",
        requests: &[REMOVAL],
        holds: &[Holding("a", 1, 0), Holding("a/b", 1, 0)],
        is_lawful: false,
    },
    Case {
        says: "`a` stands twice",
        requests: &[REMOVAL],
        holds: &[Holding("a", 1, 0), Holding("a/b", 0, 1), Holding("a", 1, 0)],
        is_lawful: false,
    },
    Case {
        says: "nobody holds `c`",
        requests: &[REMOVAL],
        holds: &[Holding("a", 1, 0), Holding("a/b", 0, 1), Holding("c", 0, 0)],
        is_lawful: false,
    },
    Case {
        says: "`a/b` is held, and not listed",
        requests: &[REMOVAL],
        holds: &[Holding("a", 1, 0)],
        is_lawful: false,
    },
];

#[test]
fn held_names_are_counted(rt: HostRuntime) -> Result<(), Fail> {
    judge(rt.alloc(), COUNTED)
}

/// The removal has ended.
const ENDED: Made = Made(Answered, 2, "a", &["a"], &["a/b"]);

const ANSWERED: &[Case] = &[
    Case {
        says: "what is answered holds nothing",
        requests: &[ENDED],
        holds: &[],
        is_lawful: true,
    },
    Case {
        says: "it is listed as a holder",
        requests: &[ENDED],
        holds: &[Holding("a/b", 0, 1), Holding("a", 1, 0)],
        is_lawful: false,
    },
];

#[test]
fn answered_request_holds_nothing(rt: HostRuntime) -> Result<(), Fail> {
    judge(rt.alloc(), ANSWERED)
}

const CLASHES: &[Case] = &[
    Case {
        says: "both share `a` alone",
        requests: &[REMOVAL, Made(Working, 2, "a", &["a"], &["a/c"])],
        holds: &[
            Holding("a", 2, 0),
            Holding("a/b", 0, 1),
            Holding("a/c", 0, 1),
        ],
        is_lawful: true,
    },
    Case {
        says: "one holds `a/b` alone, and the other shares it",
        requests: &[REMOVAL, Made(Working, 2, "a", &["a", "a/b"], &[])],
        holds: &[Holding("a", 2, 0), Holding("a/b", 1, 1)],
        is_lawful: false,
    },
];

#[test]
fn conflicting_requests_are_not_lawful(rt: HostRuntime) -> Result<(), Fail> {
    judge(rt.alloc(), CLASHES)
}

const LEADS: &[Case] = &[
    Case {
        says: "`a` is node 2",
        requests: &[REMOVAL],
        holds: &[Holding("a/b", 0, 1), Holding("a", 1, 0)],
        is_lawful: true,
    },
    Case {
        says: "no node bears 3",
        requests: &[Made(Working, 3, "a", &["a"], &["a/b"])],
        holds: &[Holding("a/b", 0, 1), Holding("a", 1, 0)],
        is_lawful: false,
    },
    Case {
        says: "`a` is not the root's path",
        requests: &[Made(Working, ROOT, "a", &["a"], &["a/b"])],
        holds: &[Holding("a/b", 0, 1), Holding("a", 1, 0)],
        is_lawful: false,
    },
    Case {
        says: "`a` is a prefix of itself, and is not held",
        requests: &[Made(Working, 2, "a", &[], &["a/b"])],
        holds: &[Holding("a/b", 0, 1)],
        is_lawful: false,
    },
];

#[test]
fn given_paths_lead_to_their_nodes(rt: HostRuntime) -> Result<(), Fail> {
    judge(rt.alloc(), LEADS)
}
