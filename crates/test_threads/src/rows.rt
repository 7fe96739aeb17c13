//! Sessions with 1, 2 and 4 workers, and with none and five.

use crate::client::Fates;
use crate::story::{Comes, Shows, Story};
use crate::teller::check;
use engine::{Sent, SessionEnd};
use std::test::Fail;
use wire::Operation;
use wire::Operation::{Destroy, Forget, Lookup, Open, Unlink};

/// Eight entries of one node.
const EIGHT: &[(u64, Operation<'static>)] = &[
    (1, Lookup { name: b"a" }),
    (1, Lookup { name: b"a" }),
    (1, Lookup { name: b"a" }),
    (1, Lookup { name: b"a" }),
    (1, Lookup { name: b"a" }),
    (1, Lookup { name: b"a" }),
    (1, Lookup { name: b"a" }),
    (1, Lookup { name: b"a" }),
];

/// INIT and eight entries, by one worker.
const NINE: Story = Story {
    says: "nine frames by one worker",
    workers: 1,
    comes: Comes::Together,
    asks: EIGHT,
    rest: &[],
    fates: Fates::Taken,
    end: SessionEnd::Closed { rest: 0 },
    offers: 9,
    last: 0,
    taken: 9,
    births: None,
    totals: Some((8, 0, 0)),
    shows: Shows::File,
};

const BY_ANY: &[Story] = &[
    NINE,
    Story {
        says: "nine frames by two workers",
        workers: 2,
        ..NINE
    },
    Story {
        says: "nine frames by four workers",
        workers: 4,
        ..NINE
    },
];

#[test]
fn one_table_for_all_workers(rt: HostRuntime) -> Result<(), Fail> {
    for story in BY_ANY {
        check(&rt, rt.alloc(), story)?;
    }
    Ok(())
}

#[test]
fn nothing_is_received_after_a_break(rt: HostRuntime) -> Result<(), Fail> {
    let broken = Story {
        says: "the link breaks at the second reply, and a receive for each frame",
        comes: Comes::Alone,
        fates: Fates::Reply(2, Sent::Broken),
        end: SessionEnd::LinkBroken,
        offers: 2,
        taken: 2,
        totals: Some((1, 1, 0)),
        ..NINE
    };
    check(&rt, rt.alloc(), &broken)
}

#[test]
fn a_session_may_be_long(rt: HostRuntime) -> Result<(), Fail> {
    let long = Story {
        says: "1,100 entries by two workers",
        workers: 2,
        asks: &[(1, Lookup { name: b"a" }); 1_100],
        offers: 1_101,
        taken: 1_101,
        totals: Some((1_100, 0, 0)),
        ..NINE
    };
    check(&rt, rt.alloc(), &long)
}

const BY_NONE: &[Story] = &[
    Story {
        says: "no worker",
        workers: 0,
        end: SessionEnd::NoWorkers,
        offers: 0,
        taken: 0,
        totals: None,
        ..NINE
    },
    Story {
        says: "five workers",
        workers: 5,
        end: SessionEnd::NoWorkers,
        offers: 0,
        taken: 0,
        totals: None,
        ..NINE
    },
];

#[test]
fn none_and_five_serve_nobody(rt: HostRuntime) -> Result<(), Fail> {
    for story in BY_NONE {
        check(&rt, rt.alloc(), story)?;
    }
    Ok(())
}

/// Eight entries, DESTROY, and one more request.
const LAST_JOB: &[(u64, Operation<'static>)] = &[
    (1, Lookup { name: b"a" }),
    (1, Lookup { name: b"a" }),
    (1, Lookup { name: b"a" }),
    (1, Lookup { name: b"a" }),
    (1, Lookup { name: b"a" }),
    (1, Lookup { name: b"a" }),
    (1, Lookup { name: b"a" }),
    (1, Lookup { name: b"a" }),
    (0, Destroy),
    (1, Lookup { name: b"a" }),
];

/// The reply to DESTROY is the last, whatever was queued before it.
const DESTROYED: Story = Story {
    says: "the end by the client, one worker",
    asks: LAST_JOB,
    end: SessionEnd::Destroyed,
    offers: 10,
    last: 10,
    ..NINE
};

const ENDS: &[Story] = &[
    DESTROYED,
    Story {
        says: "the end by the client, two workers",
        workers: 2,
        ..DESTROYED
    },
    Story {
        says: "the end by the client, four workers",
        workers: 4,
        ..DESTROYED
    },
    Story {
        says: "the link breaks at the reply to the end",
        workers: 2,
        fates: Fates::Reply(10, Sent::Broken),
        end: SessionEnd::LinkBroken,
        last: 0,
        ..DESTROYED
    },
    Story {
        says: "bytes that are no whole frame",
        workers: 2,
        rest: &[50, 0, 0],
        end: SessionEnd::Closed { rest: 3 },
        ..NINE
    },
    Story {
        says: "a bad length: all that was queued is answered first",
        workers: 4,
        rest: &[7, 0, 0, 0],
        end: SessionEnd::BadLength { len: 7 },
        ..NINE
    },
    Story {
        says: "the link breaks, and a bad length",
        workers: 1,
        rest: &[7, 0, 0, 0],
        fates: Fates::Reply(9, Sent::Broken),
        end: SessionEnd::LinkBroken,
        totals: Some((8, 1, 0)),
        ..NINE
    },
    Story {
        says: "an entry that is forgotten",
        asks: &[(1, Lookup { name: b"a" }), (2, Forget { nlookup: 1 })],
        offers: 2,
        taken: 3,
        totals: Some((1, 0, 1)),
        ..NINE
    },
    Story {
        says: "an open file that is removed, whose hidden name goes at the end",
        asks: &[
            (1, Lookup { name: b"a" }),
            (2, Open { flags: 0 }),
            (1, Unlink { name: b"a" }),
        ],
        offers: 4,
        taken: 4,
        totals: Some((1, 0, 0)),
        shows: Shows::Nothing,
        ..NINE
    },
];

#[test]
fn ends(rt: HostRuntime) -> Result<(), Fail> {
    for story in ENDS {
        check(&rt, rt.alloc(), story)?;
    }
    Ok(())
}

/// The entry of a reply that is not taken is given back.
#[test]
fn each_reply_is_declined_in_turn(rt: HostRuntime) -> Result<(), Fail> {
    for declined in 1..9 {
        for workers in [1, 2, 4] {
            let story = Story {
                says: "an entry that is not taken",
                workers,
                fates: Fates::Entry(declined, Sent::Untaken),
                totals: Some((8, 1, 0)),
                ..NINE
            };
            check(&rt, rt.alloc(), &story)?;
        }
    }
    Ok(())
}

/// The third reply is not taken, and the link breaks at the fourth, so the client has only the first entry.
const FATES: Story = Story {
    says: "taken, taken, not taken, broken",
    asks: &[
        (1, Lookup { name: b"a" }),
        (1, Lookup { name: b"a" }),
        (1, Lookup { name: b"a" }),
        (1, Lookup { name: b"a" }),
    ],
    fates: Fates::InTurn(&[Sent::Taken, Sent::Taken, Sent::Untaken, Sent::Broken]),
    end: SessionEnd::LinkBroken,
    offers: 4,
    taken: 5,
    births: Some(1),
    totals: Some((4, 3, 0)),
    ..NINE
};

#[test]
fn each_reply_has_its_fate(rt: HostRuntime) -> Result<(), Fail> {
    check(&rt, rt.alloc(), &FATES)
}

/// Nothing is offered once the link has broken, and the entries of all replies from there on are given back.
#[test]
fn the_link_breaks_at_each_reply(rt: HostRuntime) -> Result<(), Fail> {
    for declined in 2u32..10 {
        let story = Story {
            says: "the link breaks",
            fates: Fates::Reply(declined, Sent::Broken),
            end: SessionEnd::LinkBroken,
            offers: declined,
            totals: Some((8, (10 - declined) as u64, 0)),
            ..NINE
        };
        check(&rt, rt.alloc(), &story)?;
    }
    Ok(())
}
