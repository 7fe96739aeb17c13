//! Making something for another user than the server's, with attributes of the host: which calls are made of a tree in
//! memory, in which everything belongs to user 0, and what fails where one of them does.

use crate::requests::{CREATE_N, MAKE_M};
use crate::stories::Says::{Created, Entry, Failed};
use crate::stories::Stands::{self, File, Folder, Link, Nothing};
use crate::stories::{NOTHING, Says, Story, tell};
use backing::PlannedFault::{self, After, Before};
use errno::{EIO, ENOSPC};
use std::alloc::Global;
use std::random::RandomSource;
use std::sync::Wait;
use std::test::Fail;
use test_support::{ALL, ALL_OF_HOST};
use wire::Caller;
use wire::Operation::{self, Create, Lookup, MakeDir, MakeLink};

const ROOT: Caller = Caller { uid: 0, gid: 0 };

const SOME: Caller = Caller {
    uid: 1000,
    gid: 100,
};

const GROUP_ALONE: Caller = Caller { uid: 0, gid: 100 };

/// A file with bits that a change of the owner clears, and a folder, which keeps them.
const CREATE_SET: Operation = Create {
    name: b"n",
    flags: 2,
    mode: 0o104755,
    umask: 0,
};

const MAKE_SET: Operation = MakeDir {
    name: b"m",
    mode: 0o2755,
    umask: 0,
};

const LINK: Operation = MakeLink {
    name: b"l",
    text: b"d/none",
};

/// A request in the root, who makes it, how many calls are made for it, and the reply.
#[derive(Clone, Copy)]
struct Makes(&'static str, Operation<'static>, Caller, u64, Says<'static>);

/// A file or a folder is made, looked at, given, and looked at once more; in between the bits of a file are set, if it has such.
const MAKES: &[Makes] = &[
    Makes("a file of user 0", CREATE_SET, ROOT, 2, Created(2, 1)),
    Makes("a file of another", CREATE_N, SOME, 4, Created(2, 1)),
    Makes("a file with bits", CREATE_SET, SOME, 5, Created(2, 1)),
    Makes(
        "a file of another group",
        CREATE_N,
        GROUP_ALONE,
        4,
        Created(2, 1),
    ),
    Makes("a folder of user 0", MAKE_SET, ROOT, 2, Entry(2, Folder)),
    Makes("a folder of another", MAKE_M, SOME, 4, Entry(2, Folder)),
    Makes("a folder with bits", MAKE_SET, SOME, 4, Entry(2, Folder)),
    Makes("a link of user 0", LINK, ROOT, 2, Entry(2, Link(6))),
    Makes("a link of another", LINK, SOME, 4, Entry(2, Link(6))),
];

/// What a story is about, and whose requests it has.
#[derive(Clone, Copy)]
struct About(&'static str, Caller);

/// A story of these requests, with failures.
fn tell_asks<'a, H: Wait + RandomSource>(
    rt: &H,
    alloc: Global,
    about: About,
    asks: &'a [(u64, Operation<'a>)],
    faults: &'a [(u64, PlannedFault)],
    replies: &'a [Says<'a>],
) -> Result<(), Fail> {
    let About(says, caller) = about;
    let story = Story {
        says,
        settings: ALL_OF_HOST,
        asks,
        caller,
        faults,
        replies,
        ..NOTHING
    };
    tell(rt, alloc, &story)
}

/// Makes it, and no more calls: the next one is that of the LOOKUP after it, which fails.
fn tell_makes<'a, H: Wait + RandomSource>(
    rt: &H,
    alloc: Global,
    about: About,
    operation: Operation<'a>,
    calls: u64,
    told: Says<'a>,
) -> Result<(), Fail> {
    let asks = [(1, operation), (1, Lookup { name: b"e" })];
    let faults = [(calls.saturating_add(1), Before(ENOSPC))];
    tell_asks(rt, alloc, about, &asks, &faults, &[told, Failed(ENOSPC)])
}

#[test]
fn what_is_made_is_given(rt: HostRuntime) -> Result<(), Fail> {
    for makes in MAKES {
        let Makes(says, operation, caller, calls, told) = *makes;
        tell_makes(&rt, rt.alloc(), About(says, caller), operation, calls, told)?;
    }
    Ok(())
}

/// At which call making a file with such bits fails, and what is there at the end. What was made stays.
#[derive(Clone, Copy)]
struct Fails(&'static str, u64, PlannedFault, Stands);

const FAILS: &[Fails] = &[
    Fails("before the file is made", 1, Before(EIO), Nothing),
    Fails("after the file is made", 1, After(EIO), File(0)),
    Fails("before the look", 2, Before(EIO), File(0)),
    Fails("after the look", 2, After(EIO), File(0)),
    Fails("before the owner", 3, Before(EIO), File(0)),
    Fails("after the owner", 3, After(EIO), File(0)),
    Fails("before the bits", 4, Before(EIO), File(0)),
    Fails("after the bits", 4, After(EIO), File(0)),
    Fails("before the second look", 5, Before(EIO), File(0)),
    Fails("after the second look", 5, After(EIO), File(0)),
];

/// Fails to make it. No more calls are made for it, and no node and no handle is given: the next file is node 2.
fn tell_fails<H: Wait + RandomSource>(rt: &H, alloc: Global, fails: Fails) -> Result<(), Fail> {
    let Fails(says, call, fault, stands) = fails;
    let story = Story {
        says,
        settings: ALL_OF_HOST,
        asks: &[
            (1, CREATE_SET),
            (1, Lookup { name: b"e" }),
            (1, Lookup { name: b"e" }),
        ],
        caller: SOME,
        faults: &[(call, fault), (call.saturating_add(1), Before(ENOSPC))],
        replies: &[Failed(EIO), Failed(ENOSPC), Entry(2, File(0))],
        after: &[(&["n"], stands)],
        ..NOTHING
    };
    tell(rt, alloc, &story)
}

#[test]
fn what_is_made_stays_where_it_is_not_given(rt: HostRuntime) -> Result<(), Fail> {
    for fails in FAILS {
        tell_fails(&rt, rt.alloc(), *fails)?;
    }
    Ok(())
}

/// With fixed attributes nothing has an owner of its own, and nothing is given.
#[test]
fn nothing_is_given_with_fixed_attributes(rt: HostRuntime) -> Result<(), Fail> {
    let story = Story {
        says: "with fixed attributes",
        settings: ALL,
        asks: &[(1, CREATE_SET), (1, MAKE_SET), (1, Lookup { name: b"e" })],
        caller: SOME,
        faults: &[(5, Before(ENOSPC))],
        replies: &[Created(2, 1), Entry(3, Folder), Failed(ENOSPC)],
        ..NOTHING
    };
    tell(&rt, rt.alloc(), &story)
}
