//! SETATTR of attributes of the host: a tree in memory accepts what is set, and keeps only a size.

use crate::host_stories::HOST;
use crate::stories::Says::{Attributes, Entry, Failed, Opened};
use crate::stories::Stands::File;
use crate::stories::{Story, tell};
use backing::PlannedFault::{self, After, Before};
use errno::{EBADF, EFBIG, EIO, ENOSPC, EPERM};
use payload::Time;
use std::alloc::Global;
use std::random::RandomSource;
use std::sync::Wait;
use std::test::Fail;
use wire::NewAttributes;
use wire::Operation::{self, GetAttr, Lookup, Open, SetAttr};

const NEW: NewAttributes = NewAttributes {
    mode: 0o100640,
    uid: 1000,
    gid: 100,
    accessed: Time {
        seconds: 5,
        nanos: 6,
    },
    modified: Time {
        seconds: 7,
        nanos: 8,
    },
};

/// A SETATTR of the file `a`, which has three bytes and is open for reading and writing under handle 1, and only for
/// reading under handle 2: what it sets, its `valid`, its handle and its size, and the reply.
#[derive(Clone, Copy)]
struct Set(&'static str, u32, u64, u64, Result<u64, i32>);

/// Each in a session of its own. If it succeeds, the size is in the reply.
const SETS: &[Set] = &[
    Set("nothing", 0, 0, 9, Ok(3)),
    Set("permission bits", 1, 0, 9, Ok(3)),
    Set("an owner", 2, 0, 9, Ok(3)),
    Set("a group", 4, 0, 9, Ok(3)),
    Set("a size", 8, 0, 4, Ok(4)),
    Set("when it was read", 0x10, 0, 9, Ok(3)),
    Set("when it was changed", 0x20, 0, 9, Ok(3)),
    Set("a handle alone", 0x40, 1, 9, Ok(3)),
    Set("that it is read now", 0x80, 0, 9, Ok(3)),
    Set("that it is changed now", 0x100, 0, 9, Ok(3)),
    Set("the owner of a lock", 0x200, 0, 9, Ok(3)),
    Set("when its attributes were changed", 0x400, 0, 9, Ok(3)),
    Set("all at once", 0x7ff, 1, 600, Ok(600)),
    Set("all but the handle", 0x7bf, 9, 7, Ok(7)),
    Set("bit 11", 0x800, 0, 9, Err(EPERM)),
    Set("bit 31", 0x80000000, 0, 9, Err(EPERM)),
    Set(
        "bit 11, before a handle that is not open",
        0xfff,
        9,
        9,
        Err(EPERM),
    ),
    Set(
        "permission bits, by a handle that is not open",
        0x41,
        9,
        9,
        Err(EBADF),
    ),
    Set(
        "all at once, by a handle that is not open",
        0x7ff,
        9,
        9,
        Err(EBADF),
    ),
    Set(
        "all but a size, by a handle that is open for reading alone",
        0x77,
        2,
        9,
        Ok(3),
    ),
    Set(
        "a size, by a handle that is open for reading alone",
        0x48,
        2,
        9,
        Err(EBADF),
    ),
    Set(
        "all at once, by a handle that is open for reading alone",
        0x7ff,
        2,
        9,
        Err(EBADF),
    ),
    Set("too great a size", 8, 0, 1048577, Err(EFBIG)),
];

fn set_of(valid: u32, fh: u64, size: u64) -> Operation<'static> {
    SetAttr {
        valid,
        fh,
        size,
        attributes: NEW,
    }
}

/// Runs a SETATTR in a session of its own, and checks that nothing else is changed.
fn tell_set<H: Wait + RandomSource>(rt: &H, alloc: Global, set: Set) -> Result<(), Fail> {
    let Set(sets, valid, fh, size, told) = set;
    let (says, left) = match told {
        Ok(size) => (Attributes(2, File(size)), size),
        Err(errno) => (Failed(errno), 3),
    };
    let story = Story {
        says: sets,
        asks: &[
            (1, Lookup { name: b"a" }),
            (2, Open { flags: 2 }),
            (2, Open { flags: 0 }),
            (2, set_of(valid, fh, size)),
            (2, GetAttr),
        ],
        replies: &[
            Entry(2, File(3)),
            Opened(1),
            Opened(2),
            says,
            Attributes(2, File(left)),
        ],
        after: &[(&["a"], File(left)), (&["e"], File(0))],
        ..HOST
    };
    tell(rt, alloc, &story)
}

#[test]
fn set_alone_and_at_once(rt: HostRuntime) -> Result<(), Fail> {
    for set in SETS {
        tell_set(&rt, rt.alloc(), *set)?;
    }
    Ok(())
}

/// At which call a SETATTR of everything except a handle fails, which comes after a LOOKUP and sets a size of 600
/// bytes: the number of the call, counted from 1, and its fault. And the size at the end.
#[derive(Clone, Copy)]
struct Fails(&'static str, u64, PlannedFault, u64);

const FAILS: &[Fails] = &[
    Fails("before the permission bits", 2, Before(EIO), 3),
    Fails("after the permission bits", 2, After(EIO), 3),
    Fails("before the owner", 3, Before(EIO), 3),
    Fails("after the owner", 3, After(EIO), 3),
    Fails("before the size", 4, Before(EIO), 3),
    Fails("after the size", 4, After(EIO), 600),
    Fails("before the times", 5, Before(EIO), 600),
    Fails("after the times", 5, After(EIO), 600),
    Fails("before the look", 6, Before(EIO), 600),
    Fails("after the look", 6, After(EIO), 600),
];

/// Runs that SETATTR. No more calls are made for it: the next call is that of the LOOKUP after it, which would fail
/// otherwise.
fn tell_fails<H: Wait + RandomSource>(rt: &H, alloc: Global, fails: Fails) -> Result<(), Fail> {
    let Fails(says, call, fault, size) = fails;
    let story = Story {
        says,
        asks: &[
            (1, Lookup { name: b"a" }),
            (2, set_of(0x7bf, 0, 600)),
            (1, Lookup { name: b"e" }),
        ],
        faults: &[(call, fault), (call.saturating_add(1), Before(ENOSPC))],
        replies: &[Entry(2, File(3)), Failed(EIO), Failed(ENOSPC)],
        after: &[(&["a"], File(size))],
        ..HOST
    };
    tell(rt, alloc, &story)
}

#[test]
fn each_call_fails(rt: HostRuntime) -> Result<(), Fail> {
    for fails in FAILS {
        tell_fails(&rt, rt.alloc(), *fails)?;
    }
    Ok(())
}
