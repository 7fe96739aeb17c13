//! Requests for stories. They have numbers that do not matter with fixed attributes: all of these are 0.

use payload::Time;
use wire::NewAttributes;
use wire::Operation::{self, Create, MakeDir, MakeLink};

/// The values that a SETATTR does not set.
pub const NOTHING_NEW: NewAttributes = NewAttributes {
    mode: 0,
    uid: 0,
    gid: 0,
    accessed: Time {
        seconds: 0,
        nanos: 0,
    },
    modified: Time {
        seconds: 0,
        nanos: 0,
    },
};

pub const MAKE_M: Operation<'static> = MakeDir {
    name: b"m",
    mode: 0,
    umask: 0,
};

pub const MAKE_N: Operation<'static> = MakeDir {
    name: b"n",
    mode: 0,
    umask: 0,
};

pub const MAKE_D: Operation<'static> = MakeDir {
    name: b"d",
    mode: 0,
    umask: 0,
};

pub const MAKE_A: Operation<'static> = MakeDir {
    name: b"a",
    mode: 0,
    umask: 0,
};

pub const MAKE_B: Operation<'static> = MakeDir {
    name: b"b",
    mode: 0,
    umask: 0,
};

pub const MAKE_X: Operation<'static> = MakeDir {
    name: b"x",
    mode: 0,
    umask: 0,
};

pub const MAKE_C: Operation<'static> = MakeDir {
    name: b"c",
    mode: 0,
    umask: 0,
};

/// A link in the root, whose text leads nowhere.
pub const LINK_L: (u64, Operation<'static>) = (
    1,
    MakeLink {
        name: b"l",
        text: b"d/none",
    },
);

pub const MAKE_RESERVED: Operation<'static> = MakeDir {
    name: b".fuse_hiddenx",
    mode: 0,
    umask: 0,
};

/// Made for reading and writing.
pub const CREATE_A: Operation<'static> = Create {
    name: b"a",
    flags: 2,
    mode: 0,
    umask: 0,
};

pub const CREATE_N: Operation<'static> = Create {
    name: b"n",
    flags: 2,
    mode: 0,
    umask: 0,
};

pub const CREATE_X: Operation<'static> = Create {
    name: b"x",
    flags: 2,
    mode: 0,
    umask: 0,
};
