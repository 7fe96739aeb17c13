//! Whose is what a request makes, by the user and the group that made the request and those that the server made it as.

use crate::scripts::asks::Ask::{Make, MakeDir, MakeLink, SetOwner, SetPermissions};
use crate::scripts::compare::{Row, compare};
use crate::scripts::owners::Step::{self, Does, Finds, Gives, Opens};
use crate::scripts::rows::OF_THE_ROOT;
use crate::scripts::setting::{FIXED, HOST};
use std::test::Fail;
use wire::{Caller, Operation};

/// Somebody.
const SOME: Caller = Caller {
    uid: 1000,
    gid: 100,
};

/// CREATE with the mode rw-r--r--, which the mask leaves as it is.
const CREATED: Row = Row {
    operation: Operation::Create {
        name: b"a",
        flags: 2,
        mode: 0o100644,
        umask: 0o022,
    },
    settings: HOST,
    caller: SOME,
    ..OF_THE_ROOT
};

/// The same by user 0 and group 0.
const BY_ROOT: Row = Row {
    caller: Caller { uid: 0, gid: 0 },
    ..CREATED
};

const USER_ALONE: Caller = Caller { uid: 1000, gid: 0 };

const GROUP_ALONE: Caller = Caller { uid: 0, gid: 100 };

/// CREATE with a set-user-ID bit, with a set-group-ID bit, and with one that the mask takes.
const SET_USER: Operation = Operation::Create {
    name: b"a",
    flags: 2,
    mode: 0o104755,
    umask: 0,
};

const SET_GROUP: Operation = Operation::Create {
    name: b"a",
    flags: 2,
    mode: 0o102755,
    umask: 0o022,
};

const MASKED: Operation = Operation::Create {
    name: b"a",
    flags: 2,
    mode: 0o104755,
    umask: 0o4022,
};

/// MKDIR, also with a sticky bit, and with a set-group-ID bit.
const FOLDER: Operation = Operation::MakeDir {
    name: b"a",
    mode: 0o755,
    umask: 0,
};

const STICKY: Operation = Operation::MakeDir {
    name: b"a",
    mode: 0o1777,
    umask: 0,
};

const PASSING: Operation = Operation::MakeDir {
    name: b"a",
    mode: 0o2755,
    umask: 0,
};

const LINK: Operation = Operation::MakeLink {
    name: b"a",
    text: b"../b",
};

const MADE: Step = Does(Make(Some(0o644)));

/// To user 1000 and group 100.
const GIVEN: Step = Does(SetOwner(Some(1000), Some(100)));

const ROWS: &[Row] = &[
    // The server made it as user 0, in a folder that passes on no group.
    Row {
        steps: &[MADE, Finds(0, 0), GIVEN, Finds(1000, 100), Opens(1000, 100)],
        ..CREATED
    },
    // The last Stat is told, whatever it finds.
    Row {
        steps: &[MADE, Finds(0, 0), GIVEN, Finds(7, 8), Opens(7, 8)],
        ..CREATED
    },
    // In a folder that passes its group on: that stays.
    Row {
        steps: &[
            MADE,
            Finds(0, 50),
            Does(SetOwner(Some(1000), None)),
            Finds(1000, 50),
            Opens(1000, 50),
        ],
        ..CREATED
    },
    // The server is another user: what it makes is its own.
    Row {
        steps: &[MADE, Finds(1000, 100), Opens(1000, 100)],
        ..CREATED
    },
    Row {
        steps: &[MADE, Finds(7, 0), Opens(7, 0)],
        ..CREATED
    },
    // The caller is user 0, or in group 0, or both.
    Row {
        steps: &[MADE, Finds(0, 0), Opens(0, 0)],
        ..BY_ROOT
    },
    Row {
        steps: &[MADE, Finds(0, 50), Opens(0, 50)],
        ..BY_ROOT
    },
    Row {
        caller: USER_ALONE,
        steps: &[
            MADE,
            Finds(0, 0),
            Does(SetOwner(Some(1000), None)),
            Finds(1000, 0),
            Opens(1000, 0),
        ],
        ..CREATED
    },
    Row {
        caller: GROUP_ALONE,
        steps: &[
            MADE,
            Finds(0, 0),
            Does(SetOwner(None, Some(100))),
            Finds(0, 100),
            Opens(0, 100),
        ],
        ..CREATED
    },
    Row {
        caller: GROUP_ALONE,
        steps: &[MADE, Finds(0, 50), Opens(0, 50)],
        ..CREATED
    },
    // A change of the owner clears a file's set-user-ID and set-group-ID bits: then all bits are set once more.
    Row {
        operation: SET_USER,
        steps: &[
            Does(Make(Some(0o4755))),
            Finds(0, 0),
            GIVEN,
            Does(SetPermissions(0o4755)),
            Finds(1000, 100),
            Opens(1000, 100),
        ],
        ..CREATED
    },
    Row {
        operation: SET_GROUP,
        steps: &[
            Does(Make(Some(0o2755))),
            Finds(0, 50),
            Does(SetOwner(Some(1000), None)),
            Does(SetPermissions(0o2755)),
            Finds(1000, 50),
            Opens(1000, 50),
        ],
        ..CREATED
    },
    // A mask may take them, and the sticky bit is not cleared.
    Row {
        operation: MASKED,
        steps: &[
            Does(Make(Some(0o755))),
            Finds(0, 0),
            GIVEN,
            Finds(1000, 100),
            Opens(1000, 100),
        ],
        ..CREATED
    },
    Row {
        operation: STICKY,
        steps: &[
            Does(MakeDir(Some(0o1777))),
            Finds(0, 0),
            GIVEN,
            Finds(1000, 100),
            Gives(1000, 100),
        ],
        ..CREATED
    },
    // Nobody gets it: no bit is cleared.
    Row {
        operation: SET_USER,
        steps: &[Does(Make(Some(0o4755))), Finds(0, 0), Opens(0, 0)],
        ..BY_ROOT
    },
    // A folder keeps its bits.
    Row {
        operation: FOLDER,
        steps: &[
            Does(MakeDir(Some(0o755))),
            Finds(0, 0),
            GIVEN,
            Finds(1000, 100),
            Gives(1000, 100),
        ],
        ..CREATED
    },
    Row {
        operation: PASSING,
        steps: &[
            Does(MakeDir(Some(0o2755))),
            Finds(0, 50),
            Does(SetOwner(Some(1000), None)),
            Finds(1000, 50),
            Gives(1000, 50),
        ],
        ..CREATED
    },
    // A link has no permission bits of its own.
    Row {
        operation: LINK,
        steps: &[
            Does(MakeLink(4)),
            Finds(0, 0),
            GIVEN,
            Finds(1000, 100),
            Gives(1000, 100),
        ],
        ..CREATED
    },
    Row {
        operation: LINK,
        steps: &[Does(MakeLink(4)), Finds(0, 0), Gives(0, 0)],
        ..BY_ROOT
    },
    // With fixed attributes nothing has an owner of its own.
    Row {
        settings: FIXED,
        steps: &[Does(Make(None)), Finds(0, 0), Opens(0, 0)],
        ..CREATED
    },
    Row {
        settings: FIXED,
        operation: FOLDER,
        steps: &[Does(MakeDir(None)), Finds(0, 0), Gives(0, 0)],
        ..CREATED
    },
];

#[test]
fn what_is_made_belongs_to_its_caller(rt: HostRuntime) -> Result<(), Fail> {
    for row in ROWS {
        compare(&rt, row)?;
    }
    Ok(())
}
