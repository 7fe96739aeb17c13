//! Each request that has a script.

use crate::scripts::asks::Form;
use crate::scripts::attribute_rows::NEW;
use crate::scripts::compare::{Before, Row, compare};
use ops::Settings;
use std::test::Fail;
use terms::{AttributeSource, Kinds, Names};
use wire::Caller;
use wire::Operation::{
    self, Create, GetAttr, Link, Lookup, MakeDir, MakeLink, Open, OpenDir, Read, ReadDirPlus,
    ReadLink, Release, RemoveDir, Rename, Rename2, SetAttr, Sync, Unlink, Write,
};

/// Requests for the root, which is open as file 1, or for a name in it. Some have several scripts.
const OPERATIONS: &[Operation] = &[
    Lookup { name: b"a" },
    GetAttr,
    Open { flags: 0 },
    Create {
        name: b"a",
        flags: 2,
        mode: 0,
        umask: 0,
    },
    Read {
        fh: 1,
        offset: 6,
        size: 4,
    },
    Write {
        fh: 1,
        offset: 6,
        data: b"de",
    },
    Sync { fh: 1 },
    OpenDir,
    ReadDirPlus {
        fh: 1,
        offset: 0,
        size: 4096,
    },
    MakeDir {
        name: b"a",
        mode: 0,
        umask: 0,
    },
    ReadLink,
    MakeLink {
        name: b"a",
        text: b"../b",
    },
    Unlink { name: b"a" },
    RemoveDir { name: b"a" },
    Rename {
        name: b"a",
        new_parent: 1,
        new_name: b"b",
    },
    Rename2 {
        name: b"a",
        new_parent: 1,
        flags: 0,
        new_name: b"b",
    },
    Rename2 {
        name: b"a",
        new_parent: 1,
        flags: 1,
        new_name: b"b",
    },
    Rename2 {
        name: b"a",
        new_parent: 1,
        flags: 2,
        new_name: b"b",
    },
    Release { fh: 1 },
];

/// A ticket with nothing special about its request.
const PLAIN: Form = Form {
    same: false,
    hide: false,
    last: false,
};

const SAME: Form = Form {
    same: true,
    ..PLAIN
};

const HIDES: Form = Form {
    hide: true,
    ..PLAIN
};

const LAST: Form = Form {
    last: true,
    ..PLAIN
};

/// A request for the root, with fixed attributes and all kinds of files.
pub const OF_THE_ROOT: Row = Row {
    before: Before::Nothing,
    node: 1,
    operation: GetAttr,
    form: PLAIN,
    settings: Settings {
        attributes: AttributeSource::Fixed { uid: 0, gid: 0 },
        kinds: Kinds::All,
        names: Names::Text,
    },
    caller: Caller { uid: 0, gid: 0 },
    done: 0,
    files: 0,
    steps: &[],
};

/// An open file is removed.
const REMOVED: Row = Row {
    before: Before::Opened,
    operation: Unlink { name: b"a" },
    form: HIDES,
    ..OF_THE_ROOT
};

/// Another file is moved to its place.
const REPLACED: Row = Row {
    operation: Rename {
        name: b"e",
        new_parent: 1,
        new_name: b"a",
    },
    ..REMOVED
};

/// The file is closed.
const CLOSED: Row = Row {
    node: 2,
    operation: Release { fh: 2 },
    form: PLAIN,
    ..REMOVED
};

/// Its attributes.
const STOOD: Row = Row {
    node: 2,
    operation: GetAttr,
    form: PLAIN,
    ..REMOVED
};

/// A further name for the file.
const LINKED: Row = Row {
    operation: Link {
        old_node: 2,
        name: b"e",
    },
    form: PLAIN,
    ..REMOVED
};

/// Requests when a file is open, or hidden.
const ROWS: &[Row] = &[
    REMOVED,
    // Eight of its ten candidates exist already.
    Row {
        files: 8,
        ..REMOVED
    },
    REPLACED,
    // The source is a file.
    Row {
        files: 1,
        ..REPLACED
    },
    // And eight candidates exist already.
    Row {
        files: 9,
        ..REPLACED
    },
    // Onto itself.
    Row {
        operation: Rename {
            name: b"a",
            new_parent: 1,
            new_name: b"a",
        },
        form: SAME,
        ..REMOVED
    },
    // The same with RENAME2, which hides only without flags.
    Row {
        operation: Rename2 {
            name: b"e",
            new_parent: 1,
            flags: 0,
            new_name: b"a",
        },
        files: 1,
        ..REPLACED
    },
    Row {
        operation: Rename2 {
            name: b"e",
            new_parent: 1,
            flags: 1,
            new_name: b"a",
        },
        form: PLAIN,
        ..REMOVED
    },
    Row {
        operation: Rename2 {
            name: b"e",
            new_parent: 1,
            flags: 2,
            new_name: b"a",
        },
        form: PLAIN,
        ..REMOVED
    },
    // To itself, and with itself.
    Row {
        operation: Rename2 {
            name: b"a",
            new_parent: 1,
            flags: 1,
            new_name: b"a",
        },
        form: SAME,
        ..REMOVED
    },
    Row {
        operation: Rename2 {
            name: b"a",
            new_parent: 1,
            flags: 2,
            new_name: b"a",
        },
        form: SAME,
        ..REMOVED
    },
    // To another name.
    Row {
        operation: Rename {
            name: b"a",
            new_parent: 1,
            new_name: b"e",
        },
        form: PLAIN,
        ..REMOVED
    },
    LINKED,
    Row {
        before: Before::Hidden,
        ..LINKED
    },
    CLOSED,
    Row {
        before: Before::Hidden,
        form: LAST,
        ..CLOSED
    },
    // Attributes of an open file, and of one that is hidden: its hidden name is no link.
    STOOD,
    Row {
        before: Before::Hidden,
        ..STOOD
    },
    Row {
        before: Before::Hidden,
        operation: SetAttr {
            valid: 8,
            fh: 0,
            size: 7,
            attributes: NEW,
        },
        ..STOOD
    },
];

#[test]
fn scripts_are_those_of_the_slow_program(rt: HostRuntime) -> Result<(), Fail> {
    for operation in OPERATIONS {
        let row = Row {
            operation: *operation,
            ..OF_THE_ROOT
        };
        compare(&rt, &row)?;
    }
    Ok(())
}

#[test]
fn scripts_of_open_files_are_those_of_the_slow_program(rt: HostRuntime) -> Result<(), Fail> {
    for row in ROWS {
        compare(&rt, row)?;
    }
    Ok(())
}
