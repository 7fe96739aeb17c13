//! Calls of a directory, and their answers.

ghost use Rattle.std.specs.Prelude.{◌≡◌, List};

use paths::{Name, Path};
use payload::{Details, Kind, Payload, Time};
use std::marker::Model;

/// The maximum length of a file in a memory tree, in bytes (own).
pub const MAX_FILE_LEN: u64 = 1_048_576;

/// The value that a time is set to.
#[derive(Clone, Copy, Debug, PartialEq, Eq)]
pub enum NewTime {
    /// The time when the call is made.
    Now,
    At(Time),
}

/// A name in a folder, and the kind of what is there.
#[derive(Drop)]
pub struct Child {
    pub name: Name,
    pub kind: Kind,
}

/// The names in a folder. Contracts see them as a list.
#[derive(Drop)]
pub struct Children {
    list: Vec<Child>,
}

impl Model for Children {
    ghost use Rattle.std.specs.Prelude.{List};
    ghost use Rattle.backing.specs.declared.call.Child.{Child};

    ghost Value = { List Child };

    ghost view = { λ c. c.list.items };
}

impl Children {
    /// The vector's names. It does not allocate.
    pub fn from_vec(list: Vec<Child>) -> Children
        ensures { result ≡ list.items }
    {
        Children { list }
    }

    /// The names as a vector. It does not allocate.
    pub fn into_vec(self) -> Vec<Child>
        ensures { result.items ≡ self }
    {
        let Self { list } = self;
        list
    }

    /// All of them.
    pub fn as_slice(&self) -> &[Child]
        ensures { result.now ≡ self.now }
    {
        self.list.as_slice()
    }
}

/// A call of a directory. Paths start at its root.
#[derive(Clone, Copy)]
pub enum Call<'a> {
    /// Reports what is at the path.
    Stat(&'a Path),
    /// Lists the names in the folder.
    List(&'a Path),
    /// Makes an empty file, with these permission bits (only the lowest twelve count) or, without any, by the default
    /// of the process.
    Make {
        path: &'a Path,
        permissions: Option<u32>,
    },
    /// Makes an empty folder, with permission bits as for `Make`.
    MakeDir {
        path: &'a Path,
        permissions: Option<u32>,
    },
    /// Makes a symbolic link with this text, which is no path here and is never followed.
    MakeLink {
        path: &'a Path,
        text: &'a [u8],
    },
    /// Removes the file, or whatever else is there that is no folder.
    Remove(&'a Path),
    /// Removes the folder, which must be empty.
    RemoveDir(&'a Path),
    /// Moves what is at a path to another, with everything below it.
    Rename {
        from: &'a Path,
        to: &'a Path,
    },
    /// Like `Rename`, to a path with nothing at it.
    RenameNew {
        from: &'a Path,
        to: &'a Path,
    },
    /// Exchanges what is at the two paths, with everything below each.
    Exchange {
        first: &'a Path,
        second: &'a Path,
    },
    /// Gives what is at a path a further name, at a path with nothing at it. A link is not followed.
    Link {
        from: &'a Path,
        to: &'a Path,
    },
    /// Reads at most `size` bytes of the file, from byte `offset` on.
    Read {
        path: &'a Path,
        offset: u64,
        size: u32,
    },
    /// Reads the text of the link.
    ReadLink(&'a Path),
    /// Writes the data to the file at byte `offset`.
    Write {
        path: &'a Path,
        offset: u64,
        data: &'a [u8],
    },
    /// Truncates the file to `size` bytes, or extends it with zeros.
    SetLen {
        path: &'a Path,
        size: u64,
    },
    /// Writes what is at the path to the disk.
    Sync(&'a Path),
    /// Sets the permission bits of what is at the path: only the lowest twelve count.
    SetPermissions {
        path: &'a Path,
        permissions: u32,
    },
    /// Sets the owner and the group. `None` leaves a value unchanged.
    SetOwner {
        path: &'a Path,
        uid: Option<u32>,
        gid: Option<u32>,
    },
    /// Sets the times of the last read and the last change. `None` leaves a time unchanged.
    SetTimes {
        path: &'a Path,
        accessed: Option<NewTime>,
        modified: Option<NewTime>,
    },
}

/// A directory's answer to a call.
#[derive(Drop)]
pub enum Answer {
    Done,
    /// `size` is in bytes: 0 for a folder, and for a link the length of its text.
    Stat {
        kind: Kind,
        size: u64,
        details: Details,
    },
    Names(Children),
    /// The bytes of a file, or the text of a link.
    Bytes(Payload),
    /// How many bytes were written.
    Wrote(usize),
    /// The call was refused or failed, with this error number.
    Fault(i32),
}
