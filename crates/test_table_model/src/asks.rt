//! The calls on both tables, as plain values. Numbers and names are those of the list table.

use crate::words::Word;
use table::{Access, Need};

/// Up to three names, for a page.
#[derive(Clone, Copy)]
pub struct Batch {
    pub first: Word,
    pub second: Word,
    pub third: Word,
    pub count: usize,
}

impl Batch {
    /// All three.
    pub fn words(self) -> [Word; 3] {
        [self.first, self.second, self.third]
    }

    /// How many of them the page has.
    pub fn len(self) -> usize {
        self.count.min(3)
    }
}

/// Up to four findings.
#[derive(Clone, Copy)]
pub struct Findings {
    pub first: bool,
    pub second: bool,
    pub third: bool,
    pub fourth: bool,
    pub count: usize,
}

impl Findings {
    /// All four.
    pub fn found(self) -> [bool; 4] {
        [self.first, self.second, self.third, self.fourth]
    }

    /// How many of them the page has.
    pub fn len(self) -> usize {
        self.count.min(4)
    }
}

/// What a request begins with.
#[derive(Clone, Copy)]
pub enum Ask {
    /// A node, and the handle through which it is used and for what, if any.
    Node(u64, Option<(u64, Need)>),
    /// A name under a parent.
    Name(u64, Word),
    /// Names in a folder.
    Page(u64, Batch),
    /// Removing a name under a parent, and whether its file may be hidden instead.
    Remove(u64, Word, bool),
    /// Moving a name under a parent to a name under another.
    Move(u64, Word, u64, Word),
    /// The same, keeping what is at the target.
    Keep(u64, Word, u64, Word),
    /// Exchanging a name under a parent with one under another.
    Exchange(u64, Word, u64, Word),
    /// Opening the file of a node.
    Open(u64, Access),
    /// Creating a file with a name under a parent, and opening it.
    Create(u64, Word, Access),
    /// Closing a handle of a node.
    Release(u64, u64),
    /// Giving the file of a node a further name under a parent.
    Link(u64, u64, Word),
}

/// The outcome of a request.
#[derive(Clone, Copy)]
pub enum End {
    Failed,
    Done,
    Entry,
    Entries(Findings),
    Hidden(u8),
    /// The index of the candidate, and whether the move was made afterwards.
    HiddenMove(u8, bool),
}

/// A call on a table. A ticket or an answer is given by its index among those pending.
#[derive(Clone, Copy)]
pub enum Step {
    Begin(Ask),
    Finish(usize, End),
    /// Whether the reply was taken.
    Settle(usize, bool),
    /// Forgetting that many lookups of a node.
    Forget(u64, u64),
}

/// The result of a call, without its paths and the nodes that it gave.
#[derive(Clone, Copy, PartialEq, Eq)]
pub enum Told {
    Go {
        same: bool,
        hide: bool,
        last: bool,
    },
    Busy,
    Refused(i32),
    Ended {
        names: usize,
        opened: Option<u64>,
        lost: bool,
    },
    Settled {
        entries: u64,
        taken: bool,
    },
    Amount(u64),
    /// There is no such ticket or answer.
    Nothing,
}

impl Told {
    /// The same for a message: what came, and its numbers.
    pub fn row(self) -> (&'static str, u64, u64) {
        match self {
            Told::Go { same, hide, last } => {
                ("go", same as u64, 2 * (hide as u64) + (last as u64))
            }
            Told::Busy => ("busy", 0, 0),
            Told::Refused(errno) => ("refused", errno.unsigned_abs() as u64, 0),
            Told::Ended {
                names,
                opened,
                lost: false,
            } => ("ended", names as u64, opened.unwrap_or(0)),
            Told::Ended {
                names,
                opened,
                lost: true,
            } => ("lost", names as u64, opened.unwrap_or(0)),
            Told::Settled { entries, taken } => ("settled", entries, taken as u64),
            Told::Amount(amount) => ("amount", amount, 0),
            Told::Nothing => ("nothing", 0, 0),
        }
    }
}
