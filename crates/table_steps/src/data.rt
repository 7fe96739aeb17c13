//! What callers pass in and get back.

ghost use Rattle.std.specs.Prelude.{◌≡◌};

use crate::found::FoundNames;
use holds::Paths;
use paths::Path;
use std::hash::RandomState;
use std::io;
use std::marker::Model;
use std::random::RandomSource;
use table_requests::{Given, Givens};

/// The seeds of a table's hash maps. Clients choose names, so they must not know these.
#[derive(Clone, Copy, Debug)]
pub struct Seeds {
    /// For the index from names to numbers.
    pub index: RandomState,
    /// For the paths that are held.
    pub holds: RandomState,
}

impl Seeds {
    /// New seeds. The error is that the system gives no random bytes.
    pub fn new(rt: &impl RandomSource) -> io::Result<Seeds> {
        Ok(Seeds {
            index: RandomState::new(rt)?,
            holds: RandomState::new(rt)?,
        })
    }
}

/// The right and the duty to finish a request that was begun. It must be used up by `finish`.
#[must_use]
pub struct Ticket {
    pub(crate) id: u64,
    pub(crate) paths: Paths,
    pub(crate) same: bool,
    pub(crate) hide: bool,
    pub(crate) last: bool,
}

impl Model for Ticket {
    ghost use Rattle.table_steps.specs.Answers.{Claim};

    ghost Value = { Claim };

    ghost view = { λ t. record { id = t.id; paths = t.paths; same = t.same; hide = t.hide; last = t.last } };
}

impl Ticket {
    /// Distinguishes the request from the others in flight in its table.
    pub fn id(&self) -> u64
        ensures { result ≡ self.now.id }
    {
        self.id
    }

    /// The paths of the request, as they were when it began: for a move the source and then the target, for an exchange
    /// both, for a page that of its folder and then that of each name. Last come the ten candidates under which an open
    /// file may be hidden, if it may have to be.
    pub fn paths(&self) -> &[Path]
        ensures { result.now ≡ self.now.paths }
    {
        self.paths.as_slice()
    }

    /// Whether a path is moved to itself, or exchanged with itself, which changes nothing.
    pub fn same(&self) -> bool
        ensures { result ≡ self.now.same }
    {
        self.same
    }

    /// Whether the file at the name to be removed or replaced is open and may be hidden. The last ten paths are those
    /// to which it may be moved.
    pub fn hide(&self) -> bool
        ensures { result ≡ self.now.hide }
    {
        self.hide
    }

    /// Whether the request closed the last handle of a hidden file, which the end of its work removes. The only path is
    /// that of the file.
    pub fn last(&self) -> bool
        ensures { result ≡ self.now.last }
    {
        self.last
    }
}

/// The answer to a begin.
pub enum Begin {
    /// The request may go on. Its end does not allocate.
    Go(Ticket),
    /// Another request holds a name that this one needs; begin again later.
    Busy,
    /// The request was refused with this error number of Linux.
    Refused(i32),
}

/// The result of the work on a request.
#[derive(Drop)]
pub enum Outcome {
    /// It failed. An outcome that does not fit the want counts as this one.
    Failed,
    /// It was done, and no entry is given.
    Done,
    /// Its name exists, and the client is given an entry for it.
    Entry,
    /// For a page: which of its names exist. The client is given an entry for each of these that no other request holds
    /// exclusively.
    Entries(FoundNames),
    /// For a removal: what was at its name was moved to the candidate with this index, counted from 0.
    Hidden(u8),
    /// For a move: what was at its target was moved to the candidate with this index, counted from 0, and then, if
    /// `moved`, its source to its target.
    HiddenMove { candidate: u8, moved: bool },
}

/// What a finished request gives to the client. It must be used up by `Table::settle`, or by `leave`.
#[must_use]
pub struct Answered {
    pub(crate) id: u64,
    pub(crate) given: Givens,
    pub(crate) lost: bool,
    pub(crate) opened: Option<u64>,
}

impl Model for Answered {
    ghost use Rattle.table_steps.specs.Answers.{Answer};

    ghost Value = { Answer };

    ghost view = { λ a. record { id = a.id; given = a.given.items; lost = a.lost; opened = a.opened } };
}

impl Answered {
    /// Distinguishes the request from the others in flight in its table.
    pub fn id(&self) -> u64
        ensures { result ≡ self.now.id }
    {
        self.id
    }

    /// The node given to the client for each name of the request. Each counts until it is settled as untaken.
    pub fn given(&self) -> &[Option<Given>]
        ensures { result.now ≡ self.now.given }
    {
        self.given.as_slice()
    }

    /// Whether its ticket belonged to no request in progress.
    pub fn lost(&self) -> bool
        ensures { result ≡ self.now.lost }
    {
        self.lost
    }

    /// The handle of the file that was opened. It is closed if the reply is settled as untaken.
    pub fn opened(&self) -> Option<u64>
        ensures { result ≡ self.now.opened }
    {
        self.opened
    }

    /// Gives it up for good: its request stays in flight.
    pub fn leave(self) {
        let Answered {
            id: _,
            given: _,
            lost: _,
            opened: _,
        } = self;
    }
}

/// What a settle did. Only `Table::settle` makes one.
#[derive(Debug, Drop)]
pub struct Settled {
    pub(crate) id: u64,
    pub(crate) entries: u64,
    pub(crate) taken: bool,
}

impl Model for Settled {
    ghost use Rattle.table_steps.specs.Answers.{Settlement};

    ghost Value = { Settlement };

    ghost view = { λ s. record { id = s.id; entries = s.entries; taken = s.taken } };
}

impl Settled {
    /// The id of the request that was settled.
    pub fn id(&self) -> u64
        ensures { result ≡ self.now.id }
    {
        self.id
    }

    /// How many entries were in its answer.
    pub fn entries(&self) -> u64
        ensures { result ≡ self.now.entries }
    {
        self.entries
    }

    /// Whether its reply was taken.
    pub fn taken(&self) -> bool
        ensures { result ≡ self.now.taken }
    {
        self.taken
    }
}
