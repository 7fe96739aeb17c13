//! The data of a request in flight.

ghost use Rattle.std.specs.Prelude.{◌≡◌, ◌==◌, ◌+◌, ◌-◌, ◌<◌, [], ◌∷◌, ◌++◌, IfOk, Some, length, count_by, is_some};
ghost use Rattle.std.specs.List.{list_any};

use crate::names::Names;
use holds::Held;
use paths::Name;
use smallvec::SmallVec;
use std::alloc::{AllocError, Global};
use std::marker::Model;
use table_files::{Access, Need};

/// The handle of an open file, and what it is used for.
#[derive(Clone, Copy, Debug, PartialEq, Eq)]
pub struct Handle {
    pub fh: u64,
    pub need: Need,
}

/// What a request asks of the table when it begins.
#[derive(Drop)]
pub enum Want {
    /// A node (GETATTR), and the open file through which it is used, if any (READ, WRITE, FSYNC, SETATTR with a
    /// handle).
    Node {
        number: u64,
        handle: Option<Handle>,
    },
    /// A name under a parent (LOOKUP).
    Name {
        parent: u64,
        name: Name,
    },
    /// A name to be removed, whether or not it has a node (UNLINK, RMDIR).
    Remove {
        parent: u64,
        name: Name,
        /// Whether an open file may be hidden instead of being removed.
        may_hide: bool,
    },
    /// A name to be moved to another, whatever is at either (RENAME, RENAME2).
    Move {
        parent: u64,
        name: Name,
        new_parent: u64,
        new_name: Name,
        /// Whether what is at the target is kept: then no open file there is hidden.
        keep: bool,
    },
    /// Two names to be exchanged, whatever is at either (RENAME2).
    Exchange {
        parent: u64,
        name: Name,
        new_parent: u64,
        new_name: Name,
    },
    /// Names in a folder (READDIRPLUS).
    Page {
        folder: u64,
        names: Names,
    },
    /// A file to be opened (OPEN).
    Open {
        number: u64,
        access: Access,
    },
    /// A file to be created and opened (CREATE).
    Create {
        parent: u64,
        name: Name,
        access: Access,
    },
    /// An open file of a node to be closed (RELEASE).
    Release {
        number: u64,
        fh: u64,
    },
    /// A node, whose file gets a further name under a parent (LINK).
    Link {
        number: u64,
        parent: u64,
        name: Name,
    },
}

/// What a request's footprint takes from the table besides its want. It is judged once, when the request begins.
#[derive(Clone, Copy, Debug, PartialEq, Eq)]
pub enum Case {
    /// Nothing more, or the name for which an entry may be given has a node.
    Plain,
    /// That name has no node.
    Absent,
    /// The node whose file is closed has no path, or one longer than 4,096 bytes.
    Pathless,
    /// The node whose file is closed has a hidden mark and a path that is not longer than that, and no other open file:
    /// the file is removed.
    Last,
    /// The node at the name to be removed or replaced has an open file, which may be hidden.
    Hiding {
        number: u64,
        /// The counter of the first hidden name that may be used.
        counter: u32,
    },
}

/// What a request may still add. Room for it is kept free from its begin to its finish.
#[derive(Clone, Copy, Debug, PartialEq, Eq)]
pub struct Promise {
    /// Nodes that it may create.
    pub nodes: u64,
    /// Postings that it may make, including those that take them back.
    pub postings: u64,
    /// Files that it may open, each with a handle of its own.
    pub files: u64,
}

impl Promise {
    /// No promise.
    pub const NONE: Promise = Promise {
        nodes: 0,
        postings: 0,
        files: 0,
    };
}

/// A node that was given to the client.
#[derive(Clone, Copy, Debug, PartialEq, Eq)]
pub struct Given {
    /// The node number.
    pub number: u64,
    pub generation: u64,
}

/// The node that was given for each name of a request, with room for more. Only pages have more than one name.
#[derive(Drop)]
pub struct Givens {
    given: SmallVec<Option<Given>, 1>,
    /// How many more can be added without allocating.
    room: usize,
}

impl Model for Givens {
    ghost use Rattle.smallvec.specs.SmallVec.{HasRoomFor};
    ghost use Rattle.table_requests.specs.Roomy.{Listed};

    ghost Value = { Listed };

    ghost view = { λ g. record { items = g.given.items; room = g.room } };

    ghost invariant = { λ g. HasRoomFor g.given g.room };
}

impl Givens {
    /// No nodes. It does not allocate.
    pub fn new(alloc: Global) -> Givens
        ensures { result.items ≡ [] }
    {
        Givens {
            given: SmallVec::new(alloc),
            room: 0,
        }
    }

    /// No nodes yet, with room for `capacity`.
    pub fn with_capacity(alloc: Global, capacity: usize) -> Result<Givens, AllocError>
        ensures { IfOk result (λ g. g ≡ record { items = []; room = capacity }) }
    {
        let given = SmallVec::with_capacity(alloc, capacity)?;
        Ok(Givens {
            given,
            room: capacity,
        })
    }

    /// Adds the node given for the next name, if any. There must be room for it.
    pub fn add(&mut self, given: Option<Given>)
        requires { 0 < self.old.room }
        ensures { self.new ≡ record { items = self.old.items ++ given ∷ []; room = self.old.room - 1 } }
    {
        self.given.push_reserved(given);
        self.room -= 1;
    }

    /// The node given for each name, if any.
    pub fn as_slice(&self) -> &[Option<Given>]
        ensures { result.now ≡ self.now.items }
    {
        self.given.as_slice()
    }

    /// How many nodes were given.
    pub fn entries(&self) -> u64
        ensures { result ≡ count_by (λ g. is_some g) self.now.items }
    {
        self.as_slice().iter().filter(|g| g.is_some()).count() as u64
    }
}

/// Numbers of nodes that a request pins, with room for more. Only pages and requests that may hide a file pin more than
/// four.
#[derive(Drop)]
pub struct Pins {
    numbers: SmallVec<u64, 4>,
    /// How many more can be added without allocating.
    room: usize,
}

impl Model for Pins {
    ghost use Rattle.smallvec.specs.SmallVec.{HasRoomFor};
    ghost use Rattle.table_requests.specs.Roomy.{Pinned};

    ghost Value = { Pinned };

    ghost view = { λ p. record { numbers = p.numbers.items; room = p.room } };

    ghost invariant = { λ p. HasRoomFor p.numbers p.room };
}

impl Pins {
    /// No numbers yet, with room for `capacity`.
    pub fn with_capacity(alloc: Global, capacity: usize) -> Result<Pins, AllocError>
        ensures { IfOk result (λ p. p ≡ record { numbers = []; room = capacity }) }
    {
        let numbers = SmallVec::with_capacity(alloc, capacity)?;
        Ok(Pins {
            numbers,
            room: capacity,
        })
    }

    /// Adds a number, for which there is room.
    pub fn add(&mut self, number: u64)
        requires { 0 < self.old.room }
        ensures { self.new ≡ record { numbers = self.old.numbers ++ number ∷ []; room = self.old.room - 1 } }
    {
        self.numbers.push_reserved(number);
        self.room -= 1;
    }

    /// The numbers, in the order in which they were added.
    pub fn as_slice(&self) -> &[u64]
        ensures { result.now ≡ self.now.numbers }
    {
        self.numbers.as_slice()
    }

    /// Whether the number is one of them.
    pub fn contains(&self, number: u64) -> bool
        ensures { result ≡ list_any (λ m. m == number) self.now.numbers }
    {
        self.as_slice().iter().any(|m| *m == number)
    }
}

/// What is still to be done for a request.
#[derive(Drop)]
pub struct Work {
    pub want: Want,
    pub case: Case,
    /// A copy of the name that the want may give to a node: a node is put into the tree under two keys.
    pub copy: Option<Name>,
    /// The names under which an open file may be hidden.
    pub candidates: Names,
    /// Copies of the names of its page, or of those candidates, for the same reason.
    pub copies: Names,
    /// The names for which other requests must wait.
    pub held: Held,
    pub promise: Promise,
    /// The room for its answer, so that the end of the work does not allocate.
    pub answer: Givens,
}

/// How far a request is.
#[derive(Drop)]
pub enum Stage {
    /// It was begun, and work on it is in progress.
    Working(Work),
    /// Work on it has ended, and its reply is not settled yet.
    Answered {
        /// How many numbers it had pinned when its work ended. Those after them are of the nodes that it gave, in
        /// order.
        before: usize,
        /// The handle of the file that it opened.
        opened: Option<u64>,
    },
}

impl Stage {
    ghost use Rattle.table_requests.specs.RequestMaps.{files_promised, is_working, nodes_promised, postings_promised};

    /// Whether work on the request is in progress.
    pub fn is_working(&self) -> bool
        ensures { result ≡ is_working self.now }
    {
        matches!(self, Stage::Working(_))
    }

    /// What the request may still add.
    pub fn promise(&self) -> Promise
        ensures nodes { result.nodes ≡ nodes_promised self.now }
        ensures postings { result.postings ≡ postings_promised self.now }
        ensures files { result.files ≡ files_promised self.now }
    {
        match self {
            Stage::Working(work) => work.promise,
            Stage::Answered { .. } => Promise::NONE,
        }
    }
}

/// A request in flight.
#[derive(Drop)]
pub struct RequestInFlight {
    /// Distinguishes it from the others of its table.
    pub id: u64,
    /// The number of the request at the client.
    pub unique: u64,
    pub stage: Stage,
    /// The nodes that are kept until it is settled.
    pub pins: Pins,
}

/// What is left of an answered request when it is removed.
#[derive(Drop)]
pub struct EndedRequest {
    /// The nodes that it pinned.
    pub pins: Pins,
    /// How many numbers it had pinned when its work ended.
    pub before: usize,
    /// The handle of the file that it opened.
    pub opened: Option<u64>,
}
