//! Stories: the calls on a table, the expected result of each, and what the table must be like in between.

use ledger::Totals;
use table::{Counts, Limits};
use table_image::ImageStage;

/// The number of the root.
pub const ROOT: u64 = 1;

/// The limits for stories that are not about limits.
pub const DEFAULT: Limits = Limits {
    nodes: 65_536,
    postings: 1_048_576,
    counts: Counts::Bounded,
    flights: 64,
    files: 4_096,
};

/// Steps for a new table, and the totals of its two shares at the end.
#[derive(Clone, Copy)]
pub struct Story<'a> {
    pub limits: Limits,
    pub steps: &'a [Step<'a>],
    pub gathers: Sum,
}

/// The totals of a table's shares.
#[derive(Clone, Copy, Debug, PartialEq, Eq)]
pub enum Sum {
    /// Births, entries, entries that were given back, and lookups that were forgotten.
    All(u64, u64, u64, u64),
    /// A share was given up.
    ShareMissing,
}

impl From<Totals> for Sum {
    fn from(totals: Totals) -> Sum {
        Sum::All(totals.born, totals.entries, totals.backs, totals.forgotten)
    }
}

/// What a request is for, with its names as text.
#[derive(Clone, Copy)]
pub enum Asks<'a> {
    /// A node by its number.
    Node(u64),
    /// A name under a parent.
    Name(u64, &'a str),
    /// Removing a name under a parent.
    Remove(u64, &'a str),
    /// The same, but an open file may be hidden instead.
    Unlink(u64, &'a str),
    /// Moving a name under a parent to another name under another parent.
    Move(u64, &'a str, u64, &'a str),
    /// The same, keeping what is at the target.
    Keep(u64, &'a str, u64, &'a str),
    /// Exchanging a name under a parent with another under another parent.
    Exchange(u64, &'a str, u64, &'a str),
    /// Names in a folder.
    Page(u64, &'a [&'a str]),
    /// A node that is read through a handle.
    Read(u64, u64),
    /// Opening the file of a node for reading.
    Open(u64),
    /// Creating a file with a name under a parent, and opening it for writing.
    Create(u64, &'a str),
    /// Closing a handle of a node.
    Release(u64, u64),
    /// Giving the file of a node a further name under a parent.
    Link(u64, u64, &'a str),
}

/// The outcome of a request.
#[derive(Clone, Copy)]
pub enum Outcome<'a> {
    Failed,
    Done,
    /// Its name exists.
    Entry,
    /// Which names of a page exist.
    Entries(&'a [bool]),
    /// What was at its name was moved to the candidate with this index.
    Hidden(u8),
    /// What was at its target was moved to that candidate, and then, if the flag says so, its source to its target.
    HiddenMove(u8, bool),
}

/// The result of a call.
#[derive(Clone, Copy, Debug, PartialEq, Eq)]
pub enum Told {
    /// The request began.
    Go,
    /// Another request holds a name that this one needs.
    Busy,
    /// It was refused with this error number.
    Refused(i32),
    /// Its name was given an entry of the node with this number and generation.
    Given(u64, u64),
    /// Its name was given nothing.
    NotGiven,
    /// It has several names, and that many of them were given an entry.
    Gave(u64),
    /// It asked for no entry, and has ended.
    Ended,
    /// Its ticket belongs to no request in progress.
    Lost,
    /// It is settled, and its answer had that many entries.
    Settled(u64),
    /// That many lookups were forgotten.
    Amount(u64),
    /// The period ended, and the ledger became that much shorter.
    Closed(u64),
    /// There was no such ticket or answer, so nothing was done.
    Nothing,
    /// The table is as the step says.
    Shown,
    /// The table is not as the step says.
    Otherwise,
}

/// Whether the client took a reply.
#[derive(Clone, Copy, PartialEq, Eq)]
pub enum Reply {
    Taken,
    Untaken,
}

/// A posting: its number and generation, and how many lookups for a Forget, or the count for an Opening.
#[derive(Clone, Copy, PartialEq, Eq)]
pub enum Posted {
    Born(u64, u64),
    Entry(u64, u64),
    Back(u64, u64),
    Forget(u64, u64, u64),
    Opening(u64, u64, u64),
}

/// Where a node is.
#[derive(Clone, Copy)]
pub enum Spot<'a> {
    Root,
    /// At a name under a parent.
    At(u64, &'a str),
    /// With that name, and with a hidden mark.
    Hidden(u64, &'a str),
    Cut,
}

/// A living node: its number, its generation, where it is, and its count.
#[derive(Clone, Copy)]
pub struct Living<'a>(pub u64, pub u64, pub Spot<'a>, pub u64);

/// The root, which is never counted.
pub const TOP: Living = Living(ROOT, 0, Spot::Root, 0);

/// A request in flight: its unique number, how far it is, and the nodes that it pins.
#[derive(Clone, Copy)]
pub struct Flying<'a>(pub u64, pub ImageStage, pub &'a [u64]);

/// A path that is held: how many requests share it, and how many hold it exclusively.
#[derive(Clone, Copy)]
pub struct Holding<'a>(pub &'a str, pub u64, pub u64);

/// A call with its expected result, or what the table must be like. A request is given by its unique number.
#[derive(Clone, Copy)]
pub enum Step<'a> {
    Begin(u64, Asks<'a>, Told),
    Finish(u64, Outcome<'a>, Told),
    Settle(u64, Reply, Told),
    /// Forgets that many lookups of a node.
    Forget(u64, u64, Told),
    /// Ends the period of the ledger.
    ClosePeriod(Told),
    /// A LOOKUP of a name under a parent, from its begin to its settle as taken, with the expected result of its
    /// finish.
    LookUp(u64, &'a str, Told),
    /// From now on the share of this worker is passed. Before, it is that of the first one, which is 0.
    Worker(usize),
    /// The last share is given up.
    LeaveShare,
    /// Adds the ticket of another table's first request, under a unique number.
    Stranger(u64),
    /// Adds an answer of another table, under a unique number. There a name was looked up that many times, and then a
    /// file was created: it opened the first handle, and gave an entry of node 3, or of node 2 if nothing was looked
    /// up.
    StrangersAnswer(u64, u64),
    /// The ticket of that request has these paths: for a move the source and then the target, for an exchange both.
    Paths(u64, &'a [&'a str]),
    /// The ticket of that request says whether its end removes a hidden file whose last handle it closed.
    Last(u64, bool),
    /// The answer of that request has these nodes, by number and generation, or none, name by name.
    Lists(u64, &'a [Option<(u64, u64)>]),
    /// The handle is that of an open file of this node, or not open.
    File(u64, Option<u64>),
    /// The paths of the hidden files, sorted by the numbers of their nodes.
    Leftover(&'a [&'a str]),
    /// All living nodes.
    Nodes(&'a [Living<'a>]),
    /// All postings, oldest first.
    Ledger(&'a [Posted]),
    /// All requests in flight.
    Requests(&'a [Flying<'a>]),
    /// All held paths.
    Holds(&'a [Holding<'a>]),
    /// How many nodes, postings and requests there are.
    Size(usize, usize, usize),
    /// What was posted to the share of this worker.
    Share(usize, Sum),
}

impl Step<'_> {
    /// The expected result of the step.
    pub fn said(&self) -> Told {
        match *self {
            Step::Begin(_, _, told)
            | Step::Finish(_, _, told)
            | Step::Settle(_, _, told)
            | Step::Forget(_, _, told)
            | Step::ClosePeriod(told)
            | Step::LookUp(_, _, told) => told,
            _ => Told::Shown,
        }
    }
}
