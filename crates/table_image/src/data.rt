//! The data of a table, without its invariants.

use crate::items::Items;
use holds::Held;
use ledger::{KeptBirths, Posting, Totals};
use paths::Path;
use table_files::OpenEntry;
use tree::Node;

/// How far a request is.
#[derive(Clone, Copy, Debug, PartialEq, Eq)]
pub enum ImageStage {
    /// It was begun, and work on it is in progress.
    Working,
    /// Work on it has ended, and its reply is not settled yet.
    Answered,
}

/// Numbers of nodes, in the order in which they were added.
pub type Numbers = Items<u64>;

/// The nodes of a table, in any order.
pub type Nodes = Items<Node>;

/// How often each number was born in closed periods, in any order.
pub type Births = Items<KeptBirths>;

/// The postings of a period, oldest first.
pub type Postings = Items<Posting>;

/// The requests in flight of a table, in any order.
pub type Records = Items<Record>;

/// The paths that are held in a table, in any order.
pub type Holds = Items<Hold>;

/// The open files of a table with their handles, in any order.
pub type OpenFiles = Items<OpenEntry>;

/// A request in flight.
#[derive(Drop)]
pub struct Record {
    /// Distinguishes it from the others of its table.
    pub id: u64,
    /// The number of the request at the client.
    pub unique: u64,
    pub stage: ImageStage,
    /// The nodes that are kept until it is settled.
    pub pins: Numbers,
    /// What it holds while work on it is in progress.
    pub held: Held,
}

/// How many requests in progress hold a path.
#[derive(Drop)]
pub struct Hold {
    pub path: Path,
    /// Those that share it.
    pub shared: u64,
    /// Those that hold it exclusively.
    pub exclusive: u64,
}

/// A table as plain data: any nodes, ledger, records, holds and open files, lawful or not.
#[derive(Drop)]
pub struct Image {
    pub nodes: Nodes,
    /// The births of the closed periods.
    pub births: Births,
    /// The totals of the closed periods.
    pub closed: Totals,
    /// The postings of the last period.
    pub postings: Postings,
    pub records: Records,
    pub holds: Holds,
    pub files: OpenFiles,
    /// The counter of the next hidden name.
    pub counter: u32,
    /// The last handle that was used, or 0.
    pub last_handle: u64,
}

/// The image of an earlier version, which had no periods.
#[derive(Drop)]
pub struct ImageOne {
    pub nodes: Nodes,
    pub postings: Postings,
    pub records: Records,
    pub holds: Holds,
    pub files: OpenFiles,
    /// The counter of the next hidden name.
    pub counter: u32,
    /// The last handle that was used, or 0.
    pub last_handle: u64,
}
