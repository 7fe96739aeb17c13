//! The ends of sessions.

/// How a session ended.
#[derive(Clone, Copy, Debug, PartialEq, Eq)]
pub enum SessionEnd {
    /// The input ended, and its last `rest` bytes were not a whole frame.
    Closed { rest: usize },
    /// The client ended it with DESTROY.
    Destroyed,
    /// A frame begins with a length that no frame may have.
    BadLength { len: u32 },
    /// The link failed.
    LinkBroken,
    /// Memory was refused at a point where no request could be answered with that error.
    Memory,
    /// There were no directories for threads to serve, or more than four. Nothing was read. A session on one thread
    /// never ends like this.
    NoWorkers,
}
