//! The state of a path-based server that is kept under a lock: nodes with lookup counts, their ledger, and the requests
//! in flight.
//!
//! Each call is one atomic step. The type's invariant is that the law of its world holds after every run of steps.
#![tactic(auto)]

mod export;
mod leftover;
mod periods;
mod table;

pub use periods::Made;
pub use table::Table;
pub use table_files::{Access, Need, OpenFile};
pub use table_requests::{Given, Handle, Names, Want};
pub use table_steps::{
    Answered, Begin, Counts, FoundNames, Limits, Outcome, Seeds, Settled, Ticket,
};
