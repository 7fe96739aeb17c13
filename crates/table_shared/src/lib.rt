//! A table that threads share: behind a lock, with one history of all calls that were made on it.
#![tactic(auto)]

pub mod entries;
pub mod recorded;
pub mod shared_table;

pub use entries::{Event, LogEntry, Opening, Runs};
pub use recorded::Recorded;
pub use shared_table::{Closed, SharedTable};
