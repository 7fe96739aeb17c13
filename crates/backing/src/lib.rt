//! A directory, as calls on paths, and one in memory.
#![tactic(auto)]

mod bytes;
mod call;
mod calls;
mod checks;
mod details;
mod entries;
mod exchanging;
mod linking;
mod lookups;
mod making;
mod memory;
mod moving;
mod perform;
mod plans;
mod reading;
mod refusal;
mod removing;
mod shared;
mod told;
mod writing;

pub use bytes::Bytes;
pub use call::{Answer, Call, Child, Children, MAX_FILE_LEN, NewTime};
pub use calls::{Calls, KnownTree};
pub use memory::MemTree;
pub use plans::PlannedFault;
pub use shared::Shared;
pub use told::Told;
