//! Laws over whole runs of a table: any calls, in any order, on any tickets and answers that earlier calls gave.

mod calls;
mod forgetting;
mod pending;

pub use calls::{CallResult, TableCall, make, run};
pub use forgetting::forgotten_are_gone;
pub use pending::{Pending, Started};
