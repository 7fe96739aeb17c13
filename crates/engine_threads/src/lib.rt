//! A session on 1 to 4 threads: what it needs is made first, then its threads take turns, and at the end what is left of them is
//! gathered.
#![tactic(auto)]

mod alone;
mod ended;
mod finishing;
mod given;
mod left;
mod origins;
mod preparing;
mod queue_ends;
mod resting;
mod running;
mod serving;
mod session_state;
mod threads;
mod traffic;
mod turns;
mod waiting;
mod worker_end;
mod worker_role;
mod working;

pub use ended::{Account, Ended, Passed, Sums};
pub use given::Given;
pub use serving::serve_threads;
