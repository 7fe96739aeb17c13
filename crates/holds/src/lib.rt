//! What requests in flight hold, so that requests for the same names wait for one another.
#![tactic(auto)]

mod few;
mod finding;
mod held;
mod names_under;
mod numbers;
mod prefixes;

pub use held::{GivenPath, GivenPaths, Held, Paths};
pub use numbers::{HoldNumbers, Holders};
pub use prefixes::{prefixes_of, push_prefixes};
