//! The command line: what its words ask for, why they are refused, and the line that says why a program failed.
#![tactic(auto)]

mod arguments;
mod command;
mod faults;
mod options;
mod refusals;
mod values;

pub use arguments::DEFAULT_POSTINGS;
pub use faults::{Failure, Fault, tell};
pub use options::{Options, read_options};
pub use refusals::OptionsRefusal;
