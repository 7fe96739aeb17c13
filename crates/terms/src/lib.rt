//! The settings of a session: how far its table may grow, and what it shows of its folder. The command line and the
//! layers below it share these types, so that neither waits for the other in the build.
#![tactic(auto)]

mod limits;
mod settings;
mod terms;

pub use limits::{Counts, Limits};
pub use settings::{AttributeSource, Kinds, Names, Settings};
pub use terms::{Bounds, Terms};
