//! Open files by their handles.
#![tactic(auto)]

mod counts;
mod data;
mod files;
mod listed;

pub use data::{Access, Need, OpenFile};
pub use files::Files;
pub use listed::OpenEntry;
