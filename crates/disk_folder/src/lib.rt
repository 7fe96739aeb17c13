//! A folder of a disk, as a directory whose tree is known where the disk is honest: each call of the system is below an open directory, by one name.
#![tactic(auto)]

mod attributes;
mod beside;
mod calling;
mod explained;
mod files;
mod finding;
mod folder;
mod following;
mod linking;
mod links;
mod listed;
mod listing;
mod look;
mod making;
mod moving;
mod moving_new;
mod open_cache;
mod opened;
mod parts;
mod removing;
mod renaming;
mod stat;
mod trouble;
mod unseen;
mod walk;

pub use folder::Folder;
pub use opened::Open;
pub use trouble::{Reason, Trouble};
