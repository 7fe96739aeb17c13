//! Values kept by their paths, as open directories are: a tree by names, of which the least recently used go first.
#![tactic(auto)]

mod cache;
mod entries;
mod keys;
mod places;

pub use cache::PathCache;
// A crate can name the cache in a contract only if the types of its fields are exported.
#[doc(hidden)]
pub use entries::Entry;
#[doc(hidden)]
pub use keys::Key;
pub use places::{Peeked, Place};
