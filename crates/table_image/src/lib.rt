//! A table as plain data, and the law that every table satisfies.
//!
//! The law is about look-ups and lists, so that a table may store its nodes and requests in any way.
#![tactic(auto)]

mod data;
mod items;
mod lawful;
mod one;

pub use data::{
    Births, Hold, Holds, Image, ImageOne, ImageStage, Nodes, Numbers, OpenFiles, Postings, Record,
    Records,
};
pub use items::Items;
