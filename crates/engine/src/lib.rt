//! Sessions: frames are cut from what a link brings, and each is handled with a table and a directory before the next
//! one.
#![tactic(auto)]

mod bytes;
mod classes;
mod concluding;
mod ends;
mod entries;
mod folders;
mod handling;
mod hearing;
mod laws;
mod links;
mod outlet;
mod playing;
mod reach;
mod requests;
mod running;
mod served;
mod serving;
mod using;

pub use bytes::ReplyBytes;
pub use classes::{Class, ClassedFrame, class_of};
pub use concluding::give_up;
pub use ends::SessionEnd;
pub use handling::{agrees, negotiated_by};
pub use laws::unserved_are_refused;
pub use links::{Link, LinkIn, LinkOut, Received, Sent};
pub use ops::Settings;
pub use outlet::Outlet;
pub use playing::play;
pub use reach::Reach;
pub use requests::Session;
pub use served::Served;
pub use serving::{remove_leftovers, serve};
