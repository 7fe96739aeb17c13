//! Frames and replies of the protocol, byte for byte, the faults of faulty frames, and a stream that is cut at any
//! place. The bytes are typed in from the tables of `fuse.h`.

mod attributes;
mod byte_names;
mod bytes;
mod callers;
mod cutting;
mod dirents;
mod faults;
mod files;
mod frames;
mod greeting;
mod hard_links;
mod kinds;
mod links;
mod replies;
mod requests;
mod unread;
