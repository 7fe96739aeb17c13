//! Listings, their pages and the open folders: rows by number of bytes, many names, and two threads.

mod folders;
mod limits;
mod making;
mod pages;
mod steps;
