//! What a client sees of an open folder: its listing, and pages of it.
#![tactic(auto)]

mod counted;
mod counts;
mod dirs;
mod folders;
mod lent;
mod limits;
mod listing;
mod names;
mod page;
mod paging;
mod stored;

pub use dirs::Dirs;
pub use folders::{Folders, Loan};
pub use lent::Lent;
pub use limits::{FolderLimits, MAX_KEPT_NAMES, MAX_OPEN_FOLDERS};
pub use listing::{Listing, ListingFault};
pub use page::{Page, PageFault};
pub use paging::page_len;
