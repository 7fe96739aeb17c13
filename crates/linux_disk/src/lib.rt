//! Linux's calls below open folders, each by one name and through no link.
#![tactic(auto)]

mod again;
mod below;
mod calls;
mod changes;
mod errors;
mod files;
mod guard;
mod handle;
mod held;
mod keeping;
mod keys;
mod libc_calls;
mod limits;
mod linking;
mod linux;
mod listing;
mod making;
mod mask;
mod open_fd;
mod opening;
mod page;
mod places;
mod privacy;
mod returned;
mod served;
mod spare;
mod start_error;
mod stat;
mod store;
mod unfilled;
mod way;

pub use calls::SystemCalls;
pub use files::KeptFile;
pub use handle::Handle;
pub use keys::Query;
pub use libc_calls::LibC;
pub use limits::room_for_open;
pub use linux::Linux;
pub use open_fd::{OpenFd, Rewound};
pub use page::Page;
pub use start_error::StartError;
pub use store::{FileStore, NoFiles, SharedFiles};
pub use way::Way;
