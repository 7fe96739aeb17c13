//! The turns of a session on threads. The reader makes one receive, and a job for each frame that is then whole; a
//! worker answers a job, with a table that all threads share; the writer offers the queued replies together. The reader
//! and the writer are roles: each is kept under a lock of its own, and the thread that holds the lock takes its next
//! turn.
#![tactic(auto)]

mod batches;
mod job;
mod known;
mod meeting;
mod origins;
mod reader;
mod reader_role;
mod reading;
mod replies;
mod reply_buffer;
mod settling;
mod shares;
mod sleepers;
mod spare_buffers;
pub mod table_handle;
mod table_lock;
mod verdicts;
mod waiting;
mod working;
mod writer_role;
mod writing;

pub use batches::{BATCH, Batch};
pub use job::Job;
pub use origins::{Sink, Source};
pub use reader::{READ_AT_ONCE, Reader};
pub use reader_role::ReaderRole;
pub use reading::ReaderEnd;
pub use replies::JobReply;
pub use shares::{Shares, ThreadShare};
pub use sleepers::Sleepers;
pub use spare_buffers::SpareBuffers;
pub use table_handle::{TableHandle, TurnResult};
pub use table_lock::TableLock;
pub use waiting::wait_unless;
pub use working::{Turn, Worker};
pub use writer_role::{WriterEnd, WriterRole};
pub use writing::Writer;
