//! The lock of the table that all threads share.

use ledger::Ledgers;
use std::sync::Wait;
use table_shared::{Opening, SharedTable};

/// The shared table behind its lock, and the runtime by which a thread waits for that.
#[derive(Drop)]
pub struct TableLock<'a, H: Wait, T: Ledgers, O: Opening> {
    pub rt: &'a H,
    pub shared_table: &'a SharedTable<T, O>,
}
