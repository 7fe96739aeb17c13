//! A device that behaves as a test has written down.

use engine_streams::{DeviceFault, ReadRequest, WriteReply};
use std::alloc::{AllocError, Global};
use std::sync::{Arc, Mutex};

/// The results of reads, in order: a request, or an error number. After them the file system is not mounted any more
/// (19, `ENODEV`).
#[derive(Drop)]
pub struct ScriptedRequests {
    reads: Vec<Result<Vec<u8>, i32>>,
    made: usize,
}

impl ScriptedRequests {
    pub fn new(reads: Vec<Result<Vec<u8>, i32>>) -> ScriptedRequests {
        ScriptedRequests { reads, made: 0 }
    }
}

impl ReadRequest for ScriptedRequests {
    ghost gives = { λ _ _ _. Unit {0} };

    fn read_request(&mut self, room: &mut [u8]) -> Result<usize, DeviceFault> {
        let Some(read) = self.reads.get(self.made) else {
            return Err(DeviceFault::Unmounted);
        };
        self.made = self.made.saturating_add(1);
        match read {
            Ok(frame) => {
                let count = frame.len().min(room.len());
                room[..count].copy_from_slice(&frame[..count]);
                if count == 0 {
                    return Err(DeviceFault::Unmounted);
                }
                Ok(count)
            }
            Err(errno) => Err(DeviceFault::from(*errno)),
        }
    }
}

/// The result of writing a reply.
#[derive(Clone, Copy, Debug, PartialEq, Eq)]
pub enum Written {
    /// All of it was taken.
    Whole,
    /// That many of its bytes were taken, or all if there are no more.
    Part(usize),
    /// Nothing was taken, because of that error.
    Errno(i32),
}

/// The bytes of each write that took some, in order.
pub type Log = Arc<Mutex<Vec<Vec<u8>>>>;

/// The results of writes, in order. After them all are complete.
#[derive(Drop)]
pub struct ScriptedReplies {
    writes: Vec<Written>,
    made: usize,
    log: Log,
}

impl ScriptedReplies {
    pub fn new(writes: Vec<Written>, log: Log) -> ScriptedReplies {
        ScriptedReplies {
            writes,
            made: 0,
            log,
        }
    }

    /// Notes what was taken.
    fn note(&self, alloc: Global, bytes: &[u8]) -> Result<(), AllocError> {
        let taken = Vec::from_slice(alloc, bytes)?;
        let Some(mut log) = self.log.try_lock() else {
            return Err(AllocError);
        };
        log.push(taken)?;
        Ok(())
    }
}

impl WriteReply for ScriptedReplies {
    ghost takes = { λ _ _ _ _. Unit {0} };

    fn write_reply(&mut self, reply: &[u8]) -> Result<usize, DeviceFault> {
        let written = self.writes.get(self.made).copied();
        self.made = self.made.saturating_add(1);
        let count = match written.unwrap_or(Written::Whole) {
            Written::Whole => reply.len(),
            Written::Part(count) => count.min(reply.len()),
            Written::Errno(errno) => return Err(DeviceFault::from(errno)),
        };
        match self.note(*self.writes.allocator(), &reply[..count]) {
            Ok(()) => Ok(count),
            Err(_) => Err(DeviceFault::Other(12)),
        }
    }
}
