//! What the scripted clients of the tests share: handles of open folders, which a client reads from the replies, a client
//! with all its frames, and a device.
#![tactic(auto)]

mod client;
mod devices;
mod plain_folders;

pub use client::{ALL, ALL_OF_HOST, Client, FIXED, OF_HOST, Over, serve_client};
pub use devices::{Log, ScriptedReplies, ScriptedRequests, Written};
pub use plain_folders::PlainFolders;
use std::alloc::{AllocError, Global};

const OPENDIR: u8 = 27;

/// READDIR, RELEASEDIR, FSYNCDIR and READDIRPLUS, whose first field is a handle.
const USES: [u8; 4] = [28, 29, 30, 44];

/// A handle that no session gives.
const STRANGER: u64 = u64::MAX;

/// The handles of open folders that came, in order. A script writes their position in this order, counted from 1, since
/// the session is free to choose its handles.
#[derive(Drop)]
pub struct Handles {
    came: Vec<u64>,
    /// Whether the last frame was an OPENDIR.
    is_opening: bool,
}

/// The number in the eight bytes from there on.
fn number_at(bytes: &[u8], at: usize) -> Option<u64> {
    let end = at.checked_add(8)?;
    let eight: [u8; 8] = bytes.get(at..end)?.try_into().ok()?;
    Some(u64::from_le_bytes(eight))
}

/// Writes a number into the eight bytes from there on, if there are that many.
fn put_number(bytes: &mut [u8], at: usize, number: u64) {
    for (byte, new) in bytes.iter_mut().skip(at).zip(number.to_le_bytes()) {
        *byte = new;
    }
}

impl Handles {
    /// No handles so far.
    pub fn new(alloc: Global) -> Handles {
        Handles {
            came: Vec::new(alloc),
            is_opening: false,
        }
    }

    /// The handle at that position.
    fn handle(&self, place: u64) -> u64 {
        let Some(before) = place.checked_sub(1) else {
            return STRANGER;
        };
        match self.came.get(before as usize) {
            Some(handle) => *handle,
            None => STRANGER,
        }
    }

    /// Turns a frame of a script into one to be sent: replaces the position by the handle.
    pub fn write(&mut self, frame: &mut [u8]) {
        let opcode = frame.get(4).copied().unwrap_or(0);
        self.is_opening = opcode == OPENDIR;
        if USES.contains(&opcode) {
            if let Some(place) = number_at(frame, 40) {
                let handle = self.handle(place);
                put_number(frame, 40, handle);
            }
        }
    }

    /// Turns the reply to the last frame into one of a script: replaces the handle by its position. A handle that came
    /// before becomes 0, which no script expects.
    pub fn read(&mut self, reply: &mut [u8]) -> Result<(), AllocError> {
        if !self.is_opening || reply.len() != 32 {
            return Ok(());
        }
        let Some(handle) = number_at(reply, 16) else {
            return Ok(());
        };
        if self.came.contains(&handle) {
            put_number(reply, 16, 0);
            return Ok(());
        }
        self.came.push(handle)?;
        put_number(reply, 16, self.came.len() as u64);
        Ok(())
    }

    /// A copy of that reply, as a script has it.
    pub fn told(&mut self, alloc: Global, reply: &[u8]) -> Result<Vec<u8>, AllocError> {
        let mut told = Vec::new(alloc);
        told.extend_from_slice(reply)?;
        self.read(&mut told)?;
        Ok(told)
    }
}

#[cfg(test)]
mod tests {
    use super::Handles;
    use std::test::Fail;

    #[test]
    fn a_handle_is_read_and_written(rt: HostRuntime) -> Result<(), Fail> {
        let mut handles = Handles::new(rt.alloc());
        let mut open = [0u8; 48];
        open[4] = 27;
        handles.write(&mut open);
        let mut reply = [0u8; 32];
        reply[16] = 7;
        handles.read(&mut reply)?;
        assert_eq!(rt; reply[16], 1);
        let mut read = [0u8; 80];
        read[4] = 28;
        read[40] = 1;
        handles.write(&mut read);
        assert_eq!(rt; read[40], 7);
        read[40] = 2;
        handles.write(&mut read);
        assert_eq!(rt; read[47], 255);
        Ok(())
    }
}
