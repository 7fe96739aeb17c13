//! The kernel's FUSE device that is open in this process.

ghost use Rattle.std.specs.Prelude.{◌≡◌, ◌<◌, ◌≤◌, length, pos, IfOk, IfSome};

use crate::asking::Asking;
use crate::device::{DeviceFault, ReadRequest, WriteReply};

/// The descriptor of standard input.
const STANDARD_INPUT: i32 = 0;

/// How often one read polls at most before it blocks: for about 60 microseconds.
const ASKED: u32 = 200;

/// How many bytes a call moved, or why it failed.
fn told(moved: isize) -> Result<usize, DeviceFault>
    ensures { IfOk result (λ count. pos count ≡ moved) }
{
    match usize::try_from(moved) {
        Ok(count) => Ok(count),
        Err(_) => Err(DeviceFault::from(os::errno())),
    }
}

/// One read from a descriptor. If there are no more bytes, which the kernel's device never reports, it is as if it was
/// unmounted.
fn read(descriptor: i32, room: &mut [u8]) -> Result<usize, DeviceFault>
    ensures some { IfOk result (λ n. 0 < n) }
    ensures within { IfOk result (λ n. n ≤ length room.new) }
    ensures len { length room.new ≡ length room.old }
{
    let moved = libc::read(descriptor, room);
    match told(moved) {
        Ok(0) => Err(DeviceFault::Unmounted),
        told => told,
    }
}

/// The requests of the device that is open as standard input.
#[derive(Drop)]
pub struct DeviceRequests {
    /// Whether a read of the device blocks, if that was set already.
    waits: Option<bool>,
    asking: Asking,
    /// Whether the last request was already there at the first attempt.
    was_waiting: bool,
}

impl DeviceRequests {
    /// A reader that has read nothing yet.
    pub fn new() -> DeviceRequests {
        DeviceRequests {
            waits: None,
            asking: Asking::new(),
            was_waiting: false,
        }
    }

    /// Sets whether a read blocks. The setting remains for later reads, so neither a fast client nor a slow one costs a
    /// further call.
    fn set_waits(&mut self, waits: bool) {
        if self.waits != Some(waits) {
            let _ = os::set_nonblocking(STANDARD_INPUT, !waits);
            self.waits = Some(waits);
        }
    }

    /// Polls for a request for a while. None means that none came.
    fn ask(&mut self, room: &mut [u8]) -> Option<Result<usize, DeviceFault>>
        ensures some { IfSome result (λ told. IfOk told (λ n. 0 < n)) }
        ensures within { IfSome result (λ told. IfOk told (λ n. n ≤ length room.new)) }
        ensures len { length room.new ≡ length room.old }
    {
        self.set_waits(false);
        for time in 0..ASKED {
            let told = read(STANDARD_INPUT, room);
            if told != Err(DeviceFault::Nothing) {
                self.asking.came(time == 0);
                self.was_waiting = time == 0;
                return Some(told);
            }
        }
        None
    }
}

impl ReadRequest for DeviceRequests {
    ghost gives = { λ _ _ _. Unit {0} };

    fn was_waiting(&self) -> bool {
        self.was_waiting
    }

    fn read_request(&mut self, room: &mut [u8]) -> Result<usize, DeviceFault> {
        if self.asking.begins() {
            if let Some(told) = self.ask(room) {
                return told;
            }
            self.asking.in_vain();
        }
        self.was_waiting = false;
        self.set_waits(true);
        read(STANDARD_INPUT, room)
    }
}

/// The destination of replies to the device that is open as standard input. A write to it never blocks, whatever is set
/// for reads.
#[derive(Clone, Copy)]
pub struct DeviceReplies;

impl WriteReply for DeviceReplies {
    ghost takes = { λ _ _ _ _. Unit {0} };

    fn write_reply(&mut self, reply: &[u8]) -> Result<usize, DeviceFault> {
        told(libc::write(STANDARD_INPUT, reply))
    }
}
