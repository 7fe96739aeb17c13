//! The kernel's FUSE device, as a link uses it.

ghost use Rattle.std.specs.Prelude.{◌≡◌, ◌<◌, ◌≤◌, ℕ, List, length, IfOk, Result};
ghost use Rattle.engine_streams.specs.Device.{got, is_end, is_passing, Got};
ghost use Rattle.engine_streams.specs.declared.device.DeviceFault.{DeviceFault};

/// Why a call on the device had no effect.
#[derive(Clone, Copy, Debug, PartialEq, Eq)]
pub enum DeviceFault {
    /// Nobody waits for that request any more (`ENOENT`).
    Gone,
    /// It was interrupted by a signal (`EINTR`).
    Interrupted,
    /// There is nothing to read now (`EAGAIN`).
    Nothing,
    /// The file system is not mounted any more (`ENODEV`).
    Unmounted,
    /// Another error number.
    Other(i32),
}

impl DeviceFault {
    /// Whether the read is made again after this failure.
    pub(crate) fn is_passing(self) -> bool
        ensures { result ≡ is_passing self }
    {
        match self {
            DeviceFault::Gone | DeviceFault::Interrupted | DeviceFault::Nothing => true,
            DeviceFault::Unmounted | DeviceFault::Other(_) => false,
        }
    }

    /// Whether the file system is not mounted any more.
    pub(crate) fn is_end(self) -> bool
        ensures { result ≡ is_end self }
    {
        match self {
            DeviceFault::Unmounted => true,
            DeviceFault::Gone
            | DeviceFault::Interrupted
            | DeviceFault::Nothing
            | DeviceFault::Other(_) => false,
        }
    }
}

/// From the system's error number.
impl From<i32> for DeviceFault {
    ghost use Rattle.engine_streams.specs.Device.{Means};

    ghost from_gives = { Means };

    fn from(errno: i32) -> DeviceFault {
        match errno {
            2 => DeviceFault::Gone,
            4 => DeviceFault::Interrupted,
            11 => DeviceFault::Nothing,
            19 => DeviceFault::Unmounted,
            _ => DeviceFault::Other(errno),
        }
    }
}

/// The source of requests: each read returns one whole request.
pub trait ReadRequest {
    /// What a read may return, and which state the device may be in afterwards.
    ghost gives: { Self → Got → Self → Type 0 };

    /// Reads one request into a buffer with room for the longest frame. It returns how many bytes the request has, at
    /// least one, or why there is none.
    fn read_request(&mut self, room: &mut [u8]) -> Result<usize, DeviceFault>
        requires { length room.old ≡ 69632 }
        ensures some { IfOk result (λ n. 0 < n) }
        ensures within { IfOk result (λ n. n ≤ length room.new) }
        ensures len { length room.new ≡ length room.old }
        ensures gives { gives self.old (got result room.new) self.new };

    /// Whether the last request was already there before it was asked for, so that more may be waiting.
    fn was_waiting(&self) -> bool {
        false
    }
}

/// The destination of replies: each write takes one whole reply.
pub trait WriteReply {
    /// What a write of a reply may return, and which state the device may be in afterwards.
    ghost takes: { Self → List ℕ → Result ℕ DeviceFault → Self → Type 0 };

    /// Writes one reply. It returns how many of its bytes were taken, or why none was.
    fn write_reply(&mut self, reply: &[u8]) -> Result<usize, DeviceFault>
        ensures within { IfOk result (λ n. n ≤ length reply.now) }
        ensures takes { takes self.old reply.now result self.new };
}

/// Both ends of a device.
#[derive(Drop)]
pub struct Device<R: ReadRequest + Drop, W: WriteReply + Drop> {
    pub requests: R,
    pub replies: W,
}

/// The missing end of a link that has only one: no request comes, and nobody waits for a reply.
#[derive(Clone, Copy)]
pub struct NoDevice;

impl ReadRequest for NoDevice {
    ghost use Rattle.std.specs.Prelude.{◌≡◌};
    ghost use Rattle.engine_streams.specs.Device.{Refused};
    ghost use Rattle.engine_streams.specs.declared.device.DeviceFault.TheVariants.{Unmounted};

    ghost gives = { λ old told new. told ≡ Refused Unmounted };

    fn read_request(&mut self, _room: &mut [u8]) -> Result<usize, DeviceFault> {
        Err(DeviceFault::Unmounted)
    }
}

impl WriteReply for NoDevice {
    ghost use Rattle.std.specs.Prelude.{◌≡◌, Err};
    ghost use Rattle.engine_streams.specs.declared.device.DeviceFault.TheVariants.{Gone};

    ghost takes = { λ old reply told new. told ≡ Err Gone };

    fn write_reply(&mut self, _reply: &[u8]) -> Result<usize, DeviceFault> {
        Err(DeviceFault::Gone)
    }
}
