//! The header of a request.

ghost use Rattle.std.specs.Prelude.{◌≡◌, ◌+◌, ◌<◌, ◌≤◌, ◌↔◌, IsNone, IfSome, length, drop};
ghost use Rattle.byteorder.specs.Endian.{little_number};
ghost use Rattle.wire.specs.Requests.{header_in};

use crate::request::HEADER_LEN;
use byteorder::{ByteOrder, LittleEndian};

/// What the header of a request says, apart from the length of the frame.
#[derive(Clone, Copy, Debug, PartialEq, Eq)]
pub struct Header {
    pub opcode: u32,
    /// The number that the reply repeats.
    pub unique: u64,
    /// The node number that the request is about.
    pub node: u64,
    /// The user and the group of the process that made the request, as the client says.
    pub uid: u32,
    pub gid: u32,
}

pub fn u32_in(frame: &[u8], at: usize) -> u32
    requires { at + 4 ≤ length frame.now }
    ensures { result ≡ little_number 4 (drop at frame.now) }
{
    LittleEndian::read_u32(&frame[at..])
}

fn u64_in(frame: &[u8], at: usize) -> u64
    requires { at + 8 ≤ length frame.now }
    ensures { result ≡ little_number 8 (drop at frame.now) }
{
    LittleEndian::read_u64(&frame[at..])
}

/// The header of a frame that is long enough to have one, even if the frame is faulty: it says whom to answer, and
/// whether to.
pub fn header_of(frame: &[u8]) -> Option<Header>
    ensures none { IsNone result ↔ (length frame.now < HEADER_LEN) }
    ensures some { IfSome result (λ header. header ≡ header_in frame.now) }
{
    if frame.len() < HEADER_LEN {
        return None;
    }
    Some(Header {
        opcode: u32_in(frame, 4),
        unique: u64_in(frame, 8),
        node: u64_in(frame, 16),
        uid: u32_in(frame, 24),
        gid: u32_in(frame, 28),
    })
}
