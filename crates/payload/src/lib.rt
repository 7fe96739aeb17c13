//! What requests and answers carry: attributes of files, and bytes behind room for a header, so that a reply can be built in the
//! buffer that was read into.
#![tactic(auto)]

ghost use Rattle.std.specs.Prelude.{◌≡◌, ◌≢◌, ◌≤◌, ◌+◌, ◌++◌, IfErr, IfOk, drop, length};

mod attributes;

pub use attributes::{Details, Kind, Special, Time};
use std::marker::Model;

/// How much room the header of a reply takes (`fuse_out_header` of Linux's `fuse.h`).
pub const HEADER_ROOM: usize = 16;

/// Bytes, possibly with room for a header before them. Contracts see the bytes as a list.
#[derive(Debug, Drop)]
pub struct Payload {
    buffer: Vec<u8>,
    /// How many bytes of room are before the data.
    room: usize,
}

impl Model for Payload {
    ghost use Rattle.std.specs.Prelude.{◌≤◌, ℕ, List, drop, length};

    ghost Value = { List ℕ };

    ghost view = { λ p. drop p.room p.buffer.items };

    ghost invariant = { λ p. p.room ≤ length p.buffer.items };
}

/// Writes the header over the first bytes.
fn write_front(bytes: &mut [u8], header: &[u8])
    requires { length header.now ≤ length bytes.old }
    ensures written { bytes.new ≡ header.now ++ drop (length header.now) bytes.old }
    ensures len { length bytes.new ≡ length bytes.old }
{
    bytes[..header.len()].copy_from_slice(header);
}

impl Payload {
    /// The vector's bytes, with no room before them. It does not allocate.
    pub fn new(buffer: Vec<u8>) -> Payload
        ensures { result ≡ buffer.items }
    {
        Payload { buffer, room: 0 }
    }

    /// The vector's bytes after the first `room`, which are room for a header. It does not allocate.
    pub fn behind(room: usize, buffer: Vec<u8>) -> Payload
        requires { room ≤ length buffer.items }
        ensures { result ≡ drop room buffer.items }
    {
        Payload { buffer, room }
    }

    /// All its bytes.
    pub fn as_slice(&self) -> &[u8]
        ensures { result.now ≡ self.now }
    {
        &self.buffer[self.room..]
    }

    /// How many bytes it has.
    pub fn len(&self) -> usize
        ensures { result ≡ length self.now }
    {
        self.buffer.len() - self.room
    }

    /// The header followed by the bytes, which are not copied, if the room is exactly as long as the header; otherwise
    /// the payload is returned.
    pub fn headed(self, header: &[u8]) -> Result<Vec<u8>, Payload>
        ensures ok { IfOk result (λ frame. frame.items ≡ header.now ++ self) }
        ensures err { IfErr result (λ same. same ≡ self) }
    {
        if self.room != header.len() {
            return Err(self);
        }
        let Payload {
            mut buffer,
            room: _,
        } = self;
        write_front(&mut buffer, header);
        Ok(buffer)
    }
}
