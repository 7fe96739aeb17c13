//! The bytes of a file.

ghost use Rattle.std.specs.Prelude.{◌≡◌, ◌≤◌, ◌<◌, ◌+◌, ◌-◌, ◌^◌, ℕ, List, [], IsTrue, ◌↔◌, IfOk, OnErr, OnOk, length};
ghost use Rattle.backing.specs.Files.{resized, overlaid, written, read};

use std::alloc::{AllocError, Global};
use std::marker::Model;

/// Bytes of a file. Contracts see them as a list.
#[derive(Drop)]
pub struct Bytes {
    buffer: Vec<u8>,
}

impl Model for Bytes {
    ghost Value = { List ℕ };

    ghost view = { λ b. b.buffer.items };
}

impl Bytes {
    /// No bytes. It does not allocate.
    pub fn new(alloc: Global) -> Bytes
        ensures { result ≡ [] }
    {
        Bytes {
            buffer: Vec::new(alloc),
        }
    }

    /// The vector's bytes. It does not allocate.
    pub fn from_vec(buffer: Vec<u8>) -> Bytes
        ensures { result ≡ buffer.items }
    {
        Bytes { buffer }
    }

    /// The bytes as a vector. It does not allocate.
    pub fn into_vec(self) -> Vec<u8>
        ensures { result.items ≡ self }
    {
        let Self { buffer } = self;
        buffer
    }

    /// How many there are.
    pub fn len(&self) -> usize
        ensures { result ≡ length self.now }
    {
        self.buffer.len()
    }

    /// Whether there are none.
    pub fn is_empty(&self) -> bool
        ensures { IsTrue result ↔ (self.now ≡ []) }
    {
        self.buffer.is_empty()
    }

    /// All of them.
    pub fn as_slice(&self) -> &[u8]
        ensures { result.now ≡ self.now }
    {
        self.buffer.as_slice()
    }

    /// A copy of at most `size` bytes from byte `offset` on.
    pub fn read(&self, alloc: Global, offset: u64, size: u32) -> Result<Bytes, AllocError>
        ensures { IfOk result (λ b. b ≡ read self.now offset size) }
    {
        let piece = piece_of(self.as_slice(), offset, size);
        Ok(Bytes::from_vec(Vec::from_slice(alloc, piece)?))
    }

    /// Writes the piece at byte `offset`, and fills a gap before it with zeros. If memory is refused, the bytes do not
    /// change.
    pub fn write(&mut self, offset: usize, piece: &[u8]) -> Result<(), AllocError>
        requires { offset + length piece.now < 2 ^ 64 }
        ensures ok { OnOk result (self.new ≡ written self.old offset piece.now) }
        ensures err { OnErr result (self.new ≡ self.old) }
    {
        let end = offset + piece.len();
        let size = self.buffer.len().max(end);
        self.buffer.resize(size, 0)?;
        lay_over(self.buffer.as_mut_slice(), offset, piece);
        Ok(())
    }

    /// Truncates the bytes to `size`, or extends them with zeros. If memory is refused, the bytes do not change.
    pub fn set_len(&mut self, size: usize) -> Result<(), AllocError>
        ensures ok { OnOk result (self.new ≡ resized size self.old) }
        ensures err { OnErr result (self.new ≡ self.old) }
    {
        self.buffer.resize(size, 0)
    }
}

/// The bytes that a read returns.
fn piece_of(bytes: &[u8], offset: u64, size: u32) -> &[u8]
    ensures { result.now ≡ read bytes.now offset size }
{
    let len = bytes.len();
    let start = if offset < len as u64 {
        offset as usize
    } else {
        len
    };
    let rest = &bytes[start..];
    let count = rest.len().min(size as usize);
    &rest[..count]
}

/// Writes the piece over the bytes from that offset on.
fn lay_over(bytes: &mut [u8], offset: usize, piece: &[u8])
    requires { offset + length piece.now ≤ length bytes.old }
    ensures { bytes.new ≡ overlaid bytes.old offset piece.now }
{
    let end = offset + piece.len();
    bytes[offset..end].copy_from_slice(piece);
}
