//! The bytes of a reply.

ghost use Rattle.std.specs.Prelude.{◌≡◌};

/// The bytes of a reply. One that is only a header needs no memory of its own.
#[derive(Drop)]
pub enum ReplyBytes {
    Header([u8; 16]),
    Whole(Vec<u8>),
}

impl ReplyBytes {
    ghost use Rattle.engine.specs.Batches.{bytes_of};

    /// All its bytes.
    pub fn as_slice(&self) -> &[u8]
        ensures { result.now ≡ bytes_of self.now }
    {
        match self {
            ReplyBytes::Header(frame) => frame,
            ReplyBytes::Whole(frame) => frame.as_slice(),
        }
    }
}
