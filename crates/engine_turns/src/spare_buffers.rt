//! Buffers that are free to be used again.

ghost use Rattle.std.specs.Prelude.{◌≡◌, ◌⊎◌, ◌<◌, ◌++◌, ◌∷◌, [], vec_len, vec_capacity};

use std::alloc::Global;

/// How many buffers a thread keeps at most: those of the requests that a client usually has in flight.
const KEPT: usize = 32;

/// Buffers for frames or replies to come, so that they need no allocation. What stands in one is overwritten; a long one is kept as it
/// is, since a READ can use it without having it cleared. The one that was given back last is used first: it is still in the processor's cache.
#[derive(Drop)]
pub struct SpareBuffers {
    alloc: Global,
    pub buffers: Vec<Vec<u8>>,
}

impl SpareBuffers {
    /// There is none so far.
    pub fn new(alloc: Global) -> SpareBuffers
        ensures { result.buffers.items ≡ [] }
    {
        SpareBuffers {
            alloc,
            buffers: Vec::new(alloc),
        }
    }

    /// The one that was given back last, or a buffer without memory.
    pub fn take(&mut self) -> Vec<u8>
        ensures some { 0 < vec_len self.old.buffers → self.old.buffers.items ≡ self.new.buffers.items ++ result ∷ [] }
        ensures none { vec_len self.old.buffers ≡ 0 → (result.items ≡ []) × (vec_len self.new.buffers ≡ 0) }
    {
        match self.buffers.pop() {
            Some(buffer) => buffer,
            None => Vec::new(self.alloc),
        }
    }

    /// Gives a buffer back. One without memory is not kept, nor one for which enough are kept or memory is refused.
    pub fn give(&mut self, buffer: Vec<u8>)
        ensures { (self.new.buffers.items ≡ self.old.buffers.items) ⊎ ((self.new.buffers.items ≡ self.old.buffers.items ++ buffer ∷ []) × (0 < vec_capacity buffer)) }
    {
        if buffer.capacity() > 0 && self.buffers.len() < KEPT {
            let _ = self.buffers.push(buffer);
        }
    }
}
