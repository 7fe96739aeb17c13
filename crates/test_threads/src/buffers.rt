//! Buffers of frames and replies that are used again.

use engine_turns::SpareBuffers;
use std::alloc::{AllocError, Global};
use std::test::Fail;

/// How many buffers a thread keeps at most.
const KEPT: usize = 32;

fn buffer_of(alloc: Global, len: usize) -> Result<Vec<u8>, AllocError> {
    let mut buffer = Vec::new(alloc);
    buffer.resize(len, 7)?;
    Ok(buffer)
}

#[test]
fn last_buffer_given_is_taken_first(rt: HostRuntime) -> Result<(), Fail> {
    let mut spares = SpareBuffers::new(rt.alloc());
    for len in [1usize, 2, 3] {
        spares.give(buffer_of(rt.alloc(), len)?);
    }
    for len in [3usize, 2, 1] {
        assert_eq!(rt; spares.take().len(), len);
    }
    assert_eq!(rt; spares.take().capacity(), 0);
    Ok(())
}

#[test]
fn buffer_without_memory_is_not_kept(rt: HostRuntime) -> Result<(), Fail> {
    let mut spares = SpareBuffers::new(rt.alloc());
    spares.give(buffer_of(rt.alloc(), 5)?);
    spares.give(Vec::new(rt.alloc()));
    assert_eq!(rt; spares.take().len(), 5);
    Ok(())
}

#[test]
fn no_more_buffers_are_kept_than_a_client_needs(rt: HostRuntime) -> Result<(), Fail> {
    let mut spares = SpareBuffers::new(rt.alloc());
    for _ in 0..2 * KEPT {
        spares.give(buffer_of(rt.alloc(), 100)?);
    }
    for _ in 0..KEPT {
        assert!(rt; spares.take().capacity() > 0);
    }
    assert_eq!(rt; spares.take().capacity(), 0);
    Ok(())
}
