//! A buffer that was sent and is read into again.

use crate::opening::{Opened, open};
use crate::sample_trees::sample_folder;
use payload::HEADER_ROOM;
use std::fs;
use std::test::Fail;

/// Offers a buffer with room for so many bytes, in which something stands.
fn offer(rt: &HostRuntime, opened: &mut Opened, len: usize) -> Result<(), Fail> {
    let buffer = vec![in rt.alloc(); 0xa5u8; HEADER_ROOM.saturating_add(len)]?;
    opened.offer_room(buffer);
    Ok(())
}

/// How long the buffer is, what is read then, and what comes. A filled file has its own bytes at each place.
const READS: &[(usize, &str, &str)] = &[
    (3000, "check e 0 3000", "3000 of 3000"),
    (3000, "check e 4000 3000", "1000 of 1000"),
    (3000, "check e 5000 3000", "0 of 0"),
    (3000, "check e 9000 3000", "0 of 0"),
    (2999, "check e 0 3000", "3000 of 3000"),
    (3001, "check e 0 3000", "3000 of 3000"),
    (3000, "read a 0 3000", "bytes 616263"),
    (0, "check e 1 9", "9 of 9"),
];

/// Reads twice each, into that buffer and then into another one.
fn read_each(rt: &HostRuntime, opened: &mut Opened) -> Result<(), Fail> {
    opened.expect(rt.alloc(), "fill e 0 5000", "wrote 5000")?;
    for (len, words, wanted) in READS {
        offer(rt, opened, *len)?;
        opened.expect(rt.alloc(), words, wanted)?;
        opened.expect(rt.alloc(), words, wanted)?;
    }
    Ok(())
}

fn read_at(rt: &HostRuntime, root: &str) -> Result<(), Fail> {
    let mut opened = open(rt, root)?;
    read_each(rt, &mut opened)
}

#[test]
fn what_stood_in_a_buffer_is_not_told(rt: HostRuntime) -> Result<(), Fail> {
    let root = sample_folder(&rt, "rooms")?;
    read_at(&rt, root.as_str())?;
    fs::remove_dir_all(&rt, root.as_str())?;
    Ok(())
}
