//! What the bytes of a stream begin with.

ghost use Rattle.wire.specs.NextFrame.{Stands};

use crate::request::{HEADER_LEN, MAX_FRAME_LEN};
use byteorder::{ByteOrder, LittleEndian};

pub enum NextFrame {
    /// Neither a whole frame nor a bad length.
    Partial,
    /// A length that no frame may have.
    Bad(u32),
    /// A whole frame of that length.
    Whole(usize),
}

pub fn standing_in(kept: &[u8]) -> NextFrame
    ensures { Stands kept.now result }
{
    if kept.len() < 4 {
        return NextFrame::Partial;
    }
    let len = LittleEndian::read_u32(kept);
    if (len as usize) < HEADER_LEN || len as usize > MAX_FRAME_LEN {
        return NextFrame::Bad(len);
    }
    if kept.len() < len as usize {
        return NextFrame::Partial;
    }
    NextFrame::Whole(len as usize)
}
