//! Joining replies, so that they are written with one call.

ghost use Rattle.std.specs.Prelude.{◌≡◌, ◌≤◌, ◌+◌, ◌++◌, length, map, replicate, take, if◌then◌else◌, vec_len, vec_capacity};
ghost use Rattle.std.specs.List.{flat_map};
ghost use Rattle.engine.specs.Batches.{bytes_of};
ghost use Rattle.engine.specs.declared.links.Sent.TheVariants.{Taken};
ghost use Rattle.engine_streams.specs.Joining.{whole_in};

use engine::{ReplyBytes, Sent};

/// The maximum length of a reply that is joined with others, or held back for them: copying it costs less than a call
/// of the system.
pub(crate) const SMALL: usize = 16_384;

/// The maximum number of bytes that are joined.
pub(crate) const JOINED: usize = 65_536;

/// Joins one more reply, if it is small, fits with the others and memory is not refused.
fn join_one(joined: &mut Vec<u8>, bytes: &[u8]) -> bool
    ensures { joined.new.items ≡ (if result then joined.old.items ++ bytes.now else joined.old.items) }
{
    bytes.len() <= SMALL
        && joined.len() <= JOINED - bytes.len()
        && joined.extend_from_slice(bytes).is_ok()
}

/// Joins the first of these replies, up to one that is large, does not fit or is refused memory, and returns how many.
pub fn join(frames: &[ReplyBytes], joined: &mut Vec<u8>) -> usize
    ensures within { result ≤ length frames.now }
    ensures bytes { joined.new.items ≡ flat_map bytes_of (take result frames.now) }
{
    joined.clear();
    for (count, frame) in frames.iter().enumerate() {
        if !join_one(joined, frame.as_slice()) {
            return count;
        }
    }
    frames.len()
}

/// How many of these replies are complete in the first `written` bytes of all of them.
pub fn whole_in(frames: &[ReplyBytes], written: usize) -> usize
    ensures { result ≡ whole_in (map bytes_of frames.now) written }
{
    let mut left = written;
    for (count, frame) in frames.iter().enumerate() {
        match left.checked_sub(frame.as_slice().len()) {
            Some(less) => left = less,
            None => return count,
        }
    }
    frames.len()
}

/// That many more replies were taken.
pub fn push_taken(sent: &mut Vec<Sent>, count: usize)
    requires room { vec_len sent.old + count ≤ vec_capacity sent.old }
    ensures items { sent.new.items ≡ sent.old.items ++ replicate count Taken }
    ensures len { vec_len sent.new ≡ vec_len sent.old + count }
    ensures room { vec_capacity sent.new ≡ vec_capacity sent.old }
{
    for _ in 0..count {
        sent.push_reserved(Sent::Taken);
    }
}
