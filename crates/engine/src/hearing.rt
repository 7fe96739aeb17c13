//! Receiving bytes and keeping them until their frames are whole.

ghost use Rattle.std.specs.Prelude.{◌≡◌, ◌≤◌, ◌-◌, drop, length};
ghost use Rattle.engine.specs.Hearing.{IsHeard};
ghost use Rattle.engine.specs.Links.{heard, IsWithin};

use crate::ends::SessionEnd;
use crate::links::{LinkIn, Received};
use std::alloc::Global;
use wire::{Cutter, MAX_FRAME_LEN};

/// How many bytes a receive may bring: more than the longest frame has.
const ROOM: usize = 131_072;

/// The same when memory for that many was refused.
const SMALL_ROOM: usize = 4_096;

/// How many bytes of room there are before those that a receive brings, for the kept part of an unfinished frame.
const GAP: usize = MAX_FRAME_LEN;

/// A buffer for what a receive brings. If memory for it is refused, it is empty.
pub fn room_in(alloc: Global) -> Vec<u8> {
    let mut room = Vec::new(alloc);
    let _ = room.resize(GAP + ROOM, 0);
    room
}

/// Receives into the buffer from `from` on.
fn receive_behind<L: LinkIn>(link: &mut L, room: &mut [u8], from: usize) -> Received
    requires { from ≤ length room.old }
    ensures within { IsWithin result (length room.new - from) }
    ensures brought { L.receives link.old (heard result (drop from room.new)) link.new }
    ensures len { length room.new ≡ length room.old }
{
    link.receive(&mut room[from..])
}

/// Receives without the large buffer, and keeps a copy of what came.
fn hear_little<L: LinkIn>(link: &mut L, cutter: &mut Cutter) -> Option<SessionEnd>
    ensures { IsHeard L.receives link.old cutter.old result link.new cutter.new }
{
    let mut room = [0; SMALL_ROOM];
    match link.receive(&mut room) {
        Received::Bytes(count) => match cutter.feed(&room[..count]) {
            Ok(()) => None,
            // The cutter has not met a bad length yet.
            Err(_) => Some(SessionEnd::Memory),
        },
        Received::End => Some(SessionEnd::Closed {
            rest: cutter.rest(),
        }),
        Received::Broken => Some(SessionEnd::LinkBroken),
    }
}

/// Makes one receive, and keeps what came. The bytes stay where they were received, and those that were kept before are
/// copied in front of them if they are fewer.
pub fn hear<L: LinkIn>(link: &mut L, cutter: &mut Cutter, room: &mut Vec<u8>) -> Option<SessionEnd>
    ensures { IsHeard L.receives link.old cutter.old result link.new cutter.new }
{
    if room.len() <= GAP {
        return hear_little(link, cutter);
    }
    match receive_behind(link, room.as_mut_slice(), GAP) {
        Received::Bytes(count) => match cutter.feed_from(room, GAP, count) {
            Ok(()) => None,
            // The cutter has not met a bad length yet.
            Err(_) => Some(SessionEnd::Memory),
        },
        Received::End => Some(SessionEnd::Closed {
            rest: cutter.rest(),
        }),
        Received::Broken => Some(SessionEnd::LinkBroken),
    }
}
