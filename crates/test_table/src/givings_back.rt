//! The possible results of a settle or a forget in a long run.

use crate::change::{Change, NONE};
use crate::event::{Event, only, still};
use crate::looks::file_of;
use crate::story::{Reply, Told};
use table_image::Image;

/// What an answer gives to the client: that many entries, and the handle of a file that was opened.
#[derive(Clone, Copy)]
pub struct Gains {
    pub entries: u64,
    pub handle: Option<u64>,
}

/// Whether a settle closes the file that its request opened: the reply was not taken, and the file is still open.
fn closes(reply: Reply, gains: Gains, before: &Image) -> bool {
    match gains.handle {
        Some(handle) => reply == Reply::Untaken && file_of(before, handle).is_some(),
        None => false,
    }
}

/// The result of settling an answer, or none if it is not a possible one.
pub fn settled(
    reply: Reply,
    gains: Gains,
    told: Told,
    before: &Image,
    change: Change,
) -> Option<Event> {
    let closes = closes(reply, gains, before);
    let back = reply == Reply::Untaken && gains.entries > 0;
    if told != Told::Settled(gains.entries) || change.posted as u64 > gains.entries {
        return None;
    }
    let event = match (back, change.posted > 0) {
        (false, true) => return None,
        (false, false) if closes => Event::ClosedUntaken,
        (false, false) => Event::Settled,
        (true, false) => Event::ForgottenFirst,
        (true, true) if closes => Event::Undone,
        (true, true) => Event::GivenBack,
    };
    let rest = Change {
        posted: 0,
        gone: 0,
        ..change
    };
    let closed = Change {
        closed: closes as usize,
        ..NONE
    };
    only(closed, rest, event)
}

/// The result of forgetting n lookups of a node with that count, or none if it is not a possible one.
pub fn forgotten(n: u64, count: u64, told: Told, change: Change) -> Option<Event> {
    let amount = n.min(count);
    if told != Told::Amount(amount) {
        return None;
    }
    if amount == 0 {
        return still(change, Event::NothingForgotten);
    }
    let event = if amount == n {
        Event::Forgotten
    } else {
        Event::Partly
    };
    let rest = Change { gone: 0, ..change };
    only(Change { posted: 1, ..NONE }, rest, event)
}
