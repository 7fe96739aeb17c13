//! The possible results of a begin in a long run.

use crate::change::{Change, NONE};
use crate::event::{Event, only, still};
use crate::looks::{is_cut, is_handle_of, is_hidden, is_open_at, may_read, openings};
use crate::story::{Asks, Told};
use errno::{EAGAIN, EBADF, EINVAL, ENFILE, ENOTEMPTY, ESTALE};
use table_image::Image;

/// By how much the counter of hidden names rises for a request that may hide.
const TAKEN: u32 = 10;

/// Whether the request uses a handle that it may not use.
fn is_bad(asks: Asks, before: &Image) -> bool {
    match asks {
        Asks::Read(number, handle) => !may_read(before, number, handle),
        Asks::Release(number, handle) => !is_handle_of(before, number, handle),
        _ => false,
    }
}

/// Whether the ticket of a request says correctly whether it may hide: exactly if the file at the name to be removed or
/// replaced is open.
fn tells(asks: Asks, hides: bool, before: &Image) -> bool {
    match asks {
        Asks::Unlink(parent, name) => hides == is_open_at(before, parent, name),
        Asks::Move(parent, name, new_parent, new_name) => {
            let is_same = parent == new_parent && name == new_name;
            hides == (!is_same && is_open_at(before, new_parent, new_name))
        }
        _ => !hides,
    }
}

/// The result of beginning a release: nodes change only in that those that nothing keeps alive any more are dropped.
fn closed(number: u64, before: &Image, change: Change) -> Option<Event> {
    let event = match openings(before, number) {
        _ if change.gone > 0 && !is_hidden(before, number) => Event::ClosedLast,
        1 if is_hidden(before, number) => Event::ClosedHiddenLast,
        _ if is_hidden(before, number) => Event::ClosedHidden,
        _ if is_cut(before, number) => Event::ClosedCut,
        _ => Event::Closed,
    };
    let gone = if event == Event::ClosedLast {
        change.gone
    } else {
        0
    };
    only(
        Change {
            closed: 1,
            gone,
            ..NONE
        },
        change,
        event,
    )
}

/// The result of a begin that succeeded.
fn goes_on(asks: Asks, hides: bool, before: &Image, change: Change) -> Option<Event> {
    let taken = Change {
        counted: TAKEN,
        ..NONE
    };
    match asks {
        Asks::Release(number, _) => closed(number, before, change),
        Asks::Unlink(..) if hides => only(taken, change, Event::MayHide),
        Asks::Move(..) if hides => only(taken, change, Event::MoveMayHide),
        _ => still(change, Event::Begun),
    }
}

/// The result of a refusal.
fn refused(asks: Asks, errno: i32) -> Option<Event> {
    match (errno, asks) {
        (EBADF, Asks::Read(..)) => Some(Event::BadHandle),
        (EBADF, Asks::Release(..)) => Some(Event::BadRelease),
        (ESTALE, Asks::Release(..)) => None,
        (ESTALE, Asks::Node(_) | Asks::Read(..) | Asks::Open(_)) => Some(Event::StaleNode),
        (ESTALE, Asks::Link(..)) => Some(Event::StaleLink),
        (ESTALE, _) => Some(Event::StaleName),
        (EINVAL | ENOTEMPTY, Asks::Move(..) | Asks::Keep(..)) => Some(Event::Astray),
        (EINVAL, Asks::Exchange(..)) => Some(Event::Entangled),
        (ENFILE, Asks::Name(..) | Asks::Create(..) | Asks::Link(..)) => Some(Event::Full),
        (ENFILE, Asks::Page(..)) => Some(Event::FullPage),
        (ENFILE, Asks::Open(..)) => Some(Event::FullFiles),
        (EAGAIN, _) => Some(Event::Crowded),
        _ => None,
    }
}

/// The result for a request that must wait.
fn waits(asks: Asks) -> Event {
    match asks {
        Asks::Node(_) | Asks::Read(..) => Event::BusyNode,
        Asks::Name(..) | Asks::Create(..) => Event::BusyName,
        Asks::Remove(..) | Asks::Unlink(..) => Event::BusyRemoval,
        Asks::Move(..) | Asks::Keep(..) => Event::BusyMove,
        Asks::Exchange(..) => Event::BusyExchange,
        Asks::Page(..) => Event::BusyPage,
        Asks::Open(_) => Event::BusyOpen,
        Asks::Release(..) => Event::BusyRelease,
        Asks::Link(..) => Event::BusyLink,
    }
}

/// The result of a begin, whose ticket says whether it may hide, or none if it is not a possible one.
pub fn begun(asks: Asks, told: Told, hides: bool, before: &Image, change: Change) -> Option<Event> {
    if is_bad(asks, before) != (told == Told::Refused(EBADF)) {
        return None;
    }
    match told {
        Told::Go if tells(asks, hides, before) => goes_on(asks, hides, before, change),
        Told::Busy => still(change, waits(asks)),
        Told::Refused(errno) => still(change, refused(asks, errno)?),
        _ => None,
    }
}
