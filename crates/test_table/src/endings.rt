//! The possible results of ending a request in a long run.

use crate::change::{Change, NONE};
use crate::event::{Event, only, still};
use crate::story::{Outcome, Told};
use crate::task::Task;

fn given(generation: u64, change: Change) -> Option<Event> {
    let entry = Change { posted: 1, ..NONE };
    let birth = Change {
        posted: 2,
        born: 1,
        ..NONE
    };
    match generation {
        _ if change == entry => Some(Event::Entry),
        0 => only(birth, change, Event::Birth),
        _ => only(birth, change, Event::Rebirth),
    }
}

/// The result of ending a LOOKUP.
fn named(outcome: Outcome, told: Told, change: Change) -> Option<Event> {
    match (outcome, told) {
        (Outcome::Entry, Told::Given(_, generation)) => given(generation, change),
        (Outcome::Failed, Told::NotGiven) => still(change, Event::FailedName),
        (Outcome::Done, Told::NotGiven) => still(change, Event::MisfitName),
        _ => None,
    }
}

/// The result of ending a CREATE.
fn created(outcome: Outcome, told: Told, change: Change) -> Option<Event> {
    match (outcome, told) {
        (Outcome::Entry, Told::Given(_, generation)) if change.opened == 1 => {
            given(
                generation,
                Change {
                    opened: 0,
                    ..change
                },
            )?;
            Some(Event::Created)
        }
        (Outcome::Failed | Outcome::Done, Told::NotGiven) => still(change, Event::FailedCreate),
        _ => None,
    }
}

/// The result of ending a LINK.
fn linked(outcome: Outcome, told: Told, change: Change) -> Option<Event> {
    match (outcome, told) {
        (Outcome::Entry, Told::Given(_, generation)) => {
            let entry = given(generation, change)?;
            Some(if entry == Event::Entry {
                Event::LinkedAgain
            } else {
                Event::Linked
            })
        }
        (Outcome::Failed | Outcome::Done, Told::NotGiven) => still(change, Event::FailedLink),
        _ => None,
    }
}

/// How many entries a finish reported.
pub fn entries_of(told: Told) -> u64 {
    match told {
        Told::Given(..) => 1,
        Told::Gave(entries) => entries,
        _ => 0,
    }
}

fn found_in(found: &[bool]) -> u64 {
    found.iter().filter(|found| **found).count() as u64
}

/// The result of ending a page with that many names, which reported that many entries.
fn filled(names: usize, found: &[bool], entries: u64, change: Change) -> Option<Event> {
    let (posted, born) = (change.posted as u64, change.born as u64);
    if born > entries || posted != entries.saturating_add(born) {
        return None;
    }
    let rest = Change {
        posted: 0,
        born: 0,
        ..change
    };
    if found.len() != names {
        return if entries == 0 {
            still(rest, Event::MisfitPage)
        } else {
            None
        };
    }
    let found = found_in(found);
    if entries > found {
        return None;
    }
    let event = match (entries, born) {
        _ if entries < found => Event::Withheld,
        (0, _) => Event::EmptyPage,
        (_, 0) => Event::Page,
        _ => Event::PageBirth,
    };
    still(rest, event)
}

/// The result of ending a page.
fn paged(names: usize, outcome: Outcome, told: Told, change: Change) -> Option<Event> {
    match outcome {
        Outcome::Entries(found) => filled(names, found, entries_of(told), change),
        _ if entries_of(told) == 0 => still(change, Event::MisfitPage),
        _ => None,
    }
}

/// The result of ending an OPEN.
fn opened(outcome: Outcome, change: Change) -> Option<Event> {
    match outcome {
        Outcome::Done => only(Change { opened: 1, ..NONE }, change, Event::Opened),
        _ => still(change, Event::FailedOpen),
    }
}

/// Whether nodes are cut, and some of them dropped, and nothing else has changed.
fn cuts(change: Change) -> bool {
    let rest = Change {
        cut: 0,
        gone: 0,
        ..change
    };
    rest == NONE && change.cut > 0
}

/// The result of ending a removal.
fn removed(hides: bool, outcome: Outcome, change: Change) -> Option<Event> {
    let hidden = Change {
        moved: 1,
        marked: 1,
        ..NONE
    };
    match outcome {
        Outcome::Hidden(index) if hides && index < 10 => only(hidden, change, Event::Hidden),
        Outcome::Hidden(_) if hides => still(change, Event::MisfitHidden),
        Outcome::Done if cuts(change) => {
            Some(if hides {
                Event::CutThoughOpen
            } else {
                Event::Cut
            })
        }
        Outcome::Done if hides => None,
        Outcome::Done => still(change, Event::RemovedNothing),
        _ => still(change, Event::FailedRemoval),
    }
}

/// The result of ending a move that was done; `known` says whether its source had a node.
fn replaced(known: bool, change: Change) -> Option<Event> {
    let rest = Change {
        cut: 0,
        gone: 0,
        ..change
    };
    match known {
        true => only(Change { moved: 1, ..NONE }, rest, Event::Moved),
        false if cuts(change) => Some(Event::MovedNothingOnto),
        false => still(change, Event::MovedNothing),
    }
}

/// The result of ending a move that may hide what is at its target.
fn hidden_move(known: bool, moved: bool, change: Change) -> Option<Event> {
    let both = Change {
        moved: if moved && known { 2 } else { 1 },
        marked: 1,
        ..NONE
    };
    only(
        both,
        change,
        if moved {
            Event::HiddenMove
        } else {
            Event::HiddenAlone
        },
    )
}

/// The result of ending a move.
fn moved(hides: bool, known: bool, outcome: Outcome, change: Change) -> Option<Event> {
    match outcome {
        Outcome::HiddenMove(index, moved) if hides && index < 10 => hidden_move(
            known, moved, change,
        ),
        Outcome::HiddenMove(..) if hides => still(change, Event::MisfitHiddenMove),
        Outcome::Done => replaced(known, change),
        _ => still(change, Event::FailedMove),
    }
}

/// The result of ending an exchange, where that many of its names had nodes.
fn exchanged(known: usize, outcome: Outcome, change: Change) -> Option<Event> {
    let moved = Change {
        moved: known,
        ..NONE
    };
    match (outcome, known) {
        (Outcome::Done, 0) => still(change, Event::ExchangedNothing),
        (Outcome::Done, 1) => only(moved, change, Event::ExchangedOne),
        (Outcome::Done, _) => only(moved, change, Event::Exchanged),
        _ => still(change, Event::FailedExchange),
    }
}

/// The result of ending a release; `last` says whether it is that of the last handle of a hidden file.
fn released(last: bool, outcome: Outcome, change: Change) -> Option<Event> {
    match (outcome, last) {
        (Outcome::Done, true) if cuts(change) => Some(Event::RemovedHidden),
        (Outcome::Done, true) => None,
        (_, true) => still(change, Event::FailedHidden),
        (Outcome::Done, false) => still(change, Event::Released),
        (_, false) => still(change, Event::FailedRelease),
    }
}

/// The result of ending a request, or none if it is not a possible one.
pub fn finished(task: Task, outcome: Outcome, told: Told, change: Change) -> Option<Event> {
    match task {
        Task::Name => named(outcome, told, change),
        Task::Create => created(outcome, told, change),
        Task::Link => linked(outcome, told, change),
        Task::Page(names) => paged(names, outcome, told, change),
        _ if told != Told::Ended => None,
        Task::Node => still(change, Event::Node),
        Task::Open => opened(outcome, change),
        Task::Removal { hides } => removed(hides, outcome, change),
        Task::Move { same, .. } if same => still(change, Event::MovedToItself),
        Task::Move { hides, known, .. } => moved(hides, known, outcome, change),
        Task::Exchange { same, .. } if same => still(change, Event::ExchangedWithItself),
        Task::Exchange { known, .. } => exchanged(known, outcome, change),
        Task::Release { last } => released(last, outcome, change),
    }
}
