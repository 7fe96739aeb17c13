//! The possible results of a call in a long run.

use crate::change::{Change, NONE};

/// The result of a call.
#[derive(Clone, Copy, PartialEq, Eq)]
pub enum Event {
    /// A request began.
    Begun,
    BusyNode,
    BusyName,
    BusyRemoval,
    BusyMove,
    BusyExchange,
    BusyPage,
    BusyOpen,
    BusyRelease,
    BusyLink,
    /// One path of a move is a prefix of the other.
    Astray,
    /// The same for two names that were to be exchanged.
    Entangled,
    /// No more nodes or postings may be added, or no more files opened for a CREATE.
    Full,
    FullPage,
    /// No more files may be opened.
    FullFiles,
    /// No more requests may be in flight.
    Crowded,
    StaleNode,
    StaleName,
    /// The node of a LINK, or its parent, has no name.
    StaleLink,
    /// The handle is not that of an open file of the node, or not open for reading.
    BadHandle,
    /// The same for a handle that is to be closed.
    BadRelease,
    /// A removal began that may hide, since the file at its name is open.
    MayHide,
    /// A move began that may hide, since the file at its target is open.
    MoveMayHide,
    /// A handle is closed.
    Closed,
    /// The same, and its node is dropped, since nothing else keeps it alive.
    ClosedLast,
    /// The same, for a node that is cut and is kept alive by something else.
    ClosedCut,
    /// The same, for a hidden file that has other handles.
    ClosedHidden,
    /// The same, and it was the last handle of a hidden file.
    ClosedHiddenLast,
    /// An entry of an existing node.
    Entry,
    /// An entry of a new node, with a new number.
    Birth,
    /// An entry of a new node, with the number of a dropped one.
    Rebirth,
    FailedName,
    /// The outcome does not fit a LOOKUP.
    MisfitName,
    /// An entry, and a file of it is opened.
    Created,
    FailedCreate,
    /// A further name gets a node of its own.
    Linked,
    /// The same, but the name has a node already, on which a lookup is counted.
    LinkedAgain,
    FailedLink,
    /// Entries of a page.
    Page,
    /// The same, with a birth.
    PageBirth,
    /// The same, but a name that was found gets no entry, since another request holds it exclusively.
    Withheld,
    EmptyPage,
    MisfitPage,
    Node,
    /// A file is opened.
    Opened,
    FailedOpen,
    /// What was at a name is cut.
    Cut,
    /// The same, although the removal might have hidden it.
    CutThoughOpen,
    RemovedNothing,
    FailedRemoval,
    /// What was at a name is moved to a candidate and marked.
    Hidden,
    /// Nothing changes, since there is no candidate with that index.
    MisfitHidden,
    Moved,
    /// Nothing was at the old name; what was at the new one is cut.
    MovedNothingOnto,
    MovedNothing,
    MovedToItself,
    FailedMove,
    /// What was at the new name is moved to a candidate and marked, and the move is made.
    HiddenMove,
    /// The same, but the move is not made.
    HiddenAlone,
    /// Nothing changes, since there is no candidate with that index.
    MisfitHiddenMove,
    /// What was at two names is exchanged.
    Exchanged,
    /// Only one of them had a node, which is now at the other.
    ExchangedOne,
    ExchangedNothing,
    ExchangedWithItself,
    FailedExchange,
    Released,
    FailedRelease,
    /// The release of the last handle of a hidden file removes it.
    RemovedHidden,
    /// Removing a hidden file at the release of its last handle failed, so the mark stays.
    FailedHidden,
    Settled,
    /// An entry whose reply was not taken is given back.
    GivenBack,
    /// It is not, since it was forgotten before.
    ForgottenFirst,
    /// A file whose reply was not taken is closed, and no entry is given back.
    ClosedUntaken,
    /// The same, and its entry is given back.
    Undone,
    /// As many lookups as were asked for.
    Forgotten,
    /// Fewer, since the count is lower.
    Partly,
    NothingForgotten,
    /// A period of the ledger has ended, and an opening is left of each node except the root.
    PeriodEnded,
}

/// The result of a call that must not change anything.
pub fn still(change: Change, event: Event) -> Option<Event> {
    only(NONE, change, event)
}

/// The result of a call that must change exactly this.
pub fn only(said: Change, change: Change, event: Event) -> Option<Event> {
    if change == said { Some(event) } else { None }
}
