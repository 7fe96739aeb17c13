//! The footprint of each want.

ghost use Rattle.std.specs.Prelude.{◌≡◌, ◌&&◌, not, IfOk, IfErr};
ghost use Rattle.table_footprints.specs.Cases.{seen_of};
ghost use Rattle.table_footprints.specs.Gatherings.{IsWanted, refusal_errno, location_of};
ghost use Rattle.table_footprints.specs.Laws.{base_of};
ghost use Rattle.table_footprints.specs.NewRequests.{IsRefusedRequest};
ghost use Rattle.table_footprints.specs.Footprints.{are_same};

use crate::closing::closing_reservation;
use crate::gatherings::{Reservation, reservation_of, reservation_with_file};
use crate::pages::page_reservation;
use crate::refusal::FootprintRefusal;
use crate::removals::{Gone, going_reservation};
use paths::Name;
use std::alloc::Global;
use table_files::Files;
use table_requests::Want;
use tree::Tree;

/// The place of a node or a name, whether or not it has a node.
#[derive(Clone, Copy)]
pub(crate) enum Location<'a> {
    /// The place of this node.
    AtNode(u64),
    /// The place of this name under this node.
    AtName(u64, &'a Name),
}

impl Location<'_> {
    /// The node, or the parent of the name.
    pub(crate) fn base(&self) -> u64
        ensures { result ≡ base_of (location_of self.now) }
    {
        match self {
            Location::AtNode(number) => *number,
            Location::AtName(parent, _) => *parent,
        }
    }

    /// Whether both are the same node, or the same name under the same node.
    fn is(&self, other: &Location) -> bool
        ensures { result ≡ are_same (location_of self.now) (location_of other.now) }
    {
        match (self, other) {
            (Location::AtName(parent, name), Location::AtName(other_parent, other_name)) => {
                parent == other_parent && name.is(other_name)
            }
            (Location::AtNode(number), Location::AtNode(other_number)) => number == other_number,
            (Location::AtNode(_), Location::AtName(_, _))
            | (Location::AtName(_, _), Location::AtNode(_)) => false,
        }
    }
}

/// How paths are held.
#[derive(Clone, Copy)]
pub(crate) enum HoldMode {
    /// Others may hold them too. Their nonempty prefixes are shared as well.
    Shared,
    /// No other request may hold them. Their proper prefixes are shared.
    Exclusive,
}

/// How names change.
#[derive(Clone, Copy)]
pub(crate) enum ChangeKind {
    Stays,
    /// What is at the first location is cut.
    Cuts,
    /// What is at the first location is moved to the second.
    Moves,
    /// What is at either of the first two locations is moved to the other.
    Exchanges,
}

/// What a want reserves. The node of each location, or the parent of its name, must be one that the client was given.
#[derive(Clone, Copy)]
pub(crate) struct UniformFootprint<'a> {
    /// The locations whose paths are in the ticket.
    pub(crate) locations: &'a [Location<'a>],
    pub(crate) hold: HoldMode,
    /// Whether an entry may be given for the name.
    pub(crate) enters: bool,
    pub(crate) change: ChangeKind,
}

/// Whether a move may replace what is at its target: it need not keep it, and the source is a different name.
fn may_replace(keep: bool, same: bool) -> bool
    ensures { result ≡ (not keep && not same) }
{
    !keep && !same
}

/// What the want's footprint reserves: the table of footprints.
pub(crate) fn reservation_for(
    alloc: Global,
    tree: &Tree,
    files: &Files,
    counter: u32,
    want: &Want,
) -> Result<Reservation, FootprintRefusal>
    ensures ok { IfOk result (IsWanted (seen_of tree.now files.now counter) want.now) }
    ensures err { IfErr result (λ refusal. IsRefusedRequest (seen_of tree.now files.now counter) want.now (refusal_errno refusal)) }
{
    match want {
        Want::Node { number, handle: _ } => {
            let footprint = UniformFootprint {
                locations: &[Location::AtNode(*number)],
                hold: HoldMode::Shared,
                enters: false,
                change: ChangeKind::Stays,
            };
            reservation_of(alloc, tree, &footprint)
        }
        Want::Name { parent, name } => {
            let footprint = UniformFootprint {
                locations: &[Location::AtName(*parent, name)],
                hold: HoldMode::Shared,
                enters: true,
                change: ChangeKind::Stays,
            };
            reservation_of(alloc, tree, &footprint)
        }
        Want::Remove {
            parent,
            name,
            may_hide,
        } => {
            let footprint = UniformFootprint {
                locations: &[Location::AtName(*parent, name)],
                hold: HoldMode::Exclusive,
                enters: false,
                change: ChangeKind::Cuts,
            };
            let gone = Gone {
                firsts: &[],
                parent: *parent,
                name,
                may_hide: *may_hide,
            };
            going_reservation(alloc, tree, files, counter, &footprint, &gone)
        }
        Want::Move {
            parent,
            name,
            new_parent,
            new_name,
            keep,
        } => {
            let source = Location::AtName(*parent, name);
            let target = Location::AtName(*new_parent, new_name);
            let footprint = UniformFootprint {
                locations: &[source, target],
                hold: HoldMode::Exclusive,
                enters: false,
                change: ChangeKind::Moves,
            };
            let gone = Gone {
                firsts: &[source],
                parent: *new_parent,
                name: new_name,
                may_hide: may_replace(*keep, source.is(&target)),
            };
            going_reservation(alloc, tree, files, counter, &footprint, &gone)
        }
        Want::Exchange {
            parent,
            name,
            new_parent,
            new_name,
        } => {
            let footprint = UniformFootprint {
                locations: &[
                    Location::AtName(*parent, name),
                    Location::AtName(*new_parent, new_name),
                ],
                hold: HoldMode::Exclusive,
                enters: false,
                change: ChangeKind::Exchanges,
            };
            reservation_of(alloc, tree, &footprint)
        }
        Want::Page { folder, names } => page_reservation(alloc, tree, *folder, names.as_slice()),
        Want::Open { number, access: _ } => {
            let footprint = UniformFootprint {
                locations: &[Location::AtNode(*number)],
                hold: HoldMode::Shared,
                enters: false,
                change: ChangeKind::Stays,
            };
            reservation_with_file(alloc, tree, &footprint)
        }
        Want::Create {
            parent,
            name,
            access: _,
        } => {
            let footprint = UniformFootprint {
                locations: &[Location::AtName(*parent, name)],
                hold: HoldMode::Shared,
                enters: true,
                change: ChangeKind::Stays,
            };
            reservation_with_file(alloc, tree, &footprint)
        }
        Want::Release { number, fh: _ } => closing_reservation(alloc, tree, files, *number),
        Want::Link {
            number,
            parent,
            name,
        } => {
            let footprint = UniformFootprint {
                locations: &[Location::AtNode(*number), Location::AtName(*parent, name)],
                hold: HoldMode::Shared,
                enters: true,
                change: ChangeKind::Stays,
            };
            reservation_of(alloc, tree, &footprint)
        }
    }
}
