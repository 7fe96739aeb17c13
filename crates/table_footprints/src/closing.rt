//! What closing a file reserves: the path of its node, if it has one. The path is held exclusively if a hidden file is
//! removed with its last handle.

ghost use Rattle.std.specs.Prelude.{true, false, ◌≡◌, ◌≢◌, ◌↔◌, ◌∷◌, [], IfErr, IfOk, IsTrue};
ghost use Rattle.table_files.specs.OpenEntry.{files_of};
ghost use Rattle.table_files.specs.Handles.{AreOpenEntries};
ghost use Rattle.tree.specs.Places.{IsPathOf, IsTree, at_in};
ghost use Rattle.table_footprints.specs.Cases.{IsLastOpening};
ghost use Rattle.table_footprints.specs.Gatherings.{IsClosing, IsClosingPath, IsHeldExclusively, IsNothing, IsWithoutPath, TellsPath};

use crate::footprints::{ChangeKind, HoldMode, Location, UniformFootprint};
use crate::found::above;
use crate::gatherings::{Gathering, Reservation, reservation_of};
use crate::refusal::FootprintRefusal;
use holds::{GivenPath, GivenPaths, Held, Paths, prefixes_of};
use paths::Path;
use std::alloc::{AllocError, Global};
use table_files::Files;
use table_requests::{Case, Givens, Names, Pins, Promise};
use tree::Tree;

/// Nothing is held, pinned or put in the ticket.
fn nothing(alloc: Global) -> Result<Reservation, FootprintRefusal>
    ensures ok { IfOk result IsNothing }
    ensures err { IfErr result (λ refusal. refusal ≡ FootprintRefusal.Memory) }
{
    let gathering = Gathering::new(alloc, 0)?;
    let reservation = gathering.into_reservation(alloc, Case::Pathless, Names::new(alloc), 0, 0)?;
    Ok(reservation)
}

/// Whether the refusal says that the node has no path, or one that is too long.
fn is_without_path(refusal: FootprintRefusal) -> bool
    ensures { IsTrue result ↔ IsWithoutPath refusal }
{
    match refusal {
        FootprintRefusal::Stale | FootprintRefusal::TooLong => true,
        FootprintRefusal::IntoItself | FootprintRefusal::OntoFolder | FootprintRefusal::Memory =>
            false,
    }
}

/// Whether the node, which is not the root, has a hidden mark and exactly one open file.
fn is_last(tree: &Tree, files: &Files, number: u64) -> bool
    ensures { IsTrue result ↔ IsLastOpening (at_in tree.now) (files_of files.now).at number }
{
    // No lawful table has a mark on the root, but with this test no law of footprints depends on that.
    if number == 1 {
        return false;
    }
    if files.openings(number) != 1 {
        return false;
    }
    match tree.at(number) {
        Some(node) => node.hidden,
        None => false,
    }
}

/// Holds the path of a node exclusively, and shares each nonempty prefix of its parent's path.
fn held_alone(alloc: Global, _tree: &Tree, number: u64, path: &Path) -> Result<Held, AllocError>
    requires tree { IsTree (at_in _tree.now) }
    requires not_root { number ≢ 1 }
    requires leads { IsPathOf (at_in _tree.now) number path.now }
    ensures { IfOk result (IsHeldExclusively (at_in _tree.now) number path.now) }
{
    let above = above(path)?;
    let lead = GivenPath {
        number,
        path: path.copy()?,
    };
    Ok(Held {
        given: GivenPaths::one(lead),
        shared: prefixes_of(alloc, &above)?,
        exclusive: Paths::one(path.copy()?),
    })
}

/// What closing the last handle of a hidden file reserves: the node will be removed when the work is done.
fn last_reservation(
    alloc: Global,
    tree: &Tree,
    number: u64,
) -> Result<Reservation, FootprintRefusal>
    requires { number ≢ 1 }
    ensures ok { IfOk result (IsClosingPath (at_in tree.now) number true) }
    ensures err { IfErr result (TellsPath (at_in tree.now) number) }
{
    let path = tree.path(alloc, number)?;
    let held = held_alone(alloc, tree, number, &path)?;
    let mut pins = Pins::with_capacity(alloc, 1)?;
    pins.add(number);
    Ok(Reservation {
        case: Case::Last,
        candidates: Names::new(alloc),
        held,
        promise: Promise {
            nodes: 0,
            postings: 0,
            files: 0,
        },
        answer: Givens::new(alloc),
        pins,
        paths: Paths::one(path),
    })
}

/// What closing any other handle reserves: the path of the node must not change.
fn plain_reservation(
    alloc: Global,
    tree: &Tree,
    number: u64,
) -> Result<Reservation, FootprintRefusal>
    ensures ok { IfOk result (IsClosingPath (at_in tree.now) number false) }
    ensures err { IfErr result (TellsPath (at_in tree.now) number) }
{
    let footprint = UniformFootprint {
        locations: &[Location::AtNode(number)],
        hold: HoldMode::Shared,
        enters: false,
        change: ChangeKind::Stays,
    };
    reservation_of(alloc, tree, &footprint)
}

/// What closing a file reserves if its node has a path that is not too long.
fn path_reservation(
    alloc: Global,
    tree: &Tree,
    number: u64,
    last: bool,
) -> Result<Reservation, FootprintRefusal>
    requires { last ≡ true → number ≢ 1 }
    ensures ok { IfOk result (IsClosingPath (at_in tree.now) number last) }
    ensures err { IfErr result (TellsPath (at_in tree.now) number) }
{
    if last {
        last_reservation(alloc, tree, number)
    } else {
        plain_reservation(alloc, tree, number)
    }
}

/// What closing a file of the node reserves. Out of memory is the only error.
// In the caller its locals would be set up for every other want too.
#[inline(never)]
pub(crate) fn closing_reservation(
    alloc: Global,
    tree: &Tree,
    files: &Files,
    number: u64,
) -> Result<Reservation, FootprintRefusal>
    ensures ok { IfOk result (IsClosing (at_in tree.now) (files_of files.now).at number) }
    ensures err { IfErr result (λ refusal. refusal ≡ FootprintRefusal.Memory) }
    ensures tree { IsTree (at_in tree.now) }
    ensures files { AreOpenEntries (files_of files.now) }
{
    let _nodes = tree.len(); // proof: its law
    let _files = files.len(); // proof: its law
    let last = is_last(tree, files, number);
    let refusal = match path_reservation(alloc, tree, number, last) {
        Ok(reservation) => return Ok(reservation),
        Err(refusal) => refusal,
    };
    // A RELEASE never fails for its path: if there is none to use, the handle is closed and nothing else is done.
    if is_without_path(refusal) {
        return nothing(alloc);
    }
    Err(FootprintRefusal::Memory)
}
