//! What a page reserves: a folder, and names that are not held.

ghost use Rattle.std.specs.Prelude.{ℕ, ◌+◌, ◌*◌, ◌^◌, ◌<◌, ◌≤◌, ◌≡◌, ◌↔◌, ◌⊎◌, [], ◌∷◌, Some, Contains, IfOk, IfErr, OnOk, length};
ghost use Rattle.tree.specs.Places.{IsTree, Leads, at_in};
ghost use Rattle.table_footprints.specs.Asked.{IsUnsound};
ghost use Rattle.table_footprints.specs.Gatherings.{IsBadFootprint, IsReservation, refusal_errno};
ghost use Rattle.table_footprints.specs.Pages.{AddsName, IsPage};
ghost use Rattle.table_footprints.specs.Footprints.{AtNode, page_names, page_footprint};

use crate::footprints::{HoldMode, Location};
use crate::found::{expect_rooted, find};
use crate::gatherings::{Gathering, Reservation};
use crate::in_folder::{FoundName, find_in, folder_path};
use crate::refusal::FootprintRefusal;
use paths::Name;
use std::alloc::{AllocError, Global};
use table_requests::{Case, Names, Pins};
use tree::Tree;

/// Pins the node that was found, if any.
pub(crate) fn pin_found(pins: &mut Pins, found: Option<u64>)
    requires { 1 ≤ pins.old.room }
    ensures room { pins.old.room ≤ pins.new.room + 1 }
    ensures pins { (n : ℕ) → Contains pins.new.numbers n ↔ (Contains pins.old.numbers n ⊎ (found ≡ Some n)) }
{
    match found {
        Some(node) => pins.add(node),
        None => {}
    }
}

/// Adds what was found at a name, without holding the name.
fn add_name(alloc: Global, gathering: &mut Gathering, found: FoundName) -> Result<(), AllocError>
    requires { 1 ≤ gathering.old.pins.room }
    ensures { OnOk result (AddsName gathering.old found gathering.new) }
{
    let FoundName { path, node } = found;
    pin_found(&mut gathering.pins, node);
    gathering.paths.push(alloc, path)?;
    Ok(())
}

/// What is found at the folder, with room for the pins of that many names: the nodes there, and those that may be
/// given.
fn folder_draft(
    alloc: Global,
    tree: &Tree,
    folder: u64,
    names: usize,
) -> Result<Gathering, FootprintRefusal>
    requires tree { IsTree (at_in tree.now) }
    requires rooted { Leads (at_in tree.now) folder }
    requires short { 2 * names + 2 < 2 ^ 64 }
    ensures ok { IfOk result (IsPage (at_in tree.now) folder []) }
    ensures room { IfOk result (λ gathering. 2 * names ≤ gathering.pins.room) }
    ensures err { IfErr result (IsBadFootprint (at_in tree.now) (AtNode folder ∷ [])) }
{
    let mut gathering = Gathering::with_room(alloc, 2 * names + 2, names.saturating_add(1), 0)?;
    let found = find(alloc, tree, &Location::AtNode(folder))?;
    gathering.add(alloc, folder, found, HoldMode::Shared)?;
    Ok(gathering)
}

/// What is found at the folder and at the names.
fn page_draft(
    alloc: Global,
    tree: &Tree,
    folder: u64,
    names: &[Name],
) -> Result<Gathering, FootprintRefusal>
    requires tree { IsTree (at_in tree.now) }
    requires rooted { Leads (at_in tree.now) folder }
    ensures ok { IfOk result (IsPage (at_in tree.now) folder (page_names folder names.now)) }
    ensures room { IfOk result (λ gathering. length names.now ≤ gathering.pins.room) }
    ensures err { IfErr result (IsBadFootprint (at_in tree.now) (AtNode folder ∷ page_names folder names.now)) }
{
    let mut gathering = folder_draft(alloc, tree, folder, names.len())?;
    let place = folder_path(gathering.given.as_slice(), folder)?;
    for name in names {
        let found = find_in(alloc, tree, folder, &place, name)?;
        add_name(alloc, &mut gathering, found)?;
    }
    Ok(gathering)
}

/// What a page of these names reserves, if the tests of the nodes allow it.
// In the caller its locals would be set up for every other want too.
#[inline(never)]
pub(crate) fn page_reservation(
    alloc: Global,
    tree: &Tree,
    folder: u64,
    names: &[Name],
) -> Result<Reservation, FootprintRefusal>
    ensures ok { IfOk result (λ reservation. (reservation.case ≡ Case.Plain) × IsReservation (at_in tree.now) (page_footprint folder names.now) reservation) }
    ensures err { IfErr result (λ refusal. IsUnsound (at_in tree.now) (page_footprint folder names.now) (refusal_errno refusal)) }
{
    expect_rooted(tree, &[Location::AtNode(folder)])?;
    let gathering = page_draft(alloc, tree, folder, names)?;
    // A node and three postings are promised for each name, even if it already has a node.
    let reservation = gathering.into_reservation(
        alloc,
        Case::Plain,
        Names::new(alloc),
        names.len() as u64,
        names.len(),
    )?;
    Ok(reservation)
}
