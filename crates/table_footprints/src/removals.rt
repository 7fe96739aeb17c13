//! What removing or replacing a name reserves: the name, and the candidates in the same folder under which its file may
//! be hidden.

ghost use Rattle.std.specs.Prelude.{ℕ, ◌+◌, ◌++◌, ◌^◌, ◌≡◌, ◌<◌, ◌≤◌, ◌↔◌, ◌⊎◌, Some, Contains, IfOk, IfErr, OnOk, length, map};
ghost use Rattle.table_files.specs.OpenEntry.{files_of};
ghost use Rattle.tree.specs.Places.{IsNamed, IsTree, Lookup, at_in};
ghost use Rattle.paths.specs.Prefixes.{Name as Spelt};
ghost use Rattle.table_footprints.specs.Cases.{IsHidingCase, seen_of};
ghost use Rattle.table_footprints.specs.Gatherings.{AreRooted, IsBadFootprint, IsFound, IsGathering, refusal_errno};
ghost use Rattle.table_footprints.specs.Removals.{AddsBeside, AreGoingTerms, IsGathered, IsGoing, IsRefusedGoing, going_locations};
ghost use Rattle.table_footprints.specs.Footprints.{AtName, hidden_in, hidden_names, names_under};

use crate::footprints::{HoldMode, Location, UniformFootprint};
use crate::found::{AtLocation, expect_change, expect_rooted, find};
use crate::gatherings::{Gathering, Reservation, gather};
use crate::in_folder::{FoundName, find_in, folder_path};
use crate::pages::pin_found;
use crate::refusal::FootprintRefusal;
use paths::Name;
use paths::reserved::{candidate, hidden_name};
use std::alloc::{AllocError, Global};
use table_files::Files;
use table_requests::{Case, Names};
use tree::Tree;

/// A name that is removed or replaced.
#[derive(Clone, Copy)]
pub(crate) struct Gone<'a> {
    /// The locations of its footprint before this name.
    pub(crate) firsts: &'a [Location<'a>],
    pub(crate) parent: u64,
    pub(crate) name: &'a Name,
    /// Whether the file of the node with this name is hidden if it is open.
    pub(crate) may_hide: bool,
}

/// How many candidates a file may be hidden under.
const CANDIDATES: u32 = 10;

/// The case of a name that is removed or replaced, by the node that was found there.
fn hiding_case(files: &Files, counter: u32, may_hide: bool, found: Option<u64>) -> Case
    ensures { (at : Lookup) (parent : ℕ) (name : Spelt) → IsTree at → ((n : ℕ) → (found ≡ Some n) ↔ IsNamed at n parent name) → IsHidingCase (record { at = at; files = (files_of files.now).at; counter = counter }) parent name may_hide result }
{
    let Some(number) = found else {
        return Case::Plain;
    };
    if may_hide && files.is_open(number) {
        Case::Hiding { number, counter }
    } else {
        Case::Plain
    }
}

#[tactic(auto, unfolding(crate::specs::Footprints::hidden_names))]
/// The ten candidates, from that counter on, under which a file of the node may be hidden.
// Few names that go are those of open files.
#[inline(never)]
fn candidates_of(alloc: Global, number: u64, counter: u32) -> Result<Names, AllocError>
    ensures { IfOk result (λ names. names ≡ hidden_names number counter 10) }
{
    let mut names = Vec::with_capacity(alloc, CANDIDATES as usize)?;
    for i in 0..CANDIDATES {
        names.push(hidden_name(alloc, number, candidate(counter, i))?)?;
    }
    Ok(Names::from_vec(names))
}

/// The candidates under which a file may be hidden in that case.
fn candidates(alloc: Global, case: Case) -> Result<Names, AllocError>
    ensures { IfOk result (λ names. names ≡ hidden_in case) }
{
    match case {
        Case::Plain | Case::Absent | Case::Pathless | Case::Last => Ok(Names::new(alloc)),
        Case::Hiding { number, counter } => candidates_of(alloc, number, counter),
    }
}

/// Adds what was found at a candidate. It is pinned and held exclusively, so that no other request makes or removes it
/// before this one ends.
fn add_beside(alloc: Global, gathering: &mut Gathering, found: FoundName) -> Result<(), AllocError>
    requires { 1 ≤ gathering.old.pins.room }
    ensures { OnOk result (AddsBeside gathering.old found gathering.new) }
{
    let FoundName { path, node } = found;
    pin_found(&mut gathering.pins, node);
    gathering.exclusive.push(alloc, path.copy()?)?;
    gathering.paths.push(alloc, path)?;
    Ok(())
}

/// What is found at the locations of the footprint, the last of which was found before. There is room for `more` names
/// in addition.
fn going_draft(
    alloc: Global,
    tree: &Tree,
    gone: &Gone,
    found: AtLocation,
    more: usize,
) -> Result<Gathering, FootprintRefusal>
    requires tree { IsTree (at_in tree.now) }
    requires rooted { AreRooted (at_in tree.now) (going_locations gone.now) }
    requires few { length gone.now.firsts.now ≤ 1 }
    requires short { more + 5 < 2 ^ 64 }
    requires found { IsFound (at_in tree.now) (AtName gone.now.parent gone.now.name.now) found }
    ensures ok { IfOk result (IsGathering (at_in tree.now) HoldMode.Exclusive (going_locations gone.now)) }
    ensures room { IfOk result (λ gathering. more ≤ gathering.pins.room) }
    ensures err { IfErr result (IsBadFootprint (at_in tree.now) (going_locations gone.now)) }
{
    let locations = gone.firsts.len() + 1;
    let paths = locations + more;
    let mut gathering = Gathering::with_room(alloc, locations + paths, paths, paths)?;
    let hold = HoldMode::Exclusive;
    gather(alloc, tree, &mut gathering, gone.firsts, hold)?;
    gathering.add(alloc, gone.parent, found, hold)?;
    Ok(gathering)
}

/// Adds what is found at the other names in the same folder.
// Few names that go have others beside them.
#[inline(never)]
fn add_candidates(
    alloc: Global,
    tree: &Tree,
    gathering: &mut Gathering,
    gone: &Gone,
    beside: &[Name],
) -> Result<(), FootprintRefusal>
    requires tree { IsTree (at_in tree.now) }
    requires gathering { IsGathering (at_in tree.now) HoldMode.Exclusive (going_locations gone.now) gathering.old }
    requires room { length beside.now ≤ gathering.old.pins.room }
    ensures ok { OnOk result (IsGathered (at_in tree.now) (going_locations gone.now) (going_locations gone.now ++ names_under gone.now.parent beside.now) gathering.new) }
    ensures err { IfErr result (IsBadFootprint (at_in tree.now) (going_locations gone.now ++ names_under gone.now.parent beside.now)) }
{
    let place = folder_path(gathering.given.as_slice(), gone.parent)?;
    for other in beside {
        let found = find_in(alloc, tree, gone.parent, &place, other)?;
        add_beside(alloc, gathering, found)?;
    }
    Ok(())
}

/// What is found at the locations of the footprint, and at the other names in the same folder.
fn gathered(
    alloc: Global,
    tree: &Tree,
    gone: &Gone,
    found: AtLocation,
    beside: &[Name],
) -> Result<Gathering, FootprintRefusal>
    requires tree { IsTree (at_in tree.now) }
    requires rooted { AreRooted (at_in tree.now) (going_locations gone.now) }
    requires few { length gone.now.firsts.now ≤ 1 }
    requires found { IsFound (at_in tree.now) (AtName gone.now.parent gone.now.name.now) found }
    ensures ok { IfOk result (IsGathered (at_in tree.now) (going_locations gone.now) (going_locations gone.now ++ names_under gone.now.parent beside.now)) }
    ensures err { IfErr result (IsBadFootprint (at_in tree.now) (going_locations gone.now ++ names_under gone.now.parent beside.now)) }
{
    let mut gathering = going_draft(alloc, tree, gone, found, beside.len())?;
    if beside.is_empty() {
        return Ok(gathering);
    }
    add_candidates(alloc, tree, &mut gathering, gone, beside)?;
    Ok(gathering)
}

/// What the footprint of a name that is removed or replaced reserves, if the tests of the nodes allow it.
pub(crate) fn going_reservation(
    alloc: Global,
    tree: &Tree,
    files: &Files,
    counter: u32,
    footprint: &UniformFootprint,
    gone: &Gone,
) -> Result<Reservation, FootprintRefusal>
    requires { IsGoing footprint.now gone.now }
    ensures ok { IfOk result (AreGoingTerms (seen_of tree.now files.now counter) footprint.now gone.now) }
    ensures err { IfErr result (λ refusal. IsRefusedGoing (seen_of tree.now files.now counter) footprint.now gone.now (refusal_errno refusal)) }
{
    let _files = files.len(); // proof: its law
    expect_rooted(tree, footprint.locations)?;
    let found = find(alloc, tree, &Location::AtName(gone.parent, gone.name))?;
    let case = hiding_case(files, counter, gone.may_hide, found.node);
    let candidates = candidates(alloc, case)?;
    let gathering = gathered(alloc, tree, gone, found, candidates.as_slice())?;
    expect_change(footprint.change, gathering.paths.as_slice())?;
    let reservation = gathering.into_reservation(alloc, case, candidates, 0, 0)?;
    Ok(reservation)
}
