//! What a footprint reserves, collected location by location.

ghost use Rattle.std.specs.Prelude.{ℕ, ◌+◌, ◌*◌, ◌^◌, ◌<◌, ◌≤◌, ◌≡◌, ◌↔◌, ◌⊎◌, ◌++◌, [], Contains, Some, IfOk, IfErr, OnOk, length};
ghost use Rattle.paths.specs.Prefixes.{prefixes};
ghost use Rattle.tree.specs.Places.{IsCensus, IsTree, at_in};
ghost use Rattle.table_footprints.specs.Asked.{IsUnsound};
ghost use Rattle.table_footprints.specs.Gatherings.{Adds, AreRooted, entered_case, IsAgreed, IsBadFootprint, IsGathering, IsReserved, IsFit, IsNoGathering, IsOpening, footprint_from, entries_of, refusal_errno, own_paths, shared_path, told};
ghost use Rattle.table_footprints.specs.Footprints.{births_in};

use crate::footprints::{HoldMode, Location, UniformFootprint};
use crate::found::{AtLocation, expect_change, expect_rooted, find};
use crate::refusal::FootprintRefusal;
use holds::{GivenPath, GivenPaths, Held, Paths, push_prefixes};
use std::alloc::{AllocError, Global};
use table_requests::{Case, Givens, Names, Pins, Promise};
use tree::Tree;

/// The postings that an entry may need: a birth, the entry itself, and the one that takes it back.
const ENTRY_POSTINGS: u64 = 3;

/// What a footprint reserves.
#[derive(Drop)]
pub(crate) struct Reservation {
    pub(crate) case: Case,
    /// The names under which a file may be hidden in that case.
    pub(crate) candidates: Names,
    pub(crate) held: Held,
    pub(crate) promise: Promise,
    pub(crate) answer: Givens,
    pub(crate) pins: Pins,
    pub(crate) paths: Paths,
}

/// What was collected so far.
#[derive(Drop)]
pub(crate) struct Gathering {
    pub(crate) given: GivenPaths,
    shared: Paths,
    pub(crate) exclusive: Paths,
    pub(crate) pins: Pins,
    pub(crate) paths: Paths,
    /// Whether one of the locations has no node.
    absent: bool,
}

/// Pins the node, and the one that was found, if any.
fn pin(pins: &mut Pins, number: u64, found: Option<u64>)
    requires { 2 ≤ pins.old.room }
    ensures room { pins.old.room ≤ pins.new.room + 2 }
    ensures pins { (n : ℕ) → Contains pins.new.numbers n ↔ (Contains pins.old.numbers n ⊎ ((number ≡ n) ⊎ (found ≡ Some n))) }
{
    pins.add(number);
    match found {
        Some(node) => {
            if node != number {
                pins.add(node);
            }
        }
        None => {}
    }
}

/// The case of a footprint, which depends on whether a location has no node if entries may be given.
fn entered_case(none: bool, enters: bool) -> Case
    ensures { result ≡ entered_case none enters }
{
    if none && enters {
        Case::Absent
    } else {
        Case::Plain
    }
}

/// How many nodes may be born for a name.
fn births_in(case: Case) -> u64
    ensures { result ≡ births_in case }
{
    match case {
        Case::Plain | Case::Pathless | Case::Last | Case::Hiding { .. } => 0,
        Case::Absent => 1,
    }
}

/// An empty list with room for that many paths, as far as they need an allocation.
fn room_for(alloc: Global, paths: usize) -> Result<Paths, AllocError>
    ensures { IfOk result (λ list. list ≡ []) }
{
    if paths < 2 {
        return Ok(Paths::new());
    }
    Ok(Paths::from_vec(Vec::with_capacity(alloc, paths)?))
}

impl Gathering {
    /// Nothing yet, with room for `pins` pins.
    pub(crate) fn new(alloc: Global, pins: usize) -> Result<Gathering, AllocError>
        ensures { IfOk result (IsNoGathering pins) }
    {
        let pins = Pins::with_capacity(alloc, pins)?;
        Ok(Gathering {
            given: GivenPaths::new(),
            shared: Paths::new(),
            exclusive: Paths::new(),
            pins,
            paths: Paths::new(),
            absent: false,
        })
    }

    /// The same, with room for `paths` paths too, and for `exclusive` that are held exclusively.
    pub(crate) fn with_room(
        alloc: Global,
        pins: usize,
        paths: usize,
        exclusive: usize,
    ) -> Result<Gathering, AllocError>
        ensures { IfOk result (IsNoGathering pins) }
    {
        let paths = room_for(alloc, paths)?;
        let exclusive = room_for(alloc, exclusive)?;
        let pins = Pins::with_capacity(alloc, pins)?;
        Ok(Gathering {
            given: GivenPaths::new(),
            shared: Paths::new(),
            exclusive,
            pins,
            paths,
            absent: false,
        })
    }

    /// Holds the path of what was found.
    fn hold(&mut self, alloc: Global, found: &AtLocation, hold: HoldMode) -> Result<(), AllocError>
        ensures shared { OnOk result (self.new.shared ≡ self.old.shared ++ prefixes (shared_path hold found.now)) }
        ensures exclusive { OnOk result (self.new.exclusive ≡ self.old.exclusive ++ own_paths hold found.now) }
        ensures given { self.new.given ≡ self.old.given }
        ensures pins { self.new.pins ≡ self.old.pins }
        ensures paths { self.new.paths ≡ self.old.paths }
        ensures absent { self.new.absent ≡ self.old.absent }
    {
        match hold {
            HoldMode::Shared => push_prefixes(alloc, &mut self.shared, &found.path),
            HoldMode::Exclusive => {
                self.exclusive.push(alloc, found.path.copy()?)?;
                push_prefixes(alloc, &mut self.shared, &found.above)
            }
        }
    }

    /// Adds what was found at a location of that node.
    pub(crate) fn add(
        &mut self,
        alloc: Global,
        number: u64,
        found: AtLocation,
        hold: HoldMode,
    ) -> Result<(), AllocError>
        requires { 2 ≤ self.old.pins.room }
        ensures { OnOk result (Adds self.old number found hold self.new) }
    {
        pin(&mut self.pins, number, found.node);
        self.absent = self.absent || found.node.is_none();
        self.hold(alloc, &found, hold)?;
        let AtLocation {
            above,
            path,
            node: _,
        } = found;
        let lead = GivenPath {
            number,
            path: above,
        };
        self.given.push(alloc, lead)?;
        self.paths.push(alloc, path)?;
        Ok(())
    }

    /// The reservation, after everything was added.
    pub(crate) fn into_reservation(
        self,
        alloc: Global,
        case: Case,
        candidates: Names,
        births: u64,
        entries: usize,
    ) -> Result<Reservation, AllocError>
        requires { 3 * entries < 2 ^ 64 }
        ensures { IfOk result (IsReserved self case candidates births entries) }
    {
        let answer = Givens::with_capacity(alloc, entries)?;
        let promise = Promise {
            nodes: births,
            postings: ENTRY_POSTINGS * entries as u64,
            files: 0,
        };
        let Gathering {
            given,
            shared,
            exclusive,
            pins,
            paths,
            absent: _,
        } = self;
        let held = Held {
            given,
            shared,
            exclusive,
        };
        Ok(Reservation {
            case,
            candidates,
            held,
            promise,
            answer,
            pins,
            paths,
        })
    }
}

/// The same, with one file that may be opened.
fn with_file(reservation: Reservation) -> Reservation
    ensures { result ≡ record reservation { promise = record reservation.promise { files = 1 } } }
{
    let Reservation {
        case,
        candidates,
        held,
        promise,
        answer,
        pins,
        paths,
    } = reservation;
    Reservation {
        case,
        candidates,
        held,
        promise: Promise {
            files: 1,
            ..promise
        },
        answer,
        pins,
        paths,
    }
}

/// Adds what is found at the locations, which lead to the root, to an empty gathering.
pub(crate) fn gather(
    alloc: Global,
    tree: &Tree,
    gathering: &mut Gathering,
    locations: &[Location],
    hold: HoldMode,
) -> Result<(), FootprintRefusal>
    requires tree { IsTree (at_in tree.now) }
    requires rooted { AreRooted (at_in tree.now) (told locations.now) }
    requires empty { IsNoGathering gathering.old.pins.room gathering.old }
    requires enough { 2 * length locations.now ≤ gathering.old.pins.room }
    ensures ok { OnOk result (IsGathering (at_in tree.now) hold (told locations.now) gathering.new) }
    ensures room { OnOk result (gathering.old.pins.room ≤ gathering.new.pins.room + 2 * length locations.now) }
    ensures err { IfErr result (IsBadFootprint (at_in tree.now) (told locations.now)) }
{
    for location in locations {
        let found = find(alloc, tree, location)?;
        gathering.add(alloc, location.base(), found, hold)?;
    }
    Ok(())
}

/// What the footprint reserves, if the tests of the nodes allow it.
pub(crate) fn reservation_of(
    alloc: Global,
    tree: &Tree,
    footprint: &UniformFootprint,
) -> Result<Reservation, FootprintRefusal>
    requires { IsFit footprint.now }
    ensures ok { IfOk result (IsAgreed (at_in tree.now) footprint.now) }
    ensures err { IfErr result (λ refusal. (c : Case) → IsUnsound (at_in tree.now) (footprint_from footprint.now c) (refusal_errno refusal)) }
    ensures census { IsCensus (at_in tree.now) tree.now.living tree.now.counts }
    ensures tree { IsTree (at_in tree.now) }
{
    // All parents are tested before any path, so a cut or unknown one is ESTALE whatever the other path is.
    expect_rooted(tree, footprint.locations)?;
    let entries = usize::from(footprint.enters);
    let mut gathering = Gathering::new(alloc, 2 * footprint.locations.len() + entries)?;
    gather(
        alloc,
        tree,
        &mut gathering,
        footprint.locations,
        footprint.hold,
    )?;
    expect_change(footprint.change, gathering.paths.as_slice())?;
    let case = entered_case(gathering.absent, footprint.enters);
    let reservation = gathering.into_reservation(
        alloc,
        case,
        Names::new(alloc),
        births_in(case),
        entries,
    )?;
    Ok(reservation)
}

/// What the footprint reserves, and a file that may be opened.
pub(crate) fn reservation_with_file(
    alloc: Global,
    tree: &Tree,
    footprint: &UniformFootprint,
) -> Result<Reservation, FootprintRefusal>
    requires { IsFit footprint.now }
    ensures ok { IfOk result (IsOpening (at_in tree.now) footprint.now) }
    ensures err { IfErr result (λ refusal. (c : Case) → IsUnsound (at_in tree.now) (footprint_from footprint.now c) (refusal_errno refusal)) }
    ensures census { IsCensus (at_in tree.now) tree.now.living tree.now.counts }
    ensures tree { IsTree (at_in tree.now) }
{
    match reservation_of(alloc, tree, footprint) {
        Ok(reservation) => Ok(with_file(reservation)),
        Err(refusal) => Err(refusal),
    }
}
