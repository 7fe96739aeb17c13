//! The table as plain data.

ghost use Rattle.std.specs.Prelude.{◌≡◌, ◌+◌, ◌↔◌, [], ◌∷◌, All, IfOk, IsTrue, OnOk};
ghost use Rattle.std.specs.List.{AllZip};
ghost use Rattle.table_image.proofs.Exported.{IsHeldBySome, ListsBelow, ListsHeld, Stores};
ghost use Rattle.table_image.specs.ImageLaw.{AreCounts, IsLawfulImage};
ghost use Rattle.table_image.specs.Parts.{IsStored};
ghost use Rattle.table.specs.Copies.{IsCopyOf, held_of, exclusive_in_all, sharers_in, stage_of};
ghost use Rattle.table.specs.Exports.{Exports};
ghost use Rattle.table_steps.specs.Kept.{IsKept, world_of};
ghost use Rattle.tree.specs.Listed.{node_at, IsDistinct};
ghost use Rattle.tree.specs.Places.{at_in};

use holds::{GivenPath, GivenPaths, Held, Paths};
use paths::Path;
use std::alloc::{AllocError, Global};
use table_image::{
    Births, Hold, Holds, Image, ImageStage, Nodes, Numbers, OpenFiles, Postings, Record, Records,
};
use table_requests::{RequestInFlight, RequestsInFlight};
use table_steps::State;
use tree::{Key, Node, Place, Tree};

/// A copy of the place.
fn copy_place(place: &Place) -> Result<Place, AllocError>
    ensures { IfOk result (λ p. p ≡ place.now) }
{
    match place {
        Place::Root => Ok(Place::Root),
        Place::Named(key) => {
            let name = key.name.copy()?;
            Ok(Place::Named(Key {
                parent: key.parent,
                name,
            }))
        }
        Place::Cut => Ok(Place::Cut),
    }
}

/// A copy of the node.
fn copy_node(node: &Node) -> Result<Node, AllocError>
    ensures { IfOk result (λ x. x ≡ node.now) }
{
    let place = copy_place(&node.place)?;
    Ok(Node {
        number: node.number,
        generation: node.generation,
        place,
        count: node.count,
        hidden: node.hidden,
    })
}

/// Adds a copy of the node with this number, if there is one.
fn add_node(nodes: &mut Vec<Node>, tree: &Tree, number: u64) -> Result<(), AllocError>
    requires { ListsBelow (at_in tree.now) number nodes.old.items }
    ensures { OnOk result (ListsBelow (at_in tree.now) (number + 1) nodes.new.items) }
{
    let Some(node) = tree.at(number) else {
        return Ok(());
    };
    let copy = copy_node(node)?;
    nodes.push(copy)?;
    Ok(())
}

/// All nodes, sorted by number.
fn copy_nodes(alloc: Global, tree: &Tree) -> Result<Vec<Node>, AllocError>
    ensures distinct { IfOk result (λ xs. IsDistinct xs.items) }
    ensures nodes { IfOk result (λ xs. node_at xs.items ≡ at_in tree.now) }
{
    let mut nodes = Vec::new(alloc);
    let mut number = 0;
    while let Some(next) = tree.after(number) {
        add_node(&mut nodes, tree, next)?;
        number = next;
    }
    Ok(nodes)
}

/// Copies of the paths.
fn copy_paths(alloc: Global, paths: &[Path]) -> Result<Paths, AllocError>
    ensures { IfOk result (λ ps. ps ≡ paths.now) }
{
    let mut copies = Vec::new(alloc);
    for path in paths {
        copies.push(path.copy()?)?;
    }
    Ok(Paths::from_vec(copies))
}

/// A copy of the node with its path.
fn copy_lead(lead: &GivenPath) -> Result<GivenPath, AllocError>
    ensures { IfOk result (λ l. l ≡ lead.now) }
{
    let path = lead.path.copy()?;
    Ok(GivenPath {
        number: lead.number,
        path,
    })
}

/// Copies of the nodes with their paths.
fn copy_leads(alloc: Global, leads: &[GivenPath]) -> Result<GivenPaths, AllocError>
    ensures { IfOk result (λ ls. ls ≡ leads.now) }
{
    let mut copies = Vec::new(alloc);
    for lead in leads {
        copies.push(copy_lead(lead)?)?;
    }
    Ok(GivenPaths::from_vec(copies))
}

/// Copies of the names.
fn copy_held(alloc: Global, held: &Held) -> Result<Held, AllocError>
    ensures { IfOk result (λ h. h ≡ held.now) }
{
    let given = copy_leads(alloc, held.given.as_slice())?;
    let shared = copy_paths(alloc, held.shared.as_slice())?;
    let exclusive = copy_paths(alloc, held.exclusive.as_slice())?;
    Ok(Held {
        given,
        shared,
        exclusive,
    })
}

/// No nodes and no names.
fn nothing_held(alloc: Global) -> Held
    ensures { result ≡ record { given = []; shared = []; exclusive = [] } }
{
    Held {
        given: GivenPaths::from_vec(Vec::new(alloc)),
        shared: Paths::from_vec(Vec::new(alloc)),
        exclusive: Paths::from_vec(Vec::new(alloc)),
    }
}

/// What a request holds: nothing after its work has ended.
fn held_of(alloc: Global, stage: &table_requests::Stage) -> Result<Held, AllocError>
    ensures { IfOk result (λ h. h ≡ held_of stage.now) }
{
    match stage {
        table_requests::Stage::Working(work) => copy_held(alloc, &work.held),
        table_requests::Stage::Answered { .. } => Ok(nothing_held(alloc)),
    }
}

/// A request in flight, as plain data.
fn copy_record(alloc: Global, flight: &RequestInFlight) -> Result<Record, AllocError>
    ensures { IfOk result (IsCopyOf flight.now) }
{
    let pins = Vec::from_slice(alloc, flight.pins.as_slice())?;
    let held = held_of(alloc, &flight.stage)?;
    Ok(Record {
        id: flight.id,
        unique: flight.unique,
        stage: stage(flight),
        pins: Numbers::from(pins),
        held,
    })
}

/// How far the request is.
fn stage(flight: &RequestInFlight) -> ImageStage
    ensures { result ≡ stage_of flight.now.stage }
{
    if flight.stage.is_working() {
        ImageStage::Working
    } else {
        ImageStage::Answered
    }
}

/// All requests in flight, in their order.
fn copy_records(alloc: Global, flights: &[RequestInFlight]) -> Result<Vec<Record>, AllocError>
    ensures { IfOk result (λ rs. AllZip IsCopyOf flights.now rs.items) }
{
    let mut records = Vec::new(alloc);
    for flight in flights {
        records.push(copy_record(alloc, flight)?)?;
    }
    Ok(records)
}

/// Whether the path is already in the list.
fn is_stored(holds: &[Hold], path: &Path) -> bool
    ensures { IsTrue result ↔ IsStored holds.now path.now }
{
    holds.iter().any(|hold| hold.path.is(path))
}

/// Adds a path that is held, with its two numbers, unless the list already has it.
fn add_hold(
    holds: &mut Vec<Hold>,
    flights: &RequestsInFlight,
    path: &Path,
) -> Result<(), AllocError>
    requires lists { ListsHeld (sharers_in flights.now.flights) (exclusive_in_all flights.now.flights) holds.old.items }
    requires held { IsHeldBySome (sharers_in flights.now.flights) (exclusive_in_all flights.now.flights) path.now }
    ensures lists { OnOk result (ListsHeld (sharers_in flights.now.flights) (exclusive_in_all flights.now.flights) holds.new.items) }
    ensures stores { OnOk result (Stores holds.old.items holds.new.items (path.now ∷ [])) }
{
    if is_stored(holds.as_slice(), path) {
        return Ok(());
    }
    let copy = path.copy()?;
    holds.push(Hold {
        path: copy,
        shared: flights.shared_on(path),
        exclusive: flights.exclusive_on(path),
    })?;
    Ok(())
}

/// Adds the paths, each of which is held, unless the list already has them.
fn add_paths(
    holds: &mut Vec<Hold>,
    flights: &RequestsInFlight,
    paths: &[Path],
) -> Result<(), AllocError>
    requires lists { ListsHeld (sharers_in flights.now.flights) (exclusive_in_all flights.now.flights) holds.old.items }
    requires held { All (IsHeldBySome (sharers_in flights.now.flights) (exclusive_in_all flights.now.flights)) paths.now }
    ensures lists { OnOk result (ListsHeld (sharers_in flights.now.flights) (exclusive_in_all flights.now.flights) holds.new.items) }
    ensures stores { OnOk result (Stores holds.old.items holds.new.items paths.now) }
{
    for path in paths {
        add_hold(holds, flights, path)?;
    }
    Ok(())
}

/// Adds the paths that the request holds, unless the list already has them.
fn add_held(
    holds: &mut Vec<Hold>,
    flights: &RequestsInFlight,
    stage: &table_requests::Stage,
) -> Result<(), AllocError>
    requires lists { ListsHeld (sharers_in flights.now.flights) (exclusive_in_all flights.now.flights) holds.old.items }
    requires shared { All (IsHeldBySome (sharers_in flights.now.flights) (exclusive_in_all flights.now.flights)) (held_of stage.now).shared }
    requires exclusive { All (IsHeldBySome (sharers_in flights.now.flights) (exclusive_in_all flights.now.flights)) (held_of stage.now).exclusive }
    ensures lists { OnOk result (ListsHeld (sharers_in flights.now.flights) (exclusive_in_all flights.now.flights) holds.new.items) }
    ensures shared { OnOk result (Stores holds.old.items holds.new.items (held_of stage.now).shared) }
    ensures exclusive { OnOk result (Stores holds.old.items holds.new.items (held_of stage.now).exclusive) }
{
    match stage {
        table_requests::Stage::Working(work) => {
            add_paths(holds, flights, work.held.shared.as_slice())?;
            add_paths(holds, flights, work.held.exclusive.as_slice())
        }
        table_requests::Stage::Answered { .. } => Ok(()),
    }
}

/// The paths that are held, each once, with how many requests share it and how many hold it exclusively.
fn copy_holds(alloc: Global, flights: &RequestsInFlight) -> Result<Vec<Hold>, AllocError>
    ensures { IfOk result (λ hs. AreCounts (sharers_in flights.now.flights) (exclusive_in_all flights.now.flights) hs.items) }
{
    let mut holds = Vec::new(alloc);
    for flight in flights.as_slice() {
        add_held(&mut holds, flights, &flight.stage)?;
    }
    Ok(holds)
}

/// Everything that the table keeps, as plain data.
pub fn export(state: &State) -> Result<Image, AllocError>
    requires { IsKept state.now }
    ensures exports { IfOk result (Exports (world_of state.now)) }
    ensures lawful { IfOk result IsLawfulImage }
{
    let nodes = copy_nodes(state.alloc, &state.tree)?;
    let births = Vec::from_slice(state.alloc, state.ledger.closed_births())?;
    let postings = Vec::from_slice(state.alloc, state.ledger.postings())?;
    let records = copy_records(state.alloc, state.flights.as_slice())?;
    let holds = copy_holds(state.alloc, &state.flights)?;
    let files = Vec::from_slice(state.alloc, state.files.as_slice())?;
    Ok(Image {
        nodes: Nodes::from(nodes),
        births: Births::from(births),
        closed: state.ledger.closed(),
        postings: Postings::from(postings),
        records: Records::from(records),
        holds: Holds::from(holds),
        files: OpenFiles::from(files),
        counter: state.counter,
        last_handle: state.files.last(),
    })
}
