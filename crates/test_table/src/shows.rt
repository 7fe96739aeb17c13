//! Checking that a table is as a story says.

use crate::story::{Flying, Holding, Living, Posted, Spot};
use ledger::Posting;
use paths::{Name, Path};
use std::alloc::{AllocError, Global};
use table::{Answered, Ticket};
use table_image::{Image, Record};
use tree::{Node, Place};

/// The path of these names, separated by `/`. The root's path is empty.
pub fn path_of(alloc: Global, text: &str) -> Result<Path, AllocError> {
    let mut names = Vec::new(alloc);
    if text.is_empty() {
        return Path::from_names(names);
    }
    for name in text.split('/') {
        names.push(Name::from_text(alloc, name)?)?;
    }
    Path::from_names(names)
}

impl From<&Posting> for Posted {
    fn from(posting: &Posting) -> Posted {
        match *posting {
            Posting::Born { number, generation } => Posted::Born(number, generation),
            Posting::Entry { number, generation } => Posted::Entry(number, generation),
            Posting::Back { number, generation } => Posted::Back(number, generation),
            Posting::Forget {
                number,
                generation,
                amount,
            } => Posted::Forget(number, generation, amount),
            Posting::Opening {
                number,
                generation,
                count,
            } => Posted::Opening(number, generation, count),
        }
    }
}

fn is_at(place: &Place, spot: Spot) -> bool {
    match (place, spot) {
        (Place::Root, Spot::Root) | (Place::Cut, Spot::Cut) => true,
        (Place::Named(key), Spot::At(parent, name) | Spot::Hidden(parent, name)) => {
            key.parent == parent && key.name.as_bytes() == name.as_bytes()
        }
        _ => false,
    }
}

fn is_living(node: &Node, living: &Living) -> bool {
    let Living(number, generation, spot, count) = *living;
    (node.number, node.generation, node.count) == (number, generation, count)
        && node.hidden == matches!(spot, Spot::Hidden(..))
        && is_at(&node.place, spot)
}

/// Whether these are the living nodes, in any order.
pub fn shows_nodes(image: &Image, said: &[Living]) -> bool {
    let nodes = image.nodes.as_slice();
    for living in said {
        if !nodes.iter().any(|node| is_living(node, living)) {
            return false;
        }
    }
    nodes.len() == said.len()
}

/// Whether these are the postings, in this order.
pub fn shows_ledger(image: &Image, said: &[Posted]) -> bool {
    let postings = image.postings.as_slice();
    for (posting, posted) in postings.iter().zip(said) {
        if Posted::from(posting) != *posted {
            return false;
        }
    }
    postings.len() == said.len()
}

fn is_flying(record: &Record, flying: &Flying) -> bool {
    let Flying(unique, stage, pins) = *flying;
    record.unique == unique
        && record.stage == stage
        && pins.iter().all(|number| record.pins.contains(*number))
        && record
            .pins
            .as_slice()
            .iter()
            .all(|number| pins.contains(number))
}

/// Whether these are the requests in flight, in any order.
pub fn shows_requests(image: &Image, said: &[Flying]) -> bool {
    let records = image.records.as_slice();
    for flying in said {
        if !records.iter().any(|record| is_flying(record, flying)) {
            return false;
        }
    }
    records.len() == said.len()
}

/// Whether these are the held paths, in any order.
pub fn shows_holds(alloc: Global, image: &Image, said: &[Holding]) -> Result<bool, AllocError> {
    let holds = image.holds.as_slice();
    for holding in said {
        let Holding(text, shared, exclusive) = *holding;
        let path = path_of(alloc, text)?;
        let stands = holds.iter().any(|hold| {
            hold.path.is(&path) && (hold.shared, hold.exclusive) == (shared, exclusive)
        });
        if !stands {
            return Ok(false);
        }
    }
    Ok(holds.len() == said.len())
}

/// Whether these are the paths, in this order.
pub fn are_paths(alloc: Global, paths: &[Path], said: &[&str]) -> Result<bool, AllocError> {
    for (path, text) in paths.iter().zip(said) {
        if !path.is(&path_of(alloc, text)?) {
            return Ok(false);
        }
    }
    Ok(paths.len() == said.len())
}

/// Whether these are the paths of a ticket. The ticket must also say of a move to the same path, and only of that, that
/// it is one.
pub fn shows_paths(alloc: Global, ticket: &Ticket, said: &[&str]) -> Result<bool, AllocError> {
    if !are_paths(alloc, ticket.paths(), said)? {
        return Ok(false);
    }
    Ok(match said {
        [old, new] => ticket.same() == (*old == *new),
        _ => !ticket.same(),
    })
}

/// Whether an answer has these nodes, name by name.
pub fn lists(answered: &Answered, said: &[Option<(u64, u64)>]) -> bool {
    let given = answered.given();
    for (given, node) in given.iter().zip(said) {
        let listed = match given {
            Some(given) => Some((given.number, given.generation)),
            None => None,
        };
        if listed != *node {
            return false;
        }
    }
    given.len() == said.len()
}
