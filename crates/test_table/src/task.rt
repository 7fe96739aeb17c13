//! What a long run remembers about a request until its end.

use crate::looks::{is_hidden, node_at, openings};
use crate::story::Asks;
use table_image::Image;

/// What is needed to check the end of a request.
#[derive(Clone, Copy)]
pub enum Task {
    Node,
    Name,
    Create,
    Link,
    /// The number of names.
    Page(usize),
    Open,
    /// Whether its ticket says that it may hide.
    Removal {
        hides: bool,
    },
    /// Whether its ticket says that it may hide, whether both names are the same, and whether the old one has a node.
    Move {
        hides: bool,
        same: bool,
        known: bool,
    },
    /// Whether both names are the same, and how many of them have nodes.
    Exchange {
        same: bool,
        known: usize,
    },
    /// Whether it closes the last handle of a hidden file.
    Release {
        last: bool,
    },
}

impl Task {
    /// The task of a request that began, from the table before it.
    pub fn of(asks: Asks, hides: bool, before: &Image) -> Task {
        match asks {
            Asks::Node(_) | Asks::Read(..) => Task::Node,
            Asks::Name(..) => Task::Name,
            Asks::Create(..) => Task::Create,
            Asks::Link(..) => Task::Link,
            Asks::Page(_, names) => Task::Page(names.len()),
            Asks::Open(_) => Task::Open,
            Asks::Remove(..) | Asks::Unlink(..) => Task::Removal { hides },
            Asks::Move(parent, name, new_parent, new_name)
            | Asks::Keep(parent, name, new_parent, new_name) => Task::Move {
                hides,
                same: parent == new_parent && name == new_name,
                known: node_at(before, parent, name).is_some(),
            },
            Asks::Exchange(parent, name, new_parent, new_name) => Task::Exchange {
                same: parent == new_parent && name == new_name,
                known: (node_at(before, parent, name).is_some() as usize).saturating_add(
                    node_at(before, new_parent, new_name).is_some() as usize,
                ),
            },
            Asks::Release(number, _) => Task::Release {
                last: is_hidden(before, number) && openings(before, number) == 1,
            },
        }
    }
}
