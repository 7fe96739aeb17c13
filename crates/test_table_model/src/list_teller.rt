//! Running rows on the list table alone, step by step.

use crate::asks::Step::{self, Begin, Finish, Forget, Settle};
use crate::asks::Told;
use crate::list_table::{ListNode, ListTable, Posted};
use crate::words::Word;
use std::alloc::Global;
use std::test::Fail;
use table::{Counts, Limits};

pub const A: Word = Word::Plain {
    letter: 'a',
    bytes: 1,
};

pub const B: Word = Word::Plain {
    letter: 'b',
    bytes: 1,
};

pub const E: Word = Word::Plain {
    letter: 'e',
    bytes: 1,
};

/// The first candidate for a file of node 2.
pub const HIDDEN: Word = Word::Hidden {
    number: 2,
    generation: 0,
    counter: 0,
};

pub const GO: Told = Told::Go {
    same: false,
    hide: false,
    last: false,
};

/// A move to the same path.
pub const SAME: Told = Told::Go {
    same: true,
    hide: false,
    last: false,
};

/// A file may be hidden.
pub const HIDE: Told = Told::Go {
    same: false,
    hide: true,
    last: false,
};

/// The last handle of a hidden file was closed.
pub const LAST: Told = Told::Go {
    same: false,
    hide: false,
    last: true,
};

/// It asked for no entry.
pub const ENDED: Told = Told::Ended {
    names: 0,
    opened: None,
    lost: false,
};

/// It has one name.
pub const NAMED: Told = Told::Ended {
    names: 1,
    opened: None,
    lost: false,
};

pub const OPENED_FIRST: Told = Told::Ended {
    names: 0,
    opened: Some(1),
    lost: false,
};

pub const OPENED_SECOND: Told = Told::Ended {
    names: 0,
    opened: Some(2),
    lost: false,
};

pub const LOST: Told = Told::Ended {
    names: 0,
    opened: None,
    lost: true,
};

pub const EMPTY: Told = Told::Settled {
    entries: 0,
    taken: true,
};

pub const TAKEN: Told = Told::Settled {
    entries: 1,
    taken: true,
};

pub const UNTAKEN: Told = Told::Settled {
    entries: 1,
    taken: false,
};

pub const DEFAULT: Limits = Limits {
    nodes: 65_536,
    postings: 1_048_576,
    counts: Counts::Bounded,
    flights: 64,
    files: 4_096,
};

/// A living node other than the root: its number, its generation, its path, if it has a name, its count, and whether it
/// has a mark.
#[derive(Clone, Copy)]
pub struct Living<'a>(pub u64, pub u64, pub Option<&'a [Word]>, pub u64, pub bool);

/// Steps for a new table with the expected results, and what there must be at the end. Requests have the ids 1, 2, 3
/// and so on.
#[derive(Clone, Copy)]
pub struct Row<'a> {
    pub limits: Limits,
    pub steps: &'a [(Step, Told)],
    pub nodes: &'a [Living<'a>],
    pub postings: &'a [Posted],
}

fn take(table: &mut ListTable, step: Step) -> Result<Told, Fail> {
    Ok(match step {
        Begin(ask) => table.begin(0, ask)?,
        Finish(id, end) => table.finish(id as u64, end)?,
        Settle(id, taken) => table.settle(id as u64, taken)?,
        Forget(number, n) => table.forget(number, n)?,
    })
}

fn is_there(table: &ListTable, node: &ListNode, living: Living) -> bool {
    let Living(number, generation, words, count, hidden) = living;
    let stands = match (&node.way, words) {
        (Some(way), Some(words)) => way.words.as_slice() == words,
        (None, None) => true,
        _ => false,
    };
    stands
        && node.bearer() == (number, generation)
        && node.hidden == hidden
        && table.count(node.bearer()) == count
}

/// Whether there is such a node.
fn has(table: &ListTable, living: Living) -> bool {
    for node in &table.nodes {
        if is_there(table, node, living) {
            return true;
        }
    }
    false
}

/// How many of these there are.
fn how_many(table: &ListTable, nodes: &[Living]) -> usize {
    let mut there = 0usize;
    for living in nodes {
        if has(table, *living) {
            there = there.saturating_add(1);
        }
    }
    there
}

/// Takes the steps of a row. Fails at the first unexpected result.
fn take_all(table: &mut ListTable, which: usize, steps: &[(Step, Told)]) -> Result<(), Fail> {
    for (place, (step, said)) in steps.iter().enumerate() {
        let told = take(table, *step)?;
        if told != *said {
            return Err(Fail::from((which, "otherwise", place, told.row())));
        }
    }
    Ok(())
}

/// Takes the steps of a row, and checks what is there at the end.
fn tell_on(table: &mut ListTable, which: usize, row: Row) -> Result<(), Fail> {
    take_all(table, which, row.steps)?;
    let there = how_many(table, row.nodes);
    let sizes = (there.saturating_add(1), row.nodes.len().saturating_add(1));
    if sizes != (table.nodes.len(), table.nodes.len()) {
        return Err(Fail::from((which, "nodes", sizes, table.nodes.len())));
    }
    if table.postings.as_slice() != row.postings {
        return Err(Fail::from((which, "postings", table.postings.len())));
    }
    Ok(())
}

/// Fails at the first step of a row with an unexpected result, by its index, or if something else is there at the end.
fn tell(alloc: Global, which: usize, row: Row) -> Result<(), Fail> {
    let mut table = ListTable::open(alloc, row.limits)?;
    tell_on(&mut table, which, row)
}

/// Tells each row.
pub fn tell_all(alloc: Global, rows: &[Row]) -> Result<(), Fail> {
    for (which, row) in rows.iter().enumerate() {
        tell(alloc, which, *row)?;
    }
    Ok(())
}
