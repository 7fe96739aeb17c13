//! Rows of the list table alone, worked out by hand from its rules.

use crate::asks::Ask::{self, Create, Move, Name, Node, Open, Release, Remove};
use crate::asks::End::{Done, Entry, Failed, Hidden, HiddenMove};
use crate::asks::Step::{Begin, Finish, Forget, Settle};
use crate::asks::Told::{Amount, Busy, Refused};
use crate::list_table::Posted::{Back, Born, Entry as Given, Forget as Forgotten};
use crate::list_table::{ListTable, ROOT};
use crate::list_teller::{
    A, B, DEFAULT, E, EMPTY, ENDED, GO, HIDDEN, HIDE, LAST, LOST, Living, NAMED, OPENED_FIRST,
    OPENED_SECOND, Row, SAME, TAKEN, UNTAKEN, tell_all,
};
use crate::words::{Way, Word};
use errno::{EBADF, EINVAL, ENFILE, ENOTEMPTY, ESTALE};
use std::alloc::AllocError;
use std::test::Fail;
use table::{Access, Limits};

/// Of five lookups to be forgotten there were two. The next birth of the number has another generation.
const FORGET_ABOVE_COUNT: Row = Row {
    limits: DEFAULT,
    steps: &[
        (Begin(Name(ROOT, A)), GO),
        (Finish(1, Entry), NAMED),
        (Settle(1, true), TAKEN),
        (Begin(Name(ROOT, A)), GO),
        (Finish(2, Entry), NAMED),
        (Settle(2, true), TAKEN),
        (Forget(2, 5), Amount(2)),
        (Forget(2, 1), Amount(0)),
        (Forget(ROOT, 1), Amount(0)),
        (Begin(Node(2, None)), Refused(ESTALE)),
        (Begin(Name(ROOT, E)), GO),
        (Finish(3, Entry), NAMED),
        (Finish(3, Entry), LOST),
    ],
    nodes: &[Living(2, 1, Some(&[E]), 1, false)],
    postings: &[
        Born((2, 0)),
        Given((2, 0)),
        Given((2, 0)),
        Forgotten((2, 0), 2),
        Born((2, 1)),
        Given((2, 1)),
    ],
};

/// An entry that was not taken is given back, unless it was forgotten before. Until the settle the number is pinned.
const UNTAKEN_ENTRIES: Row = Row {
    limits: DEFAULT,
    steps: &[
        (Begin(Name(ROOT, A)), GO),
        (Finish(1, Entry), NAMED),
        (Settle(1, false), UNTAKEN),
        (Begin(Name(ROOT, A)), GO),
        (Finish(2, Entry), NAMED),
        (Forget(2, 1), Amount(1)),
        (Begin(Name(ROOT, E)), GO),
        (Finish(3, Entry), NAMED),
        (Settle(2, false), UNTAKEN),
    ],
    nodes: &[Living(3, 0, Some(&[E]), 1, false)],
    postings: &[
        Born((2, 0)),
        Given((2, 0)),
        Back((2, 0)),
        Born((2, 1)),
        Given((2, 1)),
        Forgotten((2, 1), 1),
        Born((3, 0)),
        Given((3, 0)),
    ],
};

/// A folder `a` with `b` in it, which have the numbers 2 and 3. It cannot be moved below itself, nor what is in it onto
/// it. It is moved to `e`, and both are cut when `e` is removed; then only a count keeps them alive. Requests wait for
/// names that are held.
const MOVES: Row = Row {
    limits: DEFAULT,
    steps: &[
        (Begin(Name(ROOT, A)), GO),
        (Finish(1, Entry), NAMED),
        (Settle(1, true), TAKEN),
        (Begin(Name(2, B)), GO),
        (Finish(2, Entry), NAMED),
        (Settle(2, true), TAKEN),
        (Begin(Move(ROOT, A, 3, E)), Refused(EINVAL)),
        (Begin(Move(2, B, ROOT, A)), Refused(ENOTEMPTY)),
        (Begin(Move(ROOT, A, ROOT, A)), SAME),
        (Begin(Node(3, None)), Busy),
        (Finish(3, Done), ENDED),
        (Begin(Node(3, None)), GO),
        (Begin(Move(ROOT, A, ROOT, E)), Busy),
        (Finish(4, Done), ENDED),
        (Begin(Move(ROOT, A, ROOT, E)), GO),
        (Begin(Name(ROOT, E)), Busy),
        (Finish(5, Done), ENDED),
        (Begin(Remove(ROOT, E, true)), GO),
        (Finish(6, Done), ENDED),
        (Begin(Node(3, None)), Refused(ESTALE)),
        (Settle(6, true), EMPTY),
        (Settle(5, true), EMPTY),
        (Settle(4, true), EMPTY),
        (Settle(3, true), EMPTY),
        (Forget(3, 1), Amount(1)),
    ],
    nodes: &[Living(2, 0, None, 1, false)],
    postings: &[
        Born((2, 0)),
        Given((2, 0)),
        Born((3, 0)),
        Given((3, 0)),
        Forgotten((3, 0), 1),
    ],
};

/// A file is opened twice and then removed, so it is hidden. The release of its last handle removes it.
const HIDING: Row = Row {
    limits: DEFAULT,
    steps: &[
        (Begin(Name(ROOT, A)), GO),
        (Finish(1, Entry), NAMED),
        (Settle(1, true), TAKEN),
        (Begin(Open(2, Access::Reading)), GO),
        (Finish(2, Done), OPENED_FIRST),
        (Settle(2, true), EMPTY),
        (Begin(Open(2, Access::Reading)), GO),
        (Finish(3, Done), OPENED_SECOND),
        (Settle(3, true), EMPTY),
        (Begin(Remove(ROOT, A, true)), HIDE),
        (Begin(Name(ROOT, HIDDEN)), Busy),
        (Finish(4, Hidden(0)), ENDED),
        (Settle(4, true), EMPTY),
        (Begin(Release(3, 1)), Refused(EBADF)),
        (Begin(Release(2, 1)), GO),
        (Finish(5, Done), ENDED),
        (Settle(5, true), EMPTY),
        (Begin(Remove(ROOT, HIDDEN, true)), HIDE),
        (Finish(6, Hidden(10)), ENDED),
        (Settle(6, true), EMPTY),
        (Begin(Release(2, 2)), LAST),
        (Begin(Name(ROOT, HIDDEN)), Busy),
        (Finish(7, Done), ENDED),
        (Settle(7, true), EMPTY),
    ],
    nodes: &[Living(2, 0, None, 1, false)],
    postings: &[Born((2, 0)), Given((2, 0))],
};

/// The target of a move is open. It is hidden, and then the move fails. A node with a mark stays alive without a count.
const HIDDEN_TARGET: Row = Row {
    limits: DEFAULT,
    steps: &[
        (Begin(Name(ROOT, E)), GO),
        (Finish(1, Entry), NAMED),
        (Settle(1, true), TAKEN),
        (Begin(Open(2, Access::Both)), GO),
        (Finish(2, Done), OPENED_FIRST),
        (Settle(2, true), EMPTY),
        (Begin(Name(ROOT, A)), GO),
        (Finish(3, Entry), NAMED),
        (Settle(3, true), TAKEN),
        (Begin(Move(ROOT, A, ROOT, E)), HIDE),
        (Finish(4, HiddenMove(0, false)), ENDED),
        (Settle(4, true), EMPTY),
        (Begin(Release(2, 1)), LAST),
        (Finish(5, Failed), ENDED),
        (Settle(5, true), EMPTY),
        (Forget(2, 1), Amount(1)),
    ],
    nodes: &[
        Living(2, 0, Some(&[HIDDEN]), 0, true),
        Living(3, 0, Some(&[A]), 1, false),
    ],
    postings: &[
        Born((2, 0)),
        Given((2, 0)),
        Born((3, 0)),
        Given((3, 0)),
        Forgotten((2, 0), 1),
    ],
};

/// Three postings are reserved for an entry, and one for each count.
const FEW_POSTINGS: Row = Row {
    limits: Limits {
        postings: 6,
        ..DEFAULT
    },
    steps: &[
        (Begin(Name(ROOT, A)), GO),
        (Finish(1, Entry), NAMED),
        (Settle(1, true), TAKEN),
        (Begin(Name(ROOT, A)), GO),
        (Finish(2, Failed), NAMED),
        (Settle(2, true), EMPTY),
        (Forget(2, 2), Amount(1)),
        (Begin(Name(ROOT, E)), GO),
        (Begin(Create(ROOT, B, Access::Both)), Refused(ENFILE)),
    ],
    nodes: &[],
    postings: &[Born((2, 0)), Given((2, 0)), Forgotten((2, 0), 1)],
};

/// There may be two nodes including the root, and both exist or are promised.
const FEW_NODES: Row = Row {
    limits: Limits {
        nodes: 2,
        ..DEFAULT
    },
    steps: &[
        (Begin(Name(ROOT, A)), GO),
        (Begin(Name(ROOT, E)), Refused(ENFILE)),
        (Finish(1, Entry), NAMED),
        (Begin(Name(ROOT, E)), Refused(ENFILE)),
        (Begin(Name(ROOT, A)), GO),
        (Begin(Node(2, None)), GO),
    ],
    nodes: &[Living(2, 0, Some(&[A]), 1, false)],
    postings: &[Born((2, 0)), Given((2, 0))],
};

#[test]
fn rows(rt: HostRuntime) -> Result<(), Fail> {
    tell_all(
        rt.alloc(),
        &[
            FORGET_ABOVE_COUNT,
            UNTAKEN_ENTRIES,
            MOVES,
            HIDING,
            HIDDEN_TARGET,
            FEW_POSTINGS,
            FEW_NODES,
        ],
    )
}

/// Begins these requests.
fn begin_all(table: &mut ListTable, asks: &[Ask]) -> Result<(), Fail> {
    for ask in asks {
        if table.begin(0, *ask)? != GO {
            return Err(Fail::from("a request did not begin"));
        }
    }
    Ok(())
}

/// How many requests share the path of the name in the root, and how many hold it exclusively.
fn holds_of(table: &ListTable, word: Word) -> Result<(u64, u64), AllocError> {
    let way = Way::of(table.alloc, &[word])?;
    Ok(table.holds_on(&way))
}

/// Two requests share a path, and one holds another path exclusively.
fn tell_holds(table: &mut ListTable) -> Result<[(u64, u64); 3], Fail> {
    begin_all(
        table,
        &[Name(ROOT, A), Name(ROOT, A), Remove(ROOT, E, true)],
    )?;
    Ok([
        holds_of(table, A)?,
        holds_of(table, E)?,
        holds_of(table, B)?,
    ])
}

#[test]
fn hold_numbers(rt: HostRuntime) -> Result<(), Fail> {
    let mut table = ListTable::open(rt.alloc(), DEFAULT)?;
    let holds = tell_holds(&mut table)?;
    drop(table);
    assert_eq!(rt; holds, [(2, 0), (0, 1), (0, 0)]);
    Ok(())
}
