//! Rows of the list table alone about further names, worked out by hand from its rules.

use crate::asks::Ask::{Link, Move, Name, Remove};
use crate::asks::End::{Done, Entry, Failed};
use crate::asks::Step::{Begin, Finish, Settle};
use crate::asks::Told::{Busy, Refused};
use crate::list_table::Posted::{Back, Born, Entry as Given};
use crate::list_table::ROOT;
use crate::list_teller::{
    A, B, DEFAULT, E, EMPTY, ENDED, GO, Living, NAMED, Row, TAKEN, UNTAKEN, tell_all,
};
use crate::words::Word;
use errno::{ENAMETOOLONG, ENFILE, ESTALE};
use std::test::Fail;
use table::Limits;

/// The file `a` is node 2. Its further name `e` gets node 3, and a further lookup the next time; what fails or is not
/// taken gives nothing. Requests wait for the paths that are held. Neither a node that is cut nor an unknown one gets a
/// name, and there are no names under either.
const LINKS: Row = Row {
    limits: DEFAULT,
    steps: &[
        (Begin(Name(ROOT, A)), GO),
        (Finish(1, Entry), NAMED),
        (Settle(1, true), TAKEN),
        (Begin(Link(2, ROOT, E)), GO),
        (Begin(Link(2, ROOT, B)), GO),
        (Begin(Move(ROOT, A, ROOT, B)), Busy),
        (Begin(Remove(ROOT, E, true)), Busy),
        (Finish(2, Entry), NAMED),
        (Settle(2, true), TAKEN),
        (Finish(3, Failed), NAMED),
        (Settle(3, true), EMPTY),
        (Begin(Link(2, ROOT, E)), GO),
        (Finish(4, Entry), NAMED),
        (Settle(4, true), TAKEN),
        (Begin(Remove(ROOT, A, false)), GO),
        (Begin(Link(2, ROOT, B)), Busy),
        (Begin(Link(3, ROOT, A)), Busy),
        (Finish(5, Done), ENDED),
        (Settle(5, true), EMPTY),
        (Begin(Link(2, ROOT, B)), Refused(ESTALE)),
        (Begin(Link(3, 2, B)), Refused(ESTALE)),
        (Begin(Link(9, ROOT, B)), Refused(ESTALE)),
        (Begin(Link(3, 9, B)), Refused(ESTALE)),
        (Begin(Link(3, ROOT, B)), GO),
        (Finish(6, Entry), NAMED),
        (Settle(6, false), UNTAKEN),
    ],
    nodes: &[
        Living(2, 0, None, 1, false),
        Living(3, 0, Some(&[E]), 2, false),
    ],
    postings: &[
        Born((2, 0)),
        Given((2, 0)),
        Born((3, 0)),
        Given((3, 0)),
        Given((3, 0)),
        Born((4, 0)),
        Given((4, 0)),
        Back((4, 0)),
    ],
};

/// There may be three nodes including the root. A name that has a node needs no other, not even its own node's name.
const FEW_NODES: Row = Row {
    limits: Limits {
        nodes: 3,
        ..DEFAULT
    },
    steps: &[
        (Begin(Name(ROOT, A)), GO),
        (Finish(1, Entry), NAMED),
        (Begin(Link(2, ROOT, E)), GO),
        (Begin(Link(2, ROOT, B)), Refused(ENFILE)),
        (Finish(2, Entry), NAMED),
        (Begin(Link(2, ROOT, B)), Refused(ENFILE)),
        (Begin(Link(2, ROOT, E)), GO),
        (Begin(Link(2, ROOT, A)), GO),
        (Finish(4, Entry), NAMED),
        (Finish(3, Done), NAMED),
    ],
    nodes: &[
        Living(2, 0, Some(&[A]), 2, false),
        Living(3, 0, Some(&[E]), 1, false),
    ],
    postings: &[
        Born((2, 0)),
        Given((2, 0)),
        Born((3, 0)),
        Given((3, 0)),
        Given((2, 0)),
    ],
};

/// The longest name in the root.
const LONGEST: Word = Word::Plain {
    letter: 'c',
    bytes: 4_095,
};

const TOO_LONG: Word = Word::Plain {
    letter: 'c',
    bytes: 4_096,
};

/// The folder `a` with `b` in it is moved to the longest name, so that the path of `b` is too long. Both paths are
/// tested, after the nodes.
const LONG_PATHS: Row = Row {
    limits: DEFAULT,
    steps: &[
        (Begin(Name(ROOT, A)), GO),
        (Finish(1, Entry), NAMED),
        (Settle(1, true), TAKEN),
        (Begin(Name(2, B)), GO),
        (Finish(2, Entry), NAMED),
        (Settle(2, true), TAKEN),
        (Begin(Move(ROOT, A, ROOT, LONGEST)), GO),
        (Finish(3, Done), ENDED),
        (Settle(3, true), EMPTY),
        (Begin(Link(3, ROOT, E)), Refused(ENAMETOOLONG)),
        (Begin(Link(2, ROOT, TOO_LONG)), Refused(ENAMETOOLONG)),
        (Begin(Link(ROOT, 2, E)), Refused(ENAMETOOLONG)),
        (Begin(Link(9, 2, E)), Refused(ESTALE)),
        (Begin(Link(3, 9, E)), Refused(ESTALE)),
        (Begin(Link(2, ROOT, E)), GO),
        (Begin(Link(ROOT, ROOT, LONGEST)), GO),
    ],
    nodes: &[
        Living(2, 0, Some(&[LONGEST]), 1, false),
        Living(3, 0, Some(&[LONGEST, B]), 1, false),
    ],
    postings: &[Born((2, 0)), Given((2, 0)), Born((3, 0)), Given((3, 0))],
};

#[test]
fn rows_of_links(rt: HostRuntime) -> Result<(), Fail> {
    tell_all(rt.alloc(), &[LINKS, FEW_NODES, LONG_PATHS])
}
