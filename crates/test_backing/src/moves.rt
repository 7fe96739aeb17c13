//! Rows for moves that replace nothing, and for exchanges.

use crate::rows::{tell_folder, tell_hold, tell_tree};
use crate::sample_trees::sample_folder;
use std::fs;
use std::test::Fail;

/// Each group starts from the sample.
const NEW: [&[(&str, &str)]; 2] = [
    &[
        ("rename-new a e", "fault 17"),
        ("rename-new a d", "fault 17"),
        ("rename-new d a", "fault 17"),
        ("rename-new a a", "fault 17"),
        ("rename-new d d", "fault 17"),
        ("rename-new zz zz", "fault 2"),
        ("rename-new zz a", "fault 2"),
        ("rename-new a zz/x", "fault 2"),
        ("rename-new a e/x", "fault 20"),
        ("rename-new a/x b", "fault 20"),
        ("rename-new d d/x", "fault 22"),
        ("rename-new . b", "fault 16"),
        ("rename-new a .", "fault 16"),
        ("list .", "names a d/ e"),
        ("read a 0 9", "bytes 616263"),
    ],
    &[
        ("rename-new a b", "done"),
        ("stat a", "fault 2"),
        ("read b 0 9", "bytes 616263"),
        ("mkdir d/x", "done"),
        ("make d/x/y", "done"),
        ("rename-new d/x d", "fault 39"),
        ("rename-new d/x/y d/x", "fault 39"),
        ("rename-new d q", "done"),
        ("stat d", "fault 2"),
        ("list q/x", "names y"),
        ("rename-new b q/x", "fault 17"),
        ("rename-new q/x b/y", "fault 20"),
        ("rename-new b q/x/y", "fault 17"),
        ("rename-new b q/x/z", "done"),
        ("rename-new b q/x/z", "fault 2"),
        ("read q/x/z 0 9", "bytes 616263"),
    ],
];

/// Each group starts from the sample, on a tree that can exchange.
const EXCHANGES: [&[(&str, &str)]; 4] = [
    &[
        ("exchange a e", "done"),
        ("read a 0 9", "bytes "),
        ("read e 0 9", "bytes 616263"),
        ("exchange a a", "done"),
        ("exchange d d", "done"),
        ("list .", "names a d/ e"),
        ("exchange zz zz", "fault 2"),
        ("exchange a zz", "fault 2"),
        ("exchange zz a", "fault 2"),
        ("exchange a zz/x", "fault 2"),
        ("exchange a e/x", "fault 20"),
        ("exchange a/x e", "fault 20"),
        ("exchange . a", "fault 16"),
        ("exchange a .", "fault 16"),
        ("exchange . .", "fault 16"),
        ("exchange d d/x", "fault 22"),
        ("exchange d/x d", "fault 2"),
        ("list .", "names a d/ e"),
    ],
    // A folder with everything below it, and a file.
    &[
        ("mkdir d/x", "done"),
        ("make d/x/y", "done"),
        ("write d/x/y 0 yy", "wrote 2"),
        ("exchange d/x d", "fault 22"),
        ("exchange d d/x/y", "fault 22"),
        ("exchange d a", "done"),
        ("list .", "names a/ d e"),
        ("read d 0 9", "bytes 616263"),
        ("read a/x/y 0 9", "bytes 7979"),
        ("exchange e a/x", "done"),
        ("stat a/x", "file 0"),
        ("read e/y 0 9", "bytes 7979"),
        ("list a", "names x"),
    ],
    // Two folders, and names that begin alike.
    &[
        ("mkdir dd", "done"),
        ("make dd/p", "done"),
        ("make d/q", "done"),
        ("mkdir d/r", "done"),
        ("make d/r/s", "done"),
        ("exchange d dd", "done"),
        ("list d", "names p"),
        ("list dd", "names q r/"),
        ("list dd/r", "names s"),
        ("exchange dd/r d", "done"),
        ("list d", "names s"),
        ("list dd", "names q r/"),
        ("list dd/r", "names p"),
        ("exchange dd/q d/s", "done"),
        ("exchange d dd", "done"),
        ("list dd", "names s"),
        ("list d/r", "names p"),
    ],
    // A link, which is not followed, with a folder and with the file that it leads to.
    &[
        ("link l a", "done"),
        ("make d/x", "done"),
        ("exchange l d", "done"),
        ("list l", "names x"),
        ("readlink d", "bytes 61"),
        ("exchange d d/x", "fault 22"),
        ("exchange d a", "done"),
        ("read d 0 9", "bytes 616263"),
        ("readlink a", "bytes 61"),
        ("exchange a a", "done"),
        ("exchange a l/x", "done"),
        ("readlink l/x", "bytes 61"),
        ("list .", "names a d e l/"),
    ],
];

/// A real folder fails at every exchange, whatever is there.
const REFUSED: &[(&str, &str)] = &[
    ("exchange a e", "fault 22"),
    ("exchange a a", "fault 22"),
    ("exchange zz a", "fault 22"),
    ("exchange . a", "fault 22"),
    ("exchange d d/x", "fault 22"),
    ("list .", "names a d/ e"),
    ("read a 0 9", "bytes 616263"),
];

#[test]
fn moves_that_replace_nothing(rt: HostRuntime) -> Result<(), Fail> {
    for rows in NEW {
        tell_tree(rt.alloc(), rows)?;
        tell_hold(rt.alloc(), rt, rows)?;
    }
    Ok(())
}

#[test]
fn exchanges_in_a_memory_tree(rt: HostRuntime) -> Result<(), Fail> {
    for rows in EXCHANGES {
        tell_tree(rt.alloc(), rows)?;
        tell_hold(rt.alloc(), rt, rows)?;
    }
    Ok(())
}

#[test]
fn moves_in_a_real_folder(rt: HostRuntime) -> Result<(), Fail> {
    for (rows, failures) in [(NEW[0], 0), (NEW[1], 0), (REFUSED, 5)] {
        let root = sample_folder(&rt, "moves")?;
        tell_folder(&rt, root.as_str(), rows, failures)?;
        fs::remove_dir_all(&rt, root.as_str())?;
    }
    Ok(())
}
