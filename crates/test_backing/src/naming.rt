//! Further names of what stands at a path. A tree of paths has none, and Linux gives them.

use crate::asked::{Asked, expect_told};
use crate::memory::folder_of;
use crate::rows::{tell_hold, tell_tree};
use crate::sample_trees::sample_disk;
use crate::telling::{Item, Step, tell, tell_all};
use std::alloc::Global;
use std::test::Fail;

/// A tree refuses each, what is wrong with the source first.
const REFUSED: &[(&str, &str)] = &[
    ("name . b", "fault 16"),
    ("name a .", "fault 16"),
    ("name . .", "fault 16"),
    ("name zz .", "fault 16"),
    ("name a/x b", "fault 20"),
    ("name no/x b", "fault 2"),
    ("name zz b", "fault 2"),
    ("name zz a", "fault 2"),
    ("name zz zz", "fault 2"),
    ("name zz e/x", "fault 2"),
    ("name zz no/x", "fault 2"),
    ("name a no/x", "fault 2"),
    ("name a e/x", "fault 20"),
    ("name a a/x", "fault 20"),
    ("name a e", "fault 17"),
    ("name a a", "fault 17"),
    ("name a d", "fault 17"),
    ("name d a", "fault 17"),
    ("list .", "names a d/ e"),
];

/// Nothing is wrong with either path.
const ONE_NAME: &[(&str, &str)] = &[
    ("link l a", "done"),
    ("name a b", "fault 1"),
    ("name e d/e", "fault 1"),
    ("name d b", "fault 1"),
    ("name d d/x", "fault 1"),
    ("name l m", "fault 1"),
    ("list .", "names a d/ e l@"),
    ("list d", "names"),
    ("read a 0 9", "bytes 616263"),
    ("names a", "1"),
];

#[test]
fn a_memory_tree_refuses_each(rt: HostRuntime) -> Result<(), Fail> {
    for rows in [REFUSED, ONE_NAME] {
        tell_tree(rt.alloc(), rows)?;
        tell_hold(rt.alloc(), rt, rows)?;
    }
    Ok(())
}

fn refuse_each<A: Asked>(alloc: Global, folder: &mut A) -> Result<(), Fail> {
    expect_told(alloc, folder, REFUSED, 0)?;
    expect_told(alloc, folder, &ONE_NAME[..9], 5)
}

/// The disk says no more than EPERM of what it does not do: that is a failure of the folder.
#[test]
fn a_folder_in_memory_refuses_each(rt: HostRuntime) -> Result<(), Fail> {
    for shows_all in [false, true] {
        let disk = sample_disk(rt.alloc())?;
        disk.set_shows_all(shows_all);
        let mut folder = folder_of(&rt, disk, 64)?;
        refuse_each(rt.alloc(), &mut folder)?;
    }
    Ok(())
}

/// The same is refused over Linux, and a folder gets no further name.
#[test]
fn a_real_folder_refuses_the_same(rt: HostRuntime) -> Result<(), Fail> {
    const STEPS: &[Step] = &[
        Step::Both("name . b", "fault 16"),
        Step::Both("name a .", "fault 16"),
        Step::Both("name zz .", "fault 16"),
        Step::Both("name a/x b", "fault 20"),
        Step::Both("name no/x b", "fault 2"),
        Step::Both("name zz b", "fault 2"),
        Step::Both("name zz a", "fault 2"),
        Step::Both("name zz zz", "fault 2"),
        Step::Both("name zz e/x", "fault 2"),
        Step::Both("name zz no/x", "fault 2"),
        Step::Both("name a no/x", "fault 2"),
        Step::Both("name a e/x", "fault 20"),
        Step::Both("name a a/x", "fault 20"),
        Step::Both("name a e", "fault 17"),
        Step::Both("name a a", "fault 17"),
        Step::Both("name a d", "fault 17"),
        Step::Both("name d a", "fault 17"),
        Step::Failed(0),
        Step::Both("name d b", "fault 1"),
        Step::Both("name d d/x", "fault 1"),
        Step::Failed(2),
        Step::Both("list .", "names a d/ e"),
        Step::Both("list d", "names"),
        Step::Both("names a", "1"),
    ];
    tell_all(rt, "no-further-name", STEPS)
}

/// One file stands at both paths. What a look had shown of the first one is not told any more, and no time passes between.
#[test]
fn a_file_gets_further_names(rt: HostRuntime) -> Result<(), Fail> {
    const STEPS: &[Step] = &[
        Step::Ask("list .", "names a d/ e"),
        Step::Ask("name a d/b", "done"),
        Step::Same("a"),
        Step::Same("d/b"),
        Step::Both("names a", "2"),
        Step::Both("list d", "names b"),
        Step::Ask("read d/b 0 9", "bytes 616263"),
        Step::Ask("write d/b 1 xyz", "wrote 3"),
        Step::Both("read a 0 9", "bytes 6178797a"),
        Step::Same("a"),
        Step::Ask("chmod a 640", "done"),
        Step::Both("mode d/b", "640"),
        Step::Ask("list d", "names b"),
        Step::Ask("name d/b c", "done"),
        Step::Same("d/b"),
        Step::Same("a"),
        Step::Same("d"),
        Step::Same("."),
        Step::Both("names c", "3"),
        Step::Ask("list .", "names a c d/ e"),
        Step::Ask("remove a", "done"),
        Step::Same("c"),
        Step::Both("names d/b", "2"),
        Step::Both("stat a", "fault 2"),
        Step::Both("read c 0 9", "bytes 6178797a"),
        Step::Ask("name c a", "done"),
        Step::Both("read a 0 9", "bytes 6178797a"),
        // POSIX: where both are names of one file, a rename does nothing.
        Step::Ask("rename a c", "done"),
        Step::Both("names a", "3"),
        Step::Both("names c", "3"),
        Step::Ask("rename c e", "done"),
        Step::Both("stat c", "fault 2"),
        Step::Both("names e", "3"),
        Step::Failed(0),
    ];
    tell_all(rt, "further-names", STEPS)
}

/// It is the link itself that gets the name, and so with a socket.
#[test]
fn a_link_gets_a_further_name(rt: HostRuntime) -> Result<(), Fail> {
    const STEPS: &[Step] = &[
        Step::Put("s", Item::Socket),
        Step::Ask("link l a", "done"),
        Step::Ask("link w d", "done"),
        Step::Ask("link n zz", "done"),
        Step::Ask("name l m", "done"),
        Step::Both("readlink m", "bytes 61"),
        Step::Both("names l", "2"),
        Step::Both("names a", "1"),
        Step::Same("l"),
        Step::Same("m"),
        Step::Ask("name w d/w", "done"),
        Step::Both("stat d/w", "link 1"),
        Step::Ask("name n n2", "done"),
        Step::Both("readlink n2", "bytes 7a7a"),
        Step::Both("name w/x b", "fault 20"),
        Step::Both("name a w/x", "fault 20"),
        Step::Both("name a l", "fault 17"),
        Step::Both("name a n", "fault 17"),
        Step::Ask("name s d/s", "done"),
        Step::Both("stat d/s", "socket 0"),
        Step::Same("s"),
        Step::Failed(0),
    ];
    tell_all(rt, "link-names", STEPS)
}

/// One call of the system where both folders are open. A look tells why nothing is done.
#[test]
fn further_names_cost_little(rt: HostRuntime) -> Result<(), Fail> {
    const STEPS: &[Step] = &[
        Step::Ask("mkdir d/x", "done"),
        Step::Ask("stat d/x/f", "fault 2"),
        Step::Costs("name a d/x/f", "done", "link"),
        Step::Costs("name d/x/f d/x/g", "done", "link"),
        Step::Costs("name zz b", "fault 2", "link"),
        Step::Costs("name a d/x/f", "fault 17", "link look"),
        Step::Costs("name d b", "fault 1", "link"),
        Step::Costs("name zz e/x", "fault 2", "open-dir look look"),
        Step::Costs("name a e/x", "fault 20", "open-dir look look"),
        Step::Failed(1),
    ];
    tell_all(rt, "cheap-names", STEPS)
}

/// What is hidden is no source, and makes the call fail where it stands at the new name.
#[test]
fn what_is_hidden_gets_no_further_name(rt: HostRuntime) -> Result<(), Fail> {
    const STEPS: &[Step] = &[
        Step::Put("link", Item::Link("a")),
        Step::Put("way", Item::Link("d")),
        Step::Put("socket", Item::Socket),
        Step::Both("name link b", "fault 2"),
        Step::Both("name socket b", "fault 2"),
        Step::Both("name way/x b", "fault 2"),
        Step::Both("name a way/x", "fault 2"),
        Step::Both("name a e", "fault 17"),
        Step::Ask("name a b", "done"),
        Step::Both("names b", "2"),
        Step::Failed(0),
        Step::Ask("name a link", "fault 17"),
        Step::Ask("name a socket", "fault 17"),
        Step::Failed(2),
    ];
    tell(rt, "hidden-names", STEPS)
}
