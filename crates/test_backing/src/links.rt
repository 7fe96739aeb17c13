//! Things that a real folder does not show.

use crate::opening::open;
use crate::sample_trees::{place_of, sample_folder};
use crate::telling::{Item, Step, tell};
use std::fs;
use std::test::Fail;

#[test]
fn links_and_sockets_are_not_shown(rt: HostRuntime) -> Result<(), Fail> {
    const STEPS: &[Step] = &[
        Step::Put("link", Item::Link("a")),
        Step::Put("way", Item::Link("d")),
        Step::Put("d/out", Item::Link("/etc/passwd")),
        Step::Put("d/in", Item::File("in")),
        Step::Put("socket", Item::Socket),
        Step::Ask("list .", "names a d/ e"),
        Step::Ask("list d", "names in"),
        Step::Ask("stat link", "fault 2"),
        Step::Ask("stat way", "fault 2"),
        Step::Ask("stat way/in", "fault 2"),
        Step::Ask("read way/in 0 9", "fault 2"),
        Step::Ask("make way/new", "fault 2"),
        Step::Ask("list way", "fault 2"),
        Step::Ask("remove link", "fault 2"),
        Step::Ask("stat socket", "fault 2"),
        Step::Ask("read socket 0 9", "fault 2"),
        Step::Ask("make socket/x", "fault 2"),
        Step::Ask("rename link b", "fault 2"),
        Step::Ask("read d/out 0 9", "fault 2"),
        Step::Ask("write d/out 0 x", "fault 2"),
        Step::Ask("setlen d/out 0", "fault 2"),
        Step::Ask("sync d/out", "fault 2"),
        Step::Failed(0),
        Step::Ask("make link", "fault 17"),
        Step::Ask("rename a link", "fault 17"),
        Step::Ask("rename-new a link", "fault 17"),
        Step::Failed(3),
    ];
    tell(rt, "links", STEPS)
}

#[test]
fn a_folder_of_hidden_names_is_not_bare(rt: HostRuntime) -> Result<(), Fail> {
    const STEPS: &[Step] = &[
        Step::Put("links", Item::Folder),
        Step::Put("links/x", Item::Link("../a")),
        Step::Put("sockets", Item::Folder),
        Step::Put("sockets/x", Item::Socket),
        Step::Put("both", Item::Folder),
        Step::Put("both/x", Item::Link("../a")),
        Step::Put("both/y", Item::File("y")),
        Step::Ask("list links", "names"),
        Step::Ask("list sockets", "names"),
        Step::Ask("list both", "names y"),
        Step::Ask("rmdir both", "fault 39"),
        Step::Ask("rename d both", "fault 39"),
        Step::Failed(0),
        Step::Ask("rmdir links", "fault 39"),
        Step::Ask("rmdir sockets", "fault 39"),
        Step::Ask("rename d links", "fault 39"),
        Step::Ask("rename d sockets", "fault 39"),
        Step::Failed(4),
        Step::Ask("stat d", "folder 0"),
    ];
    tell(rt, "bare", STEPS)
}

#[test]
fn a_file_that_became_a_link_is_not_read(rt: HostRuntime) -> Result<(), Fail> {
    const STEPS: &[Step] = &[
        Step::Ask("read a 0 9", "bytes 616263"),
        Step::Put("a", Item::Nothing),
        Step::Put("a", Item::Link("/etc/passwd")),
        // What is kept open is read until a look shows that it is gone.
        Step::Ask("read a 0 9", "bytes 616263"),
        Step::Both("stat a", "fault 2"),
        Step::Both("read a 0 9", "fault 2"),
        Step::Ask("write a 0 x", "fault 2"),
        Step::Failed(0),
    ];
    tell(rt, "became", STEPS)
}

#[test]
fn no_name_leads_out(rt: HostRuntime) -> Result<(), Fail> {
    const STEPS: &[Step] = &[
        Step::Ask("stat ..", "fault 22"),
        Step::Ask("stat d/..", "fault 22"),
        Step::Ask("list d/../..", "fault 22"),
        Step::Ask("stat d/.", "fault 22"),
        Step::Ask("make d/..", "fault 22"),
        Step::Ask("stat ", "fault 22"),
        Step::Ask("stat d//etc", "fault 22"),
        Step::Failed(7),
    ];
    tell(rt, "out", STEPS)
}

/// Checks whether the name in the folder may be the root of another one.
fn expect_root(rt: HostRuntime, root: &str, name: &str, said: bool) -> Result<(), Fail> {
    let place = place_of(rt.alloc(), root, name)?;
    if open(&rt, place.as_str()).is_ok() == said {
        return Ok(());
    }
    Err(Fail::from((name, said)))
}

#[test]
fn a_root_must_be_a_folder(rt: HostRuntime) -> Result<(), Fail> {
    let root = sample_folder(&rt, "root")?;
    for (name, said) in [("a", false), ("zz", false), ("d", true)] {
        expect_root(rt, root.as_str(), name, said)?;
    }
    fs::remove_dir_all(&rt, root.as_str())?;
    Ok(())
}
