//! Stories about a real folder that shows all kinds: links and sockets are told as what they are, and none is opened.

use crate::asked::expect_told;
use crate::opening::{CAPACITY, open_of};
use crate::telling::{Item, Step, tell_all};
use std::test::Fail;
use terms::Kinds;

#[test]
fn what_others_put_is_told(rt: HostRuntime) -> Result<(), Fail> {
    const STEPS: &[Step] = &[
        Step::Put("link", Item::Link("a")),
        Step::Put("way", Item::Link("d")),
        Step::Put("d/out", Item::Link("/etc/passwd")),
        Step::Put("d/in", Item::File("in")),
        Step::Put("socket", Item::Socket),
        Step::Both("list .", "names a d/ e link@ socket= way@"),
        Step::Both("list d", "names in out@"),
        Step::Both("stat link", "link 1"),
        Step::Same("link"),
        Step::Both("stat d/out", "link 11"),
        Step::Both("readlink d/out", "bytes 2f6574632f706173737764"),
        Step::Both("read d/out 0 9", "fault 22"),
        Step::Both("write d/out 0 x", "fault 22"),
        Step::Both("stat way/in", "fault 20"),
        Step::Both("make way/new", "fault 20"),
        Step::Both("stat socket", "socket 0"),
        Step::Same("socket"),
        Step::Both("read socket 0 9", "fault 22"),
        Step::Both("write socket 0 x", "fault 22"),
        Step::Both("setlen socket 0", "fault 22"),
        Step::Both("readlink socket", "fault 22"),
        Step::Both("list socket", "fault 20"),
        Step::Both("stat socket/x", "fault 20"),
        Step::Both("link socket x", "fault 17"),
        Step::Both("make socket", "fault 17"),
        Step::Ask("rename socket d", "fault 21"),
        Step::Ask("rename d socket", "fault 20"),
        Step::Ask("rename socket d/s", "done"),
        Step::Both("list d", "names in out@ s="),
        Step::Ask("rename a link", "done"),
        Step::Both("read link 0 9", "bytes 616263"),
        Step::Ask("remove d/s", "done"),
        Step::Both("stat d/s", "fault 2"),
        Step::Failed(0),
    ];
    tell_all(rt, "put-there", STEPS)
}

/// Anyone may put names into the folder, so that no name in it is used but behind a guard.
#[test]
fn links_in_a_folder_of_others(rt: HostRuntime) -> Result<(), Fail> {
    const STEPS: &[Step] = &[
        Step::Put("d", Item::Bits(0o777)),
        Step::Put("d/l", Item::Link("../a")),
        Step::Both("readlink d/l", "bytes 2e2e2f61"),
        Step::Both("read d/l 0 9", "fault 22"),
        Step::Both("write d/l 0 x", "fault 22"),
        Step::Ask("link d/m no/where", "done"),
        Step::Ask("link d/m x", "fault 17"),
        Step::Both("stat d/m", "link 8"),
        Step::Both("readlink d/zz", "fault 2"),
        Step::Ask("rename d/l d/k", "done"),
        Step::Own("d/k"),
        Step::Failed(0),
        Step::Ask("chmod d/k 600", "fault 95"),
        Step::Ask("utimes d/k 1.0 1.0", "fault 38"),
        Step::Failed(2),
        Step::Both("readlink d/k", "bytes 2e2e2f61"),
        Step::Ask("remove d/k", "done"),
        Step::Both("list d", "names m@"),
        Step::Both("read a 0 9", "bytes 616263"),
        Step::Failed(2),
    ];
    tell_all(rt, "of-others", STEPS)
}

/// A folder that has only what a folder of files and folders alone would not show is not empty: that is no failure here.
#[test]
fn a_folder_of_links_is_not_empty(rt: HostRuntime) -> Result<(), Fail> {
    const STEPS: &[Step] = &[
        Step::Put("links", Item::Folder),
        Step::Put("links/x", Item::Link("../a")),
        Step::Put("sockets", Item::Folder),
        Step::Put("sockets/x", Item::Socket),
        Step::Ask("rmdir links", "fault 39"),
        Step::Ask("rmdir sockets", "fault 39"),
        Step::Ask("rename d links", "fault 39"),
        Step::Ask("rename d sockets", "fault 39"),
        Step::Both("list links", "names x@"),
        Step::Both("list sockets", "names x="),
        Step::Failed(0),
    ];
    tell_all(rt, "only-links", STEPS)
}

/// The system sets nothing of a link but its owner, and nothing of what that leads to.
#[test]
fn details_of_a_link(rt: HostRuntime) -> Result<(), Fail> {
    const STEPS: &[Step] = &[
        Step::Ask("link l a", "done"),
        Step::Ask("link w d", "done"),
        Step::Ask("link n zz", "done"),
        Step::Ask("chmod a 640", "done"),
        Step::Ask("chmod d 750", "done"),
        Step::Ask("utimes a 5.1 6.2", "done"),
        Step::Ask("utimes d 5.1 6.2", "done"),
        Step::Failed(0),
        Step::Ask("chmod l 600", "fault 95"),
        Step::Ask("chmod w 700", "fault 95"),
        Step::Ask("chmod n 600", "fault 95"),
        Step::Ask("utimes l 1.0 1.0", "fault 38"),
        Step::Ask("utimes w now now", "fault 38"),
        Step::Failed(5),
        Step::Ask("chown l - -", "done"),
        Step::Own("l"),
        Step::Own("n"),
        Step::Root("chown l 1 2", "done"),
        Step::Root("owner l", "1 2"),
        Step::Root("owner a", "0 0"),
        Step::Root("chown w - 3", "done"),
        Step::Root("owner w", "0 3"),
        Step::Root("owner d", "0 0"),
        Step::Same("l"),
        Step::Both("mode l", "777"),
        Step::Both("mode a", "640"),
        Step::Both("times a", "5.1 6.2"),
        Step::Both("mode d", "750"),
        Step::Both("times d", "5.1 6.2"),
        Step::Failed(5),
    ];
    tell_all(rt, "details", STEPS)
}

/// Where others put a link in the place of something, and something in the place of a link.
#[test]
fn what_stands_in_place_of_a_link_is_told(rt: HostRuntime) -> Result<(), Fail> {
    const STEPS: &[Step] = &[
        Step::Ask("read a 0 9", "bytes 616263"),
        Step::Put("a", Item::Nothing),
        Step::Put("a", Item::Link("/etc/passwd")),
        // What is kept open is read until a look shows that it is gone.
        Step::Ask("read a 0 9", "bytes 616263"),
        Step::Both("stat a", "link 11"),
        Step::Both("read a 0 9", "fault 22"),
        Step::Both("write a 0 x", "fault 22"),
        Step::Both("readlink a", "bytes 2f6574632f706173737764"),
        Step::Put("a", Item::Nothing),
        Step::Put("a", Item::File("file")),
        Step::Both("readlink a", "fault 22"),
        Step::Both("read a 0 9", "bytes 66696c65"),
        Step::Put("d/x", Item::Folder),
        Step::Put("d/x/f", Item::File("one")),
        Step::Both("stat d/x/f", "file 3"),
        Step::Put("away", Item::Moved("d/x")),
        Step::Put("d/x", Item::Link("../away")),
        Step::Later,
        Step::Both("stat d/x", "link 7"),
        Step::Both("read d/x/f 0 9", "fault 20"),
        Step::Both("readlink d/x/f", "fault 20"),
        Step::Both("make d/x/g", "fault 20"),
        Step::Both("link d/x/g a", "fault 20"),
        Step::Both("list away", "names f"),
        Step::Failed(0),
    ];
    tell_all(rt, "in-place", STEPS)
}

/// A link's text and a new link take one call of the system, and what is refused for its kind is looked at and not opened.
#[test]
fn links_cost_little(rt: HostRuntime) -> Result<(), Fail> {
    const STEPS: &[Step] = &[
        Step::Put("socket", Item::Socket),
        Step::Ask("link l a", "done"),
        Step::Costs("link m a", "done", "symlink"),
        Step::Costs("readlink l", "bytes 61", "readlink"),
        Step::Costs("stat l", "link 1", "look"),
        Step::Costs("link l a", "fault 17", "symlink look"),
        Step::Costs("readlink a", "fault 22", "readlink look"),
        Step::Costs("readlink zz", "fault 2", "readlink"),
        Step::Costs("read l 0 9", "fault 22", "look"),
        Step::Costs("write l 0 x", "fault 22", "look"),
        Step::Costs("setlen l 0", "fault 22", "look"),
        Step::Costs("read socket 0 9", "fault 22", "look"),
        Step::Costs("sync socket", "fault 22", "look"),
        Step::Costs("sync l", "fault 22", "look"),
        Step::Costs("chown l - -", "done", "look"),
        Step::Own("l"),
        Step::Costs("chmod socket 600", "done", "look set-at"),
        Step::Both("mode socket", "600"),
        Step::Failed(2),
    ];
    tell_all(rt, "link-costs", STEPS)
}

/// Linux's own, with the numbers 1 and 3. No call opens it.
const DEVICES: &[(&str, &str)] = &[
    ("stat null", "character 259 0"),
    ("read null 0 9", "fault 22"),
    ("write null 0 x", "fault 22"),
    ("readlink null", "fault 22"),
    ("list null", "fault 20"),
];

#[test]
fn a_device_is_told_and_not_read(rt: HostRuntime) -> Result<(), Fail> {
    let mut opened = open_of(&rt, "/dev", CAPACITY, Kinds::All)?;
    expect_told(rt.alloc(), &mut opened, DEVICES, 0)
}
