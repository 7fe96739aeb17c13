//! Which calls of the system a call makes.

use crate::asking::ask;
use crate::opening::{Opened, open};
use crate::sample_trees::{place_of, sample_folder};
use crate::telling::{Item, Step, tell};
use std::alloc::Global;
use std::fs;
use std::test::Fail;

#[test]
fn a_call_costs_little_where_its_folder_is_open(rt: HostRuntime) -> Result<(), Fail> {
    const STEPS: &[Step] = &[
        Step::Ask("mkdir d/x", "done"),
        Step::Costs("mkdir d/x/y 700", "done", "open-dir inspect mkdir"),
        Step::Costs("mkdir d/x/z 700", "done", "mkdir"),
        Step::Costs("make d/x/y/f 600", "done", "open-dir inspect make inspect"),
        Step::Costs("make d/x/y/g 600", "done", "make inspect"),
        Step::Costs("write d/x/y/f 0 one", "wrote 3", "write"),
        Step::Costs("read d/x/y/f 0 3", "bytes 6f6e65", "read"),
        // The second one tells that the file ends there.
        Step::Costs("read d/x/y/f 0 9", "bytes 6f6e65", "read read"),
        Step::Costs("stat d/x/y/f", "file 3", "look"),
        Step::Costs("stat d/x/y", "folder 0", "look"),
        Step::Costs("stat d/x/y/zz", "fault 2", "look"),
        Step::Costs("setlen d/x/y/f 2", "done", "cut"),
        Step::Costs("sync d/x/y/f", "done", "sync"),
        Step::Costs("chmod d/x/y/f 640", "done", "set"),
        Step::Costs("utimes d/x/y/f 5.1 now", "done", "set"),
        Step::Costs("rename d/x/y/f d/x/y/h", "done", "look look rename"),
        Step::Costs("rename-new d/x/y/g d/x/f", "done", "look look rename"),
        Step::Costs("rename d/x/f d/x/y/h", "done", "look look rename"),
        Step::Costs("remove d/x/y/h", "done", "look unlink"),
        Step::Costs("remove d/x/y/h", "fault 2", "look"),
        Step::Costs("rename d/x/y d/x/w", "done", "look look rename"),
        Step::Costs("make d/x/w 600", "fault 17", "make look"),
        Step::Costs("rmdir d/x/w", "done", "rmdir"),
        Step::Costs("stat .", "folder 0", "inspect"),
        Step::Costs("exchange a e", "fault 22", ""),
        Step::Failed(1),
    ];
    tell(rt, "costs", STEPS)
}

/// A file is opened once.
#[test]
fn a_file_that_is_used_is_kept_open(rt: HostRuntime) -> Result<(), Fail> {
    const STEPS: &[Step] = &[
        Step::Put("d/f", Item::File("one")),
        Step::Costs("read a 0 3", "bytes 616263", "look open inspect read"),
        Step::Costs("read a 0 3", "bytes 616263", "read"),
        Step::Costs("write a 0 A", "wrote 1", "write"),
        Step::Costs(
            "read d/f 0 3",
            "bytes 6f6e65",
            "open-dir inspect look open inspect read",
        ),
        Step::Later,
        Step::Costs("read d/f 0 3", "bytes 6f6e65", "read"),
        Step::Costs("write a 0 a", "wrote 1", "write"),
        Step::Costs("stat a", "file 3", "look"),
        Step::Costs("read a 0 3", "bytes 616263", "read"),
        Step::Failed(0),
    ];
    tell(rt, "used", STEPS)
}

/// So many names are in the folder that is listed.
const NAMES: u64 = 40;

/// Fills the folder `d`.
fn fill(rt: &HostRuntime, root: &str) -> Result<(), Fail> {
    let alloc = rt.alloc();
    for n in 0..NAMES {
        let name = format!(in alloc; "d/{n}")?;
        let place = place_of(alloc, root, name.as_str())?;
        fs::write(rt, place.as_str(), "1234")?;
    }
    Ok(())
}

/// How often the word is one of the text's.
fn count(text: &str, word: &str) -> u64 {
    let mut found = 0u64;
    for one in text.split(' ') {
        if one == word {
            found = found.saturating_add(1);
        }
    }
    found
}

/// Lists the folder and asks for each of its names.
fn list_and_stat(alloc: Global, opened: &mut Opened) -> Result<(), Fail> {
    let _ = ask(alloc, opened, "list d")?;
    for n in 0..NAMES {
        let words = format!(in alloc; "stat d/{n}")?;
        opened.expect(alloc, words.as_str(), "file 4")?;
    }
    Ok(())
}

/// The same twice: each time a look a name, and no file is opened.
fn list_twice(alloc: Global, opened: &mut Opened) -> Result<(), Fail> {
    for _ in 0..2 {
        opened.watch.take()?;
        list_and_stat(alloc, opened)?;
        let made = opened.watch.take()?;
        let looks = count(made.as_str(), "look");
        let opens = count(made.as_str(), "open");
        if looks != NAMES || opens != 0 {
            return Err(Fail::from((looks, opens)));
        }
    }
    Ok(())
}

fn list_at(rt: &HostRuntime, root: &str) -> Result<(), Fail> {
    let mut opened = open(rt, root)?;
    list_twice(rt.alloc(), &mut opened)
}

#[test]
fn a_list_and_its_stats_cost_a_look_a_name(rt: HostRuntime) -> Result<(), Fail> {
    let root = sample_folder(&rt, "stats")?;
    fill(&rt, root.as_str())?;
    list_at(&rt, root.as_str())?;
    fs::remove_dir_all(&rt, root.as_str())?;
    Ok(())
}
