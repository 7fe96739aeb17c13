//! Long ways and long names.

use crate::asked::{Asked, expect_count};
use crate::opening::{Opened, open_with};
use crate::sample_trees::sample_folder;
use std::alloc::{AllocError, Global};
use std::fs;
use std::test::Fail;

/// So many folders stand one in the other.
const DEPTH: u32 = 60;

/// The path of the folder that is so deep.
fn deep_path(alloc: Global, depth: u32) -> Result<String, AllocError> {
    let mut path = String::from_str(alloc, "d")?;
    for _ in 1..depth {
        path.push_str("/n")?;
    }
    Ok(path)
}

/// The words, with that text in the place of each star.
fn filled(alloc: Global, words: &str, text: &str) -> Result<String, AllocError> {
    let mut all = String::new(alloc);
    let mut is_first = true;
    for part in words.split('*') {
        if !is_first {
            all.push_str(text)?;
        }
        is_first = false;
        all.push_str(part)?;
    }
    Ok(all)
}

/// Checks that each call has its answer, where a star stands for that text.
fn expect_filled(
    alloc: Global,
    opened: &mut Opened,
    rows: &[(&str, &str)],
    text: &str,
) -> Result<(), Fail> {
    for (words, wanted) in rows {
        let words = filled(alloc, words, text)?;
        let wanted = filled(alloc, wanted, text)?;
        opened.expect(alloc, words.as_str(), wanted.as_str())?;
    }
    Ok(())
}

/// Makes the folders one in the other: the path of the deepest one.
fn make_deep(alloc: Global, opened: &mut Opened) -> Result<String, Fail> {
    for depth in 2..DEPTH {
        let path = deep_path(alloc, depth)?;
        expect_filled(alloc, opened, &[("mkdir *", "done")], path.as_str())?;
    }
    let path = deep_path(alloc, DEPTH - 1)?;
    Ok(path)
}

/// Calls in the deepest folder and above it.
const DEEP: &[(&str, &str)] = &[
    ("make */f", "done"),
    ("write */f 0 deep", "wrote 4"),
    ("stat */f", "file 4"),
    ("list *", "names f"),
    ("read */f 0 9", "bytes 64656570"),
    ("rename */f */g", "done"),
    ("rename */g f", "done"),
    ("read f 0 9", "bytes 64656570"),
    ("rename f */f", "done"),
    ("rename d/n b", "done"),
    ("stat */f", "fault 2"),
    ("rename b d/n", "done"),
    ("read */f 0 9", "bytes 64656570"),
    ("rmdir *", "fault 39"),
    ("remove */f", "done"),
    ("rmdir *", "done"),
    ("stat *", "fault 2"),
];

fn go_deep(alloc: Global, opened: &mut Opened) -> Result<(), Fail> {
    let path = make_deep(alloc, opened)?;
    expect_filled(alloc, opened, DEEP, path.as_str())?;
    expect_count(opened.failed(), 0)
}

fn go_deep_at(rt: &HostRuntime, root: &str, capacity: usize) -> Result<(), Fail> {
    let mut opened = open_with(rt, root, capacity)?;
    go_deep(rt.alloc(), &mut opened)
}

// With room for the whole way, for some of it, for a few names, for one, and for nothing.
#[test]
fn a_path_is_long(rt: HostRuntime) -> Result<(), Fail> {
    for capacity in [256, 64, 4, 1, 0] {
        let root = sample_folder(&rt, "deep")?;
        go_deep_at(&rt, root.as_str(), capacity)?;
        fs::remove_dir_all(&rt, root.as_str())?;
    }
    Ok(())
}

/// A Stat of the deepest folder makes one look, again and again.
fn look_deep(alloc: Global, opened: &mut Opened) -> Result<(), Fail> {
    let path = make_deep(alloc, opened)?;
    for _ in 0..2 {
        opened.watch.take()?;
        expect_filled(alloc, opened, &[("stat *", "folder 0")], path.as_str())?;
        let made = opened.watch.take()?;
        if made.as_str() != " look" {
            return Err(Fail::from(("a stat costs", made)));
        }
    }
    Ok(())
}

fn look_deep_at(rt: &HostRuntime, root: &str) -> Result<(), Fail> {
    let mut opened = open_with(rt, root, 256)?;
    look_deep(rt.alloc(), &mut opened)
}

#[test]
fn a_stat_costs_one_look_at_any_depth(rt: HostRuntime) -> Result<(), Fail> {
    let root = sample_folder(&rt, "one-look")?;
    look_deep_at(&rt, root.as_str())?;
    fs::remove_dir_all(&rt, root.as_str())?;
    Ok(())
}

/// Calls with a name that is as long as Linux's file systems take, and with one that is longer.
const LONG: &[(&str, &str)] = &[
    ("mkdir *", "done"),
    ("make */*", "done"),
    ("write */* 0 long", "wrote 4"),
    ("stat */*", "file 4"),
    ("list *", "names *"),
    ("rename */* b", "done"),
    ("read b 0 9", "bytes 6c6f6e67"),
    ("rename b */*", "done"),
    ("read */* 0 9", "bytes 6c6f6e67"),
    ("remove */*", "done"),
    ("rmdir *", "done"),
    ("stat *", "fault 2"),
    ("stat *n", "fault 36"),
    ("make *n", "fault 36"),
    ("mkdir *n", "fault 36"),
    ("stat *n/f", "fault 36"),
    ("rename a *n", "fault 36"),
    ("read a 0 9", "bytes 616263"),
];

/// How long such a name is, in bytes.
const LONGEST: u32 = 255;

fn longest(alloc: Global) -> Result<String, AllocError> {
    let mut name = String::new(alloc);
    for _ in 0..LONGEST {
        name.push_str("n")?;
    }
    Ok(name)
}

fn name_long(alloc: Global, opened: &mut Opened) -> Result<(), Fail> {
    let name = longest(alloc)?;
    expect_filled(alloc, opened, LONG, name.as_str())?;
    expect_count(opened.failed(), 5)
}

fn name_long_at(rt: &HostRuntime, root: &str) -> Result<(), Fail> {
    let mut opened = open_with(rt, root, 4)?;
    name_long(rt.alloc(), &mut opened)
}

#[test]
fn a_name_is_long(rt: HostRuntime) -> Result<(), Fail> {
    let root = sample_folder(&rt, "long")?;
    name_long_at(&rt, root.as_str())?;
    fs::remove_dir_all(&rt, root.as_str())?;
    Ok(())
}
