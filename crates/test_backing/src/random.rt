//! Random calls on a memory tree and on a folder of a disk, side by side.

use crate::asked::{Asked, expect, expect_count};
use crate::asking::ask;
use crate::opening::{CAPACITY, Opened, open_of};
use crate::sample_trees::new_folder;
use backing::MemTree;
use std::alloc::{AllocError, Global};
use std::fs;
use std::test::Fail;
use terms::Kinds;

/// Random numbers, the same ones in each run.
#[derive(Drop)]
pub struct Dice {
    state: u64,
}

impl Dice {
    pub fn new(state: u64) -> Dice {
        Dice { state }
    }

    /// A number below `faces`, which is not 0.
    pub fn below(&mut self, faces: u64) -> u64 {
        self.state = self
            .state
            .wrapping_mul(6_364_136_223_846_793_005)
            .wrapping_add(1_442_695_040_888_963_407);
        (self.state >> 33) % faces.max(1)
    }
}

/// A path of one to three names from a set of three.
fn path(alloc: Global, dice: &mut Dice) -> Result<String, AllocError> {
    let mut text = String::new(alloc);
    if dice.below(40) == 0 {
        text.push_str(".")?;
        return Ok(text);
    }
    let names = ["a", "b", "c"];
    for depth in 0..3 {
        if depth > 0 {
            if dice.below(2) == 0 {
                break;
            }
            text.push_str("/")?;
        }
        text.push_str(names[dice.below(3) as usize % 3])?;
    }
    Ok(text)
}

/// Calls that make something are more frequent than calls that remove it.
const NAMES: [&str; 25] = [
    "stat",
    "stat",
    "list",
    "list",
    "make",
    "make",
    "mkdir",
    "mkdir",
    "mkdir",
    "remove",
    "rmdir",
    "rename",
    "rename",
    "rename",
    "rename-new",
    "rename-new",
    "read",
    "read",
    "write",
    "write",
    "write",
    "setlen",
    "chmod",
    "chown",
    "utimes",
];

/// What stands behind the path in the words of the call with that number.
fn rest_of(
    alloc: Global,
    dice: &mut Dice,
    kind: usize,
    offset: u64,
    size: u64,
) -> Result<String, AllocError> {
    match kind {
        4 | 5 | 6 | 7 | 8 | 22 => format!(in alloc; "7{}{}", offset % 8, size % 8),
        11 | 12 | 13 | 14 | 15 => path(alloc, dice),
        16 | 17 => format!(in alloc; "{offset} {size}"),
        19 | 20 => format!(in alloc; "{offset} xyz{size}"),
        23 => String::from_str(alloc, "- -"),
        24 => format!(in alloc; "{offset}.{size} now"),
        _ => format!(in alloc; "{offset} "),
    }
}

/// The words of a random call, none on links.
fn call(alloc: Global, dice: &mut Dice) -> Result<String, AllocError> {
    let one = path(alloc, dice)?;
    let offset = dice.below(12);
    let size = dice.below(9);
    let kind = dice.below(25) as usize % 25;
    let name = NAMES[kind];
    let rest = rest_of(alloc, dice, kind, offset, size)?;
    format!(in alloc; "{name} {one} {rest}")
}

/// The words of a random call that makes a link or reads one.
fn call_on_link(alloc: Global, dice: &mut Dice) -> Result<String, AllocError> {
    let one = path(alloc, dice)?;
    if dice.below(2) == 0 {
        return format!(in alloc; "readlink {one}");
    }
    let to = path(alloc, dice)?;
    format!(in alloc; "link {one} {to}")
}

/// Whether the call sets what Linux does not set of a link.
fn sets_no_link(words: &str) -> bool {
    words.starts_with("chmod ") || words.starts_with("utimes ")
}

/// The words of a random call on a directory that shows these kinds. Where that may be links, some calls are on those, and none sets
/// what Linux does not set of one.
pub fn call_of(alloc: Global, dice: &mut Dice, kinds: Kinds) -> Result<String, AllocError> {
    let words = call(alloc, dice)?;
    match kinds {
        Kinds::Plain => Ok(words),
        Kinds::All => {
            if dice.below(6) == 0 || sets_no_link(words.as_str()) {
                call_on_link(alloc, dice)
            } else {
                Ok(words)
            }
        }
    }
}

/// Checks that the folder answers the call as the tree does, and counts no failure.
pub fn ask_both<A: Asked>(
    alloc: Global,
    tree: &mut MemTree,
    folder: &mut A,
    words: &str,
) -> Result<(), Fail> {
    let wanted = ask(alloc, tree, words)?;
    expect(alloc, folder, words, wanted.as_str())?;
    expect_count(folder.failed(), 0)
}

/// Makes so many random calls on both.
fn ask_some<A: Asked>(
    alloc: Global,
    tree: &mut MemTree,
    folder: &mut A,
    dice: &mut Dice,
    kinds: Kinds,
    count: u32,
) -> Result<(), Fail> {
    for _ in 0..count {
        let words = call_of(alloc, dice, kinds)?;
        ask_both(alloc, tree, folder, words.as_str())?;
    }
    Ok(())
}

/// Makes so many random calls on an empty tree and on the folder, which is empty and shows these kinds.
pub fn ask_many<A: Asked>(
    alloc: Global,
    folder: &mut A,
    kinds: Kinds,
    count: u32,
) -> Result<(), Fail> {
    let mut tree = MemTree::new(alloc);
    let mut dice = Dice::new(20_251_122);
    ask_some(alloc, &mut tree, folder, &mut dice, kinds, count)?;
    expect_count(tree.failed(), 0)
}

fn ask_at(
    rt: &HostRuntime,
    root: &str,
    capacity: usize,
    kinds: Kinds,
    count: u32,
) -> Result<(), Fail> {
    let mut opened = open_of(rt, root, capacity, kinds)?;
    ask_many(rt.alloc(), &mut opened, kinds, count)
}

// With room for all that there is, for little of it, and for nothing.
#[test]
fn both_answer_alike(rt: HostRuntime) -> Result<(), Fail> {
    for (capacity, kinds, count) in [
        (CAPACITY, Kinds::Plain, 6000),
        (6, Kinds::Plain, 3000),
        (0, Kinds::Plain, 1000),
        (CAPACITY, Kinds::All, 3000),
        (6, Kinds::All, 1500),
        (0, Kinds::All, 500),
    ] {
        let root = new_folder(&rt, "random")?;
        ask_at(&rt, root.as_str(), capacity, kinds, count)?;
        fs::remove_dir_all(&rt, root.as_str())?;
    }
    Ok(())
}

/// Makes random calls, and after each ten of them six tenths of a second pass.
fn ask_slowly(alloc: Global, opened: &mut Opened) -> Result<(), Fail> {
    let mut tree = MemTree::new(alloc);
    let mut dice = Dice::new(20_261_127);
    for _ in 0..200 {
        ask_some(alloc, &mut tree, opened, &mut dice, Kinds::All, 10)?;
        opened.watch.pass(600);
    }
    Ok(())
}

fn ask_slowly_at(rt: &HostRuntime, root: &str) -> Result<(), Fail> {
    let mut opened = open_of(rt, root, 6, Kinds::All)?;
    ask_slowly(rt.alloc(), &mut opened)
}

#[test]
fn both_answer_alike_while_time_passes(rt: HostRuntime) -> Result<(), Fail> {
    let root = new_folder(&rt, "slowly")?;
    ask_slowly_at(&rt, root.as_str())?;
    fs::remove_dir_all(&rt, root.as_str())?;
    Ok(())
}
