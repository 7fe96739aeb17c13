//! A folder and a file, their paths, and a walk over them.

ghost use Rattle.std.specs.Prelude.{◌≤◌};

use crate::spelling::spells;
use paths::Name;
use std::alloc::Global;
use std::hash::RandomState;
use std::test::Fail;
use tree::{Key, Tree};

/// A tree in which nodes are planted.
struct TestTree {
    tree: Tree,
}

impl Drop for TestTree {
    // This is a call so that code that drops the value is not checked for each part of a tree.
    fn drop(self) {
        let TestTree { tree: _ } = self;
    }
}

/// A new tree, in which that many nodes may live.
fn new_tree(rt: &HostRuntime, nodes: u64) -> Result<TestTree, Fail>
    requires { 1 ≤ nodes }
{
    let seed = RandomState::new(rt)?;
    let tree = Tree::new(rt.alloc(), nodes, seed)?;
    Ok(TestTree { tree })
}

/// Creates a node at the name.
fn plant(tree: &mut Tree, alloc: Global, parent: u64, name: &str) -> Result<u64, Fail> {
    tree.path(alloc, parent)?;
    let key = Key {
        parent,
        name: Name::from_text(alloc, name)?,
    };
    let copy = Key {
        parent,
        name: key.name.copy()?,
    };
    let None = tree.find(&key) else {
        return Err(Fail::from("the name is taken"));
    };
    tree.reserve(1)?;
    Ok(tree.birth(0, key, copy))
}

/// A file in a folder: how many nodes are alive afterwards, the bytes of its path, and whether it has these names and
/// no more nodes may be born.
fn tell_file(
    tree: &mut Tree,
    alloc: Global,
    names: &[&str],
) -> Result<(u64, Option<usize>, bool, bool), Fail> {
    let folder = plant(tree, alloc, 1, "d")?;
    let file = plant(tree, alloc, folder, "x")?;
    let path = tree.path(alloc, file)?;
    Ok((
        tree.len(),
        path.bytes(),
        spells(path.names(), names),
        tree.reserve(1).is_err(),
    ))
}

#[test]
fn path_of_a_file_in_a_folder(rt: HostRuntime) -> Result<(), Fail> {
    let mut made = new_tree(&rt, 3)?;
    let told = tell_file(&mut made.tree, rt.alloc(), &["d", "x"])?;
    assert_eq!(rt; told, (3, Some(4), true, true));
    Ok(())
}

/// The bytes of the path of a name that does not exist in a folder, and whether it has these names.
fn tell_absent(
    tree: &mut Tree,
    alloc: Global,
    names: &[&str],
) -> Result<(Option<usize>, bool), Fail> {
    let key = Key {
        parent: plant(tree, alloc, 1, "d")?,
        name: Name::from_text(alloc, "absent")?,
    };
    let path = tree.path_of_name(alloc, &key)?;
    Ok((path.bytes(), spells(path.names(), names)))
}

#[test]
fn path_of_an_absent_name(rt: HostRuntime) -> Result<(), Fail> {
    let mut made = new_tree(&rt, 2)?;
    let told = tell_absent(&mut made.tree, rt.alloc(), &["d", "absent"])?;
    assert_eq!(rt; told, (Some(9), true));
    Ok(())
}

/// A folder and a file in it, and a walk over all nodes.
fn tell_walk(tree: &mut Tree, alloc: Global) -> Result<(u64, u64, [Option<u64>; 4]), Fail> {
    let folder = plant(tree, alloc, 1, "d")?;
    let file = plant(tree, alloc, folder, "x")?;
    let walk = [
        tree.after(0),
        tree.after(1),
        tree.after(folder.min(file)),
        tree.after(folder.max(file)),
    ];
    Ok((folder, file, walk))
}

#[test]
fn walk_meets_the_root_and_both_nodes(rt: HostRuntime) -> Result<(), Fail> {
    let mut made = new_tree(&rt, 3)?;
    let next = made.tree.next_free();
    let (folder, file, walk) = tell_walk(&mut made.tree, rt.alloc())?;
    let wanted = [
        Some(1),
        Some(folder.min(file)),
        Some(folder.max(file)),
        None,
    ];
    assert_eq!(rt; (folder, walk), (next, wanted));
    Ok(())
}
